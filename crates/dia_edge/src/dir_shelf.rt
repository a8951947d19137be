//! The files below the current folder as a shelf.
ghost use Rattle.std.specs.Prelude.{◌≡◌, ◌<◌, ◌≤◌, ◌↔◌, None, Ok, Err, true, false, is_some, IsTrue, MatchResult, OnErr, IfOk, length};
ghost use Rattle.std.specs.Io.KnownBytes.{ReadConsumes};
ghost use Rattle.std.specs.IoError.{error_kind};
ghost use Rattle.std.specs.Path.{path_components};
ghost use Rattle.dia_edge.specs.Counts.{HasRisen};
ghost use Rattle.dia_edge.specs.Files.{IsOutside, has_parent, is_absence_kind, left_of, Settles};

use crate::count::Count;
use crate::refusals::Failed;
use crate::shelf::Shelf;
use std::fs::{File, OpenFile};
use std::io;
use std::io::{ErrorKind, Read};
use std::path::Path;
use std::rt::Files;

/// The files below the current folder. Symbolic links are followed.
///
/// An absolute name, an empty one, one with a component `..` and one with a NUL byte name no input; nor does one that
/// isn't there. A file that may not be opened, a folder, and any error of reading are faults. It tells nothing: what a file holds
/// is not proved, but rests on the system.
#[derive(Drop)]
pub struct DirShelf<R: Files> {
    rt: R,
    opened: Option<R::File>,
    faults: Count,
}

impl<R: Files> DirShelf<R> {
    /// The files that this runtime reaches, of which none is open.
    pub fn new(rt: R) -> DirShelf<R>
        ensures { ⟦<DirShelf<R> as Shelf>⟧.faults result ≡ 0 }
    {
        DirShelf {
            rt,
            opened: None,
            faults: Count::zero(),
        }
    }
}

impl<R: Files> Shelf for DirShelf<R> {
    ghost holds = { λ _. None };

    ghost left = { λ _. None };

    ghost is_fixed = { λ _. false };

    ghost faults = { λ shelf. shelf.faults.number };

    fn open(&mut self, name: &str) -> Result<bool, Failed>
        ensures rose { OnErr result (HasRisen (⟦<DirShelf<R> as Shelf>⟧.faults self.old) (⟦<DirShelf<R> as Shelf>⟧.faults self.new)) }
        ensures counts { ⟦<DirShelf<R> as Shelf>⟧.faults self.old ≤ ⟦<DirShelf<R> as Shelf>⟧.faults self.new }
        ensures outside { IsOutside name.now → result ≡ Ok false }
        // A file is open exactly where the answer is `true`.
        ensures opened { MatchResult result (λ there. is_some self.new.opened ≡ there) (λ _. is_some self.new.opened ≡ false) }
    {
        self.opened = None;
        if is_outside(name) {
            return Ok(false);
        }
        settle(
            open_input(&self.rt, name),
            &mut self.opened,
            &mut self.faults,
        )
    }

    fn read(&mut self, into: &mut [u8]) -> Result<usize, Failed>
        requires { 0 < length into.old }
        ensures count { IfOk result (λ n. n ≤ length into.new) }
        ensures rose { OnErr result (HasRisen (⟦<DirShelf<R> as Shelf>⟧.faults self.old) (⟦<DirShelf<R> as Shelf>⟧.faults self.new)) }
        ensures counts { ⟦<DirShelf<R> as Shelf>⟧.faults self.old ≤ ⟦<DirShelf<R> as Shelf>⟧.faults self.new }
        // Where nothing is open nothing is left.
        ensures shut { is_some self.old.opened ≡ false → result ≡ Ok 0 }
        // Where the file tells what is left of it, that is what is given, and a fault is never taken for its end.
        ensures bytes { ReadConsumes (left_of R.File.Read.remaining self.old.opened) (left_of R.File.Read.remaining self.new.opened) result into.new }
    {
        let Some(file) = &mut self.opened else {
            return Ok(0);
        };
        match read_some(file, into) {
            Ok(count) => Ok(count),
            Err(_) => Err(self.faults.fault()),
        }
    }

    fn fault_count(&self) -> u64 {
        self.faults.get()
    }
}

/// What the opening of a file comes to: the file is open, there is none, or a fault is counted.
fn settle<F: Drop>(
    answer: io::Result<F>,
    opened: &mut Option<F>,
    faults: &mut Count,
) -> Result<bool, Failed>
    ensures settles { Settles answer opened.old opened.new faults.old.number faults.new.number result }
    ensures rose { OnErr result (HasRisen faults.old.number faults.new.number) }
    ensures counts { faults.old.number ≤ faults.new.number }
{
    match answer {
        Ok(file) => {
            *opened = Some(file);
            Ok(true)
        }
        Err(e) if is_absence(&e) => Ok(false),
        Err(_) => Err(faults.fault()),
    }
}

/// Whether the name stands for nothing below the current folder.
fn is_outside(name: &str) -> bool
    ensures { IsTrue result ↔ IsOutside name.now }
{
    name.is_empty() || name.as_bytes().contains(&0) || Path::new(name).is_absolute() || climbs(name)
}

/// Whether a component of the name is `..`.
fn climbs(name: &str) -> bool
    ensures { result ≡ has_parent (path_components name.now) }
{
    for component in Path::new(name).components() {
        if component.as_os_str() == ".." {
            return true;
        }
    }
    false
}

/// Whether the error says that there is no such file.
fn is_absence(error: &io::Error) -> bool
    ensures { result ≡ is_absence_kind (error_kind error.now) }
{
    matches!(
        error.kind(),
        ErrorKind::NotFound | ErrorKind::NotADirectory | ErrorKind::InvalidFilename
    )
}

/// Opens a file that is no folder.
fn open_input<R: Files>(rt: &R, name: &str) -> io::Result<R::File> {
    let file = File::open(rt, name)?;
    if file.metadata()?.is_dir() {
        return Err(io::Error::from(ErrorKind::IsADirectory));
    }
    Ok(file)
}

/// One read, tried again where a signal interrupts it.
fn read_some<F: Read>(file: &mut F, into: &mut [u8]) -> io::Result<usize>
    ensures most { IfOk result (λ count. count ≤ length into.new) }
    ensures bytes { ReadConsumes (F.remaining file.old) (F.remaining file.new) result into.new }
{
    for _ in 0..u64::MAX {
        match file.read(into) {
            Err(e) if e.kind() == ErrorKind::Interrupted => {}
            answer => return answer,
        }
    }
    Err(io::Error::from(ErrorKind::Interrupted))
}
