//! A file as a disk.
ghost use Rattle.std.specs.Prelude.{◌≡◌, ◌<◌, ◌≤◌, ◌*◌, ◌^◌, None, IsErr, IfOk, OnOk, OnErr, length};
ghost use Rattle.dia_edge.specs.Counts.{HasRisen, raised};
ghost use Rattle.dia_edge.specs.Slots.{IsBeyond};

use crate::count::Count;
use crate::disk::Disk;
use crate::name::Name;
use crate::refusals::Failed;
use std::fs::File;
use std::io::ErrorKind;
use std::os::unix::fs::FileExt;
use std::rt::Files;
use std::{fs, io};

/// How many bytes a slot has room for.
const SLOT_BYTES: u64 = 1 << 20;

/// The first slot of which a byte would stand at 2^63 or later.
const SLOT_END: u64 = 1 << 43;

/// Slot `s` stands at byte `s * 1,048,576` of one file, which is made at the first write.
///
/// A file of its name that is there already is somebody's and stays: the write is then a fault. The name is
/// removed as soon as the file is open, where the system lets it. These are faults too: a write that takes nothing
/// of a piece that isn't empty, a piece or a slice of more than 1,048,576 bytes, a slot of which a byte would stand
/// at 2^63 or later, and a slot that ends before the slice is full. It tells nothing: what the file holds is not
/// proved, but rests on the system.
#[derive(Drop)]
pub struct FileDisk<R: Files> {
    rt: R,
    path: Name,
    file: Option<R::File>,
    writes: Count,
    faults: Count,
}

impl<R: Files + Drop> FileDisk<R>
where
    R::File: FileExt,
{
    /// A disk that will make its file under this name.
    pub fn new(rt: R, path: Name) -> FileDisk<R>
        ensures faults { ⟦<FileDisk<R> as Disk>⟧.faults result ≡ 0 }
        ensures writes { ⟦<FileDisk<R> as Disk>⟧.writes result ≡ 0 }
    {
        FileDisk {
            rt,
            path,
            file: None,
            writes: Count::zero(),
            faults: Count::zero(),
        }
    }
}

impl<R: Files + Drop> Disk for FileDisk<R>
where
    R::File: FileExt,
{
    ghost slots = { λ _. None };

    ghost faults = { λ disk. disk.faults.number };

    ghost writes = { λ disk. disk.writes.number };

    fn write(&mut self, slot: u64, bytes: &[u8]) -> Result<(), Failed>
        ensures written { OnOk result (⟦<FileDisk<R> as Disk>⟧.writes self.new ≡ raised (⟦<FileDisk<R> as Disk>⟧.writes self.old)) }
        ensures unwritten { OnErr result (⟦<FileDisk<R> as Disk>⟧.writes self.new ≡ ⟦<FileDisk<R> as Disk>⟧.writes self.old) }
        ensures rose { OnErr result (HasRisen (⟦<FileDisk<R> as Disk>⟧.faults self.old) (⟦<FileDisk<R> as Disk>⟧.faults self.new)) }
        ensures counts { ⟦<FileDisk<R> as Disk>⟧.faults self.old ≤ ⟦<FileDisk<R> as Disk>⟧.faults self.new }
        ensures beyond { IsBeyond slot (length bytes.now) → IsErr result }
    {
        match write_slot(&self.rt, self.path.text(), &mut self.file, slot, bytes) {
            Ok(()) => {
                self.writes.raise();
                Ok(())
            }
            Err(_) => Err(self.faults.fault()),
        }
    }

    fn read(&mut self, slot: u64, into: &mut [u8]) -> Result<(), Failed>
        ensures writes { ⟦<FileDisk<R> as Disk>⟧.writes self.new ≡ ⟦<FileDisk<R> as Disk>⟧.writes self.old }
        ensures rose { OnErr result (HasRisen (⟦<FileDisk<R> as Disk>⟧.faults self.old) (⟦<FileDisk<R> as Disk>⟧.faults self.new)) }
        ensures counts { ⟦<FileDisk<R> as Disk>⟧.faults self.old ≤ ⟦<FileDisk<R> as Disk>⟧.faults self.new }
        ensures beyond { IsBeyond slot (length into.old) → IsErr result }
        // Before the file is made every slot ends at once.
        ensures unmade { self.old.file ≡ None → 0 < length into.old → IsErr result }
    {
        match read_slot(&self.file, slot, into) {
            Ok(()) => Ok(()),
            Err(_) => Err(self.faults.fault()),
        }
    }

    fn fault_count(&self) -> u64 {
        self.faults.get()
    }

    fn write_count(&self) -> u64 {
        self.writes.get()
    }
}

/// Makes the file, which must not be there, and removes its name.
fn make<R: Files>(rt: &R, path: &str) -> io::Result<R::File> {
    let file = File::create_new(rt, path)?;
    // Where the name can't be removed the file keeps it; it serves all the same.
    let _ = fs::remove_file(rt, path);
    Ok(file)
}

/// Where the slot stands in the file, if so many bytes have room there.
fn offset_of(slot: u64, count: usize) -> io::Result<u64>
    ensures beyond { IsBeyond slot count → IsErr result }
    ensures inside { IsErr result → IsBeyond slot count }
    ensures place { IfOk result (λ offset. offset ≡ slot * 2 ^ 20) }
{
    if slot >= SLOT_END || count as u64 > SLOT_BYTES {
        return Err(io::Error::from(ErrorKind::InvalidInput));
    }
    Ok(slot * SLOT_BYTES)
}

/// Writes the slot, into a file that is made if there is none yet.
fn write_slot<R: Files>(
    rt: &R,
    path: &str,
    opened: &mut Option<R::File>,
    slot: u64,
    bytes: &[u8],
) -> io::Result<()>
where
    R::File: FileExt,
    ensures { IsBeyond slot (length bytes.now) → IsErr result }
{
    let offset = offset_of(slot, bytes.len())?;
    if let Some(file) = opened {
        return file.write_all_at(bytes, offset);
    }
    let file = make(rt, path)?;
    let written = file.write_all_at(bytes, offset);
    *opened = Some(file);
    written
}

/// Reads a prefix of the slot.
fn read_slot<F: FileExt>(file: &Option<F>, slot: u64, into: &mut [u8]) -> io::Result<()>
    ensures beyond { IsBeyond slot (length into.old) → IsErr result }
    ensures unmade { file.now ≡ None → 0 < length into.old → IsErr result }
{
    let offset = offset_of(slot, into.len())?;
    match file {
        Some(file) => file.read_exact_at(into, offset),
        // Before the first write every slot ends at once.
        None if into.is_empty() => Ok(()),
        None => Err(io::Error::from(ErrorKind::UnexpectedEof)),
    }
}
