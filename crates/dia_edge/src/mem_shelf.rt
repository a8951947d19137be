//! A shelf in memory.
ghost use Rattle.std.specs.Prelude.{◌≡◌, ◌+◌, ◌^◌, ◌<◌, ◌≤◌, Some, None, [], ◌∷◌, ◌++◌, true, false, not, min, length, take, drop, is_ok, MatchOption, MatchBool, OnOk, OnErr, IfOk};
ghost use Rattle.dia_edge.specs.Counts.{HasRisen};
ghost use Rattle.dia_edge.specs.Files.{files_of, held_under, bytes_at};
ghost use Rattle.dia_edge.specs.Plans.{fresh, is_next_planned, called};
ghost use Rattle.dia_edge.specs.Shelves.{IsOpened, IsAbsent, IsShut, GivesPrefix, IsAtEnd, and_asked};

use crate::name::Name;
use crate::plan::FaultPlan;
use crate::refusals::{Failed, NoMemory};
use crate::shelf::Shelf;
use std::marker::Model;

/// A shelf of files that it was given, and tells.
#[derive(Debug, Drop)]
pub struct MemShelf {
    files: Vec<(Name, Vec<u8>)>,
    // Where the opened file stands among the files; past the last where none is open.
    place: usize,
    // How many bytes of it were read.
    from: usize,
    // The names that `open` answered.
    asked: Vec<Name>,
    step: usize,
    plan: FaultPlan,
}

impl Model for MemShelf {
    ghost use Rattle.std.specs.Prelude.{drop, ◌<◌};
    ghost use Rattle.dia_edge.specs.Memory.{Shelved};
    ghost use Rattle.dia_edge.specs.Files.{files_of, bytes_at};

    ghost Value = { Shelved };

    ghost view = { λ shelf. record {
      files = files_of shelf.files.items;
      left = drop shelf.from (bytes_at shelf.files.items shelf.place);
      asked = shelf.asked.items;
      step = shelf.step;
      plan = shelf.plan;
    } };

    ghost invariant = { λ shelf. 0 < shelf.step };
}

impl MemShelf {
    /// A shelf with these files, of which none is open. Of files with the same name the first counts.
    ///
    /// Each read gives at most `step` bytes. The calls that are numbered in `fail` fail, from 1; opens and reads
    /// share one numbering. An open for whose name there is no memory fails too.
    pub fn new(files: Vec<(Name, Vec<u8>)>, step: usize, fail: Vec<u64>) -> MemShelf
        requires { 0 < step }
        ensures whole { result ≡ record { files = files_of files.items; left = []; asked = []; step = step; plan = fresh fail.items } }
        ensures holds { ⟦<MemShelf as Shelf>⟧.holds result ≡ Some (held_under (files_of files.items)) }
        ensures left { ⟦<MemShelf as Shelf>⟧.left result ≡ Some [] }
        ensures asked { ⟦<MemShelf as Shelf>⟧.asked result ≡ Some [] }
        ensures fixed { ⟦<MemShelf as Shelf>⟧.is_fixed result ≡ true }
        ensures faults { ⟦<MemShelf as Shelf>⟧.faults result ≡ 0 }
    {
        let place = files.len();
        let asked = Vec::new(*files.allocator());
        MemShelf {
            files,
            place,
            from: 0,
            asked,
            step,
            plan: FaultPlan::new(fail),
        }
    }

    /// The names that `open` answered so far, in order.
    pub fn asked(&self) -> &[Name]
        ensures asked { result.now ≡ self.now.asked }
        ensures told { ⟦<MemShelf as Shelf>⟧.asked self.now ≡ Some result.now }
    {
        &self.asked
    }
}

impl Shelf for MemShelf {
    ghost holds = { λ shelf. Some (held_under shelf.files) };

    ghost left = { λ shelf. Some shelf.left };

    ghost asked = { λ shelf. Some shelf.asked };

    ghost is_fixed = { λ _. true };

    ghost faults = { λ shelf. shelf.plan.faults };

    fn open(&mut self, name: &str) -> Result<bool, Failed>
        ensures answer { IfOk result (λ there. MatchBool there
            (IsOpened (Some (held_under self.new.files)) name.now (Some self.new.left))
            (IsAbsent (Some (held_under self.new.files)) name.now (Some self.new.left))) }
        ensures failed { OnErr result (IsShut (Some self.new.left)) }
        ensures rose { OnErr result (HasRisen self.old.plan.faults self.new.plan.faults) }
        ensures counts { self.old.plan.faults ≤ self.new.plan.faults }
        ensures files { self.new.files ≡ self.old.files }
        ensures step { self.new.step ≡ self.old.step }
        ensures asked { OnOk result (self.new.asked ≡ self.old.asked ++ name.now ∷ []) }
        ensures unasked { OnErr result (self.new.asked ≡ self.old.asked) }
        ensures planned { OnOk result (is_next_planned self.old.plan ≡ false) }
        ensures after { self.new.plan ≡ called self.old.plan (is_ok result) }
    {
        self.place = self.files.len();
        self.from = 0;
        self.plan.next_call()?;
        if note(&mut self.asked, name).is_err() {
            return Err(self.plan.fault());
        }
        match place_of(&self.files, name) {
            Some(place) => {
                self.place = place;
                Ok(true)
            }
            None => Ok(false),
        }
    }

    fn read(&mut self, into: &mut [u8]) -> Result<usize, Failed>
        requires { 0 < length into.old }
        ensures count { IfOk result (λ n. n ≤ length into.new) }
        ensures prefix { IfOk result (λ n. GivesPrefix (Some self.old.left) (take n into.new) (Some self.new.left)) }
        ensures end { IfOk result (λ n. n ≡ 0 → IsAtEnd (Some self.old.left)) }
        ensures failed { OnErr result (self.new.left ≡ self.old.left) }
        ensures rose { OnErr result (HasRisen self.old.plan.faults self.new.plan.faults) }
        ensures counts { self.old.plan.faults ≤ self.new.plan.faults }
        ensures files { self.new.files ≡ self.old.files }
        ensures asked { self.new.asked ≡ self.old.asked }
        ensures step { self.new.step ≡ self.old.step }
        ensures most { IfOk result (λ n. n ≡ min self.old.step (min (length self.old.left) (length into.old))) }
        ensures planned { is_ok result ≡ not (is_next_planned self.old.plan) }
        ensures after { self.new.plan ≡ called self.old.plan (is_ok result) }
    {
        self.plan.next_call()?;
        let left = left_at(&self.files, self.place, self.from);
        let count = copy_prefix(left, into, self.step);
        self.from += count;
        Ok(count)
    }

    fn fault_count(&self) -> u64 {
        self.plan.fault_count()
    }
}

/// Adds the name to these. For want of memory it changes nothing.
fn note(asked: &mut Vec<Name>, name: &str) -> Result<(), NoMemory>
    ensures ok { OnOk result (asked.new.items ≡ asked.old.items ++ name.now ∷ []) }
    ensures err { OnErr result (asked.new.items ≡ asked.old.items) }
{
    let name = Name::of(*asked.allocator(), name)?;
    asked.push(name)?;
    Ok(())
}

/// Where the first file of this name stands.
fn place_of(files: &[(Name, Vec<u8>)], name: &str) -> Option<usize>
    ensures { MatchOption result (held_under (files_of files.now) name.now ≡ None)
        (λ place. held_under (files_of files.now) name.now ≡ Some (bytes_at files.now place)) }
{
    for (place, (held, _)) in files.iter().enumerate() {
        if held.text() == name {
            return Some(place);
        }
    }
    None
}

/// What is left of the file at this place after its first `from` bytes.
fn left_at(files: &[(Name, Vec<u8>)], place: usize, from: usize) -> &[u8]
    ensures left { result.now ≡ drop from (bytes_at files.now place) }
    ensures fits { from + length result.now < 2 ^ 64 }
{
    match files.get(place) {
        Some((_, bytes)) if from <= bytes.len() => &bytes[from..],
        _ => &[],
    }
}

/// Puts a prefix of these bytes at the beginning of `into`, at most `most` of them, and answers how many.
fn copy_prefix(bytes: &[u8], into: &mut [u8], most: usize) -> usize
    ensures count { result ≡ min most (min (length bytes.now) (length into.old)) }
    ensures prefix { take result into.new ≡ take result bytes.now }
    ensures len { length into.new ≡ length into.old }
{
    let count = most.min(bytes.len().min(into.len()));
    into[..count].copy_from_slice(&bytes[..count]);
    count
}
