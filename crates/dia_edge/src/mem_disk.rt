//! A disk in memory.
ghost use Rattle.std.specs.Prelude.{◌≡◌, ◌≤◌, Some, [], false, not, length, is_ok, OnOk, OnErr, Ok, Err};
ghost use Rattle.dia_edge.specs.Counts.{HasRisen, raised};
ghost use Rattle.dia_edge.specs.Disks.{CanFill, IsFilled, IsWritten, OthersStay};
ghost use Rattle.dia_edge.specs.Plans.{fresh, is_next_planned, called};
ghost use Rattle.dia_edge.specs.Slots.{pairs_of, slots_of, numbers, IsAscending, IsPlace, IsPut};

use crate::count::Count;
use crate::disk::Disk;
use crate::plan::FaultPlan;
use crate::refusals::{Failed, NoMemory};
use std::alloc::Global;
use std::marker::Model;

/// A slot that was written, and what it holds.
#[derive(Debug, Drop)]
pub struct Held {
    pub slot: u64,
    pub bytes: Vec<u8>,
}

/// A disk that keeps its slots in memory, and tells them.
#[derive(Debug, Drop)]
pub struct MemDisk {
    alloc: Global,
    // In ascending order of slot.
    held: Vec<Held>,
    writes: Count,
    plan: FaultPlan,
}

impl Model for MemDisk {
    ghost use Rattle.dia_edge.specs.Memory.{Kept};
    ghost use Rattle.dia_edge.specs.Slots.{pairs_of, IsAscending};

    ghost Value = { Kept };

    ghost view = { λ disk. record { held = pairs_of disk.held.items; writes = disk.writes.number; plan = disk.plan } };

    ghost invariant = { λ disk. IsAscending (pairs_of disk.held.items) };
}

impl MemDisk {
    /// A disk of which no slot was written. The calls that are numbered in `fail` fail, from 1; reads and writes
    /// share one numbering. A write for which there is no memory fails too.
    pub fn new(alloc: Global, fail: Vec<u64>) -> MemDisk
        ensures whole { result ≡ record { held = []; writes = 0; plan = fresh fail.items } }
        ensures slots { ⟦<MemDisk as Disk>⟧.slots result ≡ Some (slots_of []) }
        ensures writes { ⟦<MemDisk as Disk>⟧.writes result ≡ 0 }
        ensures faults { ⟦<MemDisk as Disk>⟧.faults result ≡ 0 }
    {
        MemDisk {
            alloc,
            held: Vec::new(alloc),
            writes: Count::zero(),
            plan: FaultPlan::new(fail),
        }
    }

    /// The slots that were written with what each of them holds now, in ascending order of slot.
    pub fn held(&self) -> &[Held]
        ensures held { pairs_of result.now ≡ self.now.held }
        ensures ascending { IsAscending (pairs_of result.now) }
        ensures slots { ⟦<MemDisk as Disk>⟧.slots self.now ≡ Some (slots_of (pairs_of result.now)) }
    {
        &self.held
    }
}

impl Disk for MemDisk {
    ghost slots = { λ disk. Some (slots_of disk.held) };

    ghost faults = { λ disk. disk.plan.faults };

    ghost writes = { λ disk. disk.writes };

    fn write(&mut self, slot: u64, bytes: &[u8]) -> Result<(), Failed>
        ensures ok { OnOk result (IsWritten (Some (slots_of self.new.held)) slot bytes.now) }
        ensures others { OthersStay (Some (slots_of self.old.held)) slot (Some (slots_of self.new.held)) }
        ensures written { OnOk result (self.new.writes ≡ raised self.old.writes) }
        ensures unwritten { OnErr result (self.new.writes ≡ self.old.writes) }
        ensures rose { OnErr result (HasRisen self.old.plan.faults self.new.plan.faults) }
        ensures counts { self.old.plan.faults ≤ self.new.plan.faults }
        ensures stays { OnErr result (self.new.held ≡ self.old.held) }
        ensures planned { OnOk result (is_next_planned self.old.plan ≡ false) }
        ensures after { self.new.plan ≡ called self.old.plan (is_ok result) }
    {
        self.plan.next_call()?;
        let Ok(copy) = bytes.to_vec(self.alloc) else {
            return Err(self.plan.fault());
        };
        if put(&mut self.held, slot, copy).is_err() {
            return Err(self.plan.fault());
        }
        self.writes.raise();
        Ok(())
    }

    fn read(&mut self, slot: u64, into: &mut [u8]) -> Result<(), Failed>
        requires { CanFill (Some (slots_of self.old.held)) slot (length into.old) }
        ensures ok { OnOk result (IsFilled (Some (slots_of self.old.held)) slot into.new) }
        ensures slots { Some (slots_of self.new.held) ≡ Some (slots_of self.old.held) }
        ensures writes { self.new.writes ≡ self.old.writes }
        ensures rose { OnErr result (HasRisen self.old.plan.faults self.new.plan.faults) }
        ensures counts { self.old.plan.faults ≤ self.new.plan.faults }
        ensures held { self.new.held ≡ self.old.held }
        ensures planned { is_ok result ≡ not (is_next_planned self.old.plan) }
        ensures after { self.new.plan ≡ called self.old.plan (is_ok result) }
    {
        self.plan.next_call()?;
        let count = into.len();
        into.copy_from_slice(&bytes_of(&self.held, slot)[..count]);
        Ok(())
    }

    fn fault_count(&self) -> u64 {
        self.plan.fault_count()
    }

    fn write_count(&self) -> u64 {
        self.writes.get()
    }
}

/// Where the slot stands among these, or where it has to be put.
fn place_of(held: &[Held], slot: u64) -> Result<usize, usize>
    requires { IsAscending (pairs_of held.now) }
    ensures { IsPlace (numbers (pairs_of held.now)) slot result }
{
    held.binary_search_by_key(&slot, |entry| entry.slot)
}

/// What the slot holds; a slot that was never written has no bytes.
fn bytes_of(held: &[Held], slot: u64) -> &[u8]
    requires { IsAscending (pairs_of held.now) }
    ensures { result.now ≡ slots_of (pairs_of held.now) slot }
{
    match place_of(held, slot) {
        Ok(place) => &held[place].bytes,
        Err(_) => &[],
    }
}

/// Sets the slot to these bytes. For want of memory it changes nothing.
fn put(held: &mut Vec<Held>, slot: u64, bytes: Vec<u8>) -> Result<(), NoMemory>
    requires { IsAscending (pairs_of held.old.items) }
    ensures ok { OnOk result (IsPut (pairs_of held.old.items) (pairs_of held.new.items) slot bytes.items) }
    ensures err { OnErr result (held.new.items ≡ held.old.items) }
{
    match place_of(held, slot) {
        Ok(place) => {
            set_at(held, place, slot, bytes);
            Ok(())
        }
        Err(place) => insert_at(held, place, slot, bytes),
    }
}

/// Sets the slot, which stands at this place.
fn set_at(held: &mut Vec<Held>, place: usize, slot: u64, bytes: Vec<u8>)
    requires ascending { IsAscending (pairs_of held.old.items) }
    requires there { IsPlace (numbers (pairs_of held.old.items)) slot (Ok place) }
    ensures { IsPut (pairs_of held.old.items) (pairs_of held.new.items) slot bytes.items }
{
    held[place] = Held { slot, bytes };
}

/// Puts the slot at this place, before those that stand there. For want of memory it changes nothing.
fn insert_at(held: &mut Vec<Held>, place: usize, slot: u64, bytes: Vec<u8>) -> Result<(), NoMemory>
    requires ascending { IsAscending (pairs_of held.old.items) }
    requires there { IsPlace (numbers (pairs_of held.old.items)) slot (Err place) }
    ensures ok { OnOk result (IsPut (pairs_of held.old.items) (pairs_of held.new.items) slot bytes.items) }
    ensures err { OnErr result (held.new.items ≡ held.old.items) }
{
    held.insert(place, Held { slot, bytes })?;
    Ok(())
}
