//! Slots of the disk: which block has which, and the numbers of those that no block has.
ghost use Rattle.std.specs.Prelude.{◌≡◌, ℕ, ◌+◌, ◌<◌, ◌≤◌, ◌==◌, [], length, count_by, is_some, Some, None, IfSome, IfOk, OnOk, OnErr, if◌then◌else◌};
ghost use Rattle.pool_core.specs.Numbers.{upcoming, IsReady};
ghost use Rattle.pool_core.specs.Slots.{slot_of, IsNobodys};

use crate::numbers::Numbers;
use dia_edge::NoMemory;
use std::alloc::Global;
use std::marker::Model;

/// The slot of each block that has one, by the block's id.
///
/// A block that was written to a slot has it until it is gone: also while it is cached or out, since its bytes never
/// change. So it goes back there without a write.
#[derive(Drop)]
pub(crate) struct SlotTable {
    by_id: Vec<Option<u64>>,
    numbers: Numbers,
}

impl Model for SlotTable {
    ghost use Rattle.std.specs.Prelude.{vec_capacity};
    ghost use Rattle.pool_core.specs.Slots.{Assigned, IsAssigned};

    ghost Value = { Assigned };

    ghost view = { λ it. record { by_id = it.by_id.items; room = vec_capacity it.by_id; numbers = it.numbers } };

    ghost invariant = { λ it. IsAssigned it.by_id.items it.numbers };
}

impl SlotTable {
    /// No id, and no slot given out.
    pub(crate) fn new(alloc: Global) -> SlotTable
        ensures ids { result.by_id ≡ [] }
        ensures none { result.numbers.next ≡ 0 }
    {
        SlotTable {
            by_id: Vec::new(alloc),
            numbers: Numbers::new(alloc),
        }
    }

    /// Makes room for one more id.
    pub(crate) fn reserve_id(&mut self) -> Result<(), NoMemory>
        ensures room { OnOk result (length self.new.by_id < self.new.room) }
        ensures same { (self.new.by_id ≡ self.old.by_id) × (self.new.numbers ≡ self.old.numbers) }
    {
        self.by_id.reserve(1)?;
        Ok(())
    }

    /// One more id, whose block has no slot.
    pub(crate) fn push_id(&mut self)
        requires room { length self.old.by_id < self.old.room }
        ensures slots { (id : ℕ) → slot_of self.new.by_id id ≡ slot_of self.old.by_id id }
        ensures length { length self.new.by_id ≡ length self.old.by_id + 1 }
        ensures same { self.new.numbers ≡ self.old.numbers }
    {
        self.by_id.push_reserved(None);
    }

    /// The slot of a block, if it has one; no other block has it.
    pub(crate) fn slot(&self, id: u64) -> Option<u64>
        requires known { id < length self.now.by_id }
        ensures slot { result ≡ slot_of self.now.by_id id }
        ensures own { IfSome result (λ slot. (other : ℕ) → slot_of self.now.by_id other ≡ Some slot → other ≡ id) }
    {
        self.by_id[id as usize]
    }

    /// A slot that no block has, for the next block that wants one; one that a block left, where there is one.
    pub(crate) fn prepare(&mut self) -> Result<u64, NoMemory>
        ensures upcoming { IfOk result (λ slot. slot ≡ upcoming self.new.numbers) }
        ensures ready { OnOk result (IsReady self.new.numbers) }
        ensures free { IfOk result (λ slot. IsNobodys self.old.by_id slot) }
        ensures same { (self.new.by_id ≡ self.old.by_id) × (self.new.numbers.next ≡ self.old.numbers.next) }
    {
        self.numbers.prepare()
    }

    /// The block has the slot that was prepared.
    pub(crate) fn assign(&mut self, id: u64)
        requires known { id < length self.old.by_id }
        requires none { slot_of self.old.by_id id ≡ None }
        requires ready { IsReady self.old.numbers }
        ensures slots { (other : ℕ) → slot_of self.new.by_id other ≡ (if id == other then Some (upcoming self.old.numbers) else slot_of self.old.by_id other) }
        ensures given { self.new.numbers.next ≤ self.old.numbers.next + 1 }
        ensures length { length self.new.by_id ≡ length self.old.by_id }
    {
        let slot = self.numbers.take();
        self.by_id[id as usize] = Some(slot);
    }

    /// The block has no slot any more.
    pub(crate) fn release(&mut self, id: u64)
        requires known { id < length self.old.by_id }
        ensures slots { (other : ℕ) → slot_of self.new.by_id other ≡ (if id == other then None else slot_of self.old.by_id other) }
        ensures given { self.new.numbers.next ≡ self.old.numbers.next }
        ensures length { length self.new.by_id ≡ length self.old.by_id }
    {
        if let Some(slot) = self.by_id[id as usize] {
            self.by_id[id as usize] = None;
            self.numbers.give(slot);
        }
    }

    /// How many slots were ever given out.
    pub(crate) fn given(&self) -> u64
        ensures given { result ≡ self.now.numbers.next }
        ensures had { count_by is_some self.now.by_id ≤ result }
    {
        self.numbers.given()
    }
}
