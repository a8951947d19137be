//! Blocks whose rows were read: they stay behind, or they are freed.
ghost use Rattle.std.specs.Prelude.{◌≡◌, ◌+◌, ◌<◌, ◌≤◌, ◌++◌};
ghost use Rattle.std.specs.VecDeque.{deque_len, deque_capacity};
ghost use Rattle.block_pool.specs.Handles.{Follows};
ghost use Rattle.dia_file.specs.Places.{left_of, sealed_in};
ghost use Rattle.dia_file.specs.Tallies.{Frees};

use crate::place::{After, Held};
use crate::sealed::Sealed;
use block_pool::Hand;
use dia_edge::Disk;
use std::collections::VecDeque;
use std::sync::Wait;

/// Unpins the block, and keeps it behind the others or frees it.
pub(crate) fn leave<R: Wait, D: Disk>(
    rt: &R,
    hand: &mut Hand<'_, D>,
    ring: &mut VecDeque<Sealed>,
    held: Held,
    after: After,
)
    requires own { held.pinned.pool ≡ hand.old.pool }
    requires room { deque_len ring.old < deque_capacity ring.old }
    ensures items { ring.new.items ≡ ring.old.items ++ left_of after (sealed_in held) }
    ensures len { (deque_len ring.new ≤ deque_len ring.old + 1) × (deque_len ring.old ≤ deque_len ring.new) }
    ensures capacity { deque_capacity ring.new ≡ deque_capacity ring.old }
    ensures permits { hand.new.permits ≡ hand.old.permits + 1 }
    ensures gone { Frees (deque_len ring.old + 1) (deque_len ring.new) hand.old.notes hand.new.notes }
    ensures follows { Follows hand.old hand.new }
{
    let Held { pinned, ends, len } = held;
    let block = hand.unpin(rt, pinned);
    match after {
        After::Keep => ring.push_back_reserved(Sealed { block, ends, len }),
        After::Free => hand.free(rt, block),
    }
}
