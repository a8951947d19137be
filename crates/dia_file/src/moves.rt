//! Moves of a place from block to block.
ghost use Rattle.std.specs.Prelude.{◌≡◌, ◌+◌, ◌<◌, ◌≤◌, ◌++◌, ◌∷◌, [], ℕ, List, true, false, None, Some, length, take, drop, IfOk, OnOk, OnErr, IfErr, IfSome, IfNone, MatchResult, vec_len, vec_capacity};
ghost use Rattle.std.specs.Bool.{OnTrue, OnFalse};
ghost use Rattle.std.specs.VecDeque.{deque_len, deque_capacity};
ghost use Rattle.dia_item.specs.KindList.{kind_list};
ghost use Rattle.dia_item.specs.Sizes.{longest_row};
ghost use Rattle.block_pool.specs.Handles.{Follows, IsShown, SameTally};
ghost use Rattle.dia_file.specs.Refusals.{RefusesRead, RefusesRoom};
ghost use Rattle.dia_file.specs.declared.sealed.Sealed.{Sealed};
ghost use Rattle.dia_file.specs.Places.{IsPlaced, Moved, Tells, pins, sealed_in, block_count, ahead_items, at_spot, long_bytes};
ghost use Rattle.dia_file.specs.Tallies.{Frees};

use crate::leaving::leave;
use crate::place::{Held, Place};
use crate::reading::fill;
use crate::sealed::Sealed;
use block_pool::{Hand, PinErr};
use dia_edge::Disk;
use dia_item::{Kinds, LONGEST_ROW};
use std::collections::VecDeque;
use std::sync::Wait;

fn append(buffer: &mut Vec<u8>, bytes: &[u8])
    requires { vec_len buffer.old + length bytes.now ≤ vec_capacity buffer.old }
    ensures items { buffer.new.items ≡ buffer.old.items ++ bytes.now }
    ensures len { vec_len buffer.new ≡ vec_len buffer.old + length bytes.now }
    ensures capacity { vec_capacity buffer.old ≤ vec_capacity buffer.new }
{
    let done = buffer.extend_from_slice(bytes);
    if done.is_err() {
        unreachable!()
    }
}

/// Unpins the block whose rows were read.
pub(crate) fn put_back<R: Wait, D: Disk>(
    rt: &R,
    kinds: &Kinds,
    hand: &mut Hand<'_, D>,
    place: &mut Place,
)
    requires placed { IsPlaced hand.old.pool place.old }
    requires read { place.old.here ≡ 0 }
    ensures placed { IsPlaced hand.old.pool place.new }
    ensures moved { Moved (kind_list kinds.now) hand.old.pool place.old place.new }
    ensures hidden { place.new.shown ≡ None }
    ensures read { place.new.here ≡ 0 }
    ensures permits { hand.new.permits ≡ hand.old.permits + pins place.old.shown }
    ensures gone { Frees (block_count place.old) (block_count place.new) hand.old.notes hand.new.notes }
    ensures follows { Follows hand.old hand.new }
{
    let Some(held) = place.shown.take() else {
        return;
    };
    leave(rt, hand, &mut place.ring, held, place.after);
    place.at = 0;
}

/// Room for the longest row behind the bytes that are kept, if it may be so many bytes longer.
fn make_room(buffer: &mut Vec<u8>, kept: usize, more: usize) -> Result<(), PinErr>
    requires within { kept ≤ vec_len buffer.old }
    requires short { kept ≤ longest_row }
    ensures items { buffer.new.items ≡ take kept buffer.old.items }
    ensures len { vec_len buffer.new ≡ kept }
    ensures room { OnOk result (longest_row ≤ vec_capacity buffer.new) }
    ensures fits { OnOk result (kept + more ≤ longest_row) }
    ensures capacity { vec_capacity buffer.old ≤ vec_capacity buffer.new }
    ensures refused { IfErr result (λ e. RefusesRoom kept more e) }
{
    buffer.truncate(kept);
    if more > LONGEST_ROW - kept {
        return Err(PinErr::Damaged);
    }
    if buffer.reserve(LONGEST_ROW - kept).is_err() {
        return Err(PinErr::NoMemory);
    }
    Ok(())
}

/// How many bytes the first block has, if no row ends in it.
fn long_len(ring: &VecDeque<Sealed>) -> Option<usize>
    ensures long { IfSome result (λ len. (s : Sealed) (rest : List Sealed) → ring.now.items ≡ s ∷ rest → (s.ends ≡ 0) × (s.len ≡ len)) }
    ensures ends { IfNone result ((s : Sealed) (rest : List Sealed) → ring.now.items ≡ s ∷ rest → 0 < s.ends) }
{
    match ring.front() {
        Some(first) if first.ends == 0 => Some(first.len),
        _ => None,
    }
}

/// Takes the first block off the ring and pins it. After a refusal it stands there again.
fn pin_first<R: Wait, D: Disk>(
    rt: &R,
    hand: &mut Hand<'_, D>,
    ring: &mut VecDeque<Sealed>,
) -> Result<Held, PinErr>
    requires some { 0 < deque_len ring.old }
    requires own { (s : Sealed) (rest : List Sealed) → ring.old.items ≡ s ∷ rest → s.block.pool ≡ hand.old.pool }
    requires permit { 0 < hand.old.permits }
    ensures taken { IfOk result (λ held. ring.old.items ≡ sealed_in held ∷ ring.new.items) }
    ensures shown { IfOk result (λ held. IsShown held.pinned) }
    ensures kept { OnErr result (ring.new.items ≡ ring.old.items) }
    ensures len { MatchResult result (λ _. deque_len ring.new + 1 ≡ deque_len ring.old) (λ _. deque_len ring.new ≡ deque_len ring.old) }
    ensures capacity { deque_capacity ring.new ≡ deque_capacity ring.old }
    ensures permits { MatchResult result (λ _. hand.new.permits + 1 ≡ hand.old.permits) (λ _. hand.new.permits ≡ hand.old.permits) }
    ensures refused { IfErr result (λ e. RefusesRead hand.old hand.new e) }
    ensures tally { SameTally hand.old.notes hand.new.notes }
    ensures follows { Follows hand.old hand.new }
{
    let Some(first) = ring.pop_front() else {
        unreachable!()
    };
    let Sealed { block, ends, len } = first;
    match hand.pin(rt, block) {
        Ok(pinned) => Ok(Held { pinned, ends, len }),
        Err((block, refusal)) => {
            ring.push_front_reserved(Sealed { block, ends, len });
            Err(refusal)
        }
    }
}

/// Copies the next block, if no row ends in it; whether it did.
pub(crate) fn gather<R: Wait, D: Disk>(
    rt: &R,
    kinds: &Kinds,
    hand: &mut Hand<'_, D>,
    place: &mut Place,
) -> Result<bool, PinErr>
    requires placed { IsPlaced hand.old.pool place.old }
    requires read { place.old.here ≡ 0 }
    requires hidden { place.old.shown ≡ None }
    requires permit { 0 < hand.old.permits }
    requires told { Tells (kind_list kinds.now) hand.old.pool place.old }
    ensures placed { IsPlaced hand.old.pool place.new }
    ensures moved { Moved (kind_list kinds.now) hand.old.pool place.old place.new }
    ensures read { place.new.here ≡ 0 }
    ensures hidden { place.new.shown ≡ None }
    ensures one { IfOk result (λ more. OnTrue more (place.new.ahead + 1 ≡ place.old.ahead)) }
    ensures none { IfOk result (λ more. OnFalse more ((s : Sealed) (rest : List Sealed) → ahead_items place.new ≡ s ∷ rest → 0 < s.ends)) }
    ensures permits { hand.new.permits ≡ hand.old.permits }
    ensures refused { IfErr result (λ e. RefusesRead hand.old hand.new e) }
    ensures gone { Frees (block_count place.old) (block_count place.new) hand.old.notes hand.new.notes }
    ensures follows { Follows hand.old hand.new }
{
    if place.ahead == 0 {
        return Ok(false);
    }
    let Some(len) = long_len(&place.ring) else {
        return Ok(false);
    };
    make_room(&mut place.buffer, place.kept, len)?;
    let held = pin_first(rt, hand, &mut place.ring)?;
    append(&mut place.buffer, held.pinned.bytes());
    place.kept += len;
    leave(rt, hand, &mut place.ring, held, place.after);
    place.ahead -= 1;
    Ok(true)
}

/// Pins the next block, in which a row ends.
pub(crate) fn show<R: Wait, D: Disk>(
    rt: &R,
    kinds: &Kinds,
    hand: &mut Hand<'_, D>,
    place: &mut Place,
) -> Result<(), PinErr>
    requires placed { IsPlaced hand.old.pool place.old }
    requires read { place.old.here ≡ 0 }
    requires hidden { place.old.shown ≡ None }
    requires permit { 0 < hand.old.permits }
    requires some { 0 < place.old.ahead }
    requires ends { (s : Sealed) (rest : List Sealed) → ahead_items place.old ≡ s ∷ rest → 0 < s.ends }
    ensures placed { IsPlaced hand.old.pool place.new }
    ensures moved { Moved (kind_list kinds.now) hand.old.pool place.old place.new }
    ensures some { OnOk result (0 < place.new.here) }
    ensures at { OnOk result (place.new.at ≡ 0) }
    ensures read { OnErr result (place.new.here ≡ 0) }
    ensures kept { place.new.kept ≡ place.old.kept }
    ensures permits { hand.new.permits + pins place.new.shown ≡ hand.old.permits }
    ensures refused { IfErr result (λ e. RefusesRead hand.old hand.new e) }
    ensures gone { Frees (block_count place.old) (block_count place.new) hand.old.notes hand.new.notes }
    ensures follows { Follows hand.old hand.new }
{
    let held = pin_first(rt, hand, &mut place.ring)?;
    place.at = 0;
    place.here = held.ends;
    place.shown = Some(held);
    place.ahead -= 1;
    Ok(())
}

/// Copies the next blocks, as long as no row ends in them.
fn gather_all<R: Wait, D: Disk>(
    rt: &R,
    kinds: &Kinds,
    hand: &mut Hand<'_, D>,
    place: &mut Place,
) -> Result<(), PinErr>
    requires placed { IsPlaced hand.old.pool place.old }
    requires read { place.old.here ≡ 0 }
    requires hidden { place.old.shown ≡ None }
    requires permit { 0 < hand.old.permits }
    requires told { Tells (kind_list kinds.now) hand.old.pool place.old }
    ensures placed { IsPlaced hand.old.pool place.new }
    ensures moved { Moved (kind_list kinds.now) hand.old.pool place.old place.new }
    ensures read { place.new.here ≡ 0 }
    ensures hidden { place.new.shown ≡ None }
    ensures ends { OnOk result ((s : Sealed) (rest : List Sealed) → ahead_items place.new ≡ s ∷ rest → 0 < s.ends) }
    ensures permits { hand.new.permits ≡ hand.old.permits }
    ensures refused { IfErr result (λ e. RefusesRead hand.old hand.new e) }
    ensures gone { Frees (block_count place.old) (block_count place.new) hand.old.notes hand.new.notes }
    ensures follows { Follows hand.old hand.new }
{
    while gather(rt, kinds, hand, place)? {}
    Ok(())
}

/// Goes on to the next block in which a row ends; false where there is none.
pub(crate) fn turn<R: Wait, D: Disk>(
    rt: &R,
    kinds: &Kinds,
    hand: &mut Hand<'_, D>,
    place: &mut Place,
) -> Result<bool, PinErr>
    requires placed { IsPlaced hand.old.pool place.old }
    requires read { place.old.here ≡ 0 }
    requires permit { 0 < hand.old.permits + pins place.old.shown }
    requires told { Tells (kind_list kinds.now) hand.old.pool place.old }
    ensures placed { IsPlaced hand.old.pool place.new }
    ensures moved { Moved (kind_list kinds.now) hand.old.pool place.old place.new }
    ensures more { IfOk result (λ more. OnTrue more ((0 < place.new.here) × (place.new.at ≡ 0))) }
    ensures end { IfOk result (λ more. OnFalse more ((place.new.ahead ≡ 0) × (place.new.here ≡ 0) × (place.new.shown ≡ None))) }
    ensures read { OnErr result (place.new.here ≡ 0) }
    ensures permits { hand.new.permits + pins place.new.shown ≡ hand.old.permits + pins place.old.shown }
    ensures refused { IfErr result (λ e. RefusesRead hand.old hand.new e) }
    ensures gone { Frees (block_count place.old) (block_count place.new) hand.old.notes hand.new.notes }
    ensures follows { Follows hand.old hand.new }
{
    put_back(rt, kinds, hand, place);
    gather_all(rt, kinds, hand, place)?;
    if place.ahead == 0 {
        return Ok(false);
    }
    show(rt, kinds, hand, place)?;
    Ok(true)
}

/// Goes on to the next block in which a row ends, and puts what was kept of its first row together with its rest.
#[cold]
#[inline(never)]
pub(crate) fn go_on<R: Wait, D: Disk>(
    rt: &R,
    kinds: &Kinds,
    hand: &mut Hand<'_, D>,
    place: &mut Place,
    at: &mut usize,
    here: &mut usize,
    kept: &mut usize,
) -> Result<bool, PinErr>
    requires placed { IsPlaced hand.old.pool (at_spot place.old at.old here.old kept.old) }
    requires read { here.old ≡ 0 }
    requires permit { 0 < hand.old.permits + pins place.old.shown }
    requires told { Tells (kind_list kinds.now) hand.old.pool (at_spot place.old at.old here.old kept.old) }
    ensures placed { IsPlaced hand.old.pool (at_spot place.new at.new here.new kept.new) }
    ensures moved { Moved (kind_list kinds.now) hand.old.pool (at_spot place.old at.old here.old kept.old) (at_spot place.new at.new here.new kept.new) }
    ensures more { IfOk result (λ more. OnTrue more ((0 < here.new) × (at.new ≡ 0))) }
    ensures filled { IfOk result (λ more. OnTrue more (0 < kept.new → place.new.buffer.items ≡ long_bytes (at_spot place.new at.new here.new kept.new))) }
    ensures end { IfOk result (λ more. OnFalse more ((place.new.ahead ≡ 0) × (here.new ≡ 0) × (place.new.shown ≡ None))) }
    ensures read { OnErr result (here.new ≡ 0) }
    ensures permits { hand.new.permits + pins place.new.shown ≡ hand.old.permits + pins place.old.shown }
    ensures refused { IfErr result (λ e. RefusesRead hand.old hand.new e) }
    ensures gone { Frees (block_count place.old) (block_count place.new) hand.old.notes hand.new.notes }
    ensures follows { Follows hand.old hand.new }
{
    place.at = *at;
    place.here = *here;
    place.kept = *kept;
    let turned = turn(rt, kinds, hand, place);
    *at = place.at;
    *here = place.here;
    *kept = place.kept;
    if !turned? {
        return Ok(false);
    }
    if *kept > 0 {
        fill(&place.shown, &mut place.buffer, *kept);
    }
    Ok(true)
}

/// Sees that the place is in a block in which a row ends that wasn't read yet; false where there is none.
#[inline(always)]
pub(crate) fn ready<R: Wait, D: Disk>(
    rt: &R,
    kinds: &Kinds,
    hand: &mut Hand<'_, D>,
    place: &mut Place,
    at: &mut usize,
    here: &mut usize,
    kept: &mut usize,
) -> Result<bool, PinErr>
    requires placed { IsPlaced hand.old.pool (at_spot place.old at.old here.old kept.old) }
    requires alone { 0 < here.old → kept.old ≡ 0 }
    requires permit { 0 < hand.old.permits + pins place.old.shown }
    requires told { 0 < here.old + place.old.ahead + pins place.old.shown → Tells (kind_list kinds.now) hand.old.pool (at_spot place.old at.old here.old kept.old) }
    ensures placed { IsPlaced hand.old.pool (at_spot place.new at.new here.new kept.new) }
    ensures moved { Moved (kind_list kinds.now) hand.old.pool (at_spot place.old at.old here.old kept.old) (at_spot place.new at.new here.new kept.new) }
    ensures more { IfOk result (λ more. OnTrue more ((0 < here.new) × (0 < kept.new → at.new ≡ 0))) }
    ensures filled { IfOk result (λ more. OnTrue more (0 < kept.new → place.new.buffer.items ≡ long_bytes (at_spot place.new at.new here.new kept.new))) }
    ensures end { IfOk result (λ more. OnFalse more ((place.new.ahead ≡ 0) × (here.new ≡ 0) × (place.new.shown ≡ None))) }
    ensures read { OnErr result (here.new ≡ 0) }
    ensures still { 0 ≡ here.old + place.old.ahead + pins place.old.shown → at_spot place.new at.new here.new kept.new ≡ at_spot place.old at.old here.old kept.old }
    ensures permits { hand.new.permits + pins place.new.shown ≡ hand.old.permits + pins place.old.shown }
    ensures refused { IfErr result (λ e. RefusesRead hand.old hand.new e) }
    ensures gone { Frees (block_count place.old) (block_count place.new) hand.old.notes hand.new.notes }
    ensures follows { Follows hand.old hand.new }
{
    if *here > 0 {
        return Ok(true);
    }
    if place.ahead == 0 && place.shown.is_none() {
        return Ok(false);
    }
    go_on(rt, kinds, hand, place, at, here, kept)
}
