//! Reads rows at a place.
ghost use Rattle.std.specs.Prelude.{◌≡◌, ◌+◌, ◌-◌, ◌<◌, ◌≤◌, ◌++◌, ℕ, List, length, take, drop, IfSome, IfNone, OnSome, vec_len, vec_capacity};
ghost use Rattle.row_defs.specs.Rows.{Row, IsRow, kinds_of};
ghost use Rattle.dia_item.specs.KindList.{kind_list};
ghost use Rattle.dia_item.specs.Lent.{row_in_ref};
ghost use Rattle.dia_item.specs.Sizes.{longest_row};
ghost use Rattle.dia_file.specs.Encoding.{spelled, ReadsRow, ReadsLong, HoldsNone};
ghost use Rattle.dia_file.specs.Places.{shown_bytes, pins, at_spot, long_bytes, GaveRow, GivesNone};

use crate::place::{Held, Place};
use dia_item::{Kinds, LONGEST_ROW, RowRef, read_row};

/// Puts the front of the block that is pinned behind the bytes that were kept, as far as a row may go.
pub(crate) fn fill(shown: &Option<Held>, buffer: &mut Vec<u8>, kept: usize)
    requires within { kept ≤ vec_len buffer.old }
    requires short { kept ≤ longest_row }
    requires room { longest_row ≤ vec_capacity buffer.old }
    requires one { pins shown.now ≡ 1 }
    ensures items { buffer.new.items ≡ take kept buffer.old.items ++ take (longest_row - kept) (shown_bytes shown.now) }
    ensures len { vec_len buffer.new ≤ kept + length (shown_bytes shown.now) }
    ensures within { kept ≤ vec_len buffer.new }
    ensures capacity { vec_capacity buffer.old ≤ vec_capacity buffer.new }
{
    let Some(held) = shown else { unreachable!() };
    let bytes = held.pinned.bytes();
    let n = bytes.len().min(LONGEST_ROW - kept);
    buffer.truncate(kept);
    let done = buffer.extend_from_slice(&bytes[..n]);
    if done.is_err() {
        unreachable!()
    }
}

/// The row in the block that is pinned, which the place goes on behind.
#[inline(always)]
pub(crate) fn give_short<'r>(
    kinds: &Kinds,
    shown: &'r Option<Held>,
    at: &mut usize,
    here: &mut usize,
) -> Option<RowRef<'r>>
    requires one { pins shown.now ≡ 1 }
    requires within { at.old ≤ length (shown_bytes shown.now) }
    requires some { 0 < here.old }
    ensures within { at.new ≤ length (shown_bytes shown.now) }
    ensures reads { IfSome result (λ row. ReadsRow (kind_list kinds.now) (drop at.old (shown_bytes shown.now)) (row_in_ref row) (drop at.new (shown_bytes shown.now))) }
    ensures are { IfSome result (λ row. kinds_of (row_in_ref row) ≡ kind_list kinds.now) }
    ensures some { OnSome result (here.new + 1 ≡ here.old) }
    ensures none { IfNone result (HoldsNone (kind_list kinds.now) (drop at.old (shown_bytes shown.now))) }
    ensures stays { IfNone result ((at.new ≡ at.old) × (here.new ≡ here.old)) }
{
    let Some(held) = shown else { unreachable!() };
    let (_, rest) = held.pinned.bytes().split_at(*at);
    let Some((row, n)) = read_row(kinds, rest) else {
        return None;
    };
    *at += n;
    *here -= 1;
    Some(row)
}

/// The row at the front of the buffer, of which so many bytes stood in earlier blocks; the place goes on behind it.
#[inline(always)]
pub(crate) fn give_long<'r>(
    kinds: &Kinds,
    buffer: &'r Vec<u8>,
    at: &mut usize,
    here: &mut usize,
    kept: &mut usize,
) -> Option<RowRef<'r>>
    requires some { 0 < here.old }
    ensures within { OnSome result (at.new + kept.old ≤ vec_len buffer.now) }
    ensures reads { IfSome result (λ row. ReadsLong (kind_list kinds.now) buffer.now.items (row_in_ref row) (at.new + kept.old)) }
    ensures are { IfSome result (λ row. kinds_of (row_in_ref row) ≡ kind_list kinds.now) }
    ensures some { OnSome result (here.new + 1 ≡ here.old) }
    ensures none { IfNone result ((r : Row) (rest : List ℕ) → IsRow (kind_list kinds.now) (spelled r) r → buffer.now.items ≡ spelled r ++ rest → kept.old ≤ length (spelled r) → ⊥) }
    ensures stays { IfNone result ((at.new ≡ at.old) × (here.new ≡ here.old)) }
    ensures kept { kept.new ≡ 0 }
{
    let before = *kept;
    *kept = 0;
    let Some((row, n)) = read_row(kinds, buffer.as_slice()) else {
        return None;
    };
    if n < before {
        return None;
    }
    *at = n - before;
    *here -= 1;
    Some(row)
}

/// The row at the place, which goes on behind it.
#[inline(always)]
pub(crate) fn give<'r>(
    kinds: &Kinds,
    place: &'r Place,
    at: &mut usize,
    here: &mut usize,
    kept: &mut usize,
) -> Option<RowRef<'r>>
    requires one { pins place.now.shown ≡ 1 }
    requires within { at.old ≤ length (shown_bytes place.now.shown) }
    requires some { 0 < here.old }
    requires filled { 0 < kept.old → place.now.buffer.items ≡ long_bytes (at_spot place.now at.old here.old kept.old) }
    requires kept { kept.old ≤ vec_len place.now.buffer }
    ensures within { at.new ≤ length (shown_bytes place.now.shown) }
    ensures reads { IfSome result (λ row. GaveRow (kind_list kinds.now) (at_spot place.now at.old here.old kept.old) (row_in_ref row) (at_spot place.now at.new here.new kept.new)) }
    ensures are { IfSome result (λ row. kinds_of (row_in_ref row) ≡ kind_list kinds.now) }
    ensures some { OnSome result (here.new + 1 ≡ here.old) }
    ensures none { IfNone result (GivesNone (kind_list kinds.now) (at_spot place.now at.old here.old kept.old)) }
    ensures stays { IfNone result (here.new ≡ here.old) }
    ensures kept { kept.new ≡ 0 }
{
    if *kept > 0 {
        give_long(kinds, &place.buffer, at, here, kept)
    } else {
        give_short(kinds, &place.shown, at, here)
    }
}
