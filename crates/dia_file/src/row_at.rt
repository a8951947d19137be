//! One row of a file, by its place.
ghost use Rattle.std.specs.Prelude.{◌≡◌, ◌+◌, ◌<◌, ◌≤◌, ◌^◌, ◌++◌, true, List, Some, drop, length, slice_get, IfErr, OnOk, OnErr};
ghost use Rattle.row_defs.specs.Rows.{kinds_of};
ghost use Rattle.block_pool.specs.Handles.{Follows, SameTally};
ghost use Rattle.dia_file.specs.Refusals.{RefusesRead, RefusesWithin};
ghost use Rattle.dia_file.specs.Cuts.{ends_of, Sought};
ghost use Rattle.dia_file.specs.Files.{IsFileOf};

use crate::file::File;
use crate::keep::KeepReader;
use crate::place::{After, Place};
use crate::sealed::Sealed;
use block_pool::{Hand, PinErr};
use dia_edge::Disk;
use dia_item::RowBuf;
use std::collections::VecDeque;
use std::mem;
use std::sync::Wait;

/// How many blocks may be left out before row `i`, so that no row is open behind them, and how many rows end in them.
fn seek(sealed: &VecDeque<Sealed>, i: u64) -> (usize, u64)
    ensures { Sought sealed.now.items i result.0 result.1 }
{
    let mut start = 0;
    let mut before: u64 = 0;
    let mut at = 0;
    while let Some(sealed) = sealed.get(at) {
        if sealed.ends as u64 > i - before {
            return (start, before);
        }
        at += 1;
        if sealed.ends > 0 {
            start = at;
            before += sealed.ends as u64;
        }
    }
    (start, before)
}

/// Copies the row behind the next `n` ones.
fn copy_nth<R: Wait, D: Disk>(
    rt: &R,
    hand: &mut Hand<'_, D>,
    reader: &mut KeepReader,
    n: u64,
    into: &mut RowBuf,
) -> Result<(), PinErr>
    requires own { IsFileOf hand.old.pool reader.old.file }
    requires within { n < length reader.old.left }
    requires permit { 0 < hand.old.permits + reader.old.pinned }
    ensures row { OnOk result (hand.old.pool.opening.tells ≡ true → slice_get reader.old.left n ≡ Some into.new) }
    ensures kinds { OnOk result (kinds_of into.new ≡ reader.old.file.kinds) }
    ensures kept { OnErr result (into.new ≡ into.old) }
    ensures file { reader.new.file ≡ reader.old.file }
    ensures permits { hand.new.permits + reader.new.pinned ≡ hand.old.permits + reader.old.pinned }
    ensures refused { IfErr result (λ e. RefusesRead hand.old hand.new e) }
    ensures tally { SameTally hand.old.notes hand.new.notes }
    ensures follows { Follows hand.old hand.new }
{
    for _row in 0..n {
        match reader.next(rt, hand) {
            Ok(Some(_row)) => {}
            Ok(None) => unreachable!(),
            Err(refusal) => return Err(refusal),
        }
    }
    match reader.next(rt, hand) {
        Ok(Some(row)) => {
            into.copy(row);
            Ok(())
        }
        Ok(None) => unreachable!(),
        Err(refusal) => Err(refusal),
    }
}

impl File {
    /// A reader that begins before row `i`, at a block behind which no row is open; and how many rows stand before it.
    fn keep_from(self, i: u64) -> (KeepReader, u64)
        ensures file { result.0.file ≡ self }
        ensures left { result.0.left ≡ drop result.1 self.rows }
        ensures before { result.1 ≤ i }
        ensures pinned { result.0.pinned ≡ 0 }
    {
        let (start, before) = seek(&self.sealed, i);
        let File {
            kinds,
            rows,
            bytes,
            mut sealed,
        } = self;
        let ahead = sealed.len() - start;
        sealed.rotate_left(start);
        let mut place = Place::before_all(sealed, After::Keep);
        place.ahead = ahead;
        let reader = KeepReader {
            kinds,
            rows,
            bytes,
            place,
            at: 0,
            here: 0,
            kept: 0,
        };
        (reader, before)
    }

    /// Copies row `i`, counted from 0. One block is pinned at a time, and none before those that have the row.
    ///
    /// The refusals are those of `KeepReader::next`; after one, what is copied into stays.
    pub fn row_at<R: Wait, D: Disk>(
        &mut self,
        rt: &R,
        hand: &mut Hand<'_, D>,
        i: u64,
        into: &mut RowBuf,
    ) -> Result<(), PinErr>
        requires own { IsFileOf hand.old.pool self.old }
        requires within { i < length self.old.rows }
        requires permit { 0 < hand.old.permits }
        ensures row { OnOk result (hand.old.pool.opening.tells ≡ true → slice_get self.old.rows i ≡ Some into.new) }
        ensures kinds { OnOk result (kinds_of into.new ≡ self.old.kinds) }
        ensures kept { OnErr result (into.new ≡ into.old) }
        ensures file { self.new ≡ self.old }
        ensures permits { hand.new.permits ≡ hand.old.permits }
        ensures refused { IfErr result (λ e. RefusesWithin hand.old hand.new e) }
        ensures tally { SameTally hand.old.notes hand.new.notes }
        ensures follows { Follows hand.old hand.new }
    {
        let none = File {
            kinds: self.kinds,
            rows: 0,
            bytes: 0,
            sealed: VecDeque::new(*self.sealed.allocator()),
        };
        let file = mem::replace(self, none);
        let (mut reader, before) = file.keep_from(i);
        let copied = copy_nth(rt, hand, &mut reader, i - before, into);
        *self = reader.end(rt, hand);
        copied
    }
}
