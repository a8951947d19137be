//! Readers that keep their file.
ghost use Rattle.std.specs.Prelude.{◌≡◌, ◌+◌, ◌<◌, ◌≤◌, [], IfOk, IfErr, OnErr, IfSome, IfNone};
ghost use Rattle.std.specs.Borrow.{sem};
ghost use Rattle.std.specs.Io.BufRead.{Rests};
ghost use Rattle.dia_item.specs.Lent.{row_in_ref};
ghost use Rattle.block_pool.specs.Handles.{Follows, SameTally};
ghost use Rattle.dia_file.specs.Refusals.{RefusesRead};
ghost use Rattle.dia_file.specs.Files.{IsFileOf};

use crate::file::File;
use crate::moves::{put_back, ready};
use crate::place::Place;
use crate::reading::give;
use block_pool::{Hand, PinErr};
use dia_edge::Disk;
use dia_item::{Kinds, RowRef};
use std::marker::Model;
use std::sync::Wait;

/// Reads the rows of a file, which `end` gives back as it was. Contracts see the file, the rows that are left, and how many
/// blocks are pinned here: one or none, each for one of the hand's permits.
///
/// A row is borrowed from the block that is pinned. One that spans blocks is copied into a buffer, which is taken at the
/// first such row.
#[derive(Drop)]
pub struct KeepReader {
    pub(crate) kinds: Kinds,
    pub(crate) rows: u64,
    pub(crate) bytes: u64,
    pub(crate) place: Place,
    pub(crate) at: usize,
    pub(crate) here: usize,
    pub(crate) kept: usize,
}

impl Model for KeepReader {
    ghost use Rattle.dia_file.specs.Readers.{KeeperValue, keeper_value, IsKeeper};

    ghost Value = { KeeperValue };

    ghost view = { keeper_value };

    ghost invariant = { IsKeeper };
}

impl KeepReader {
    ghost use Rattle.dia_file.specs.Readers.{Gives, StaysAt, Keeps};
    ghost use Rattle.dia_file.specs.contracts.keep.KeepReader.{the_row};

    /// The next row; None exactly at the end, where nothing stays pinned.
    ///
    /// After a refusal the reader stands where it stood, and the next call goes on from there. `Disk` comes only where the
    /// disk failed in this call, `NoMemory` where there was none for a block or for the buffer. `Damaged` never comes where
    /// the disk tells: the bytes that it showed weren't rows of the kinds, as many in each block as ended there.
    #[inline(always)]
    pub fn next<'r, R: Wait, D: Disk>(
        &'r mut self,
        rt: &R,
        hand: &mut Hand<'_, D>,
    ) -> Result<Option<RowRef<'r>>, PinErr>
        requires own { IsFileOf hand.old.pool self.old.file }
        requires permit { 0 < hand.old.permits + self.old.pinned }
        ensures refused { IfErr result (λ e. RefusesRead hand.old hand.new e) }
        ensures room { hand.old.permits + self.old.pinned ≤ hand.new.permits + 1 }
        ensures tally { SameTally hand.old.notes hand.new.notes }
        ensures follows { Follows hand.old hand.new }
        ensures* after { sem 𝓛 (Rests the_row self.entry (λ new.
            IfOk result (λ o. IfSome o (λ row. Gives hand.old.pool self.old.file.kinds self.old.left (row_in_ref row) new.left × (new.pinned ≡ 1))
            × IfNone o ((self.old.left ≡ []) × (new.left ≡ []) × (new.pinned ≡ 0)))
            × OnErr result (StaysAt hand.old.pool self.old.left new.left)
            × Keeps hand.old hand.new self.old new)) }
    {
        if self.here == 0 {
            let more = ready(
                rt,
                &self.kinds,
                hand,
                &mut self.place,
                &mut self.at,
                &mut self.here,
                &mut self.kept,
            )?;
            if !more {
                return Ok(None);
            }
        }
        match give(
            &self.kinds,
            &self.place,
            &mut self.at,
            &mut self.here,
            &mut self.kept,
        ) {
            Some(row) => Ok(Some(row)),
            None => Err(PinErr::Damaged),
        }
    }

    /// Unpins what is pinned, and gives the file back as it was. It has no refusal.
    pub fn end<R: Wait, D: Disk>(self, rt: &R, hand: &mut Hand<'_, D>) -> File
        requires own { IsFileOf hand.old.pool self.file }
        ensures file { result ≡ self.file }
        ensures permits { hand.new.permits ≡ hand.old.permits + self.pinned }
        ensures tally { SameTally hand.old.notes hand.new.notes }
        ensures follows { Follows hand.old hand.new }
    {
        let KeepReader {
            kinds,
            rows,
            bytes,
            place,
            at: _,
            here: _,
            kept: _,
        } = self;
        let mut place = place;
        place.at = 0;
        place.here = 0;
        place.kept = 0;
        put_back(rt, &kinds, hand, &mut place);
        let Place { ring, ahead, .. } = place;
        let mut sealed = ring;
        sealed.rotate_left(ahead);
        File {
            kinds,
            rows,
            bytes,
            sealed,
        }
    }
}
