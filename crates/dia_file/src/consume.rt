//! Readers that free their file.
ghost use Rattle.std.specs.Prelude.{◌≡◌, ◌+◌, ◌<◌, ◌≤◌, [], IfOk, IfErr, OnErr, IfSome, IfNone, length};
ghost use Rattle.std.specs.Borrow.{sem};
ghost use Rattle.std.specs.Io.BufRead.{Rests};
ghost use Rattle.dia_item.specs.Lent.{row_in_ref};
ghost use Rattle.block_pool.specs.Handles.{AreOfPool, Follows};
ghost use Rattle.dia_file.specs.Refusals.{RefusesRead};
ghost use Rattle.dia_file.specs.Tallies.{Frees};

use crate::moves::{put_back, ready};
use crate::place::Place;
use crate::reading::give;
use crate::sealed::free_all;
use block_pool::{Hand, PinErr};
use dia_edge::Disk;
use dia_item::{Kinds, RowRef};
use std::marker::Model;
use std::sync::Wait;

/// Reads the rows of a file, and frees each block once its last row was read whole. Contracts see the kinds, the rows that
/// are left, the blocks that aren't freed, and how many of them are pinned here: one or none, each for one of the hand's
/// permits.
///
/// A row is borrowed from the block that is pinned. One that spans blocks is copied into a buffer, which is taken at the
/// first such row.
#[derive(Drop)]
pub struct ConsumeReader {
    pub(crate) kinds: Kinds,
    pub(crate) place: Place,
    pub(crate) at: usize,
    pub(crate) here: usize,
    pub(crate) kept: usize,
}

impl Model for ConsumeReader {
    ghost use Rattle.dia_file.specs.Consumers.{ConsumerValue, consumer_value, IsConsumer};

    ghost Value = { ConsumerValue };

    ghost view = { consumer_value };

    ghost invariant = { IsConsumer };
}

impl ConsumeReader {
    ghost use Rattle.dia_file.specs.Readers.{Gives, StaysAt};
    ghost use Rattle.dia_file.specs.Consumers.{Drains};
    ghost use Rattle.dia_file.specs.contracts.consume.ConsumeReader.{the_row};

    /// The next row; None exactly at the end, where no block is left.
    ///
    /// After a refusal the reader stands where it stood, and the next call goes on from there. The refusals are those of
    /// `KeepReader::next`.
    #[inline(always)]
    pub fn next<'r, R: Wait, D: Disk>(
        &'r mut self,
        rt: &R,
        hand: &mut Hand<'_, D>,
    ) -> Result<Option<RowRef<'r>>, PinErr>
        requires own { AreOfPool hand.old.pool self.old.blocks }
        requires permit { 0 < hand.old.permits + self.old.pinned }
        ensures refused { IfErr result (λ e. RefusesRead hand.old hand.new e) }
        ensures room { hand.old.permits + self.old.pinned ≤ hand.new.permits + 1 }
        ensures follows { Follows hand.old hand.new }
        ensures* after { sem 𝓛 (Rests the_row self.entry (λ new.
            IfOk result (λ o. IfSome o (λ row. Gives hand.old.pool self.old.kinds self.old.left (row_in_ref row) new.left × (new.pinned ≡ 1))
            × IfNone o ((self.old.left ≡ []) × (new.left ≡ []) × (new.blocks ≡ [])))
            × OnErr result (StaysAt hand.old.pool self.old.left new.left)
            × Drains hand.old hand.new self.old new)) }
    {
        if self.here == 0 {
            let more = ready(
                rt,
                &self.kinds,
                hand,
                &mut self.place,
                &mut self.at,
                &mut self.here,
                &mut self.kept,
            )?;
            if !more {
                return Ok(None);
            }
        }
        match give(
            &self.kinds,
            &self.place,
            &mut self.at,
            &mut self.here,
            &mut self.kept,
        ) {
            Some(row) => Ok(Some(row)),
            None => Err(PinErr::Damaged),
        }
    }

    /// Unpins what is pinned, and frees the blocks that are left, no other. It has no refusal.
    pub fn end<R: Wait, D: Disk>(self, rt: &R, hand: &mut Hand<'_, D>)
        requires own { AreOfPool hand.old.pool self.blocks }
        ensures permits { hand.new.permits ≡ hand.old.permits + self.pinned }
        ensures gone { Frees (length self.blocks) 0 hand.old.notes hand.new.notes }
        ensures follows { Follows hand.old hand.new }
    {
        let ConsumeReader {
            kinds,
            mut place,
            at: _,
            here: _,
            kept: _,
        } = self;
        place.at = 0;
        place.here = 0;
        place.kept = 0;
        put_back(rt, &kinds, hand, &mut place);
        free_all(rt, hand, &mut place.ring);
    }
}
