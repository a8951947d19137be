//! Readers of packets by rank.
ghost use Rattle.std.specs.Prelude.{◌≡◌, ℕ, ◌+◌, ◌<◌, ◌≤◌, [], length, IfOk, IfErr, OnErr, IfSome, IfNone};
ghost use Rattle.std.specs.Borrow.{sem};
ghost use Rattle.std.specs.Io.BufRead.{Rests};
ghost use Rattle.dia_item.specs.KindList.{kind_list};
ghost use Rattle.dia_item.specs.Lent.{row_in_ref};
ghost use Rattle.block_pool.specs.Handles.{PoolName, AreOfPool, Follows};

use crate::by_rank::by_rank;
use block_pool::{Hand, PinErr};
use dia_edge::{Disk, NoMemory};
use dia_item::{Kinds, RowRef};
use mix_stream::MixReader;
use multiplexer::Inbox;
use std::marker::Model;
use std::sync::Wait;

/// Reads the rows of packets by rank of their senders, each sender's in order of its packets, and frees each block once it is
/// read. Contracts see what they see of a `MixReader`.
#[derive(Drop)]
pub struct CatReader {
    rows: MixReader,
}

impl Model for CatReader {
    ghost use Rattle.mix_stream.specs.Packets.{Rises};
    ghost use Rattle.mix_stream.specs.Reading.{Reading};

    ghost Value = { Reading };

    ghost view = { λ r. r.rows };

    ghost invariant = { λ r. Rises r.rows.from r.rows.packets };
}

impl CatReader {
    ghost use Rattle.mix_stream.specs.Packets.{bytes_from, blocks_in};
    ghost use Rattle.mix_stream.specs.Reading.{blocks_of, bytes_of, pins, IsDone, IsNext, IsSame, Drains, RefusesStream};
    ghost use Rattle.cat_stream.specs.contracts.cat_reader.CatReader.{the_row};

    /// A reader at the first row. For want of memory the packets are dropped, and their blocks stay in the pool until that
    /// ends.
    pub fn of(inbox: Inbox, kinds: Kinds) -> Result<CatReader, NoMemory>
        ensures kinds { IfOk result (λ r. r.kinds ≡ kind_list kinds) }
        ensures bytes { IfOk result (λ r. (k : ℕ) → bytes_of k r ≡ bytes_from k inbox.packets.items) }
        ensures pins { IfOk result (λ r. pins r ≡ 0) }
        ensures count { IfOk result (λ r. length (blocks_of r) ≡ length inbox.packets.items) }
        ensures pools { IfOk result (λ r. (pool : PoolName) → AreOfPool pool (blocks_in inbox.packets.items) → AreOfPool pool (blocks_of r)) }
    {
        let packets = by_rank(inbox.packets)?;
        Ok(CatReader {
            rows: MixReader::of(Inbox { packets }, kinds),
        })
    }

    /// The next row; None exactly at the end, where no block is left. Where a row of a sender comes, nothing is left of the
    /// senders below it.
    ///
    /// The refusals are those of `MixReader::next`, and after one the reader stands where it stood.
    #[inline]
    pub fn next<'r, R: Wait, D: Disk>(
        &'r mut self,
        rt: &R,
        hand: &mut Hand<'_, D>,
    ) -> Result<Option<RowRef<'r>>, PinErr>
        requires own { AreOfPool hand.old.pool (blocks_of self.old) }
        requires permit { 0 < hand.old.permits + pins self.old }
        ensures refused { IfErr result (λ e. RefusesStream hand.old hand.new self.old e) }
        ensures room { hand.old.permits + pins self.old ≤ hand.new.permits + 1 }
        ensures follows { Follows hand.old hand.new }
        ensures* after { sem 𝓛 (Rests the_row self.entry (λ new.
            IfOk result (λ o. IfSome o (λ row. IsNext hand.old.pool new.from (row_in_ref row) self.old new × ((j : ℕ) → j < new.from → bytes_of j self.old ≡ []))
            × IfNone o (IsDone new × IsSame hand.old.pool self.old new))
            × OnErr result (IsSame hand.old.pool self.old new)
            × Drains hand.old hand.new self.old new)) }
    {
        self.rows.next(rt, hand)
    }

    /// Unpins what is pinned, and frees the blocks that are left. It has no refusal.
    pub fn end<R: Wait, D: Disk>(self, rt: &R, hand: &mut Hand<'_, D>)
        requires own { AreOfPool hand.old.pool (blocks_of self) }
        ensures permits { hand.new.permits ≡ hand.old.permits + pins self }
        ensures gone { hand.new.notes.gone ≡ hand.old.notes.gone + length (blocks_of self) }
        ensures made { hand.new.notes.made ≡ hand.old.notes.made }
        ensures follows { Follows hand.old hand.new }
    {
        let CatReader { rows } = self;
        rows.end(rt, hand);
    }
}
