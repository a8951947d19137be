//! The sink that writes a file.
ghost use Rattle.std.specs.Prelude.{◌≡◌, ◌+◌, ◌<◌, ◌≤◌, [], ℕ, length, true, false, None, IfOk, OnOk, OnErr};
ghost use Rattle.row_defs.specs.Limits.{most_rows};
ghost use Rattle.dia_item.specs.KindList.{kind_list};
ghost use Rattle.block_pool.specs.Handles.{Follows};
ghost use Rattle.block_pool.specs.Follows.{follows_refl, follows_trans};
ghost use Rattle.dia_file.specs.Files.{IsFileOf};
ghost use Rattle.dia_file.specs.Tallies.{Frees, Makes};
ghost use Rattle.dia_file.specs.Writers.{frames_of};
ghost use Rattle.file_sink.specs.Sinks.{Wrote, IsServed, RefusesTake, KeepsFile, wrote_none, wrote_more, keeps_none, keeps_more, refuses_from};

use block_pool::Hand;
use dia_edge::{Disk, NoMemory};
use dia_file::{File, FileWriter, PushErr};
use dia_item::{Kinds, RowRef};
use lop_chain::RowSink;
use std::alloc::Global;
use std::marker::Model;
use std::snapshot::Snapshot;
use std::sync::Wait;

/// Writes the rows that it takes to a file. Contracts see its pool, what was written, and whether it is shut.
///
/// It is to be spent by `finish` or `cancel`: one that is dropped leaves its blocks in the pool, and a permit spent.
#[derive(Drop)]
pub struct FileSink<'p, D: Disk> {
    writer: FileWriter,
    shut: bool,
    // The hand that it was made for, by which its pool is known.
    hand_was: Snapshot<Hand<'p, D>>,
}

impl<'p, D: Disk> Model for FileSink<'p, D> {
    ghost use Rattle.file_sink.specs.Sinks.{SinkValue, IsSink};

    ghost Value = { SinkValue };

    ghost view = { λ s. record { pool = s.hand_was.value.pool; writer = s.writer; is_shut = s.shut } };

    ghost invariant = { λ s. IsSink s.hand_was.value.pool s.writer s.shut };
}

impl<'p, D: Disk> FileSink<'p, D> {
    /// A sink for rows of these kinds, at most `limit` of them, of the pool of this hand. It takes no memory yet.
    pub fn new(alloc: Global, kinds: Kinds, limit: u64, hand: &Hand<'p, D>) -> FileSink<'p, D>
        requires { limit ≤ most_rows }
        ensures pool { result.pool ≡ hand.now.pool }
        ensures kinds { result.writer.kinds ≡ kind_list kinds }
        ensures limit { result.writer.limit ≡ limit }
        ensures rows { result.writer.rows ≡ [] }
        ensures blocks { result.writer.blocks ≡ [] }
        ensures frame { result.writer.frame ≡ None }
        ensures is_open { result.is_shut ≡ false }
    {
        FileSink {
            writer: FileWriter::new(alloc, kinds, limit),
            shut: false,
            hand_was: Snapshot::of(hand),
        }
    }

    // How many rows there can be, which is known of every sink.
    #[inline]
    pub(crate) fn most_rows(&self)
        ensures few { length self.now.writer.rows ≤ self.now.writer.limit }
        ensures most { self.now.writer.limit ≤ most_rows }
    {
        let _shut = self.shut;
    }

    /// The file of the rows taken, in order. Without memory for its last block they are freed.
    pub fn finish<R: Wait>(self, rt: &R, hand: &mut Hand<'p, D>) -> Result<File, NoMemory>
        requires is_open { self.is_shut ≡ false }
        requires own { hand.old.pool ≡ self.pool }
        ensures rows { IfOk result (λ f. f.rows ≡ self.entry.writer.rows) }
        ensures kinds { IfOk result (λ f. f.kinds ≡ self.entry.writer.kinds) }
        ensures own { IfOk result (λ f. IsFileOf hand.new.pool f) }
        ensures permits { hand.new.permits ≡ hand.old.permits + frames_of self.entry.writer }
        ensures made { IfOk result (λ f. Makes (length self.entry.writer.blocks) (length f.blocks) hand.old.notes hand.new.notes) }
        ensures gone { OnErr result (Frees (length self.entry.writer.blocks) 0 hand.old.notes hand.new.notes) }
        ensures follows { Follows hand.old hand.new }
    {
        let FileSink {
            writer,
            shut: _,
            hand_was: _,
        } = self;
        match writer.finish(rt, hand) {
            Ok(file) => Ok(file),
            Err((writer, refusal)) => {
                writer.cancel(rt, hand);
                Err(refusal)
            }
        }
    }

    /// Frees the blocks, and gives the frame back. It has no refusal.
    pub fn cancel<R: Wait>(self, rt: &R, hand: &mut Hand<'p, D>)
        requires own { hand.old.pool ≡ self.pool }
        ensures permits { hand.new.permits ≡ hand.old.permits + frames_of self.entry.writer }
        ensures gone { Frees (length self.entry.writer.blocks) 0 hand.old.notes hand.new.notes }
        ensures follows { Follows hand.old hand.new }
    {
        let FileSink {
            writer,
            shut: _,
            hand_was: _,
        } = self;
        writer.cancel(rt, hand);
    }
}

impl<'p, D: Disk> RowSink for FileSink<'p, D> {
    type Desk = Hand<'p, D>;

    type Refusal = PushErr;

    ghost took = { λ s rows t. Wrote s.writer rows t.writer };

    ghost accepts = { λ s kinds. s.writer.kinds ≡ kinds };

    ghost serves = { IsServed };

    ghost is_shut = { λ s. s.is_shut };

    ghost held = { λ s d. d.permits + frames_of s.writer };

    ghost follows = { Follows };

    ghost refused = { λ s a row e t b. RefusesTake e s.writer a t.writer b };

    ghost stays = { KeepsFile };

    #[inline]
    fn take<R: Wait>(
        &mut self,
        rt: &R,
        hand: &mut Hand<'p, D>,
        row: RowRef<'_>,
    ) -> Result<(), PushErr> {
        match self.writer.push(rt, hand, row) {
            Ok(()) => Ok(()),
            Err(refusal) => {
                self.shut = true;
                Err(refusal)
            }
        }
    }

    ghost took_none = { λ s. wrote_none s.writer };

    ghost took_more = { λ a b c xs ys p q. wrote_more a.writer b.writer c.writer xs ys p q };

    ghost follows_refl = { follows_refl };

    ghost follows_trans = { follows_trans };

    ghost stays_refl = { keeps_none };

    ghost stays_trans = { keeps_more };

    ghost refused_from = { λ s t a b c row e p q. refuses_from e s.writer t.writer a b c p q };
}
