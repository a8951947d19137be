//! Readers of packets in their order.
ghost use Rattle.std.specs.Prelude.{◌≡◌, ℕ, ◌+◌, ◌<◌, ◌≤◌, [], length, IfOk, IfErr, OnErr, IfSome, IfNone};
ghost use Rattle.std.specs.Borrow.{sem};
ghost use Rattle.std.specs.Io.BufRead.{Rests};
ghost use Rattle.dia_item.specs.KindList.{kind_list};
ghost use Rattle.dia_item.specs.Lent.{row_in_ref};
ghost use Rattle.block_pool.specs.Handles.{AreOfPool, Follows};

use crate::find::in_block;
use crate::moves::{advance, close, free_all};
use crate::stream::{Stream, row_at};
use block_pool::{Hand, PinErr};
use dia_edge::Disk;
use dia_item::{Kinds, RowRef};
use multiplexer::Inbox;
use std::collections::VecDeque;
use std::marker::Model;
use std::sync::Wait;

/// Reads the rows of packets in the order of the packets, and frees each block once it is read. Contracts see the kinds,
/// whose packet is read, what is left of it, its block while that is pinned, and the packets behind it.
///
/// A row is borrowed from the block that is pinned. One that goes on in its sender's next packet is copied into a buffer,
/// which is taken at the first such row; it is given before the rows of the packets between.
#[derive(Drop)]
pub struct MixReader {
    stream: Stream,
}

impl Model for MixReader {
    ghost use Rattle.mix_stream.specs.Reading.{Reading};
    ghost use Rattle.mix_stream.specs.Streams.{reading_of, IsInside};

    ghost Value = { Reading };

    ghost view = { λ r. reading_of r.stream };

    ghost invariant = { λ r. IsInside r.stream };
}

impl MixReader {
    ghost use Rattle.mix_stream.specs.Packets.{bytes_from, Rises};
    ghost use Rattle.mix_stream.specs.Reading.{blocks_of, bytes_of, pins, IsDone, IsNext, IsSame, Drains, RefusesStream};
    ghost use Rattle.mix_stream.specs.contracts.mix_reader.MixReader.{the_row};

    /// A reader at the first row.
    pub fn of(inbox: Inbox, kinds: Kinds) -> MixReader
        ensures reader { result ≡ record { kinds = kind_list kinds; from = 0; left = []; pinned = []; packets = inbox.packets.items } }
        ensures bytes { (k : ℕ) → bytes_of k result ≡ bytes_from k inbox.packets.items }
    {
        let buffer = Vec::new(*inbox.packets.allocator());
        MixReader {
            stream: Stream {
                kinds,
                shown: None,
                at: 0,
                buffer,
                pending: 0,
                from: 0,
                packets: VecDeque::from(inbox.packets),
            },
        }
    }

    /// The next row; None exactly at the end, where no block is left.
    ///
    /// After a refusal the reader stands where it stood, and the next call goes on from there. `Disk` comes only where the
    /// disk failed in this call, and `Damaged`, where the disk tells, only where the bytes that are left of some sender
    /// begin with no row.
    #[inline(always)]
    pub fn next<'r, R: Wait, D: Disk>(
        &'r mut self,
        rt: &R,
        hand: &mut Hand<'_, D>,
    ) -> Result<Option<RowRef<'r>>, PinErr>
        requires own { AreOfPool hand.old.pool (blocks_of self.old) }
        requires permit { 0 < hand.old.permits + pins self.old }
        ensures refused { IfErr result (λ e. RefusesStream hand.old hand.new self.old e) }
        ensures room { hand.old.permits + pins self.old ≤ hand.new.permits + 1 }
        ensures follows { Follows hand.old hand.new }
        ensures* after { sem 𝓛 (Rests the_row self.entry (λ new.
            IfOk result (λ o. IfSome o (λ row. IsNext hand.old.pool new.from (row_in_ref row) self.old new)
            × IfNone o (IsDone new × IsSame hand.old.pool self.old new))
            × OnErr result (IsSame hand.old.pool self.old new)
            × (Rises self.old.from self.old.packets → Rises new.from new.packets)
            × Drains hand.old hand.new self.old new)) }
    {
        // Most rows lie whole in the block that is pinned: they are found and lent in one look.
        if let Some(place) = in_block(&mut self.stream) {
            return Ok(Some(row_at(&self.stream, &place)));
        }
        match advance(rt, hand, &mut self.stream) {
            Ok(Some(place)) => Ok(Some(row_at(&self.stream, &place))),
            Ok(None) => Ok(None),
            Err(refusal) => Err(refusal),
        }
    }

    /// Unpins what is pinned, and frees the blocks that are left. It has no refusal.
    pub fn end<R: Wait, D: Disk>(self, rt: &R, hand: &mut Hand<'_, D>)
        requires own { AreOfPool hand.old.pool (blocks_of self) }
        ensures permits { hand.new.permits ≡ hand.old.permits + pins self }
        ensures gone { hand.new.notes.gone ≡ hand.old.notes.gone + length (blocks_of self) }
        ensures made { hand.new.notes.made ≡ hand.old.notes.made }
        ensures follows { Follows hand.old hand.new }
    {
        let MixReader { mut stream } = self;
        close(rt, hand, &mut stream);
        let Stream { packets, .. } = stream;
        free_all(rt, hand, packets);
    }
}
