//! Feeds: the rows of a worker's part of a line, through a chain.
ghost use Rattle.std.specs.Prelude.{◌≡◌, ◌+◌, false, IfOk, OnOk, IfErr};
ghost use Rattle.std.specs.Bool.{OnTrue, OnFalse};
ghost use Rattle.row_defs.specs.LocalOps.{AreSoundOps};
ghost use Rattle.block_pool.specs.Handles.{AreOfPool, Follows};
ghost use Rattle.lop_chain.specs.Rows.{Kinds};
ghost use Rattle.lop_chain.specs.Chains.{chain_ops};

use crate::feed_err::FeedErr;
use crate::steps::{Numbers, consume_step, count_step, keep_step};
use block_pool::Hand;
use dia_edge::Disk;
use dia_file::{ConsumeReader, File, KeepReader};
use lop_chain::{Chain, RowSink};
use std::marker::Model;
use std::sync::Wait;

/// Where the rows of a feed come from.
#[derive(Drop)]
pub(crate) enum Source {
    /// A file that is given back.
    Keep(KeepReader),
    /// A file that is freed as it is read.
    Consume(ConsumeReader),
    /// Numbers, made one by one.
    Count(Numbers),
}

/// A worker's share of an operand: rows of a source, and the chain that each of them goes through. Contracts see the kinds
/// of the source's rows, the chain's lines, the rows that are left, the blocks, the file that it gives back, and how many
/// blocks are pinned here: one or none, each for one of the hand's permits.
///
/// What it needs of memory was had at its making, but for what the pool wants for a block and a reader for a row that spans
/// blocks. It is to be spent by `end`.
#[derive(Drop)]
pub struct Feed {
    source: Source,
    chain: Chain,
}

impl Model for Feed {
    ghost use Rattle.std.specs.Coded.{codes};
    ghost use Rattle.row_defs.specs.Coding.{expr_code};
    ghost use Rattle.scatter.specs.Feeds.{FeedValue, feed_value};

    ghost Value = { FeedValue };

    ghost coded = { Prim.hlevel (codes, expr_code) };

    ghost view = { feed_value };
}

impl Feed {
    ghost use Rattle.scatter.specs.Feeds.{number_rows, part_feed, number_feed};
    ghost use Rattle.scatter.specs.Fitting.{RestsOnHands, CanFeed};
    ghost use Rattle.scatter.specs.Steps.{IsFed, IsAtEnd, NotFed, IsSameFeed};

    /// Of a file, which is freed as it is read where this is its last use, else given back.
    pub(crate) fn of_part(file: File, chain: Chain, last: bool) -> Feed
        ensures { result ≡ part_feed last (chain_ops chain) file }
    {
        let source = if last {
            Source::Consume(file.consume())
        } else {
            Source::Keep(file.keep())
        };
        Feed { source, chain }
    }

    /// Of numbers.
    pub(crate) fn count(numbers: Numbers, chain: Chain) -> Feed
        ensures { result ≡ number_feed (chain_ops chain) (number_rows numbers.next numbers.end) }
    {
        Feed {
            source: Source::Count(numbers),
            chain,
        }
    }

    /// Pushes one row of the source through the chain into a sink. It answers false exactly where no row is left, and then
    /// the sink is as it was.
    ///
    /// `Sink` comes only where the sink refused: it took a proper prefix of what was made of the row, and is shut. After the
    /// other refusals the sink is as it was, as many rows are left, and the next call goes on from there. `Disk` comes only
    /// where the disk failed in this call, `Damaged` never where it tells, and `NoMemory` where there was none for a block,
    /// or for the buffer of a row that spans blocks.
    pub fn step<'p, R: Wait, D: Disk, S: RowSink<Desk = Hand<'p, D>>>(
        &mut self,
        rt: &R,
        hand: &mut Hand<'p, D>,
        sink: &mut S,
    ) -> Result<bool, FeedErr<S::Refusal>>
        requires fits { (to : Kinds) × AreSoundOps self.old.kinds self.old.ops to × S.accepts sink.old to }
        requires own { AreOfPool hand.old.pool self.old.blocks }
        requires rests { RestsOnHands S.RowSink }
        requires can { CanFeed S.RowSink self.old sink.old hand.old }
        requires is_open { S.is_shut sink.old ≡ false }

        ensures fed { IfOk result (λ more. OnTrue more (IsFed S.RowSink self.old sink.old hand.old self.new sink.new)) }
        ensures end { IfOk result (λ more. OnFalse more (IsAtEnd self.old sink.old self.new sink.new)) }
        ensures refused { IfErr result (λ e. NotFed S.RowSink self.old sink.old hand.old e self.new sink.new hand.new) }

        ensures accepts { OnOk result ((kinds : Kinds) → S.accepts sink.old kinds → S.accepts sink.new kinds) }
        ensures accepted { OnOk result ((kinds : Kinds) → S.accepts sink.new kinds → S.accepts sink.old kinds) }
        ensures can { OnOk result (CanFeed S.RowSink self.new sink.new hand.new) }
        ensures is_open { OnOk result (S.is_shut sink.new ≡ false) }
        ensures held { OnOk result (S.held sink.new hand.new + self.new.pinned ≡ S.held sink.old hand.old + self.old.pinned) }

        // On every answer.
        ensures same { IsSameFeed self.old self.new }
        ensures own { AreOfPool hand.new.pool self.new.blocks }
        ensures follows { Follows hand.old hand.new }
        ensures stays { S.stays sink.old sink.new }
    {
        match &mut self.source {
            Source::Keep(reader) => keep_step(rt, reader, &mut self.chain, hand, sink),
            Source::Consume(reader) => consume_step(rt, reader, &mut self.chain, hand, sink),
            Source::Count(numbers) => count_step(rt, numbers, &mut self.chain, hand, sink),
        }
    }

    /// Unpins what is pinned. A file that was kept comes back as it was, one that wasn't is freed to its end, and numbers
    /// leave nothing. It has no refusal.
    pub fn end<R: Wait, D: Disk>(self, rt: &R, hand: &mut Hand<'_, D>) -> Option<File>
        requires own { AreOfPool hand.old.pool self.blocks }
        ensures file { result ≡ self.keeps }
        ensures permits { hand.new.permits ≡ hand.old.permits + self.pinned }
        ensures follows { Follows hand.old hand.new }
    {
        let Feed { source, chain: _ } = self;
        match source {
            Source::Keep(reader) => Some(reader.end(rt, hand)),
            Source::Consume(reader) => {
                reader.end(rt, hand);
                None
            }
            Source::Count(_) => None,
        }
    }
}
