//! The steps of feeds: a row of a source, through a chain, into a sink.
ghost use Rattle.std.specs.Prelude.{◌≡◌, ◌∷◌, [], false, OnOk, IfErr};
ghost use Rattle.row_defs.specs.declared.kind.Kind.TheVariants.{Int};
ghost use Rattle.row_defs.specs.Rows.{kinds_of};
ghost use Rattle.row_defs.specs.LocalOps.{AreSoundOps, rows_through};
ghost use Rattle.dia_item.specs.Lent.{row_in_ref};
ghost use Rattle.block_pool.specs.Handles.{AreOfPool};
ghost use Rattle.lop_chain.specs.Rows.{Kinds};
ghost use Rattle.lop_chain.specs.Calls.{TookRows, TookSome};
ghost use Rattle.lop_chain.specs.Chains.{chain_ops};
ghost use Rattle.scatter.specs.Feeds.{keeping, consuming, counting};
ghost use Rattle.scatter.specs.Fitting.{RestsOnHands, CanFeed};
ghost use Rattle.scatter.specs.Steps.{IsStep};

use crate::feed_err::FeedErr;
use block_pool::Hand;
use dia_edge::Disk;
use dia_file::{ConsumeReader, KeepReader};
use dia_item::{RowBuf, RowRef};
use lop_chain::{Chain, RowSink};
use std::snapshot::Snapshot;
use std::sync::Wait;

/// The numbers from `next` up to, not including, `end`, and room for the row of one.
#[derive(Drop)]
pub(crate) struct Numbers {
    pub(crate) next: u64,
    pub(crate) end: u64,
    pub(crate) buffer: RowBuf,
}

/// Pushes what a chain makes of a row. A refusal holds from a desk that the one at hand follows.
fn push_from<R: Wait, S: RowSink>(
    rt: &R,
    began: Snapshot<S::Desk>,
    row: RowRef<'_>,
    chain: &mut Chain,
    desk: &mut S::Desk,
    sink: &mut S,
) -> Result<(), S::Refusal>
    requires onto { S.follows began.value desk.old }
    requires fits { (to : Kinds) × AreSoundOps (kinds_of (row_in_ref row)) (chain_ops chain.old) to × S.accepts sink.old to }
    requires serves { S.serves sink.old desk.old }
    requires is_open { S.is_shut sink.old ≡ false }
    ensures ok { OnOk result (TookRows S.RowSink sink.old desk.old (rows_through (chain_ops chain.old) (row_in_ref row.entry)) sink.new desk.new) }
    ensures err { IfErr result (λ e. TookSome S.RowSink sink.old began.value (rows_through (chain_ops chain.old) (row_in_ref row.entry)) e sink.new desk.new) }
    ensures same { chain_ops chain.new ≡ chain_ops chain.old }
    ensures follows { S.follows desk.old desk.new }
    ensures stays { S.stays sink.old sink.new }
{
    let _ = began;
    chain.push_row(rt, row, desk, sink)
}

/// Pushes the next row of a file that is kept.
pub(crate) fn keep_step<'p, R: Wait, D: Disk, S: RowSink<Desk = Hand<'p, D>>>(
    rt: &R,
    reader: &mut KeepReader,
    chain: &mut Chain,
    hand: &mut Hand<'p, D>,
    sink: &mut S,
) -> Result<bool, FeedErr<S::Refusal>>
    requires fits { (to : Kinds) × AreSoundOps reader.old.file.kinds (chain_ops chain.old) to × S.accepts sink.old to }
    requires own { AreOfPool hand.old.pool reader.old.file.blocks }
    requires rests { RestsOnHands S.RowSink }
    requires can { CanFeed S.RowSink (keeping (chain_ops chain.old) reader.old) sink.old hand.old }
    requires is_open { S.is_shut sink.old ≡ false }
    ensures { IsStep S.RowSink (keeping (chain_ops chain.old) reader.old) sink.old hand.old result
        (keeping (chain_ops chain.new) reader.new) sink.new hand.new }
{
    let began = Snapshot::of(&*hand);
    match reader.next(rt, hand) {
        Err(refusal) => Err(FeedErr::from(refusal)),
        Ok(None) => Ok(false),
        Ok(Some(row)) => match push_from(rt, began, row, chain, hand, sink) {
            Ok(()) => Ok(true),
            Err(refusal) => Err(FeedErr::Sink(refusal)),
        },
    }
}

/// Pushes the next row of a file that is freed.
pub(crate) fn consume_step<'p, R: Wait, D: Disk, S: RowSink<Desk = Hand<'p, D>>>(
    rt: &R,
    reader: &mut ConsumeReader,
    chain: &mut Chain,
    hand: &mut Hand<'p, D>,
    sink: &mut S,
) -> Result<bool, FeedErr<S::Refusal>>
    requires fits { (to : Kinds) × AreSoundOps reader.old.kinds (chain_ops chain.old) to × S.accepts sink.old to }
    requires own { AreOfPool hand.old.pool reader.old.blocks }
    requires rests { RestsOnHands S.RowSink }
    requires can { CanFeed S.RowSink (consuming (chain_ops chain.old) reader.old) sink.old hand.old }
    requires is_open { S.is_shut sink.old ≡ false }
    ensures { IsStep S.RowSink (consuming (chain_ops chain.old) reader.old) sink.old hand.old result
        (consuming (chain_ops chain.new) reader.new) sink.new hand.new }
{
    let began = Snapshot::of(&*hand);
    match reader.next(rt, hand) {
        Err(refusal) => Err(FeedErr::from(refusal)),
        Ok(None) => Ok(false),
        Ok(Some(row)) => match push_from(rt, began, row, chain, hand, sink) {
            Ok(()) => Ok(true),
            Err(refusal) => Err(FeedErr::Sink(refusal)),
        },
    }
}

/// Pushes the row of the next number.
pub(crate) fn count_step<'p, R: Wait, D: Disk, S: RowSink<Desk = Hand<'p, D>>>(
    rt: &R,
    numbers: &mut Numbers,
    chain: &mut Chain,
    hand: &mut Hand<'p, D>,
    sink: &mut S,
) -> Result<bool, FeedErr<S::Refusal>>
    requires fits { (to : Kinds) × AreSoundOps (Int ∷ []) (chain_ops chain.old) to × S.accepts sink.old to }
    requires rests { RestsOnHands S.RowSink }
    requires can { CanFeed S.RowSink (counting (chain_ops chain.old) numbers.old) sink.old hand.old }
    requires is_open { S.is_shut sink.old ≡ false }
    ensures { IsStep S.RowSink (counting (chain_ops chain.old) numbers.old) sink.old hand.old result
        (counting (chain_ops chain.new) numbers.new) sink.new hand.new }
{
    if numbers.next >= numbers.end {
        return Ok(false);
    }
    numbers.buffer.set_int(numbers.next);
    numbers.next += 1;
    match chain.push_row(rt, numbers.buffer.row(), hand, sink) {
        Ok(()) => Ok(true),
        Err(refusal) => Err(FeedErr::Sink(refusal)),
    }
}
