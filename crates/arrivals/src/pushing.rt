//! Several rows of a reader, pushed one after the other.
ghost use Rattle.std.specs.Prelude.{◌≡◌, ◌<◌, OnOk, IfErr};
ghost use Rattle.worker_step.specs.Tasks.{OnMore, OnDone};
ghost use Rattle.mix_stream.specs.Reading.{IsDone};
ghost use Rattle.scatter.specs.Sends.{HasLaws};
ghost use Rattle.arrivals.specs.Boxes.{HasLeft, bytes_left};
ghost use Rattle.arrivals.specs.Steps.{IsPinned, CanServe};
ghost use Rattle.arrivals.specs.Receives.{IsReceived, Unreceived, CanReceive, Goes};

use crate::steps::push_row;
use block_pool::Hand;
use cat_stream::CatReader;
use dia_edge::Disk;
use lop_chain::RowSink;
use scatter::FeedErr;
use std::sync::Wait;
use worker_step::Progress;

/// How many rows a step pushes at most: so many that what a phase does around a step doesn't tell.
const BATCH: u32 = 256;

/// Says what the laws of a sink are, where its desk is known to be a hand.
pub(crate) fn laws_of<S: RowSink>()
    ensures { HasLaws S.RowSink }
{}

/// Pushes rows into a sink, in order, as many as a step may. It answers `Done` exactly where no row is left.
///
/// After a refusal the sink has the rows before it. `Sink` comes only where the sink refused one, and is shut; `Disk` only where
/// the disk failed in this call, `Damaged` never where it tells and the senders sent rows, and `NoMemory` where there was none
/// for a block, or for the buffer of a row that spans blocks, or where behind a row no block is pinned.
pub(crate) fn push_rows<'p, R: Wait, D: Disk, S: RowSink<Desk = Hand<'p, D>>>(
    rt: &R,
    reader: &mut CatReader,
    pinned: &mut bool,
    hand: &mut Hand<'p, D>,
    sink: &mut S,
) -> Result<Progress, FeedErr<S::Refusal>>
    requires can { CanReceive S.RowSink reader.old sink.old hand.old }
    requires pinned { IsPinned pinned.old reader.old }

    ensures received { OnOk result (IsReceived S.RowSink hand.old.pool reader.old.kinds (HasLeft reader.old) sink.old reader.new sink.new) }
    ensures falls { OnMore result (bytes_left reader.new < bytes_left reader.old) }
    ensures can { OnMore result (CanReceive S.RowSink reader.new sink.new hand.new) }
    ensures pinned { OnMore result (IsPinned pinned.new reader.new) }
    ensures end { OnDone result (IsDone reader.new × CanServe S.RowSink reader.new sink.new hand.new) }
    ensures unreceived { IfErr result (λ e. Unreceived S.RowSink reader.old.kinds (HasLeft reader.old) sink.old hand.old e reader.new sink.new hand.new) }

    // On every answer.
    ensures goes { Goes S.RowSink reader.old sink.old hand.old reader.new sink.new hand.new }
{
    laws_of::<S>();
    for _row in 0..BATCH {
        match push_row(rt, reader, pinned, hand, sink) {
            // A reader doesn't promise that a block is pinned behind a row. Without one the sink may have taken the permit for
            // the next.
            Ok(true) if !*pinned => return Err(FeedErr::NoMemory),
            Ok(true) => {}
            Ok(false) => return Ok(Progress::Done),
            Err(refusal) => return Err(refusal),
        }
    }
    Ok(Progress::More)
}
