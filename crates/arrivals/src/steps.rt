//! The step of a reader: a row out of packets, into a sink.
ghost use Rattle.std.specs.Prelude.{◌≡◌, ◌+◌, ◌<◌, ◌≤◌, ℕ, ◌∷◌, [], true, false, cond, OnOk, OnErr, IfOk, IfErr};
ghost use Rattle.std.specs.Bool.{OnTrue};
ghost use Rattle.row_defs.specs.Rows.{kinds_of};
ghost use Rattle.dia_item.specs.Lent.{row_in_ref};
ghost use Rattle.lop_chain.specs.Calls.{TookRows};
ghost use Rattle.arrivals.specs.Steps.{IsPinned, IsStep};
ghost use Rattle.arrivals.specs.Receives.{CanReceive};

use block_pool::Hand;
use cat_stream::CatReader;
use dia_edge::Disk;
use dia_item::RowRef;
use lop_chain::RowSink;
use scatter::FeedErr;
use std::snapshot::Snapshot;
use std::sync::Wait;

/// Gives a row to a sink. A refusal holds from a desk that the one at hand follows.
fn take_from<R: Wait, S: RowSink>(
    rt: &R,
    began: Snapshot<S::Desk>,
    row: RowRef<'_>,
    desk: &mut S::Desk,
    sink: &mut S,
) -> Result<(), S::Refusal>
    requires onto { S.follows began.value desk.old }
    requires kinds { S.accepts sink.old (kinds_of (row_in_ref row)) }
    requires serves { S.serves sink.old desk.old }
    requires is_open { S.is_shut sink.old ≡ false }
    ensures ok { OnOk result (TookRows S.RowSink sink.old desk.old (row_in_ref row.entry ∷ []) sink.new desk.new) }
    ensures err { IfErr result (λ e. S.refused sink.old began.value (row_in_ref row.entry) e sink.new desk.new) }
    ensures shut { OnErr result (S.is_shut sink.new ≡ true) }
    ensures follows { S.follows desk.old desk.new }
    ensures stays { S.stays sink.old sink.new }
{
    let _ = began;
    sink.take(rt, desk, row)
}

/// Whether a block is pinned after a call, by the hand's permits before and after it.
fn still_pinned(pinned: bool, before: u32, now: u32) -> bool
    ensures { (m n : ℕ) → m ≡ cond pinned 1 0 → n ≤ 1 → now + n ≡ before + m → n ≡ cond result 1 0 }
{
    now < before || (pinned && now == before)
}

/// Pushes the next row into the sink. It answers false exactly where no row is left. After a row, `pinned` says whether a block
/// is pinned.
pub(crate) fn push_row<'p, R: Wait, D: Disk, S: RowSink<Desk = Hand<'p, D>>>(
    rt: &R,
    reader: &mut CatReader,
    pinned: &mut bool,
    hand: &mut Hand<'p, D>,
    sink: &mut S,
) -> Result<bool, FeedErr<S::Refusal>>
    requires can { CanReceive S.RowSink reader.old sink.old hand.old }
    requires pinned { IsPinned pinned.old reader.old }
    ensures step { IsStep S.RowSink reader.old sink.old hand.old result reader.new sink.new hand.new }
    ensures pinned { IfOk result (λ more. OnTrue more (IsPinned pinned.new reader.new)) }
{
    let began = Snapshot::of(&*hand);
    let before = hand.permits();
    match reader.next(rt, hand) {
        Err(refusal) => Err(FeedErr::from(refusal)),
        Ok(None) => Ok(false),
        Ok(Some(row)) => {
            *pinned = still_pinned(*pinned, before, hand.permits());
            match take_from(rt, began, row, hand, sink) {
                Ok(()) => Ok(true),
                Err(refusal) => Err(FeedErr::Sink(refusal)),
            }
        }
    }
}
