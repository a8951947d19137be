//! All rows of a feed, pushed one after the other.
ghost use Rattle.std.specs.Prelude.{◌≡◌, [], length, OnOk, IfErr};
ghost use Rattle.scatter.specs.Sends.{IsSent, Unsent, CanSend, Goes, HasLaws};

use block_pool::Hand;
use dia_edge::Disk;
use lop_chain::RowSink;
use scatter::{Feed, FeedErr};
use std::sync::Wait;
use worker_step::Progress;

/// Says what the laws of a sink are, where its desk is known to be a hand.
pub(crate) fn laws_of<S: RowSink>()
    ensures { HasLaws S.RowSink }
{}

/// Pushes all rows of a feed through its chain into a sink, in order.
///
/// After a refusal the sink has what was made of the rows before, and after its own also a proper prefix of what was made
/// of the next one.
pub(crate) fn push_all<'p, R: Wait, D: Disk, S: RowSink<Desk = Hand<'p, D>>>(
    rt: &R,
    feed: &mut Feed,
    hand: &mut Hand<'p, D>,
    sink: &mut S,
) -> Result<(), FeedErr<S::Refusal>>
    requires can { CanSend S.RowSink feed.old sink.old hand.old }
    ensures sent { OnOk result (IsSent S.RowSink hand.old.pool feed.old sink.old feed.new sink.new) }
    ensures end { OnOk result (feed.new.left ≡ []) }
    ensures unsent { IfErr result (λ e. Unsent S.RowSink feed.old sink.old hand.old e feed.new sink.new hand.new) }
    ensures goes { Goes S.RowSink feed.old sink.old hand.old feed.new sink.new hand.new }
{
    laws_of::<S>();
    let mut more = true;
    while more {
        match feed.push_rows(rt, hand, sink, u32::MAX) {
            Ok(Progress::More) => {}
            Ok(Progress::Done) => more = false,
            Err(refusal) => return Err(refusal),
        }
    }
    Ok(())
}
