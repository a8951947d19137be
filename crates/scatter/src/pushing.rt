//! Several rows of a feed, pushed one after the other.
ghost use Rattle.std.specs.Prelude.{◌≡◌, ◌<◌, [], OnOk, IfErr, length};
ghost use Rattle.worker_step.specs.Tasks.{OnMore, OnDone};
ghost use Rattle.scatter.specs.Sends.{IsSent, Unsent, CanSend, Goes, HasLaws};

use crate::feed::Feed;
use crate::feed_err::FeedErr;
use block_pool::Hand;
use dia_edge::Disk;
use lop_chain::RowSink;
use std::sync::Wait;
use worker_step::Progress;

/// Says what the laws of a sink are, where its desk is known to be a hand.
pub(crate) fn laws_of<S: RowSink>()
    ensures { HasLaws S.RowSink }
{}

impl Feed {
    /// Pushes rows of the source through the chain into a sink, so many at most, in order. It answers `Done` exactly where no
    /// row is left.
    ///
    /// After a refusal the sink has what was made of the rows before, and after its own also a proper prefix of what was made
    /// of the next one. When each comes is said at `step`.
    pub fn push_rows<'p, R: Wait, D: Disk, S: RowSink<Desk = Hand<'p, D>>>(
        &mut self,
        rt: &R,
        hand: &mut Hand<'p, D>,
        sink: &mut S,
        most: u32,
    ) -> Result<Progress, FeedErr<S::Refusal>>
        requires some { 0 < most }
        requires can { CanSend S.RowSink self.old sink.old hand.old }

        ensures sent { OnOk result (IsSent S.RowSink hand.old.pool self.old sink.old self.new sink.new) }
        ensures falls { OnMore result (length self.new.left < length self.old.left) }
        ensures end { OnDone result (self.new.left ≡ []) }
        ensures unsent { IfErr result (λ e. Unsent S.RowSink self.old sink.old hand.old e self.new sink.new hand.new) }
        ensures can { OnOk result (CanSend S.RowSink self.new sink.new hand.new) }

        // On every answer.
        ensures goes { Goes S.RowSink self.old sink.old hand.old self.new sink.new hand.new }
    {
        laws_of::<S>();
        for _row in 0..most {
            match self.step(rt, hand, sink) {
                Ok(true) => {}
                Ok(false) => return Ok(Progress::Done),
                Err(refusal) => return Err(refusal),
            }
        }
        Ok(Progress::More)
    }
}
