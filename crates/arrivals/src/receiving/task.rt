//! The steps of a work that receives: some rows of its box at each.
ghost use Rattle.block_pool.specs.Handles.{Follows};
ghost use Rattle.block_pool.specs.Follows.{follows_refl, follows_trans};
ghost use Rattle.arrivals.specs.Boxes.{HasLeft, bytes_left};
ghost use Rattle.arrivals.specs.Receives.{CanGoOn, IsAllReceived, Unreceived, HasGone};
ghost use Rattle.arrivals.specs.ReceiveLaws.{unreceived_from, gone_refl, gone_trans};

use super::Receiving;
use crate::pushing::{laws_of, push_rows};
use block_pool::Hand;
use dia_edge::Disk;
use hand_phase::HandTask;
use lent_step::LentTask;
use lop_chain::RowSink;
use scatter::FeedErr;
use std::sync::Wait;
use worker_step::Progress;

impl<'p, D: Disk + 'p, S: RowSink<Desk = Hand<'p, D>>> LentTask for Receiving<'p, D, S> {
    type Desk = Hand<'p, D>;

    type Fault = FeedErr<S::Refusal>;

    ghost ready = { λ t a. CanGoOn S.RowSink t.reader_was.value t.sink_was.value t.reader t.pinned t.sink a };

    ghost follows = { λ t a u b. HasGone S.RowSink t.reader_was.value t.sink_was.value t.reader t.sink a u.reader_was.value u.sink_was.value u.reader u.sink b };

    ghost keeps = { λ a b. Follows a b × S.follows a b };

    ghost done = { λ t a. IsAllReceived S.RowSink t.reader_was.value t.sink_was.value t.reader t.sink a };

    ghost faulted = { λ a e t b. Unreceived S.RowSink t.reader_was.value.kinds (HasLeft t.reader_was.value) t.sink_was.value a e t.reader t.sink b };

    ghost left = { λ t. bytes_left t.reader };

    fn step<R: Wait>(
        &mut self,
        rt: &R,
        hand: &mut Hand<'p, D>,
    ) -> Result<Progress, FeedErr<S::Refusal>> {
        laws_of::<S>();
        push_rows(rt, &mut self.reader, &mut self.pinned, hand, &mut self.sink)
    }

    ghost follows_refl = { λ t a. gone_refl S.RowSink.own S.stays_refl S.follows_refl t.reader_was.value t.sink_was.value t.reader t.sink a };

    ghost follows_trans = { λ t u v a b c p q. gone_trans S.RowSink.own S.stays_trans S.follows_trans
        t.reader_was.value t.sink_was.value t.reader t.sink a u.reader_was.value u.sink_was.value u.reader u.sink b v.reader_was.value v.sink_was.value v.reader v.sink c p q };

    ghost follows_keeps = { λ t u a b p. (p.goes.follows, p.desk) };

    ghost keeps_refl = { λ a. (follows_refl a, S.follows_refl a) };

    ghost keeps_trans = { λ a b c p q. (follows_trans a b c p.0 q.0, S.follows_trans a b c p.1 q.1) };

    ghost faulted_from = { λ t a b c e p q. unreceived_from S.RowSink.own t.reader_was.value.kinds (HasLeft t.reader_was.value) S.refused_from t.reader t.sink_was.value t.sink a b c e p.1 p.0 q };
}

impl<'p, D: Disk + 'p, S: RowSink<Desk = Hand<'p, D>>> HandTask<Hand<'p, D>>
    for Receiving<'p, D, S> {
    ghost keeps_follows = { λ a b p. p.0 };
}
