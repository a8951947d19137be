//! The steps of a work that sends: some rows of the feed at each.
ghost use Rattle.std.specs.Prelude.{◌≡◌, [], length};
ghost use Rattle.block_pool.specs.Handles.{Follows};
ghost use Rattle.block_pool.specs.Follows.{follows_refl, follows_trans};
ghost use Rattle.scatter.specs.Sends.{CanGoOn, IsAllSent, Unsent, HasGone};
ghost use Rattle.scatter.specs.SendLaws.{unsent_from, gone_refl, gone_trans};

use super::Sending;
use crate::feed_err::FeedErr;
use crate::pushing::laws_of;
use block_pool::Hand;
use dia_edge::Disk;
use hand_phase::HandTask;
use lent_step::LentTask;
use lop_chain::RowSink;
use std::sync::Wait;
use worker_step::Progress;

/// How many rows a step sends at most: so many that what a phase does around a step doesn't tell.
const BATCH: u32 = 256;

impl<'p, D: Disk + 'p, S: RowSink<Desk = Hand<'p, D>>> LentTask for Sending<'p, D, S> {
    type Desk = Hand<'p, D>;

    type Fault = FeedErr<S::Refusal>;

    ghost ready = { λ t a. CanGoOn S.RowSink t.feed_was.value t.sink_was.value t.feed t.sink a };

    ghost follows = { λ t a u b. HasGone S.RowSink t.feed_was.value t.sink_was.value t.feed t.sink a u.feed_was.value u.sink_was.value u.feed u.sink b };

    ghost keeps = { λ a b. Follows a b × S.follows a b };

    ghost done = { λ t a. IsAllSent S.RowSink t.feed_was.value t.sink_was.value t.feed t.sink a };

    ghost faulted = { λ a e t b. Unsent S.RowSink t.feed_was.value t.sink_was.value a e t.feed t.sink b };

    ghost left = { λ t. length t.feed.left };

    fn step<R: Wait>(
        &mut self,
        rt: &R,
        hand: &mut Hand<'p, D>,
    ) -> Result<Progress, FeedErr<S::Refusal>> {
        laws_of::<S>();
        self.feed.push_rows(rt, hand, &mut self.sink, BATCH)
    }

    ghost follows_refl = { λ t a. gone_refl S.RowSink.own S.stays_refl S.follows_refl t.feed_was.value t.sink_was.value t.feed t.sink a };

    ghost follows_trans = { λ t u v a b c p q. gone_trans S.RowSink.own S.stays_trans S.follows_trans
        t.feed_was.value t.sink_was.value t.feed t.sink a u.feed_was.value u.sink_was.value u.feed u.sink b v.feed_was.value v.sink_was.value v.feed v.sink c p q };

    ghost follows_keeps = { λ t u a b p. (p.goes.follows, p.desk) };

    ghost keeps_refl = { λ a. (follows_refl a, S.follows_refl a) };

    ghost keeps_trans = { λ a b c p q. (follows_trans a b c p.0 q.0, S.follows_trans a b c p.1 q.1) };

    ghost faulted_from = { λ t a b c e p q. unsent_from S.RowSink.own S.refused_from t.feed_was.value t.feed t.sink_was.value t.sink a b c e p.1 p.0 q };
}

impl<'p, D: Disk + 'p, S: RowSink<Desk = Hand<'p, D>>> HandTask<Hand<'p, D>> for Sending<'p, D, S> {
    ghost keeps_follows = { λ a b p. p.0 };
}
