//! A scatter that says of what kinds its rows are.
ghost use Rattle.std.specs.Prelude.{◌≡◌, ◌+◌, ℕ};
ghost use Rattle.block_pool.specs.Handles.{Follows};
ghost use Rattle.block_pool.specs.Follows.{follows_refl, follows_trans};
ghost use Rattle.exchange.specs.Dealing.{open_frames};
ghost use Rattle.exchange.specs.Serving.{Accepts, IsServed, Stays, RefusesRow, stays_same, stays_too, refuses_from};
ghost use Rattle.link.specs.Dealers.{TookOfKinds, of_kinds_none, of_kinds_more};

use block_pool::Hand;
use dia_edge::Disk;
use dia_item::RowRef;
use exchange::{Scatter, ScatterErr};
use lop_chain::RowSink;
use multiplexer::Post;
use std::marker::Model;
use std::sync::Wait;

/// A scatter; of the rows that it took contracts also see that they are of its kinds, with cells that fit.
#[derive(Drop)]
pub(crate) struct Dealer<'p, D: Disk, F, P> {
    pub(crate) scatter: Scatter<'p, D, F, P>,
}

impl<'p, D: Disk, F, P> Model for Dealer<'p, D, F, P> {
    ghost use Rattle.std.specs.Coded.{codes};
    ghost use Rattle.exchange.specs.Serving.{ScatterValue};

    ghost Value = { ScatterValue F P };

    ghost coded = { Prim.hlevel (codes, F.code, P.code) };

    ghost view = { λ d. d.scatter };
}

impl<'p, D: Disk, F: Fn(RowRef<'_>, u64) -> u32, P: Post> RowSink for Dealer<'p, D, F, P> {
    type Desk = Hand<'p, D>;

    type Refusal = ScatterErr;

    ghost took = { TookOfKinds F.post P.Post };

    ghost accepts = { Accepts F.pre F.post P.Post };

    ghost serves = { IsServed P.Post };

    ghost is_shut = { λ s. s.is_shut };

    ghost held = { λ s d. d.permits + open_frames s.frames };

    ghost follows = { Follows };

    ghost refused = { λ s a row e t b. RefusesRow e s.taken a b };

    ghost stays = { Stays P.Post };

    fn take<R: Wait>(
        &mut self,
        rt: &R,
        desk: &mut Hand<'p, D>,
        row: RowRef<'_>,
    ) -> Result<(), ScatterErr> {
        let _bytes = row.bytes();
        self.scatter.take(rt, desk, row)
    }

    ghost took_none = { of_kinds_none F.post P.Post };

    ghost took_more = { of_kinds_more F.post P.Post };

    ghost follows_refl = { follows_refl };

    ghost follows_trans = { follows_trans };

    ghost stays_refl = { stays_same P.Post };

    ghost stays_trans = { stays_too P.Post };

    ghost refused_from = { λ s t a b c row e p q. refuses_from e s.taken a b c p q };
}
