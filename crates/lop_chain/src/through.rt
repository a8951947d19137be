//! An op before a sink.
ghost use Rattle.std.specs.Prelude.{◌≡◌, refl};
ghost use Rattle.std.proofs.Common.{◌∙◌};
ghost use Rattle.lop_chain.specs.Rows.{Kinds};
ghost use Rattle.lop_chain.specs.Made.{MakesAsBefore, MakesAsBefore-refl, MakesAsBefore-trans};
ghost use Rattle.lop_chain.specs.Through.{CarriedOn, RefusedBelow, CarriedOn-none, CarriedOn-more, RefusedBelow-from};

use crate::local_op::LocalOp;
use crate::sink::RowSink;
use dia_item::RowRef;
use std::sync::Wait;

/// A sink that pushes each row through an op into the sink below: what `Then` hands to its first op.
#[derive(Drop)]
pub(crate) struct Through<'a, B, S> {
    pub(crate) op: &'a mut B,
    pub(crate) sink: &'a mut S,
}

impl<'a, B: LocalOp, S: RowSink> RowSink for Through<'a, B, S> {
    type Desk = S::Desk;

    type Refusal = S::Refusal;

    ghost took = { λ t rows u. CarriedOn B.LocalOp S.RowSink t.op.now t.sink.now rows u.op.now u.sink.now };

    ghost accepts = { λ t from. (to : Kinds) × B.fits t.op.now from to × S.accepts t.sink.now to };

    ghost serves = { λ t d. S.serves t.sink.now d };

    ghost is_shut = { λ t. S.is_shut t.sink.now };

    ghost held = { λ t d. S.held t.sink.now d };

    ghost follows = { S.follows };

    ghost refused = { λ t d row e u b. RefusedBelow B.LocalOp S.RowSink t.op.now t.sink.now d row e u.op.now u.sink.now b };

    // The names of the two loans stay, so that `Then` knows what they hold after the call.
    ghost stays = { λ t u. (u.op.ghost_name ≡ t.op.ghost_name) × (u.sink.ghost_name ≡ t.sink.ghost_name)
        × MakesAsBefore B.fits B.makes t.op.now u.op.now × S.stays t.sink.now u.sink.now };

    fn take<R: Wait>(
        &mut self,
        rt: &R,
        desk: &mut S::Desk,
        row: RowRef<'_>,
    ) -> Result<(), S::Refusal> {
        self.op.push(rt, row, desk, self.sink)
    }

    ghost took_none = { λ t. CarriedOn-none B.LocalOp.own S.RowSink.own t.op.now t.sink.now (S.took_none t.sink.now) };

    ghost took_more = { λ a b c xs ys. CarriedOn-more B.LocalOp.own S.RowSink.own S.took_more
        a.op.now b.op.now c.op.now a.sink.now b.sink.now c.sink.now xs ys };

    ghost follows_refl = { S.follows_refl };

    ghost follows_trans = { S.follows_trans };

    ghost stays_refl = { λ t. (refl, refl, MakesAsBefore-refl B.fits B.makes t.op.now, S.stays_refl t.sink.now) };

    ghost stays_trans = { λ a b c p q. (
      q.0 ∙ p.0,
      q.1 ∙ p.1,
      MakesAsBefore-trans B.fits B.makes a.op.now b.op.now c.op.now p.2 q.2,
      S.stays_trans a.sink.now b.sink.now c.sink.now p.3 q.3,
    ) };

    ghost refused_from = { λ s t. RefusedBelow-from B.LocalOp.own S.RowSink.own S.refused_from s.op.now t.op.now s.sink.now t.sink.now };
}
