//! One op after the other.
ghost use Rattle.std.specs.Prelude.{◌≡◌, List};
ghost use Rattle.row_defs.specs.Rows.{Row};
ghost use Rattle.lop_chain.specs.Rows.{Kinds, IsRowOf};
ghost use Rattle.lop_chain.specs.Then.{MadeThen, each_total, each_sound};

use crate::local_op::LocalOp;
use crate::sink::RowSink;
use crate::through::Through;
use dia_item::RowRef;
use std::sync::Wait;

/// Makes the rows that the second op makes of the rows that the first one makes.
#[derive(Drop)]
pub struct Then<A, B> {
    /// The op that is pushed into.
    pub first: A,
    /// The op that pushes into the sink.
    pub second: B,
}

impl<A: LocalOp, B: LocalOp> LocalOp for Then<A, B> {
    ghost fits = { λ x from to. (between : Kinds) × A.fits x.first from between × B.fits x.second between to };

    ghost makes = { λ x row rows. MadeThen (A.makes x.first) (B.makes x.second) row rows };

    fn push<R: Wait, S: RowSink>(
        &mut self,
        rt: &R,
        row: RowRef<'_>,
        desk: &mut S::Desk,
        sink: &mut S,
    ) -> Result<(), S::Refusal> {
        let mut through = Through {
            op: &mut self.second,
            sink,
        };
        self.first.push(rt, row, desk, &mut through)
    }

    ghost total = { λ x from to row h k.
        let mid = A.total x.first from h.0 row h.1 k in
        let made = each_total (B.makes x.second) h.0 mid.0 (λ r. B.total x.second h.0 to r h.2)
        (A.sound x.first from h.0 row mid.0 h.1 k mid.1) in
        (made.0, record { between = mid.0; by_first = mid.1; by_second = made.1 }) };

    ghost sound = { λ x from to row rows h k m.
        each_sound (B.makes x.second) h.0 to m.between rows (λ r made. B.sound x.second h.0 to r made h.2)
        (A.sound x.first from h.0 row m.between h.1 k m.by_first) m.by_second };
}
