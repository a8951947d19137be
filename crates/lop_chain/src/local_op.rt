//! What makes rows of rows.
ghost use Rattle.std.specs.Prelude.{◌≡◌, List, false, OnOk, IfErr};
ghost use Rattle.std.specs.List.{AllByRecursion};
ghost use Rattle.row_defs.specs.Rows.{Row, kinds_of};
ghost use Rattle.dia_item.specs.Lent.{row_in_ref};
ghost use Rattle.lop_chain.specs.Rows.{Kinds, IsRowOf};
ghost use Rattle.lop_chain.specs.Made.{MakesAsBefore};
ghost use Rattle.lop_chain.specs.Calls.{TookAllMade, TookSomeMade};

use crate::sink::RowSink;
use dia_item::RowRef;
use std::sync::Wait;

/// Makes rows of one row, whatever came before it, and pushes them into a sink.
pub trait LocalOp {
    /// Of rows of the first kinds it makes rows of the second.
    ghost fits: { Self → Kinds → Kinds → Type 0 };

    /// The rows made of one row.
    ghost makes: { Self → Row → List Row → Type 0 };

    /// Pushes all rows made of a row into the sink before it answers. The only refusal is the sink's own: the rows
    /// before the refused one were taken, and nothing was offered after it.
    fn push<R: Wait, S: RowSink>(
        &mut self,
        rt: &R,
        row: RowRef<'_>,
        desk: &mut S::Desk,
        sink: &mut S,
    ) -> Result<(), S::Refusal>
        requires fits { (to : Kinds) × fits self.old (kinds_of (row_in_ref row)) to × S.accepts sink.old to }
        requires serves { S.serves sink.old desk.old }
        requires is_open { S.is_shut sink.old ≡ false }

        ensures ok { OnOk result
            (TookAllMade S.RowSink (makes self.old (row_in_ref row.entry)) sink.old desk.old sink.new desk.new) }
        ensures err { IfErr result (λ e.
            TookSomeMade S.RowSink (makes self.old (row_in_ref row.entry)) sink.old desk.old e sink.new desk.new) }

        ensures same { MakesAsBefore fits makes self.old self.new }
        ensures follows { S.follows desk.old desk.new }
        ensures stays { S.stays sink.old sink.new };

    /// Of each row that fits some rows are made.
    ghost total: { (x : Self) (from to : Kinds) (row : Row)
        → fits x from to → IsRowOf from row → (rows : List Row) × makes x row rows };

    /// The rows made have the kinds.
    ghost sound: { (x : Self) (from to : Kinds) (row : Row) (rows : List Row)
        → fits x from to → IsRowOf from row → makes x row rows → AllByRecursion (IsRowOf to) rows };
}
