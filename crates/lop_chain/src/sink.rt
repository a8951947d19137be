//! What takes rows.
ghost use Rattle.std.specs.Prelude.{◌≡◌, ◌++◌, ◌∷◌, [], ℕ, List, Bool, false, true, OnOk, OnErr, IfErr};
ghost use Rattle.row_defs.specs.Rows.{Row, kinds_of};
ghost use Rattle.dia_item.specs.Lent.{row_in_ref};
ghost use Rattle.lop_chain.specs.Rows.{Kinds};

use dia_item::RowRef;
use std::sync::Wait;

/// Takes rows, one after the other, until it refuses one.
pub trait RowSink {
    /// What it is lent at each call.
    type Desk;

    /// Why it takes no more.
    type Refusal: Drop;

    /// The rows that were taken between an earlier and a later sink, in order.
    ghost took: { Self → List Row → Self → Type 0 };

    /// The kinds of row that it takes.
    ghost accepts: { Self → Kinds → Type 0 };

    /// Which desks serve it.
    ghost serves: { Self → Self.Desk → Type 0 };

    /// Whether it takes no more.
    ghost is_shut: { Self → Bool };

    /// A number that a row taken leaves as it was.
    ghost held: { Self → Self.Desk → ℕ };

    /// A later desk comes of an earlier one.
    ghost follows: { Self.Desk → Self.Desk → Type 0 };

    /// A row was refused: the sink and the desk before, the row, the refusal, and the sink and the desk after.
    ghost refused: { Self → Self.Desk → Row → Self.Refusal → Self → Self.Desk → Type 0 };

    /// What a later sink keeps of an earlier one, whatever it answers.
    ghost stays: { Self → Self → Type 0 };

    /// Takes a row, or refuses it for ever: after a refusal the sink is shut, and nothing else shuts it.
    fn take<R: Wait>(
        &mut self,
        rt: &R,
        desk: &mut Self::Desk,
        row: RowRef<'_>,
    ) -> Result<(), Self::Refusal>
        requires kinds { accepts self.old (kinds_of (row_in_ref row)) }
        requires serves { serves self.old desk.old }
        requires is_open { is_shut self.old ≡ false }

        ensures took { OnOk result (took self.old (row_in_ref row.entry ∷ []) self.new) }
        ensures accepts { OnOk result ((kinds : Kinds) → accepts self.old kinds → accepts self.new kinds) }
        ensures accepted { OnOk result ((kinds : Kinds) → accepts self.new kinds → accepts self.old kinds) }
        ensures serves { OnOk result (serves self.new desk.new) }
        ensures is_open { OnOk result (is_shut self.new ≡ false) }
        ensures held { OnOk result (held self.new desk.new ≡ held self.old desk.old) }

        ensures shut { OnErr result (is_shut self.new ≡ true) }
        ensures refused { IfErr result (λ e. refused self.old desk.old (row_in_ref row.entry) e self.new desk.new) }

        ensures follows { follows desk.old desk.new }
        ensures stays { stays self.old self.new };

    ghost took_none: { (s : Self) → took s [] s };

    ghost took_more: { (a b c : Self) (xs ys : List Row) → took a xs b → took b ys c → took a (xs ++ ys) c };

    ghost follows_refl: { (d : Self.Desk) → follows d d };

    ghost follows_trans: { (a b c : Self.Desk) → follows a b → follows b c → follows a c };

    ghost stays_refl: { (s : Self) → stays s s };

    ghost stays_trans: { (a b c : Self) → stays a b → stays b c → stays a c };

    /// A refusal holds from every desk that the earlier one follows.
    ghost refused_from: { (s t : Self) (a b c : Self.Desk) (row : Row) (e : Self.Refusal)
        → follows a b → refused s b row e t c → refused s a row e t c };
}
