//! What takes the lines of an input.
ghost use Rattle.std.specs.Prelude.{◌≡◌, ◌+◌, ◌<◌, ◌≤◌, ◌++◌, ◌∷◌, [], ℕ, List, length, OnOk, IfErr};
ghost use Rattle.row_defs.specs.Limits.{longest_text, most_rows};

use std::sync::Wait;

/// Takes the lines of an input, one after the other, until it refuses one.
pub trait LineTaker {
    /// What it is lent at each line.
    type Desk;

    /// Why it takes no more.
    type Refusal: Drop;

    /// The lines that were taken between an earlier and a later taker, in order, without their ends.
    ghost took: { Self → List (List ℕ) → Self → Type 0 };

    /// How many lines it took.
    ghost count: { Self → ℕ };

    /// Which desks serve it.
    ghost serves: { Self → Self.Desk → Type 0 };

    /// A later desk comes of an earlier one.
    ghost follows: { Self.Desk → Self.Desk → Type 0 };

    /// What is kept of a taker and its desk, whether a line is taken or not: before and after.
    ghost keeps: { Self → Self.Desk → Self → Self.Desk → Type 0 };

    /// A line was refused: the taker and the desk before, the line, the refusal, and the taker and the desk after.
    ghost refused: { Self → Self.Desk → List ℕ → Self.Refusal → Self → Self.Desk → Type 0 };

    /// Takes the line that is `prefix` and then `rest`, or refuses it: what was held over from the pieces read before,
    /// and what the last one has of it. After a refusal it isn't called again.
    fn take<R: Wait>(
        &mut self,
        rt: &R,
        desk: &mut Self::Desk,
        prefix: &[u8],
        rest: &[u8],
    ) -> Result<(), Self::Refusal>
        requires text { length prefix.now + length rest.now ≤ longest_text }
        requires few { count self.old < most_rows }
        requires serves { serves self.old desk.old }
        ensures took { OnOk result (took self.old ((prefix.now ++ rest.now) ∷ []) self.new) }
        ensures count { OnOk result (count self.new ≡ count self.old + 1) }
        ensures serves { OnOk result (serves self.new desk.new) }
        ensures keeps { keeps self.old desk.old self.new desk.new }
        ensures refused { IfErr result (λ e. refused self.old desk.old (prefix.now ++ rest.now) e self.new desk.new) }
        ensures follows { follows desk.old desk.new };

    ghost took_none: { (t : Self) → took t [] t };

    ghost took_more: { (a b c : Self) (xs ys : List (List ℕ)) → took a xs b → took b ys c → took a (xs ++ ys) c };

    ghost follows_refl: { (d : Self.Desk) → follows d d };

    ghost follows_trans: { (a b c : Self.Desk) → follows a b → follows b c → follows a c };

    ghost keeps_refl: { (t : Self) (d : Self.Desk) → keeps t d t d };

    ghost keeps_trans: { (s t u : Self) (a b c : Self.Desk) → keeps s a t b → keeps t b u c → keeps s a u c };

    /// A refusal holds from every desk that the earlier one follows.
    ghost refused_from: { (s t : Self) (a b c : Self.Desk) (line : List ℕ) (e : Self.Refusal)
        → follows a b → refused s b line e t c → refused s a line e t c };
}
