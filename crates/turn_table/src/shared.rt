//! What a state says of itself, so that seats may share it.
ghost use Rattle.std.specs.Prelude.{◌≡◌, ℕ, List, [], ◌∷◌, ◌++◌, slice_set};
ghost use mathlib.Core.Option.{some};
ghost use lib.ListN.{get_elem?};

/// A state that is handed around, with its rule. A seat has a view, which contracts alone know; the rule ties the
/// state to the views of all seats, whichever thread has them.
pub trait Shared {
    /// What the rule sees of the state. No value of it is made.
    type Plain;

    /// What a seat has of the state. No value of it is made.
    type View;

    // What the rule sees of this state.
    ghost plain: { Self → Self.Plain };

    // The rule, of the state and of the views of all seats.
    ghost holds: { Self.Plain → List Self.View → Type 0 };

    // The view of the first seat, of the state at the opening.
    ghost opening: { Self.Plain → Self.View };

    // A view may be cut in these two.
    ghost cuts: { Self.View → Self.View → Self.View → Type 0 };

    // Two views as one.
    ghost added: { Self.View → Self.View → Self.View };

    // What a view leaves where it is added to another.
    ghost spent: { Self.View };

    // The rule still holds where one view is cut in two.
    ghost cut_holds: { (x : Self.Plain) (views : List Self.View) (i : ℕ) (v left right : Self.View)
        → holds x views → get_elem? views i ≡ some v → cuts v left right
        → holds x (slice_set views i left ++ right ∷ []) };

    // The rule still holds where one view is added to another and is spent.
    ghost added_holds: { (x : Self.Plain) (views : List Self.View) (i j : ℕ) (v w : Self.View)
        → holds x views → get_elem? views i ≡ some v → get_elem? views j ≡ some w → ¬ (j ≡ i)
        → holds x (slice_set (slice_set views i (added v w)) j spent) };
}
