//! What a give does to the giver's view.

use std::marker::Brand;

/// How a seat's view changes where it gives the state back. A type that says so needs no fields; no value of it is
/// made. `X` is the plain data of the state, and `V` a view.
pub trait Event<X, V> {
    // The view afterwards: of the state as it was found, as it is given, and of the view before.
    ghost after: { X → X → V → V };
}

/// Where an event depends on a number at run time, a call passes this, and its proof picks the event.
impl<X, V> Event<X, V> for Brand {
    ghost after = { λ _ _ v. v };
}
