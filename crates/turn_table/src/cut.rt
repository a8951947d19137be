//! How a view is cut in two.

use std::marker::Brand;

/// What the two seats of a split have. A type that says so needs no fields; no value of it is made.
pub trait Cut<V> {
    // What the seat that is split keeps, of the view before.
    ghost kept: { V → V };

    // What the new seat has, of the view before.
    ghost given: { V → V };
}

/// Where a cut depends on a number at run time, a call passes this, and its proof picks the cut.
impl<V> Cut<V> for Brand {
    ghost kept = { λ v. v };

    ghost given = { λ v. v };
}
