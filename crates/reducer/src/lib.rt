//! Reducers: what two fields of a column come to, and so many.
//!
//! The layer above relies on the laws: each reducer associates, those that are `Commuting` commute, folds of parts come to
//! the fold of the whole, and rows that are reduced by key may be reduced once more. `Named` of `fold_defs`, the reducers of
//! the language, is a `Reducer` too.
#![tactic(auto)]

mod ends;
mod laws;
mod named;
mod numbers;
mod reducer;
mod texts;

pub use ends::{First, Last};
pub use laws::{
    folds_by_column, folds_in_any_order, folds_of_parts, reduces_in_any_order, reduces_more,
    reduces_parts, reduces_to_any_order,
};
pub use numbers::{And, Max, Min, Or, Sum, Xor};
pub use reducer::{Commuting, Reducer};
pub use texts::{TextMax, TextMin};

#[cfg(test)]
mod tests;
