//! What reducers make of cells, and of the rows of a key.
//!
//! The definitions stand in `specs/`, in reading order: Folds, Reduced. They speak of whole lists, and know of no table,
//! worker or order in which rows come. `Named` is shared by code and definitions.
#![tactic(auto)]

mod named;

pub use named::Named;
