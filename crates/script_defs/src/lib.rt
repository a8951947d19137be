//! What scripts, their lines, their work and their runs are.
//!
//! The definitions stand in `specs/`, in reading order: Limits, Words, Shapes, Scripts, Stating, Reading, Sound, Lists,
//! Work, Plans, Runs. They speak of whole lists and script lines, and know of no piece, buffer, worker or thread. The Rust types
//! are those that code and definitions share: words, and the shape of what stands behind each.
#![tactic(auto)]

pub mod limits;
mod shape;
mod word;

pub use shape::{ColumnPlace, ExprPlace, Names, NumberPlace, Shape, shape_of};
pub use word::{Selector, Word, selector_spelled, word_spelled};
