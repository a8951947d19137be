//! Bytes cut at separators: the next line of an input or a script, the words of a line.
//!
//! The layers above rely on one fact: the piece that is cut off and the pieces of the rest are the pieces of the
//! whole, as `Pieces` of the definitions says.
#![tactic(auto)]

mod cut;
mod split;

pub use cut::{cut_off, find_separator};
pub use split::words;
