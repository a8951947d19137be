//! The laws of lines and of words: each is the contract of a function that does nothing.
//!
//! The definitions, which are `row_defs`', cut bytes by a recursion. The laws say without it what the lines and the words of
//! bytes are: what holds of them, and that it holds of no other lists. Their statements stand in `specs/`: Lines, Words.
#![tactic(auto)]

mod laws;

pub use laws::{
    lines_are_bytes, no_other_lines, no_other_text_words, no_other_words, text_words_are_runs,
    words_are_runs,
};
