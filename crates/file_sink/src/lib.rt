//! Rows that are written to a file, as a chain gives them.
//!
//! The layer above relies on `FileSink`: it is a sink whose desk is a hand, and what it took is the rows of its file, in order.
//! Whatever a phase came to, the file may be finished or its blocks freed. `NumberedSink` is one that may write each row behind
//! its number, `numbered` of `specs/Numbered.antt`. Both may be moved to another thread, by the lemmas of
//! `proofs/Crossing.antt`.
#![tactic(auto)]

mod file_sink;
mod numbered_sink;

pub use crate::file_sink::FileSink;
pub use crate::numbered_sink::NumberedSink;
