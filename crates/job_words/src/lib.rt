//! The words of a command line, and how a call of the program ends.
//!
//! The layer above relies on `words_mean`, which answers exactly what the words mean, and on `TopFault` with `put_fault`,
//! which writes exactly a fault's line. The words stand in `specs/`: Settings, Words, Faults.
#![tactic(auto)]

mod command;
mod fault;
mod few;
mod items;
pub mod limits;
mod setting;
mod words;

pub use command::{Command, Job};
pub use fault::{TopFault, put_fault};
pub use words::words_mean;

#[cfg(test)]
mod tests;
