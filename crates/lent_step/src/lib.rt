//! Phases in which each worker's task is lent what the worker has: the desks lie in a list of the caller's, and are
//! there again when the phase has ended, whatever it answers.
//!
//! The layer above relies on `run_lent`: it moves each desk into a task, with its work, runs the tasks, and takes them
//! apart. What a work and its desk come to is said by `LentTask`, as a task's by `Task`. The words stand in
//! `specs/Lending.antt`.
#![tactic(auto)]

mod held;
mod lent_task;
mod phase;

pub use lent_task::LentTask;
pub use phase::{Stopped, run_lent};

#[cfg(test)]
mod tests;
