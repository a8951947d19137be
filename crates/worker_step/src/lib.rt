//! Workers: the tasks of a phase, each stepped to its end or to its fault, by threads or in an order that a number
//! picks.
//!
//! The layer above relies on two things. A `Task` says what each of its steps keeps, and what holds when it is done
//! or has faulted. `Way::run` ends every task; it answers Ok where all are done, else the fault of the task of the
//! lowest rank that faulted. So what a phase comes to doesn't depend on how its tasks are run. Not said: which task
//! steps when, which no task can tell.
//!
//! The words stand in `specs/`: Tasks for what is said of one task and of all, Ways for what a phase leaves of a way,
//! Order for the generator and for how tasks stand between steps.
#![tactic(auto)]

mod order;
mod task;
mod threads;
mod way;

pub use task::{MOST_TASKS, Progress, Task};
pub use way::Way;

#[cfg(test)]
mod tests;
