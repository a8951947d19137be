//! Actions on the rows that all workers' feeds give: what `size` and `sum` come to.
//!
//! The layer above relies on `size` and `sum`: each is one phase over all workers, of which each counts or adds up the rows of
//! its own feed. `rows_arriving` is the count alone, and `count_phase` the phase that counts, by its counters. The lines in
//! stock are afterwards as they were, and each worker's hand is there.
#![tactic(auto)]

mod action;
mod adding;
mod counter;
mod counting;
mod known;
mod summer;

pub use action::{ActErr, refusal_of, size, sum};
pub use counter::{Counter, TooManyRows};
pub use counting::{count_phase, counted_in_all, counters_for, few, rows_arriving};
pub use known::known_extent;
pub use summer::Summer;
