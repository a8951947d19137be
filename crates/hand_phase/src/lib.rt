//! Phases in which each worker's task is lent the worker's hand of the pool.
//!
//! The layer above relies on `run_hands`: on every answer as many hands lie at the same ranks, each of the same pool, and
//! what a hand notes of the disk, its hits among it, has not fallen. The rest is `run_lent`'s.
#![tactic(auto)]

mod hand_task;
mod phase;

pub use hand_task::{AnyHand, HandTask};
pub use phase::run_hands;
