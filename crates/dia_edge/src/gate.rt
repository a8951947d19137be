//! Gates: where workers may be held at the start of a phase.

use std::sync::Wait;

/// Is called by each worker at the start of each phase, and may hold it there.
pub trait Gate {
    /// The worker of this rank begins this phase.
    fn at<R: Wait>(&self, rt: &R, worker: u32, phase: u32);
}
