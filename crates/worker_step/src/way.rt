//! How the tasks of a phase are run.
ghost use Rattle.std.specs.Prelude.{◌≡◌, ◌≤◌, All, length, OnOk, IfErr};
ghost use Rattle.std.specs.List.{AllZip};
ghost use Rattle.worker_step.specs.Tasks.{IsFaultOfLowest};
ghost use Rattle.worker_step.specs.Ways.{IsNextPhase};

use crate::order::run_in_order;
use crate::task::{MOST_TASKS, Task};
use crate::threads::run_by_threads;
use dia_edge::Gate;
use std::sync::Wait;
use std::thread::Threads;

/// The way in which the tasks of a run take their steps, and what the next phase goes on from.
#[derive(Drop)]
pub enum Way<'g, G: Gate> {
    /// Each task has a thread of its own, and calls the gate once, at the start of the phase.
    Threads {
        /// What may hold a worker.
        gate: &'g G,
        /// The number of the next phase. It rises by one with each, and stays at the end of its type.
        phase: u32,
    },
    /// One task at a time makes one step, as a generator picks. The gate isn't called.
    Order {
        /// The generator's last number.
        seed: u64,
    },
}

impl<'g, G: Gate + Sync> Way<'g, G> {
    /// Runs one phase: each task to its end or to its fault, whatever the others do. A task's rank is its place.
    ///
    /// Answers when all have ended: the fault of the task of the lowest rank that faulted, if one did. It takes no
    /// memory. Where a thread can't be started, another task's thread does that task's work too; one task alone is
    /// run by the caller's.
    pub fn run<R: Threads + Wait + Sync, T: Task<Fault = F> + Send, F: Send + Drop>(
        &mut self,
        rt: &R,
        tasks: &mut [T],
    ) -> Result<(), F>
        requires few { length tasks.old ≤ MOST_TASKS }
        requires ready { All T.ready tasks.old }
        ensures follows { AllZip T.follows tasks.old tasks.new }
        ensures done { OnOk result (All T.done tasks.new) }
        ensures faulted { IfErr result (λ fault. IsFaultOfLowest T.done T.faulted tasks.new fault) }
        ensures next { IsNextPhase (length tasks.old) self.old self.new }
    {
        match self {
            Way::Threads { gate, phase } => {
                let this = *phase;
                *phase = this.saturating_add(1);
                run_by_threads(rt, *gate, this, 0, tasks)
            }
            Way::Order { seed } => run_in_order(rt, seed, tasks),
        }
    }
}
