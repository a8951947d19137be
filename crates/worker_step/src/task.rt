//! What a worker does in a phase.
ghost use Rattle.std.specs.Prelude.{◌≡◌, ◌<◌, ℕ, OnOk, IfErr};
ghost use Rattle.worker_step.specs.Tasks.{OnMore, OnDone};

use std::sync::Wait;

/// The most tasks that a phase may have, one for each worker.
pub const MOST_TASKS: usize = 16;

/// What a step that met no fault tells.
#[derive(Clone, Copy, Debug, PartialEq, Eq)]
pub enum Progress {
    /// There is more to do.
    More,
    /// That was all.
    Done,
}

/// A piece of work that is done in steps, each of which ends. A task waits for no other task of its phase.
pub trait Task {
    /// Why it can't go on.
    type Fault: Drop;

    /// The task may be stepped.
    ghost ready: { Self → Type 0 };

    /// What holds of a task and a later state of it.
    ghost follows: { Self → Self → Type 0 };

    /// All of it is done.
    ghost done: { Self → Type 0 };

    /// It ended with this fault.
    ghost faulted: { Self → Self.Fault → Type 0 };

    /// How many steps with more to do are left at most.
    ghost left: { Self → ℕ };

    /// Makes one step. After `Done` and after a fault there is no further step.
    fn step<R: Wait>(&mut self, rt: &R) -> Result<Progress, Self::Fault>
        requires ready { ready self.old }
        ensures follows { follows self.old self.new }
        ensures ready { OnMore result (ready self.new) }
        ensures falls { OnMore result (left self.new < left self.old) }
        ensures done { OnDone result (done self.new) }
        ensures faulted { IfErr result (λ fault. faulted self.new fault) };

    ghost follows_refl: { (t : Self) → follows t t };

    ghost follows_trans: { (a b c : Self) → follows a b → follows b c → follows a c };
}

/// Steps a task to its end or to its fault.
pub(crate) fn run_to_end<R: Wait, T: Task>(rt: &R, task: &mut T) -> Result<(), T::Fault>
    requires { T.ready task.old }
    ensures follows { T.follows task.old task.new }
    ensures done { OnOk result (T.done task.new) }
    ensures faulted { IfErr result (λ fault. T.faulted task.new fault) }
{
    'steps: loop {
        match task.step(rt) {
            Ok(Progress::More) => {}
            Ok(Progress::Done) => return Ok(()),
            Err(fault) => return Err(fault),
        }
    }
}
