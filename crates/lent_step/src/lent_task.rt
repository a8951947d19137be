//! What a worker does in a phase with what it is lent.
ghost use Rattle.std.specs.Prelude.{◌≡◌, ◌<◌, ℕ, IfErr};
ghost use Rattle.worker_step.specs.Tasks.{OnMore, OnDone};

use std::sync::Wait;
use worker_step::Progress;

/// A piece of work that is done in steps, and is lent a desk at each.
///
/// The desk is what the worker keeps from phase to phase, and what several works of different kinds are lent in turn.
pub trait LentTask {
    /// What it is lent at each step.
    type Desk;

    /// Why it can't go on.
    type Fault: Drop;

    /// The work may be stepped with this desk.
    ghost ready: { Self → Self.Desk → Type 0 };

    /// What holds of a work with its desk and later states of both.
    ghost follows: { Self → Self.Desk → Self → Self.Desk → Type 0 };

    /// What holds of a desk and a later state of it.
    ghost keeps: { Self.Desk → Self.Desk → Type 0 };

    /// All of it is done.
    ghost done: { Self → Self.Desk → Type 0 };

    /// It ended with this fault: a desk before, the fault, and the work and the desk after.
    ghost faulted: { Self.Desk → Self.Fault → Self → Self.Desk → Type 0 };

    /// How many steps with more to do are left at most.
    ghost left: { Self → ℕ };

    /// Makes one step. After `Done` and after a fault there is no further step.
    fn step<R: Wait>(&mut self, rt: &R, desk: &mut Self::Desk) -> Result<Progress, Self::Fault>
        requires ready { ready self.old desk.old }
        ensures follows { follows self.old desk.old self.new desk.new }
        ensures ready { OnMore result (ready self.new desk.new) }
        ensures falls { OnMore result (left self.new < left self.old) }
        ensures done { OnDone result (done self.new desk.new) }
        ensures faulted { IfErr result (λ fault. faulted desk.old fault self.new desk.new) };

    ghost follows_refl: { (t : Self) (a : Self.Desk) → follows t a t a };

    ghost follows_trans: { (t u v : Self) (a b c : Self.Desk) → follows t a u b → follows u b v c → follows t a v c };

    ghost follows_keeps: { (t u : Self) (a b : Self.Desk) → follows t a u b → keeps a b };

    ghost keeps_refl: { (a : Self.Desk) → keeps a a };

    ghost keeps_trans: { (a b c : Self.Desk) → keeps a b → keeps b c → keeps a c };

    /// A fault holds from every earlier state of the desk, so from that at the start of the phase.
    ghost faulted_from: { (t : Self) (a b c : Self.Desk) (e : Self.Fault) → keeps a b → faulted b e t c → faulted a e t c };
}
