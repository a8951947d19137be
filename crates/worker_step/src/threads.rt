//! A thread for each task.
ghost use Rattle.std.specs.Prelude.{◌≡◌, ◌+◌, ◌≤◌, ◌∷◌, All, length, OnOk, IfErr};
ghost use Rattle.std.specs.List.{AllZip};
ghost use Rattle.std.specs.Thread.{IsSync, IsSend};
ghost use Rattle.worker_step.specs.Tasks.{IsFaultOfLowest, first_fault};

use crate::task::{MOST_TASKS, Task, run_to_end};
use dia_edge::Gate;
use std::sync::Wait;
use std::thread::{Threads, join_mut};

/// One worker's phase.
fn work<R: Wait, G: Gate, T: Task>(
    rt: &R,
    gate: &G,
    phase: u32,
    rank: u32,
    task: &mut T,
) -> Result<(), T::Fault>
    requires { T.ready task.old }
    ensures follows { T.follows task.old task.new }
    ensures done { OnOk result (T.done task.new) }
    ensures faulted { IfErr result (λ fault. T.faulted task.new fault) }
{
    gate.at(rt, rank, phase);
    run_to_end(rt, task)
}

/// Runs the first task in a thread of its own, and the rest beside it.
///
/// `join_mut` calls the first closure itself, after the second, where no thread can be had.
#[cycle(threads)]
fn run_both<R: Threads + Wait + Sync, G: Gate + Sync, T: Task<Fault = F> + Send, F: Send + Drop>(
    rt: &R,
    gate: &G,
    phase: u32,
    rank: u32,
    first: &mut T,
    rest: &mut [T],
) -> (Result<(), F>, Result<(), F>)
    requires few { rank + 1 + length rest.old ≤ MOST_TASKS }
    requires first { T.ready first.old }
    requires rest { All T.ready rest.old }
    ensures first { T.follows first.old first.new × OnOk result.0 (T.done first.new) × IfErr result.0 (λ e. T.faulted first.new e) }
    ensures rest { AllZip T.follows rest.old rest.new × OnOk result.1 (All T.done rest.new) × IfErr result.1 (λ e. IsFaultOfLowest T.done T.faulted rest.new e) }
{
    let mut here = || -> Result<(), F>
        requires { IsSync R.row × IsSync G.row × T.ready first.now }
        ensures { T.follows first.entry.now first.exit.now × OnOk result (T.done first.exit.now) × IfErr result (λ e. T.faulted first.exit.now e) }
    { work(rt, gate, phase, rank, first) };
    let mut beside = || -> Result<(), F>
        requires { IsSync R.row × IsSync G.row × IsSend T.row × IsSend F.row × (rank + 1 + length rest.now ≤ MOST_TASKS) × All T.ready rest.now }
        ensures { AllZip T.follows rest.entry.now rest.exit.now × OnOk result (All T.done rest.exit.now) × IfErr result (λ e. IsFaultOfLowest T.done T.faulted rest.exit.now e) }
    { run_by_threads(rt, gate, phase, rank + 1, rest) };
    join_mut(rt, &mut here, &mut beside)
}

/// Runs the first task and the rest; a task alone is run by the caller's thread.
#[cycle(threads)]
fn run_some<R: Threads + Wait + Sync, G: Gate + Sync, T: Task<Fault = F> + Send, F: Send + Drop>(
    rt: &R,
    gate: &G,
    phase: u32,
    rank: u32,
    first: &mut T,
    rest: &mut [T],
) -> Result<(), F>
    requires few { rank + 1 + length rest.old ≤ MOST_TASKS }
    requires first { T.ready first.old }
    requires rest { All T.ready rest.old }
    ensures first { T.follows first.old first.new }
    ensures rest { AllZip T.follows rest.old rest.new }
    ensures done { OnOk result (All T.done (first.new ∷ rest.new)) }
    ensures faulted { IfErr result (λ e. IsFaultOfLowest T.done T.faulted (first.new ∷ rest.new) e) }
{
    if rest.is_empty() {
        return work(rt, gate, phase, rank, first);
    }
    let (one, others) = run_both(rt, gate, phase, rank, first, rest);
    lowest(one, others)
}

/// Runs each task, the first of which has this rank, in a thread of its own, but the last in the caller's.
#[cycle(threads)]
pub(crate) fn run_by_threads<
    R: Threads + Wait + Sync,
    G: Gate + Sync,
    T: Task<Fault = F> + Send,
    F: Send + Drop,
>(rt: &R, gate: &G, phase: u32, rank: u32, tasks: &mut [T]) -> Result<(), F>
    requires few { rank + length tasks.old ≤ MOST_TASKS }
    requires ready { All T.ready tasks.old }
    ensures follows { AllZip T.follows tasks.old tasks.new }
    ensures done { OnOk result (All T.done tasks.new) }
    ensures faulted { IfErr result (λ e. IsFaultOfLowest T.done T.faulted tasks.new e) }
{
    let Some((first, rest)) = tasks.split_first_mut() else {
        return Ok(());
    };
    run_some(rt, gate, phase, rank, first, rest)
}

/// The first of two faults.
fn lowest<F: Drop>(first: Result<(), F>, second: Result<(), F>) -> Result<(), F>
    ensures { result ≡ first_fault first second }
{
    match first {
        Ok(()) => second,
        Err(fault) => Err(fault),
    }
}
