//! Runs a job.
ghost use Rattle.std.specs.Prelude.{◌≡◌, None, Some};
ghost use Rattle.job_words.specs.Within.{IsJobWithin};
ghost use Rattle.script_run.specs.declared.pool.Setup as setups;
ghost use Rattle.thrill_top.specs.Ends.{status_in};
ghost use Rattle.thrill_top.specs.Errors.{run_fault, run_end};
ghost use Rattle.thrill_top.specs.Promise.{KeepsPromise};

use crate::script::script_named;
use dia_edge::{Disk, Gate, Shelf, Sink};
use job_words::{Job, TopFault};
use script_run::{RunErr, Setup, run_job};
use std::alloc::Global;
use std::sync::Wait;
use std::thread::Threads;

/// How a call of the program ended.
#[derive(Drop)]
pub struct TopEnd<D> {
    /// The status: 0, or that of the fault.
    pub status: u8,
    /// The fault, where there was one.
    pub fault: Option<TopFault>,
    /// The disk, handed back.
    pub disk: D,
}

/// The end with this fault.
pub(crate) fn stopped<D>(fault: TopFault, disk: D) -> TopEnd<D>
    ensures status { result.status ≡ status_in result.fault }
    ensures fault { result.fault ≡ Some fault }
    ensures disk { result.disk ≡ disk }
{
    TopEnd {
        status: fault.status(),
        fault: Some(fault),
        disk,
    }
}

fn fault_of_run(e: RunErr) -> TopFault
    ensures { result ≡ run_fault e }
{
    match e {
        RunErr::Missing { name } => TopFault::Missing { name },
        RunErr::LineTooLong { name, line } => TopFault::LineTooLong { name, line },
        RunErr::InputTooLong { name } => TopFault::InputTooLong { name },
        RunErr::PoolTooSmall { frames, need } => TopFault::PoolTooSmall { frames, need },
        RunErr::TooManyRows { line } => TopFault::TooManyRows { line },
        RunErr::Read { count } => TopFault::ReadFault { count },
        RunErr::Write { count } => TopFault::WriteFault { count },
        RunErr::Disk { count } => TopFault::DiskFault { count },
        RunErr::Damaged => TopFault::Damaged,
        RunErr::NoMemory => TopFault::NoMemory,
    }
}

/// The end of a run that answered so.
fn ended<D: Drop>(answer: Result<(), RunErr>, disk: D) -> TopEnd<D>
    ensures status { result.status ≡ status_in result.fault }
    ensures fault { result.fault ≡ run_end answer }
    ensures disk { result.disk ≡ disk }
{
    match answer {
        Ok(()) => TopEnd {
            status: 0,
            fault: None,
            disk,
        },
        Err(e) => stopped(fault_of_run(e), disk),
    }
}

/// With what the job's script is run.
fn setup_of(job: &Job) -> Setup
    ensures workers { result.workers ≡ job.now.workers }
    ensures limit { result.limit ≡ job.now.limit }
    ensures block { result.block ≡ job.now.block }
    ensures schedule { result.schedule ≡ job.now.schedule }
{
    Setup {
        workers: job.workers,
        limit: job.limit,
        block: job.block,
        schedule: job.schedule,
    }
}

/// Runs a job: reads its script from the shelf, runs that with the job's workers in a pool of their own, and hands the disk back.
///
/// The texts of the script's actions go to `out`.
pub fn job_call<R: Threads + Wait + Sync, N: Shelf, S: Sink, D: Disk + Send + Sync, G: Gate + Sync>(
    rt: &R,
    alloc: Global,
    job: &Job,
    shelf: &mut N,
    out: &mut S,
    disk: D,
    gate: &G,
) -> TopEnd<D>
    requires { IsJobWithin job.now }
    ensures promise { KeepsPromise N.Shelf S.Sink D.Disk job.now shelf.old shelf.new out.old out.new disk result.disk result.fault }
    ensures status { result.status ≡ status_in result.fault }
{
    match script_named(alloc, shelf, &job.script) {
        Ok(script) => {
            let (answer, disk) = run_job(rt, alloc, &script, setup_of(job), shelf, out, disk, gate);
            ended(answer, disk)
        }
        Err(fault) => stopped(fault, disk),
    }
}
