//! The top call.
ghost use Rattle.std.specs.Prelude.{◌≡◌, ◌↔◌, None, Some, MatchOption};
ghost use Rattle.job_words.specs.declared.command.Job as jobs;
ghost use Rattle.job_words.specs.declared.command.Command.TheVariants.{Run};
ghost use Rattle.job_words.specs.Words.{words_mean};
ghost use Rattle.thrill_top.specs.Ends.{TookLine, status_in};
ghost use Rattle.thrill_top.specs.Promise.{KeepsPromise};

use crate::job::{TopEnd, job_call, stopped};
use dia_edge::{Disk, Gate, Name, NoMemory, Shelf, Sink};
use job_words::{Command, TopFault, put_fault, words_mean};
use std::alloc::Global;
use std::sync::Wait;
use std::thread::Threads;

/// Writes the fault's line, where there is a fault.
fn tell<E: Sink, D: Drop>(end: TopEnd<D>, err: &mut E) -> TopEnd<D>
    ensures same { result ≡ end }
    ensures told { MatchOption end.fault (err.new ≡ err.old) (λ f. TookLine f (E.taken err.old) (E.taken err.new) (E.faults err.old) (E.faults err.new)) }
{
    if let Some(fault) = &end.fault {
        let _ = put_fault(fault, err);
    }
    end
}

/// Does all that the program does: `run SCRIPT` and its options run the script, and any other words are a faulty command line.
///
/// The script and the inputs are read from the shelf, the texts of its actions go to `out`, blocks that nobody holds may go to the
/// disk, which is handed back, and where the status isn't 0 the fault's line goes to `err`. With schedule 0 each worker waits at
/// the gate when a phase begins.
pub fn thrill_call<
    R: Threads + Wait + Sync,
    N: Shelf,
    S: Sink,
    E: Sink,
    D: Disk + Send + Sync,
    G: Gate + Sync,
>(
    rt: &R,
    alloc: Global,
    words: &[Name],
    shelf: &mut N,
    out: &mut S,
    err: &mut E,
    disk: D,
    gate: &G,
) -> TopEnd<D>
    // Words that mean a run keep what the run promises.
    ensures run { (job : jobs.Job) → words_mean words.now ≡ Some (Run job)
        → KeepsPromise N.Shelf S.Sink D.Disk job shelf.old shelf.new out.old out.new disk result.disk result.fault }
    // Status 2 comes exactly where the words mean nothing; nothing was done then.
    ensures usage { (result.status ≡ 2) ↔ (words_mean words.now ≡ None) }
    ensures idle { result.status ≡ 2 → (shelf.new ≡ shelf.old) × (out.new ≡ out.old) × (result.disk ≡ disk) }
    // `err` takes nothing at 0, else the fault's line, or a prefix of it where its count rose.
    ensures told { MatchOption result.fault (err.new ≡ err.old) (λ f. TookLine f (E.taken err.old) (E.taken err.new) (E.faults err.old) (E.faults err.new)) }
    ensures fault { result.status ≡ status_in result.fault }
{
    match words_mean(alloc, words) {
        Ok(Some(Command::Run(job))) => {
            let end = job_call(rt, alloc, &job, shelf, out, disk, gate);
            tell(end, err)
        }
        Ok(None) => tell(stopped(TopFault::Usage, disk), err),
        Err(NoMemory) => tell(stopped(TopFault::NoMemory, disk), err),
    }
}
