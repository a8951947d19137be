//! The program `thrill`: makes the real shelf, streams and disk, and calls `thrill_call`.
#![tactic(auto)]

ghost use Rattle.std.specs.Prelude.{◌≡◌, ◌⊎◌, IfOk, OnOk, OnErr, codes};
ghost use Rattle.dia_edge.specs.Counts.{HasRisen};
ghost use Rattle.dia_edge.specs.Sinks.{TookAll, TookPrefix};

use dia_edge::{DirShelf, FileDisk, Name, NoMemory, OpenGate, Sink, StdSink};
use job_words::{TopFault, put_fault};
use main_words::{command_words, fetch_arguments};
use std::fs::File;
use std::process::ExitCode;
use std::sync::Wait;
use std::thread::Threads;
use thrill_top::thrill_call;

/// The file in the current folder to which blocks are spilled; it has no name as soon as it is open.
const SPILL: &str = "thrill.spill";

/// A file that takes the descriptor of a standard stream that is closed, and to which nothing can be written.
const NOWHERE: &str = "/dev/null";

/// Calls `thrill_call` with the words of the command line, and answers its status.
fn run<R: Threads + Wait + Sync>(wait: &R, rt: HostRuntime) -> Result<u8, NoMemory> {
    let alloc = rt.alloc();
    let args = fetch_arguments(&rt, alloc)?;
    let words = command_words(alloc, args.as_slice())?;
    let mut shelf = DirShelf::new(rt);
    let mut out = StdSink::out(rt);
    let mut err = StdSink::err(rt);
    let disk = FileDisk::new(rt, Name::of(alloc, SPILL)?);
    let end = thrill_call(
        wait,
        alloc,
        words.as_slice(),
        &mut shelf,
        &mut out,
        &mut err,
        disk,
        &OpenGate,
    );
    Ok(end.status)
}

/// The status of a call; where there was no memory for its words, that of this fault, whose line goes to `err`.
fn status_of<E: Sink>(end: Result<u8, NoMemory>, err: &mut E) -> u8
    ensures called { IfOk end (λ status. result ≡ status) }
    ensures untouched { OnOk end (err.new ≡ err.old) }
    ensures no_memory { OnErr end (result ≡ 12) }
    ensures told { OnErr end (TookAll (E.taken err.old) (codes "thrill: no memory\n") (E.taken err.new)
        ⊎ (TookPrefix (E.taken err.old) (codes "thrill: no memory\n") (E.taken err.new) × HasRisen (E.faults err.old) (E.faults err.new))) }
{
    match end {
        Ok(status) => status,
        Err(NoMemory) => {
            let _ = put_fault(&TopFault::NoMemory, err);
            TopFault::NoMemory.status()
        }
    }
}

fn main(rt: HostRuntime) -> ExitCode {
    // Each takes the lowest descriptor that is free: no input and no spill file becomes a standard stream that is closed.
    let _in = File::open(&rt, NOWHERE);
    let _out = File::open(&rt, NOWHERE);
    let _err = File::open(&rt, NOWHERE);
    let end = run(&rt, rt);
    let mut err = StdSink::err(rt);
    ExitCode::from(status_of(end, &mut err))
}
