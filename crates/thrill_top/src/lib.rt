//! The program's own call: reads a script, runs it, and tells how it ended.
//!
//! `thrill_call` does all that the program does; `main` hands it the real shelf, streams and disk. `job_call` does what the
//! words `run` ask for. What they promise stands in `specs/Promise.antt`, and the words below it in Ends, Errors and Asking.
#![tactic(auto)]

mod job;
mod read;
mod script;
mod top;

pub use job::{TopEnd, job_call};
pub use job_words::TopFault;
pub use top::thrill_call;
