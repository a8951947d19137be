//! A file of one worker that becomes a stored line, spread over all workers.
//!
//! The layer above may rely on `spread`: the line has one part per worker, of its hand's pool, and joined by rank these have
//! the rows of the file, in order (where the net and the disks tell). After a refusal the lines are as they were. Whatever it
//! comes to, each hand is back. What is said of it stands in `specs/Spreading.antt`, what is sent in `specs/Dealing.antt`.
#![tactic(auto)]

mod carrying;
mod dealing;
mod spread_err;
mod spreading;

pub use spread_err::SpreadErr;
pub use spreading::spread;
