//! Sinks that write files, one per worker, from their making to their end.
//!
//! The layer above may rely on this: `made_ready` makes a sink for each hand, and room for the end; after a phase `keep_all`
//! answers the files of what the sinks took, by rank, and `cancel_all` frees what was written. Both take no memory, and each
//! hand is there afterwards, of its pool and with the permit of the frame that was written.
//!
//! What is said of sinks and their files stands in `specs/Ending.antt`, of room in `specs/Rooms.antt`, and why there are no files
//! in `specs/Keeping.antt`. What a sink needs of a phase, and what its files are then, is shown in `proofs/Taking.antt` and
//! `proofs/Files.antt`.
#![tactic(auto)]

mod ending;
mod keep_err;
mod keeping;
mod making;

pub use keep_err::KeepErr;
pub use keeping::{Room, cancel_all, keep_all};
pub use making::made_ready;
