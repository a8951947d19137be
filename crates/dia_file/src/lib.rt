//! Files: lists of rows in blocks of the pool, which may be larger than memory.
//!
//! The layer above may rely on this: a finished file is the rows that were pushed, in order; a reader gives them one by
//! one and answers None exactly at the end; a keeping reader gives the file back as it was, and a consuming one frees
//! each block once it is read. A row may span blocks. Of each block that is made or freed the hand's tallies tell.
//! Where a row ends in a block, nothing is left open at the block's end, so that a file may be cut behind it.
//!
//! What contracts see of a file, a writer and a reader stands in `specs/Files.antt`, `specs/Writers.antt`,
//! `specs/Readers.antt` and `specs/Consumers.antt`, which rows blocks hold in `specs/Pieces.antt`, and what the tallies say
//! in `specs/Tallies.antt`.
#![tactic(auto)]

mod consume;
mod file;
mod keep;
mod leaving;
mod moves;
mod place;
mod reading;
mod refusals;
mod row_at;
mod sealed;
mod split;
mod weigh;
mod writer;

pub use consume::ConsumeReader;
pub use file::File;
pub use keep::KeepReader;
pub use refusals::PushErr;
pub use writer::FileWriter;
