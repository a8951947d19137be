//! The rows of several operands, dealt out by their positions and written to files, one per worker.
//!
//! The layer above relies on `dealt_files`: joined by rank, the files have all rows of all operands, one operand's behind the
//! other's. The rows are counted first, then they go through the stock's net, and each worker writes its share. Whatever it
//! comes to, each worker's hand is there. What is said of it stands in `specs/Gathered.antt`.
#![tactic(auto)]

mod counting;
mod deal_err;
mod files;

pub use deal_err::DealErr;
pub use files::dealt_files;
