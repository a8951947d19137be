//! How many rows each worker's feed gives, before anything is done with them.
//!
//! The layer above relies on `rows_by_rank`: one phase over all workers, which consumes nothing and leaves the lines in stock as
//! they were. What it counts is said in `specs/Ranks.antt`.
#![tactic(auto)]

mod by_rank;

pub use by_rank::rows_by_rank;
