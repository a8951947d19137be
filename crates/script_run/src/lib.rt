//! The run of an accepted script: workers of one pool go through the stages of its plan.
//!
//! The layer above relies on `run_job`: where it answers Ok the whole work is done and the sink took exactly the texts of the
//! script's actions; after an error the run ends as that says; and on every answer the disk is handed back, with the writes
//! that cached lists need. What a run holds stands in `specs/Held.antt`, how it goes on stage by stage in `specs/Steps.antt`,
//! what its errors mean in `specs/Errors.antt`, and what the disk's writes are at least in `specs/Weighing.antt`.
#![tactic(auto)]

mod accepted;
mod pool;
mod reading;
mod run_err;
mod team;
mod weighing;

pub use pool::{Setup, run_job};
pub use run_err::RunErr;
