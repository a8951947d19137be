//! The rows that workers receive, read by rank of their senders and pushed into sinks, by all workers at once.
//!
//! The layer above may rely on this: after a phase each sink took the rows of its worker's box, those of the sender of the
//! lowest rank first, and each sender's in its order, and no block of the box is left; where one stops, its sink took the first
//! rows, and the blocks that were left are freed. Hands and sinks are back on every answer.
//!
//! What a box holds stands in `specs/Boxes.antt`, what a work comes to in `specs/Receives.antt`, and what a phase comes to in
//! `specs/Phases.antt`. That works may cross threads rests on `proofs/Crossing.antt`.
#![tactic(auto)]

mod ending;
mod phase;
mod pushing;
mod receiving;
mod steps;

pub use phase::Arrival;
pub use receiving::Receiving;
