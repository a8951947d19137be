//! Operands that are dealt out to workers by the positions of their rows.
//!
//! The layer above relies on `Round::deal`: all rows of all operands, one operand after the other, go through the stock's net,
//! and each worker's box holds its share of them, in blocks of its own pool. Whatever it comes to, each worker's hand is
//! there. What is said of operands stands in `specs/Operands.antt`, of the boxes in `specs/Deals.antt`, and why there are none
//! in `specs/Refusals.antt`.
#![tactic(auto)]

mod merging;
mod operand;
mod round;

pub use round::Round;
