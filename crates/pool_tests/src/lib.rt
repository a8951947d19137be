//! Tests of the outside, the turn and the block pool, at their public calls.
//!
//! They stand apart from what they test, so that a check of that isn't made twice.
#![tactic(auto)]

#[cfg(test)]
mod edge;
#[cfg(test)]
mod pool;
#[cfg(test)]
mod turn;
