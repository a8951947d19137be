//! Tests of exchanges between workers, at their public calls.
//!
//! They stand apart from what they test, so that a check of that isn't made twice.
#![tactic(auto)]

#[cfg(test)]
mod linking;
#[cfg(test)]
mod receiving;
#[cfg(test)]
mod spreading;
