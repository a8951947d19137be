//! Tests of scripts and their plans, at the public calls.
//!
//! They stand apart from what they test, so that a check of that isn't made twice.
#![tactic(auto)]

#[cfg(test)]
mod planning;
#[cfg(test)]
mod reading;
