//! Tests of the top call, at worked scripts.
//!
//! They stand apart from what they test, so that a check of that isn't made twice.
#![tactic(auto)]

#[cfg(test)]
mod top;
