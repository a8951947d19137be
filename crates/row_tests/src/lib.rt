//! Tests of rows, expressions and chains, at their public calls.
//!
//! They stand apart from what they test, so that a check of that isn't made twice.
#![tactic(auto)]

#[cfg(test)]
mod chain;
#[cfg(test)]
mod expr;
#[cfg(test)]
mod item;
