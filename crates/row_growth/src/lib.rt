//! How many rows local lines make, as far as that is known before any row is made.
//!
//! The layers above rely on `extent_of`: of so many rows, whose texts have at most so many bytes, it says how many the lines
//! make, or bounds it. The words stand in `specs/Growth`.
#![tactic(auto)]

mod growing;
#[cfg(test)]
mod tests;

pub use growing::{Extent, extent_of};
