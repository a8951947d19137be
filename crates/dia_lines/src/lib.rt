//! Inputs: an input's lines, read from a shelf in pieces and taken one by one.
//!
//! The layers above rely on `read_input`: what takes the lines, a `LineTaker`, took just the input's lines in order, or
//! the input is refused for just the cause that the definitions give, or the taker refused one. The words stand in
//! `specs/Inputs.antt`, and below it in Taking.
#![tactic(auto)]

mod cutter;
mod input;
mod line_taker;

pub use input::{InputErr, read_input};
pub use line_taker::LineTaker;
