//! Inputs that become files: the lines of an input, each a row of one text in blocks of the pool.
//!
//! The layer above relies on `read_file`: a file that it gives has just the rows of the input's lines, and after every
//! refusal no block of it is left. On every answer the hand has its permits. A line is copied once, into its block.
//!
//! The words stand in `specs/Writing.antt`, and those of inputs and files in `dia_lines` and `dia_file`.
#![tactic(auto)]

mod line_writer;
mod reading;
mod refusals;

pub use reading::read_file;
pub use refusals::ReadFileErr;
