//! Texts: what is written gathers in a buffer and goes to a sink piece by piece.
//!
//! The layers above rely on two facts: what a sink took and what waits in the buffer are together what was pushed; and
//! after a failure the sink took some prefix of it. `Puts` of `dia_edge` says what a put comes to.
#![tactic(auto)]

mod out_buffer;
mod pieces;
mod row_text;

pub use out_buffer::{MOST_WAITING, OutBuffer};
pub use pieces::put_pieces;
pub use row_text::{push_field, push_row};
