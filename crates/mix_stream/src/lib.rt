//! Rows out of packets, in the order of the packets.
//!
//! A sender's packets, joined, are rows, and a row may go on in its sender's next packet. The layer above may rely on
//! this: `next` gives the rows of each sender in its order, the row of the first packet that isn't read comes next, a row
//! that has begun is given whole before another sender's, and None comes exactly at the end, when every block is freed.
//!
//! What contracts see of a reader stands in `specs/Reading.antt`, what packets hold in `specs/Packets.antt`, and what
//! follows where their bytes are rows in `specs/Laws.antt`.
#![tactic(auto)]

mod copied;
mod find;
mod laws;
mod mix_reader;
mod moves;
mod stream;

pub use laws::{rows_are_not_damage, rows_come_by_rank, rows_come_in_order};
pub use mix_reader::MixReader;
