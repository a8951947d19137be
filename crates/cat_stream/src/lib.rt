//! Rows out of packets, by rank of their senders.
//!
//! The layer above may rely on this: `next` gives all rows of the sender of the lowest rank first, then those of the next
//! one, and each sender's in its order; None comes exactly at the end, when every block is freed. It is the reader of
//! `mix_stream` over packets that were put in order once, when it was made.
//!
//! What contracts see of a reader stands in `mix_stream`'s `specs/Reading.antt`.
#![tactic(auto)]

mod by_rank;
mod cat_reader;

pub use cat_reader::CatReader;
