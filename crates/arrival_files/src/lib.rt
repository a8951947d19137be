//! What each worker receives is written to a file of its own, by all workers at once.
//!
//! The layer above may rely on `received`: one phase over all workers comes to one file per worker, of its hand's pool. Where a
//! worker's disk tells and the packets of its box hold rows of the kinds, its file has these rows, those of the sender of the
//! lowest rank first, and no block of the box is left. Whatever it comes to, each hand is back. What is said of it stands in
//! `specs/Receiving.antt`.
#![tactic(auto)]

mod receive_err;
mod receiving;

pub use receive_err::ReceiveErr;
pub use receiving::received;
