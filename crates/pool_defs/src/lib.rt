//! The pool machine: what the pool of blocks may do, over plain lists, and the laws that hold over all of its runs.
//!
//! The definitions stand in `specs/Pool.antt`. They know of no buffer, table, queue, disk or thread. The layers above
//! rely on the laws below, and show of each of their calls which event of the machine it is. `Place` and `Block` are
//! the Rust types that code and definitions share.
#![tactic(auto)]

mod block;
mod laws;

pub use block::{Block, Place};
pub use laws::{contents_fit, contents_stay, out_stays, valid_stays};
