//! Nodes that place rows: all workers write the rows that an operand's feeds give into files, one per worker.
//!
//! The layer above relies on `PlaceNode::run`: one phase over all workers comes to one file per worker, and joined by rank
//! these have the rows that arrive. Whatever it comes to, each worker's hand is there, and no block is left that isn't in a
//! file. What is said of it stands in `specs/Placing.antt`.
#![tactic(auto)]

mod caching;
mod node;
mod node_err;

pub use node::{PlaceFn, PlaceNode};
pub use node_err::NodeErr;
