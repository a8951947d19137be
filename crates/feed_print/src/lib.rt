//! The texts of the rows that a feed gives, printed by the worker whose feed it is.
//!
//! The layer above relies on `print_feed`: what was put and what waits in the buffer are together the texts of just the rows
//! that the feed had left, through its chain, in order.
#![tactic(auto)]

mod printer;
mod printing;
mod pushing;

pub use printing::print_feed;
