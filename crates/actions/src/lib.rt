//! Actions: what `print`, `size` and `sum` write of the rows that arrive, over all workers.
//!
//! The layer above relies on `act`: it writes exactly the action's text, or says why not, and what the sink took then. The
//! words stand in `specs/`: Printing, Acting.
#![tactic(auto)]

mod action;
mod checking;
mod feeds;
mod print;

pub use action::act;
pub use feed_actions::ActErr;
