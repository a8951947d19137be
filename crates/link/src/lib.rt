//! An operand linked: all workers send the rows that their feeds give to each other, by routes.
//!
//! The layer above relies on `Link::run`: one phase over all workers comes to one inbox per worker, in blocks of its own
//! pool. Of each sender it has the bytes of just the rows that the sender's route named that worker for, in their order;
//! joined by rank the senders' rows are those that arrive. Whatever it comes to, each worker's hand is there. What is said of
//! it stands in `specs/Linking.antt`, and why there are no inboxes in `specs/Refusals.antt`.
#![tactic(auto)]

mod dealer;
mod ending;
mod link;
mod link_err;
mod making;
mod sending;

pub use link::Link;
pub use link_err::LinkErr;
