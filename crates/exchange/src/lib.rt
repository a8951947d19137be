//! Rows dealt out to the workers, in blocks: each goes to the one that a route names.
//!
//! The layer above relies on this: what a `Scatter` sends to a worker, joined, is the bytes of just the rows that the route
//! named that worker for, in their order; no block is empty, and each is of the pool of the hand that it was sent with. A
//! scatter keeps one frame for each worker that rows are on their way to, for one of the hand's permits.
//!
//! What is on its way to a worker stands in `specs/Dealing.antt`, which rows those are in `specs/Deals.antt`, and what a
//! scatter asks of a hand in `specs/Serving.antt`.
#![tactic(auto)]

mod dealing;
mod scatter;
mod scatter_err;

pub use scatter::Scatter;
pub use scatter_err::ScatterErr;
