//! The lines of a run, in stock: each stands in files, one part per worker, and is fed through a chain by all workers.
//!
//! The layer above may rely on this: a stock has the lines that were put there; the feeds of an operand, joined by rank,
//! have its rows; a step of a feed pushes one of these rows through the chain into a sink, and answers false exactly at the
//! end. A part that was lent comes back as the file that it was.
//!
//! What contracts see of a feed stands in `specs/Feeds.antt`, what a step does in `specs/Steps.antt`, what a feed asks of a
//! sink in `specs/Fitting.antt`, and what they see of a stock in `specs/Lines.antt` and `specs/Stocks.antt`.
#![tactic(auto)]

mod clearing;
mod ending;
mod feed;
mod feed_err;
mod feeding;
mod line;
mod net;
mod net_err;
mod phase;
mod pushing;
mod sending;
mod settling;
mod steps;
mod stock;

pub use clearing::{clear_parts, leave_unread};
pub use feed::Feed;
pub use feed_err::FeedErr;
pub use net::{Home, Net};
pub use net_err::NetErr;
pub use phase::{Phase, give_back};
pub use sending::Sending;
pub use stock::Stock;
