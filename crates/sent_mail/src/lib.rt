//! Mail of which no receiver took a packet yet, settled over a stock's net.
//!
//! The layer above may rely on `settle_sent`: each receiver has, in blocks of its own pool, of each sender as many packets as
//! that sent to it, with the same bytes (where the net and the disks tell). What receivers have of a sender's bytes is shown in
//! `proofs/Mailed.antt`.
#![tactic(auto)]

mod settling;

pub use settling::{net_fits, net_stays, settle_sent};
