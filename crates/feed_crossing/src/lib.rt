//! That feeds may cross threads.
//!
//! The layers that run a phase rely on `proofs/Crossing.antt`: `feed_send` says that a feed may be moved to another thread, with
//! its chain and its expressions. It is shown type by type, since a search that goes down through all of them at once gives up.
#![tactic(auto)]
