//! Rows that are dealt out by their positions: each worker gets its share of the whole list.
//!
//! Where several senders deal out their rows, and each row goes to the worker whose share of all positions has the row's,
//! then what a worker gets, taken sender by sender, is its share of the senders' rows joined. The layer above relies on
//! this law; what it says stands in `specs/Dealings.antt`.
#![tactic(auto)]

ghost use Rattle.dealt_shares.specs.Dealings.{PositionsMakeShares};

/// Each worker gets its share of the rows that all senders have, in their order.
pub fn positions_make_shares()
    ensures { PositionsMakeShares }
{}
