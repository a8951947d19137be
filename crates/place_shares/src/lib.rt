//! Rows that workers write of what is dealt out to them by position: joined by rank they are all rows, in order.
//!
//! The layer above relies on three laws, each the contract of a function that does nothing: senders whose rows begin one
//! behind the other deal out to the owners of all positions; what the workers write as it comes are the rows of all senders,
//! joined; and where each worker numbers its rows from where its share starts, they are those rows numbered from 0. What they
//! say stands in `specs/Places.antt`.
#![tactic(auto)]

ghost use Rattle.place_shares.specs.Places.{PositionsAreOwned, PartsAreTheRows, PartsAreNumbered};

/// Rows that go to the owners of their positions, sender by sender, are owned in all.
pub fn positions_are_owned()
    ensures { PositionsAreOwned }
{}

/// The parts that are written as they come are the rows, joined.
pub fn parts_are_the_rows()
    ensures { PartsAreTheRows }
{}

/// The parts that are numbered from where each share starts are the rows numbered from 0, joined.
pub fn parts_are_numbered()
    ensures { PartsAreNumbered }
{}
