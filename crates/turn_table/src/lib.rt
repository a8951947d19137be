//! The turn: one state that threads hand around, so that one of them has it at a time.
//!
//! A state says what its rule is, by the trait `Shared`; a seat of a `Turn` takes the state, changes it alone, and
//! gives it back. The layer above may rely on three things, for any rule and in whatever order the threads come.
//! At a take the state meets the rule with the views of all seats, the taker's among them. At a give the giver's
//! view alone changes, as the event named at the call says. A split and a join move what seats have between two
//! views. Not said: that a turn ever comes, or who comes first.
//!
//! The words of the contracts stand in `specs/Seats.antt`. The rule that the turn itself keeps, and what each of its
//! steps tells, stand in `specs/Turning.antt`.
#![tactic(auto)]

mod cut;
mod event;
mod plays;
mod seat;
mod shared;
mod turn;

pub use cut::Cut;
pub use event::Event;
pub use seat::{Doing, Seat, Stage, Token};
pub use shared::Shared;
pub use turn::Turn;
