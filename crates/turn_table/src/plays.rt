//! What each step on the table tells.
ghost use Rattle.turn_table.specs.Seats.{SeatState, doing, idle};
ghost use Rattle.turn_table.specs.Turning.{Took, Closed, reached, gave};

use crate::cut::Cut;
use crate::event::Event;
use crate::seat::Doing;
use crate::shared::Shared;
use atomic_table::{Join, Play, Split};
use std::marker::PhantomData;

/// What a seat does with the turn that it reached.
pub(crate) trait Reach<S: Shared> {
    // Of the seat before and after.
    ghost told: { SeatState S S.Plain S.View → SeatState S S.Plain S.View → Type 0 };
}

/// It takes the state.
pub(crate) struct Takes;

impl<S: Shared> Reach<S> for Takes {
    ghost told = { Took S.plain S.holds };
}

/// It leaves the state at home, and gives the turn to no one again.
pub(crate) struct Closes;

impl<S: Shared> Reach<S> for Closes {
    ghost told = { Closed S.holds };
}

/// A step that marks the turn as out.
pub(crate) struct Reaches<M> {
    marker: PhantomData<M>,
}

impl<S: Shared, M: Reach<S>> Play<Option<S>, Doing<S::Plain, S::View>> for Reaches<M> {
    ghost then = { λ _. reached M.told };
}

/// The step that gives the turn back.
pub(crate) struct Gives<M> {
    event: PhantomData<M>,
}

impl<S: Shared, M: Event<S::Plain, S::View>> Play<Option<S>, Doing<S::Plain, S::View>>
    for Gives<M> {
    ghost then = { λ _. gave S.plain M.after };
}

/// A split of a seat.
pub(crate) struct Cuts<M> {
    cut: PhantomData<M>,
}

impl<X, V, M: Cut<V>> Split<Doing<X, V>> for Cuts<M> {
    ghost left = { λ known. doing known.stage (M.kept known.view) };

    ghost right = { λ known. idle (M.given known.view) };
}

/// A join of two seats.
pub(crate) struct Adds<S> {
    state: PhantomData<S>,
}

impl<S: Shared> Join<Doing<S::Plain, S::View>> for Adds<S> {
    ghost both = { λ into from. doing into.stage (S.added into.view from.view) };

    ghost spent = { idle S.spent };
}
