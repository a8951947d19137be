//! Seats, and what they know.

use crate::shared::Shared;

/// Whether a seat has the turn. No value of it is made.
pub enum Stage<X> {
    /// It doesn't have the turn.
    Idle,
    /// It has the turn, and found this state.
    Holding(X),
    /// It has the last turn, and this state is at home.
    Closing(X),
}

/// What a seat knows. No value of it is made.
pub struct Doing<X, V> {
    pub stage: Stage<X>,
    pub view: V,
}

/// What a thread takes turns with. It has no bytes, and is of one turn, which its `table_id` names. The view of a
/// seat that is dropped stays among the views.
pub type Seat<S> = atomic_table::Seat<Option<S>, Doing<<S as Shared>::Plain, <S as Shared>::View>>;

/// A seat that doesn't have the turn, in a type that doesn't name the state, so that it can lie in any other state.
/// It has no bytes.
pub type Token<X, V> = atomic_table::Badge<Doing<X, V>>;
