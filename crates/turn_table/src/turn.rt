//! The turn itself.
ghost use Rattle.std.specs.Prelude.{◌≡◌, [], ◌∷◌, IfOk, IfErr};
ghost use Rattle.atomic_table.specs.Seated.{TableId};
ghost use Rattle.turn_table.specs.Seats.{Meets, MayGive, HasGiven, Holds, IsIdle, IsSameSeat, IsToken, seat_view};
ghost use Rattle.turn_table.specs.Turning.{MayReach};

use crate::cut::Cut;
use crate::event::Event;
use crate::plays::{Adds, Closes, Cuts, Gives, Reach, Reaches, Takes};
use crate::seat::{Doing, Seat, Token};
use crate::shared::Shared;
use atomic_table::{Refused, Table, TableRule};
use dia_edge::NoMemory;
use std::alloc::Global;
use std::marker::{Model, PhantomData};
use std::snapshot::Snapshot;
use std::sync::Wait;

/// The rule of the turn on its table of one word and one slot. No value of it is made.
pub struct Turns<S> {
    state: PhantomData<S>,
}

impl<S: Shared> TableRule<Option<S>, Doing<S::Plain, S::View>, Snapshot<S>> for Turns<S> {
    ghost use Rattle.turn_table.specs.Seats.{idle};
    ghost use Rattle.turn_table.specs.Turning.{KeepsRule};

    ghost holds = { λ _. KeepsRule S.plain S.holds };

    ghost first = { λ opening. idle (S.opening (S.plain opening.value)) };
}

/// A state that one seat has at a time. Contracts see which turn it is: the `table_id` of its seats.
#[derive(Drop)]
pub struct Turn<S: Shared> {
    table: Table<Option<S>, Doing<S::Plain, S::View>, Snapshot<S>, Turns<S>, Global>,
}

impl<S: Shared> Model for Turn<S> {
    ghost Value = { TableId };

    ghost view = { λ turn. turn.table.shared.table_id };

    ghost invariant = { λ turn. (turn.table.shared.table_id.words ≡ 1) × (turn.table.shared.table_id.slots ≡ 1) };
}

impl<S: Shared> Turn<S> {
    /// A turn with this state at home, and its first seat, which has the rule's opening view. This alone takes
    /// memory; where there is none, the state comes back.
    pub fn open(alloc: Global, state: S) -> Result<(Turn<S>, Seat<S>), (S, NoMemory)>
        requires { S.holds (S.plain state) (S.opening (S.plain state) ∷ []) }
        ensures own { IfOk result (λ opened. (opened.1.table_id ≡ opened.0) × IsIdle opened.1) }
        ensures first { IfOk result (λ opened. seat_view opened.1 ≡ S.opening (S.plain state)) }
        ensures refused { IfErr result (λ refused. refused.0 ≡ state) }
    {
        let opening = Snapshot::of(&state);
        let Ok(mut slots) = Vec::with_capacity(alloc, 1) else {
            return Err((state, NoMemory));
        };
        slots.push_reserved(Some(state));
        match Table::new(alloc, &[0], slots, &opening) {
            Ok((table, seat)) => Ok((Turn { table }, seat)),
            Err(Refused { mut slots }) => {
                let Some(Some(state)) = slots.pop() else {
                    unreachable!()
                };
                slots.destroy_empty();
                Err((state, NoMemory))
            }
        }
    }

    /// Waits until the turn is in, and marks it as out. A thread that finds it out sleeps until it is given.
    fn reach<M: Reach<S>, R: Wait>(&self, rt: &R, seat: &mut Seat<S>)
        requires own { seat.old.table_id ≡ self.now }
        requires allowed { MayReach S.plain S.holds M.told }
        ensures same { IsSameSeat seat.old seat.new }
        ensures told { M.told seat.old.me seat.new.me }
    {
        let shared = &self.table.shared;
        if shared.compare_exchange::<Reaches<M>>(seat, 0, 0, 1) == 0 {
            return;
        }
        for _ in rt.forever() {
            if shared.swap::<Reaches<M>>(seat, 0, 2) == 0 {
                return;
            }
            shared.park(rt, 0, 2);
        }
        unreachable!()
    }

    /// Waits for the turn, and takes the state. The seat has the turn until it gives the state back; one that is
    /// dropped before keeps the turn out for ever.
    pub fn take<R: Wait>(&self, rt: &R, seat: &mut Seat<S>) -> S
        requires own { seat.old.table_id ≡ self.now }
        requires idle { IsIdle seat.old }
        ensures same { IsSameSeat seat.old seat.new }
        ensures holds { Holds seat.new (S.plain result) × (seat_view seat.new ≡ seat_view seat.old) }
        ensures meets { Meets S.holds (S.plain result) (seat_view seat.old) }
    {
        self.reach::<Takes, R>(rt, seat);
        let home = self.table.shared.exchange(seat, 0, None);
        let Some(state) = home else { unreachable!() };
        state
    }

    /// Gives the state back, changed or not, and wakes a thread that sleeps for the turn. The seat's view changes
    /// as the event says.
    pub fn give<M: Event<S::Plain, S::View>>(&self, seat: &mut Seat<S>, state: S)
        requires own { seat.old.table_id ≡ self.now }
        requires rule { MayGive S.holds seat.old (S.plain state) M.after }
        ensures same { IsSameSeat seat.old seat.new × IsIdle seat.new }
        ensures view { HasGiven seat.old (S.plain state) M.after seat.new }
    {
        let shared = &self.table.shared;
        let none = shared.exchange(seat, 0, Some(state));
        let None = none else { unreachable!() };
        if shared.swap::<Gives<M>>(seat, 0, 0) > 1 {
            shared.wake_one(0);
        }
    }

    /// Cuts the seat's view in two, and gives the second part to a new seat. It takes no memory and no turn.
    pub fn split<M: Cut<S::View>>(&self, seat: &mut Seat<S>) -> Seat<S>
        requires own { seat.old.table_id ≡ self.now }
        requires idle { IsIdle seat.old }
        requires cut { S.cuts (seat_view seat.old) (M.kept (seat_view seat.old)) (M.given (seat_view seat.old)) }
        ensures same { IsSameSeat seat.old seat.new × IsIdle seat.new }
        ensures kept { seat_view seat.new ≡ M.kept (seat_view seat.old) }
        ensures new { (result.table_id ≡ seat.old.table_id) × IsIdle result }
        ensures given { seat_view result ≡ M.given (seat_view seat.old) }
    {
        self.table.shared.split_seat::<Cuts<M>>(seat)
    }

    /// Adds the view of one seat, which is no more, to that of another. It takes no memory and no turn.
    pub fn join(&self, into: &mut Seat<S>, from: Seat<S>)
        requires own { (into.old.table_id ≡ self.now) × (from.table_id ≡ self.now) }
        requires idle { IsIdle into.old × IsIdle from }
        ensures same { IsSameSeat into.old into.new × IsIdle into.new }
        ensures view { seat_view into.new ≡ S.added (seat_view into.old) (seat_view from) }
    {
        self.table.shared.join_seat::<Adds<S>>(into, from);
    }

    /// Waits for the turn, and answers the state. Other seats may still be there; none of them can step any more.
    pub fn close<R: Wait>(self, rt: &R, mut seat: Seat<S>) -> S
        requires own { seat.table_id ≡ self }
        requires idle { IsIdle seat }
        ensures meets { Meets S.holds (S.plain result) (seat_view seat) }
    {
        self.reach::<Closes, R>(rt, &mut seat);
        let Turn { table } = self;
        let mut closed = table.close_with(seat);
        let home = closed.take(0);
        closed.free();
        let Some(state) = home else { unreachable!() };
        state
    }

    /// The seat in a type that doesn't name the state.
    pub fn into_token(seat: Seat<S>) -> Token<S::Plain, S::View>
        requires { IsIdle seat }
        ensures own { result.table_id ≡ seat.table_id }
        ensures view { IsToken result (seat_view seat) }
    {
        seat.into_badge()
    }

    /// The seat that this token is of.
    pub fn of_token(token: Token<S::Plain, S::View>) -> Seat<S>
        requires { (view : S.View) × IsToken token view }
        ensures own { (result.table_id ≡ token.table_id) × IsIdle result }
        ensures view { IsToken token (seat_view result) }
    {
        token.into_seat()
    }
}
