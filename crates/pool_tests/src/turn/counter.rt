//! A counter that threads add to in turns, and what its calls say of the shared total.
ghost use Rattle.std.specs.Prelude.{◌≡◌, ℕ, ◌+◌, ◌≤◌, IfOk, IfSome, MatchOption};
ghost use Rattle.atomic_table.specs.Seated.{TableId};
ghost use Rattle.turn_table.specs.Seats.{IsIdle, IsSameSeat, seat_view};
ghost use Rattle.pool_tests.specs.Shares.{IsCut};

use super::tally::{Raised, Tally};
use dia_edge::NoMemory;
use std::alloc::Global;
use std::marker::{Brand, Model};
use std::sync::Wait;
use turn_table::{Cut, Seat, Token, Turn};

/// Contracts see which counter it is.
pub struct Counter {
    turn: Turn<Tally>,
}

impl Model for Counter {
    ghost Value = { TableId };

    ghost view = { λ counter. counter.turn };
}

/// One thread's part of a counter. Contracts see of which, and how much of the total is this part's.
#[derive(Drop)]
pub struct Part {
    seat: Seat<Tally>,
}

impl Model for Part {
    ghost use Rattle.turn_table.specs.Seats.{IsIdle, seat_view};
    ghost use Rattle.pool_tests.specs.Shares.{Share};

    ghost Value = { Share };

    ghost view = { λ part. record { counter = part.seat.table_id; amount = seat_view part.seat } };

    ghost invariant = { λ part. IsIdle part.seat };
}

/// A part on its way, in a type that doesn't name the tally.
#[derive(Drop)]
pub struct Ticket {
    token: Token<u64, u64>,
}

impl Model for Ticket {
    ghost use Rattle.std.specs.Prelude.{ℕ};
    ghost use Rattle.turn_table.specs.Seats.{IsToken};
    ghost use Rattle.pool_tests.specs.Shares.{Share, token_amount};

    ghost Value = { Share };

    ghost view = { λ ticket. record { counter = ticket.token.table_id; amount = token_amount ticket.token.views } };

    ghost invariant = { λ ticket. (amount : ℕ) × IsToken ticket.token amount };
}

impl Counter {
    /// A counter at this total, and its first part, which has all of it.
    pub fn open(alloc: Global, total: u64) -> Result<(Counter, Part), NoMemory>
        ensures own { IfOk result (λ opened. opened.1.counter ≡ opened.0) }
        ensures all { IfOk result (λ opened. opened.1.amount ≡ total) }
    {
        match Turn::open(alloc, Tally { total }) {
            Ok((turn, seat)) => Ok((Counter { turn }, Part { seat })),
            Err((Tally { total: _ }, error)) => Err(error),
        }
    }

    /// Adds to the total, and answers what it found. None: the total would pass `u64::MAX`, and nothing changed.
    pub fn add<R: Wait>(&self, rt: &R, part: &mut Part, amount: u64) -> Option<u64>
        requires own { part.old.counter ≡ self.now }
        ensures same { part.new.counter ≡ part.old.counter }
        ensures added { MatchOption result (part.new.amount ≡ part.old.amount)
            (λ _. part.new.amount ≡ part.old.amount + amount) }
        ensures found { IfSome result (λ found. part.old.amount ≤ found) }
    {
        let mut tally = self.turn.take(rt, &mut part.seat);
        let found = tally.add(amount);
        self.turn.give::<Raised>(&mut part.seat, tally);
        found
    }

    /// A new part, which has this much of what the part had.
    pub fn part(&self, part: &mut Part, amount: u64) -> Part
        requires own { part.old.counter ≡ self.now }
        requires has { amount ≤ part.old.amount }
        ensures same { part.new.counter ≡ part.old.counter }
        ensures kept { part.new.amount + amount ≡ part.old.amount }
        ensures new { (result.counter ≡ part.old.counter) × (result.amount ≡ amount) }
    {
        Part {
            seat: cut_off::<Brand>(&self.turn, &mut part.seat, amount),
        }
    }

    /// Gives one part what another has.
    pub fn merge(&self, into: &mut Part, from: Part)
        requires own { (into.old.counter ≡ self.now) × (from.counter ≡ self.now) }
        ensures same { into.new.counter ≡ into.old.counter }
        ensures both { into.new.amount ≡ into.old.amount + from.amount }
    {
        let Part { seat } = from;
        self.turn.join(&mut into.seat, seat);
    }

    /// The total at the end.
    pub fn close<R: Wait>(self, rt: &R, part: Part) -> u64
        requires own { part.counter ≡ self }
        ensures within { part.amount ≤ result }
    {
        let Counter { turn } = self;
        let Part { seat } = part;
        let Tally { total } = turn.close(rt, seat);
        total
    }
}

/// Splits the seat by a cut that the caller picks, which gives the new seat this amount.
fn cut_off<C: Cut<u64>>(turn: &Turn<Tally>, seat: &mut Seat<Tally>, amount: u64) -> Seat<Tally>
    requires own { seat.old.table_id ≡ turn.now }
    requires idle { IsIdle seat.old }
    requires cut { IsCut (seat_view seat.old) (C.kept (seat_view seat.old)) (C.given (seat_view seat.old)) }
    requires given { amount ≡ C.given (seat_view seat.old) }
    ensures same { IsSameSeat seat.old seat.new × IsIdle seat.new }
    ensures kept { seat_view seat.new ≡ C.kept (seat_view seat.old) }
    ensures new { (result.table_id ≡ seat.old.table_id) × IsIdle result }
    ensures given { seat_view result ≡ amount }
{
    turn.split::<C>(seat)
}

impl Part {
    /// The part, ready to go anywhere.
    pub fn into_ticket(self) -> Ticket
        ensures same { result ≡ self }
    {
        let Part { seat } = self;
        Ticket {
            token: Turn::into_token(seat),
        }
    }
}

impl Ticket {
    /// The part that this is the ticket of.
    pub fn into_part(self) -> Part
        ensures same { result ≡ self }
    {
        let Ticket { token } = self;
        Part {
            seat: Turn::of_token(token),
        }
    }
}
