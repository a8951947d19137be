//! The state that the tests hand around.
ghost use Rattle.std.specs.Prelude.{◌↔◌, ◌+◌, ◌^◌, ◌<◌, IsSome};
ghost use Rattle.pool_tests.specs.Shares.{IsAdded};

use turn_table::{Event, Shared};

/// A number that parts add to. It isn't `Drop`, so that each path gives it back.
pub struct Tally {
    pub total: u64,
}

impl Tally {
    /// Adds, and answers the total before. None: the sum would pass `u64::MAX`, and nothing changed.
    pub fn add(&mut self, amount: u64) -> Option<u64>
        ensures fits { IsSome result ↔ (self.old.total + amount < 2 ^ 64) }
        ensures added { IsAdded self.old.total amount self.new.total result }
    {
        let found = self.total;
        self.total = found.checked_add(amount)?;
        Some(found)
    }
}

impl Shared for Tally {
    ghost use Rattle.std.specs.Prelude.{◌+◌};
    ghost use Rattle.pool_tests.specs.Shares.{IsTotal, IsCut, cut_is_total, added_is_total};

    /// The total.
    type Plain = u64;

    /// How much of the total a seat has.
    type View = u64;

    ghost plain = { λ tally. tally.total };

    ghost holds = { IsTotal };

    ghost opening = { λ total. total };

    ghost cuts = { IsCut };

    ghost added = { λ into from. into + from };

    ghost spent = { 0 };

    ghost cut_holds = { cut_is_total };

    ghost added_holds = { added_is_total };
}

/// The giver's share rises as the total does.
pub struct Raised;

impl Event<u64, u64> for Raised {
    ghost use Rattle.std.specs.Prelude.{◌+◌, ◌-◌};

    ghost after = { λ found given share. share + (given - found) };
}
