//! Counts, and the calls that are to fail: what every object of the outside keeps.
ghost use Rattle.std.specs.Prelude.{◌≡◌, ◌≤◌};
ghost use Rattle.dia_edge.specs.Counts.{raised};

use crate::refusals::Failed;

/// A number that only rises, and stands still at `u64::MAX`.
#[derive(Debug, Drop)]
pub(crate) struct Count {
    pub(crate) number: u64,
}

impl Count {
    pub(crate) fn zero() -> Count
        ensures { result.number ≡ 0 }
    {
        Count { number: 0 }
    }

    pub(crate) fn get(&self) -> u64
        ensures { result ≡ self.now.number }
    {
        self.number
    }

    pub(crate) fn raise(&mut self)
        ensures after { self.new.number ≡ raised self.old.number }
        ensures stays { self.old.number ≤ self.new.number }
    {
        self.number = self.number.saturating_add(1);
    }

    /// Counts a fault, and answers it.
    pub(crate) fn fault(&mut self) -> Failed
        ensures after { self.new.number ≡ raised self.old.number }
        ensures stays { self.old.number ≤ self.new.number }
    {
        self.raise();
        Failed
    }
}
