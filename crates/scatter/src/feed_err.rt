//! Why a row isn't pushed.
ghost use Rattle.std.specs.Prelude.{◌≡◌};
ghost use Rattle.scatter.specs.Steps.{read_refusal};

use block_pool::PinErr;

/// Why a feed's step pushed no row, or not all that was made of one.
#[derive(Clone, Copy, Debug, PartialEq, Eq, Drop)]
pub enum FeedErr<R> {
    /// The sink refused a row that was made of the source's row, and is shut.
    Sink(R),
    /// The disk failed in this call; `count` is how many of its calls failed so far. No row was taken.
    Disk { count: u64 },
    /// The bytes of a block aren't the rows that were written. No row was taken.
    Damaged,
    /// There was no memory. No row was taken.
    NoMemory,
}

impl<R> From<PinErr> for FeedErr<R> {
    ghost from_gives = { λ refusal widened. widened ≡ read_refusal refusal };

    fn from(refusal: PinErr) -> FeedErr<R> {
        match refusal {
            PinErr::Disk { count } => FeedErr::Disk { count },
            PinErr::Damaged => FeedErr::Damaged,
            PinErr::NoMemory => FeedErr::NoMemory,
        }
    }
}
