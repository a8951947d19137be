//! Why a row isn't pushed.
ghost use Rattle.std.specs.Prelude.{◌≡◌};
ghost use Rattle.dia_file.specs.Refusals.{push_refusal};

use block_pool::FrameErr;

/// Why a row was not pushed.
#[derive(Clone, Copy, Debug, PartialEq, Eq)]
pub enum PushErr {
    /// The disk failed in this call; `count` is how many of its calls failed so far.
    Disk { count: u64 },
    /// There was no memory.
    NoMemory,
    /// The limit is reached: so many rows are there.
    TooManyRows { limit: u64 },
}

impl From<FrameErr> for PushErr {
    ghost from_gives = { λ refusal widened. widened ≡ push_refusal refusal };

    fn from(refusal: FrameErr) -> PushErr {
        match refusal {
            FrameErr::Disk { count } => PushErr::Disk { count },
            FrameErr::NoMemory => PushErr::NoMemory,
        }
    }
}
