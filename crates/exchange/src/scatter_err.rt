//! Why a row wasn't dealt out.
ghost use Rattle.std.specs.Prelude.{◌≡◌};
ghost use Rattle.exchange.specs.Dealing.{frame_refusal};

use block_pool::FrameErr;

/// Why a row wasn't dealt out. The scatter may only be dropped then.
#[derive(Clone, Copy, Debug, PartialEq, Eq)]
pub enum ScatterErr {
    /// The disk failed in this call; `count` is how many calls of it failed so far.
    Disk { count: u64 },
    /// Memory ran out.
    NoMemory,
    /// As many rows were taken as may be.
    TooManyRows,
}

impl From<FrameErr> for ScatterErr {
    ghost use Rattle.std.specs.Prelude.{◌≡◌};
    ghost use Rattle.exchange.specs.Dealing.{frame_refusal};

    ghost from_gives = { λ refusal widened. widened ≡ frame_refusal refusal };

    fn from(refusal: FrameErr) -> ScatterErr {
        match refusal {
            FrameErr::Disk { count } => ScatterErr::Disk { count },
            FrameErr::NoMemory => ScatterErr::NoMemory,
        }
    }
}
