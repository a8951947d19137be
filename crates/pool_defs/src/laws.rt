//! The laws of the pool machine: each is the contract of a function that does nothing.
ghost use Rattle.std.specs.Prelude.{ℕ, List};
ghost use Rattle.pool_defs.specs.Laws.{ContentsStay, OutStays, ContentsFit, ValidStays};

/// Over every run without its own free a live block keeps its content.
pub fn contents_stay()
    ensures { ContentsStay (List ℕ) }
{}

/// No event but its own unpin changes the place of a block that is out.
pub fn out_stays()
    ensures bytes { OutStays (List ℕ) }
    ensures lengths { OutStays ℕ }
{}

/// The contents of different live blocks never add up to more than the frames and the slots in use have room for.
///
/// It rests on places and lengths alone.
pub fn contents_fit()
    ensures { ContentsFit }
{}

/// A pool that was just opened is valid, and each event leaves a valid pool valid.
pub fn valid_stays()
    ensures bytes { ValidStays (List ℕ) }
    ensures lengths { ValidStays ℕ }
{}
