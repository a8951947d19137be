//! What the encoding keeps for every row. The calls do nothing: they are there for what they say.
ghost use Rattle.dia_item.specs.Laws.{HaveTheirKinds, HaveSpellings, AreSpelledOnce, AreNoPrefixes, AreReadAgain};

/// A row has the kinds that it is read with, and its cells are in their limits.
#[inline]
pub fn rows_have_their_kinds()
    ensures { HaveTheirKinds }
{}

/// Cells in their limits have a spelling.
#[inline]
pub fn rows_have_spellings()
    ensures { HaveSpellings }
{}

/// A row has one list of kinds and one spelling.
#[inline]
pub fn rows_are_spelled_once()
    ensures { AreSpelledOnce }
{}

/// No row begins another row of the same kinds.
#[inline]
pub fn rows_are_no_prefixes()
    ensures { AreNoPrefixes }
{}

/// What a buffer or an owned row holds is read again as the same row, whatever bytes follow it.
#[inline]
pub fn rows_are_read_again()
    ensures { AreReadAgain }
{}
