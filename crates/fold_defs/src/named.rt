//! The reducers of the language.
ghost use Rattle.std.specs.Prelude.{◌≡◌};
ghost use Rattle.fold_defs.specs.Folds.{commuting};

/// A reducer of the language: what it makes of two fields of one kind.
#[derive(Clone, Copy, Debug, PartialEq, Eq)]
pub enum Named {
    /// The sum of two numbers modulo 2^64.
    Sum,
    /// The smaller number.
    Min,
    /// The larger number.
    Max,
    /// The bits in which two numbers differ.
    Xor,
    /// The bits that both numbers have.
    And,
    /// The bits that at least one of two numbers has.
    Or,
    /// The text that comes first in the order of bytes.
    TextMin,
    /// The text that comes last.
    TextMax,
    /// The first field, of either kind.
    First,
    /// The last field, of either kind.
    Last,
}

impl Named {
    /// Whether the order of the fields doesn't matter.
    pub fn commutes(self) -> bool
        ensures { result ≡ commuting self }
    {
        !matches!(self, Named::First | Named::Last)
    }
}
