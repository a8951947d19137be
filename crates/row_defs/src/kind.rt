//! Kinds of fields.

/// What a field of a row is.
#[derive(Clone, Copy, Debug, PartialEq, Eq)]
pub enum Kind {
    /// A whole number below 2^64.
    Int,
    /// At most 65,536 bytes of any value.
    Text,
}
