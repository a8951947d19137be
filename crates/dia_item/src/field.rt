//! Fields.

/// What a field holds; a text is borrowed from the row's bytes.
#[derive(Clone, Copy, Debug, PartialEq, Eq)]
pub enum Field<'a> {
    /// A whole number below 2^64.
    Int(u64),
    /// At most 65,536 bytes of any value.
    Text(&'a [u8]),
}
