//! One of a kind, or not.

/// How many there are, where only one will do.
#[derive(Clone, Copy)]
pub enum Few<T> {
    /// None.
    None,
    /// One.
    One(T),
    /// More than one.
    More,
}
