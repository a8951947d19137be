//! Blocks and their places.

/// Where a block is.
#[derive(Clone, Copy, Debug, PartialEq, Eq)]
pub enum Place {
    /// In a frame that somebody has in hand.
    Out,
    /// In a frame that nobody has in hand.
    Cached,
    /// In this slot of the disk, and in no frame.
    Slot(u64),
}

/// A live block: what was sealed in it, which is its bytes or where only that is known their number, and where it is.
#[derive(Clone, Copy)]
pub struct Block<C> {
    pub content: C,
    pub place: Place,
}
