//! A place among the rows of blocks.
ghost use Rattle.std.specs.Prelude.{◌≡◌, None};
ghost use Rattle.std.specs.VecDeque.{deque_len};

use crate::sealed::Sealed;
use block_pool::Pinned;
use std::collections::VecDeque;

/// What becomes of a block once its rows were read.
#[derive(Clone, Copy, PartialEq, Eq)]
pub(crate) enum After {
    /// It stays behind those ahead.
    Keep,
    /// It is freed.
    Free,
}

/// A block that is pinned, how many rows end in it, and how many bytes it has.
#[derive(Drop)]
pub(crate) struct Held {
    pub(crate) pinned: Pinned,
    pub(crate) ends: usize,
    pub(crate) len: usize,
}

/// A place among the rows of blocks. The blocks ahead stand at the front of the ring, those behind after them.
#[derive(Drop)]
pub(crate) struct Place {
    pub(crate) ring: VecDeque<Sealed>,
    pub(crate) ahead: usize,
    pub(crate) shown: Option<Held>,
    pub(crate) at: usize,
    pub(crate) here: usize,
    pub(crate) buffer: Vec<u8>,
    pub(crate) kept: usize,
    pub(crate) after: After,
}

impl Place {
    /// The place before the first row of these blocks.
    pub(crate) fn before_all(sealed: VecDeque<Sealed>, after: After) -> Place
        ensures ring { result.ring ≡ sealed }
        ensures ahead { result.ahead ≡ deque_len sealed }
        ensures hidden { result.shown ≡ None }
        ensures start { (result.at ≡ 0) × (result.here ≡ 0) × (result.kept ≡ 0) }
        ensures after { result.after ≡ after }
    {
        let ahead = sealed.len();
        let buffer = Vec::new(*sealed.allocator());
        Place {
            ring: sealed,
            ahead,
            shown: None,
            at: 0,
            here: 0,
            buffer,
            kept: 0,
            after,
        }
    }
}
