//! A place among the rows of packets.
ghost use Rattle.std.specs.Prelude.{◌≡◌, ℕ, List, length};
ghost use Rattle.row_defs.specs.Rows.{Row, IsRow};
ghost use Rattle.dia_item.specs.KindList.{kind_list};
ghost use Rattle.dia_item.specs.Lent.{row_in_ref};
ghost use Rattle.mix_stream.specs.Streams.{shown_bytes, IsAt};

use block_pool::Pinned;
use dia_item::{Kinds, RowRef, known_row};
use multiplexer::Packet;
use std::collections::VecDeque;

/// The block that is read, and the packets behind it. The first `pending` bytes of the buffer were copied out of the
/// sender's earlier blocks: they are the beginning of a row that goes on at `at` in the block.
#[derive(Drop)]
pub(crate) struct Stream {
    pub(crate) kinds: Kinds,
    pub(crate) shown: Option<Pinned>,
    pub(crate) at: usize,
    pub(crate) buffer: Vec<u8>,
    pub(crate) pending: usize,
    pub(crate) from: u32,
    pub(crate) packets: VecDeque<Packet>,
}

/// Where a row lies.
#[derive(Drop)]
pub(crate) enum RowPlace {
    /// In the block that is pinned: where it starts, and how many bytes it has.
    InBlock(usize, usize),
    /// At the beginning of the buffer: how many bytes it has.
    InBuffer(usize),
}

/// The bytes of the block that is pinned.
#[inline]
pub(crate) fn bytes_shown(shown: &Option<Pinned>) -> &[u8]
    ensures { result.now ≡ shown_bytes shown.now }
{
    match shown {
        Some(pinned) => pinned.bytes(),
        None => &[],
    }
}

#[inline]
fn bytes_at<'r>(stream: &'r Stream, place: &RowPlace) -> &'r [u8]
    requires { (bytes : List ℕ) × IsAt stream.now place.now bytes }
    ensures { (bytes : List ℕ) → IsAt stream.entry.now place.entry.now bytes → result.now ≡ bytes }
{
    match place {
        RowPlace::InBlock(start, len) => {
            let (_, rest) = bytes_shown(&stream.shown).split_at(*start);
            rest.split_at(*len).0
        }
        RowPlace::InBuffer(len) => stream.buffer.as_slice().split_at(*len).0,
    }
}

/// The row at a place.
#[inline]
pub(crate) fn row_at<'r>(stream: &'r Stream, place: &RowPlace) -> RowRef<'r>
    requires { (row : Row) × (bytes : List ℕ) × IsAt stream.now place.now bytes × IsRow (kind_list stream.now.kinds) bytes row }
    ensures { (row : Row) (bytes : List ℕ) → IsAt stream.entry.now place.entry.now bytes → IsRow (kind_list stream.entry.now.kinds) bytes row → row_in_ref result ≡ row }
{
    known_row(&stream.kinds, bytes_at(stream, place))
}
