//! Rows in what is open: the bytes copied, and the rest of the block.
ghost use Rattle.std.specs.Prelude.{◌≡◌, ℕ, ◌+◌, ◌<◌, ◌≤◌, List, length, take, drop, IfOk, IfSome, IfNone, IfErr, OnOk, OnErr};
ghost use Rattle.row_defs.specs.Rows.{Row, IsRow};
ghost use Rattle.dia_item.specs.KindList.{kind_list};
ghost use Rattle.mix_stream.specs.Reading.{StartsNoRow};
ghost use Rattle.mix_stream.specs.Streams.{shown_bytes, reading_of, IsInside, IsSameBut, Gives};
ghost use Rattle.mix_stream.specs.Moving.{IsRead, Misses};

use crate::copied::copy_behind;
use crate::stream::{RowPlace, Stream, bytes_shown};
use block_pool::PinErr;
use dia_edge::NoMemory;
use dia_item::{Kinds, LONGEST_ROW, read_row};

/// How many bytes the row at the beginning has.
#[inline]
fn row_len(kinds: &Kinds, bytes: &[u8]) -> Option<usize>
    ensures len { IfSome result (λ n. (0 < n) × (n ≤ length bytes.now)) }
    ensures found { IfSome result (λ n. (row : Row) × IsRow (kind_list kinds.now) (take n bytes.now) row) }
    ensures none { IfNone result (StartsNoRow (kind_list kinds.now) bytes.now) }
{
    let _list = kinds.list();
    match read_row(kinds, bytes) {
        Some((_, n)) => Some(n),
        None => None,
    }
}

/// The row that lies whole in the rest of the block, where none has begun before it.
#[inline(always)]
pub(crate) fn in_block(stream: &mut Stream) -> Option<RowPlace>
    requires inside { IsInside stream.old }
    ensures some { IfSome result (λ place. Gives stream.old place stream.new) }
    ensures same { IfNone result (stream.new ≡ stream.old) }
    ensures none { IfNone result (stream.old.pending ≡ 0 → StartsNoRow (kind_list stream.old.kinds) (drop stream.old.at (shown_bytes stream.old.shown))) }
{
    if stream.pending > 0 {
        return None;
    }
    let start = stream.at;
    let (_, rest) = bytes_shown(&stream.shown).split_at(start);
    let len = row_len(&stream.kinds, rest)?;
    stream.at = start + len;
    Some(RowPlace::InBlock(start, len))
}

/// The rest of the block is copied, for a row that goes on in the sender's next one.
fn copy_rest(stream: &mut Stream) -> Result<(), PinErr>
    requires inside { IsInside stream.old }
    requires free { stream.old.pending ≡ 0 }
    requires none { StartsNoRow (kind_list stream.old.kinds) (drop stream.old.at (shown_bytes stream.old.shown)) }
    ensures same { IsSameBut stream.old stream.new }
    ensures read { OnOk result (IsRead stream.new) }
    ensures refused { IfErr result (λ e. Misses (reading_of stream.old) e) }
{
    let bytes = bytes_shown(&stream.shown);
    let (_, rest) = bytes.split_at(stream.at);
    if rest.is_empty() {
        return Ok(());
    }
    if rest.len() > LONGEST_ROW {
        return Err(PinErr::Damaged);
    }
    match copy_behind(&mut stream.buffer, 0, rest) {
        Ok(()) => {
            stream.pending = rest.len();
            stream.at = bytes.len();
            Ok(())
        }
        Err(NoMemory) => Err(PinErr::NoMemory),
    }
}

/// The row that begins in the bytes copied and ends in the block; else all of the block is copied too.
fn across(stream: &mut Stream) -> Result<Option<RowPlace>, PinErr>
    requires inside { IsInside stream.old }
    requires some { 0 < stream.old.pending }
    ensures some { IfOk result (λ o. IfSome o (λ place. Gives stream.old place stream.new)) }
    ensures none { IfOk result (λ o. IfNone o (IsSameBut stream.old stream.new × IsRead stream.new)) }
    ensures same { OnErr result (IsSameBut stream.old stream.new) }
    ensures refused { IfErr result (λ e. Misses (reading_of stream.old) e) }
{
    let before = stream.pending;
    let bytes = bytes_shown(&stream.shown);
    let (_, rest) = bytes.split_at(stream.at);
    let (piece, more) = rest.split_at(rest.len().min(LONGEST_ROW - before));
    match copy_behind(&mut stream.buffer, before, piece) {
        Ok(()) => {}
        Err(NoMemory) => return Err(PinErr::NoMemory),
    }
    match row_len(&stream.kinds, stream.buffer.as_slice()) {
        Some(len) => {
            stream.at += len - before;
            stream.pending = 0;
            Ok(Some(RowPlace::InBuffer(len)))
        }
        None if more.is_empty() => {
            stream.at = bytes.len();
            stream.pending = stream.buffer.len();
            Ok(None)
        }
        None => Err(PinErr::Damaged),
    }
}

/// The next row in what is open; where there is none, all of that was read or copied.
pub(crate) fn find(stream: &mut Stream) -> Result<Option<RowPlace>, PinErr>
    requires inside { IsInside stream.old }
    ensures some { IfOk result (λ o. IfSome o (λ place. Gives stream.old place stream.new)) }
    ensures none { IfOk result (λ o. IfNone o (IsSameBut stream.old stream.new × IsRead stream.new)) }
    ensures same { OnErr result (IsSameBut stream.old stream.new) }
    ensures refused { IfErr result (λ e. Misses (reading_of stream.old) e) }
{
    if let Some(place) = in_block(stream) {
        return Ok(Some(place));
    }
    if stream.pending > 0 {
        return across(stream);
    }
    copy_rest(stream)?;
    Ok(None)
}
