//! Bytes that are put into blocks, one after the other.
ghost use Rattle.std.specs.Prelude.{◌≡◌, ◌+◌, ◌<◌, ◌≤◌, ◌++◌, ◌∷◌, [], ℕ, List, length, take, drop, None, IfOk, OnOk, OnErr, IfErr, IfSome, vec_len, vec_capacity};
ghost use Rattle.std.specs.VecDeque.{deque_len};
ghost use Rattle.dia_item.specs.Sizes.{longest_row};
ghost use Rattle.block_pool.specs.Handles.{Follows, PoolName, RefusesFrame, SameTally};
ghost use Rattle.dia_file.specs.Frames.{frame_bytes, frames, IsFilled, IsFrameIn, sealed_of, Spread, IsPut, IsTorn, AreBlocksOf, blocks_of};
ghost use Rattle.dia_file.specs.Parts.{bytes_of};
ghost use Rattle.dia_file.specs.Tallies.{Frees, Makes};

use block_pool::{BlockRef, Frame, FrameErr, Hand};
use dia_edge::{Disk, NoMemory};
use std::collections::VecDeque;
use std::sync::Wait;

/// A block, how many rows end in it, and how many bytes it has.
#[derive(Drop)]
pub(crate) struct Sealed {
    pub(crate) block: BlockRef,
    pub(crate) ends: usize,
    pub(crate) len: usize,
}

/// The bytes of a row: those of its parts, one behind the other.
#[derive(Clone, Copy)]
pub(crate) struct Parts<'b> {
    pub(crate) head: &'b [u8],
    pub(crate) prefix: &'b [u8],
    pub(crate) rest: &'b [u8],
}

impl<'b> Parts<'b> {
    /// How many bytes they are.
    #[inline(always)]
    pub(crate) fn len(&self) -> usize
        requires { length (bytes_of self.now) ≤ longest_row }
        ensures { result ≡ length (bytes_of self.now) }
    {
        self.head.len() + (self.prefix.len() + self.rest.len())
    }
}

/// Seals the frame that is written, if there is one, in which so many rows end.
pub(crate) fn seal_frame<R: Wait, D: Disk>(
    rt: &R,
    hand: &mut Hand<'_, D>,
    sealed: &mut VecDeque<Sealed>,
    frame: &mut Option<Frame>,
    ends: usize,
) -> Result<(), NoMemory>
    requires own { IsFrameIn hand.old.pool frame.old }
    ensures frame { OnOk result (frame.new ≡ None) }
    ensures sealed { OnOk result (sealed.new.items ≡ sealed.old.items ++ sealed_of frame.old ends) }
    ensures kept { OnErr result (sealed.new.items ≡ sealed.old.items) }
    ensures frame_kept { OnErr result (frame.new ≡ frame.old) }
    ensures permits { hand.new.permits + frames frame.new ≡ hand.old.permits + frames frame.old }
    ensures made { Makes (deque_len sealed.old) (deque_len sealed.new) hand.old.notes hand.new.notes }
    ensures follows { Follows hand.old hand.new }
{
    let Some(written) = frame.take() else {
        return Ok(());
    };
    if sealed.reserve(1).is_err() {
        *frame = Some(written);
        return Err(NoMemory);
    }
    let len = written.bytes().len();
    match hand.seal(rt, written) {
        Err((written, refusal)) => {
            *frame = Some(written);
            Err(refusal)
        }
        Ok(block) => {
            sealed.push_back_reserved(Sealed { block, ends, len });
            Ok(())
        }
    }
}

/// Puts a front of the bytes into a new frame, as much as fits, and answers the rest.
fn put_prefix<'b, R: Wait, D: Disk>(
    rt: &R,
    hand: &mut Hand<'_, D>,
    frame: &mut Option<Frame>,
    bytes: &'b [u8],
) -> Result<&'b [u8], FrameErr>
    requires permit { 0 < hand.old.permits }
    requires none { frame.old ≡ None }
    requires some { 0 < length bytes.now }
    ensures parts { IfOk result (λ rest. frame_bytes frame.new ++ rest.now ≡ bytes.now) }
    ensures some { OnOk result (0 < length (frame_bytes frame.new)) }
    ensures one { OnOk result (frames frame.new ≡ 1) }
    ensures own { IsFrameIn hand.old.pool frame.new }
    ensures none { OnErr result (frame.new ≡ None) }
    ensures permits { hand.new.permits + frames frame.new ≡ hand.old.permits }
    ensures refused { IfErr result (λ e. RefusesFrame hand.old.notes hand.new.notes e) }
    ensures tally { SameTally hand.old.notes hand.new.notes }
    ensures follows { Follows hand.old hand.new }
{
    let mut next = hand.frame(rt)?;
    let n = bytes.len().min(next.room());
    let (piece, rest) = bytes.split_at(n);
    next.put(piece);
    *frame = Some(next);
    Ok(rest)
}

/// Puts a front of the bytes into the frame that is written, if there is one, as much as fits, and answers the rest.
fn put_behind<'b>(frame: &mut Option<Frame>, bytes: &'b [u8]) -> &'b [u8]
    requires filled { IsFilled frame.old }
    ensures parts { frame_bytes frame.new ++ result.now ≡ frame_bytes frame.old ++ bytes.now }
    ensures frames { frames frame.new ≡ frames frame.old }
    ensures filled { IsFilled frame.new }
    ensures own { (pool : PoolName) → IsFrameIn pool frame.old → IsFrameIn pool frame.new }
{
    match frame {
        None => bytes,
        Some(written) => {
            let n = bytes.len().min(written.room());
            let (piece, rest) = bytes.split_at(n);
            written.put(piece);
            rest
        }
    }
}

/// Puts the bytes behind those in the frame that is written, and then into new ones. The last frame stays open.
fn put_over<R: Wait, D: Disk>(
    rt: &R,
    hand: &mut Hand<'_, D>,
    sealed: &mut VecDeque<Sealed>,
    frame: &mut Option<Frame>,
    bytes: &[u8],
) -> Result<(), FrameErr>
    requires permit { 0 < hand.old.permits + frames frame.old }
    requires own { IsFrameIn hand.old.pool frame.old }
    requires filled { IsFilled frame.old }
    ensures ok { OnOk result (Spread hand.old.pool sealed.old.items sealed.new.items (frame_bytes frame.new) (frame_bytes frame.old ++ bytes.now)) }
    ensures some { OnOk result (0 < length (frame_bytes frame.old) + length bytes.now → 0 < length (frame_bytes frame.new)) }
    ensures err { OnErr result ((rest : List ℕ) × Spread hand.old.pool sealed.old.items sealed.new.items rest (frame_bytes frame.old ++ bytes.now)) }
    ensures own { IsFrameIn hand.old.pool frame.new }
    ensures filled { OnOk result (IsFilled frame.new) }
    ensures permits { hand.new.permits + frames frame.new ≡ hand.old.permits + frames frame.old }
    ensures refused { IfErr result (λ e. RefusesFrame hand.old.notes hand.new.notes e) }
    ensures made { Makes (deque_len sealed.old) (deque_len sealed.new) hand.old.notes hand.new.notes }
    ensures follows { Follows hand.old hand.new }
{
    let mut rest = put_behind(frame, bytes);
    while !rest.is_empty() {
        match seal_frame(rt, hand, sealed, frame, 0) {
            Ok(()) => {}
            Err(NoMemory) => return Err(FrameErr::NoMemory),
        }
        rest = put_prefix(rt, hand, frame, rest)?;
    }
    Ok(())
}

/// Puts a part that there is room for. Most rows have no more than one, and a copy of no bytes is a call too.
#[inline(always)]
fn put_part(written: &mut Frame, part: &[u8])
    requires fits { length written.old.bytes + length part.now ≤ written.old.pool.opening.block }
    ensures { written.new ≡ record written.old { bytes = written.old.bytes ++ part.now } }
{
    if part.is_empty() {
        return;
    }
    written.put(part);
}

/// Puts a row that there is room for.
#[inline(always)]
fn put_all(written: &mut Frame, parts: Parts<'_>)
    requires fits { length written.old.bytes + length (bytes_of parts) ≤ written.old.pool.opening.block }
    ensures { written.new ≡ record written.old { bytes = written.old.bytes ++ bytes_of parts.entry } }
{
    put_part(written, parts.head);
    put_part(written, parts.prefix);
    put_part(written, parts.rest);
}

/// Puts the bytes of a row where the frame that is written has room for them, else into new frames.
#[inline(always)]
pub(crate) fn put_row<R: Wait, D: Disk>(
    rt: &R,
    hand: &mut Hand<'_, D>,
    sealed: &mut VecDeque<Sealed>,
    frame: &mut Option<Frame>,
    ends: &mut usize,
    parts: Parts<'_>,
) -> Result<(), FrameErr>
    requires permit { 0 < hand.old.permits + frames frame.old }
    requires own { IsFrameIn hand.old.pool frame.old }
    requires some { 0 < length (bytes_of parts) }
    requires most { length (bytes_of parts) ≤ longest_row }
    ensures ok { OnOk result (IsPut hand.old.pool sealed.old.items frame.old ends.old sealed.new.items frame.new ends.new (bytes_of parts.entry)) }
    ensures some { OnOk result (0 < length (frame_bytes frame.new)) }
    ensures err { OnErr result (IsTorn hand.old.pool sealed.old.items frame.old ends.old sealed.new.items frame.new ends.new (bytes_of parts.entry)) }
    ensures own { IsFrameIn hand.old.pool frame.new }
    ensures permits { hand.new.permits + frames frame.new ≡ hand.old.permits + frames frame.old }
    ensures refused { IfErr result (λ e. RefusesFrame hand.old.notes hand.new.notes e) }
    ensures made { Makes (deque_len sealed.old) (deque_len sealed.new) hand.old.notes hand.new.notes }
    ensures follows { Follows hand.old hand.new }
{
    match frame {
        Some(written) if parts.len() <= written.room() => {
            put_all(written, parts);
            Ok(())
        }
        _ => put_anew(rt, hand, sealed, frame, ends, parts),
    }
}

/// Seals the frame that is written, and puts the bytes of a row into new ones.
#[cold]
#[inline(never)]
fn put_anew<R: Wait, D: Disk>(
    rt: &R,
    hand: &mut Hand<'_, D>,
    sealed: &mut VecDeque<Sealed>,
    frame: &mut Option<Frame>,
    ends: &mut usize,
    parts: Parts<'_>,
) -> Result<(), FrameErr>
    requires permit { 0 < hand.old.permits + frames frame.old }
    requires own { IsFrameIn hand.old.pool frame.old }
    requires some { 0 < length (bytes_of parts) }
    ensures ok { OnOk result (Spread hand.old.pool (sealed.old.items ++ sealed_of frame.old ends.old) sealed.new.items (frame_bytes frame.new) (bytes_of parts.entry)) }
    ensures ends { OnOk result (ends.new ≡ 0) }
    ensures some { OnOk result (0 < length (frame_bytes frame.new)) }
    ensures err { OnErr result (IsTorn hand.old.pool sealed.old.items frame.old ends.old sealed.new.items frame.new ends.new (bytes_of parts.entry)) }
    ensures own { IsFrameIn hand.old.pool frame.new }
    ensures permits { hand.new.permits + frames frame.new ≡ hand.old.permits + frames frame.old }
    ensures refused { IfErr result (λ e. RefusesFrame hand.old.notes hand.new.notes e) }
    ensures made { Makes (deque_len sealed.old) (deque_len sealed.new) hand.old.notes hand.new.notes }
    ensures follows { Follows hand.old hand.new }
{
    match seal_frame(rt, hand, sealed, frame, *ends) {
        Ok(()) => {}
        Err(NoMemory) => return Err(FrameErr::NoMemory),
    }
    *ends = 0;
    put_over(rt, hand, sealed, frame, parts.head)?;
    put_over(rt, hand, sealed, frame, parts.prefix)?;
    put_over(rt, hand, sealed, frame, parts.rest)
}

/// The blocks alone, in the room for them.
pub(crate) fn blocks_in(sealed: VecDeque<Sealed>, room: Vec<BlockRef>) -> Vec<BlockRef>
    requires room { (vec_len room ≡ 0) × (length sealed.items ≤ vec_capacity room) }
    ensures { result.items ≡ blocks_of sealed.items }
{
    let mut sealed = sealed;
    let mut blocks = room;
    while let Some(front) = sealed.pop_front() {
        let Sealed {
            block,
            ends: _,
            len: _,
        } = front;
        blocks.push_reserved(block);
    }
    blocks
}

/// Frees blocks.
pub(crate) fn free_all<R: Wait, D: Disk>(
    rt: &R,
    hand: &mut Hand<'_, D>,
    sealed: &mut VecDeque<Sealed>,
)
    requires own { AreBlocksOf hand.old.pool sealed.old.items }
    ensures permits { hand.new.permits ≡ hand.old.permits }
    ensures gone { Frees (deque_len sealed.old) 0 hand.old.notes hand.new.notes }
    ensures follows { Follows hand.old hand.new }
{
    while let Some(front) = sealed.pop_front() {
        let Sealed {
            block,
            ends: _,
            len: _,
        } = front;
        hand.free(rt, block);
    }
}
