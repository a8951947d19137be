//! Bytes on their way to a worker.
ghost use Rattle.std.specs.Prelude.{◌≡◌, ◌+◌, ◌*◌, ◌^◌, ◌<◌, ◌≤◌, ◌++◌, length, None, IfOk, OnOk, OnErr, IfErr};
ghost use Rattle.dia_item.specs.Sizes.{longest_row};
ghost use Rattle.block_pool.specs.Handles.{Follows, RefusesFrame};
ghost use Rattle.dia_file.specs.Frames.{frame_bytes, frames};
ghost use Rattle.exchange.specs.Limits.{most_packets};
ghost use Rattle.exchange.specs.Dealing.{sent_to, with_frame, IsOpenIn, IsDealt, RefusesDeal, SamePost};

use crate::scatter_err::ScatterErr;
use block_pool::{Frame, FrameErr, Hand, LEAST_BLOCK};
use dia_edge::{Disk, NoMemory};
use multiplexer::Post;
use std::sync::Wait;

/// Sends the frame that is written, if there is one. One that isn't sent is freed.
pub(crate) fn send_frame<R: Wait, D: Disk, P: Post>(
    rt: &R,
    hand: &mut Hand<'_, D>,
    post: &mut P,
    to: u32,
    frame: &mut Option<Frame>,
) -> Result<(), NoMemory>
    requires own { IsOpenIn hand.old.pool frame.old }
    requires to { to < P.workers post.old }
    requires room { length (sent_to (P.sent post.old) to) < 2 ^ 56 }
    ensures frame { OnOk result (frame.new ≡ None) }
    ensures sent { OnOk result (P.sent post.new ≡ with_frame (P.sent post.old) to frame.old) }
    ensures same { SamePost P.Post post.old post.new }
    ensures own { IsOpenIn hand.old.pool frame.new }
    ensures permits { hand.new.permits + frames frame.new ≡ hand.old.permits + frames frame.old }
    ensures follows { Follows hand.old hand.new }
{
    let Some(written) = frame.take() else {
        return Ok(());
    };
    match hand.seal(rt, written) {
        Err((written, refusal)) => {
            *frame = Some(written);
            Err(refusal)
        }
        Ok(block) => match post.send(rt, to, block) {
            Ok(()) => Ok(()),
            Err((block, refusal)) => {
                hand.free(rt, block);
                Err(refusal)
            }
        },
    }
}

/// Puts a prefix of the bytes into a new frame, as much as fits, and answers the rest.
fn put_prefix<'b, R: Wait, D: Disk>(
    rt: &R,
    hand: &mut Hand<'_, D>,
    frame: &mut Option<Frame>,
    bytes: &'b [u8],
) -> Result<&'b [u8], FrameErr>
    requires permit { 0 < hand.old.permits }
    requires none { frame.old ≡ None }
    requires some { 0 < length bytes.now }
    requires block { LEAST_BLOCK ≤ hand.old.pool.opening.block }
    ensures parts { IfOk result (λ rest. frame_bytes frame.new ++ rest.now ≡ bytes.now) }
    ensures full { IfOk result (λ rest. (0 < length rest.now) → length rest.now + LEAST_BLOCK ≤ length bytes.now) }
    ensures nearer { IfOk result (λ rest. length rest.now < length bytes.now) }
    ensures own { IsOpenIn hand.old.pool frame.new }
    ensures one { OnOk result (frames frame.new ≡ 1) }
    ensures permits { hand.new.permits + frames frame.new ≡ hand.old.permits }
    ensures refused { IfErr result (λ e. RefusesFrame hand.old.notes hand.new.notes e) }
    ensures follows { Follows hand.old hand.new }
{
    let mut next = hand.frame(rt)?;
    let n = bytes.len().min(next.room());
    let (piece, rest) = bytes.split_at(n);
    next.put(piece);
    *frame = Some(next);
    Ok(rest)
}

/// Sends the frame that is written, and puts bytes into new ones; each that is full is sent when more are left.
#[cold]
#[inline(never)]
fn put_anew<R: Wait, D: Disk, P: Post>(
    rt: &R,
    hand: &mut Hand<'_, D>,
    post: &mut P,
    to: u32,
    frame: &mut Option<Frame>,
    bytes: &[u8],
) -> Result<(), ScatterErr>
    requires own { IsOpenIn hand.old.pool frame.old }
    requires to { to < P.workers post.old }
    requires lanes { length (P.sent post.old) ≡ P.workers post.old }
    requires room { length (sent_to (P.sent post.old) to) + most_packets < 2 ^ 56 }
    requires permit { 0 < hand.old.permits + frames frame.old }
    requires some { 0 < length bytes.now }
    requires longest { length bytes.now ≤ longest_row }
    requires block { LEAST_BLOCK ≤ hand.old.pool.opening.block }
    ensures ok { OnOk result (IsDealt hand.old.pool (P.sent post.old) to frame.old bytes.now (P.sent post.new) frame.new) }
    ensures same { SamePost P.Post post.old post.new }
    ensures own { IsOpenIn hand.old.pool frame.new }
    ensures permits { hand.new.permits + frames frame.new ≡ hand.old.permits + frames frame.old }
    ensures refused { IfErr result (λ e. RefusesDeal e hand.old.notes hand.new.notes) }
    ensures follows { Follows hand.old hand.new }
{
    let mut rest = bytes;
    while !rest.is_empty() {
        match send_frame(rt, hand, post, to, frame) {
            Ok(()) => {}
            Err(NoMemory) => return Err(ScatterErr::NoMemory),
        }
        rest = put_prefix(rt, hand, frame, rest)?;
    }
    Ok(())
}

/// Puts the bytes of a row behind those in the frame where they fit, else into new ones.
#[inline]
pub(crate) fn put_row<R: Wait, D: Disk, P: Post>(
    rt: &R,
    hand: &mut Hand<'_, D>,
    post: &mut P,
    to: u32,
    frame: &mut Option<Frame>,
    bytes: &[u8],
) -> Result<(), ScatterErr>
    requires own { IsOpenIn hand.old.pool frame.old }
    requires to { to < P.workers post.old }
    requires lanes { length (P.sent post.old) ≡ P.workers post.old }
    requires room { length (sent_to (P.sent post.old) to) + most_packets < 2 ^ 56 }
    requires permit { 0 < hand.old.permits + frames frame.old }
    requires some { 0 < length bytes.now }
    requires longest { length bytes.now ≤ longest_row }
    requires block { LEAST_BLOCK ≤ hand.old.pool.opening.block }
    ensures ok { OnOk result (IsDealt hand.old.pool (P.sent post.old) to frame.old bytes.now (P.sent post.new) frame.new) }
    ensures same { SamePost P.Post post.old post.new }
    ensures own { IsOpenIn hand.old.pool frame.new }
    ensures permits { hand.new.permits + frames frame.new ≡ hand.old.permits + frames frame.old }
    ensures refused { IfErr result (λ e. RefusesDeal e hand.old.notes hand.new.notes) }
    ensures follows { Follows hand.old hand.new }
{
    match frame {
        Some(written) if bytes.len() <= written.room() => {
            written.put(bytes);
            Ok(())
        }
        _ => put_anew(rt, hand, post, to, frame, bytes),
    }
}
