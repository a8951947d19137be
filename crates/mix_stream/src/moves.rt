//! From packet to packet.
ghost use Rattle.std.specs.Prelude.{◌≡◌, ◌≢◌, ℕ, ◌+◌, ◌<◌, ◌≤◌, List, [], ◌∷◌, None, Some, slice_get, take, length, IfOk, IfErr, IfSome, IfNone, OnOk, OnErr};
ghost use Rattle.std.specs.Bool.{OnTrue, OnFalse};
ghost use Rattle.std.specs.VecDeque.{deque_len, deque_capacity};
ghost use Rattle.block_pool.specs.Handles.{AreOfPool, Follows, RefusesPin, SameTally};
ghost use Rattle.dia_item.specs.KindList.{kind_list};
ghost use Rattle.multiplexer.specs.declared.packet.Packet.{Packet};
ghost use Rattle.mix_stream.specs.Packets.{bytes_from, blocks_in, IsBrought, Rises};
ghost use Rattle.mix_stream.specs.Reading.{Drains, IsDone, IsSame, RefusesStream, blocks_of, pins};
ghost use Rattle.mix_stream.specs.Streams.{reading_of, pinned_of, IsInside};
ghost use Rattle.mix_stream.specs.Moving.{GivesNext, IsChosen, IsMoved, IsOpened, IsRead, IsReady, Misses};

use crate::find::find;
use crate::stream::{RowPlace, Stream};
use block_pool::{Hand, PinErr};
use dia_edge::Disk;
use multiplexer::Packet;
use std::collections::VecDeque;
use std::sync::Wait;

/// The place of the first packet of a sender.
fn place_of(packets: &VecDeque<Packet>, from: u32) -> Option<usize>
    ensures some { IfSome result (λ at. (p : Packet) × (slice_get packets.now.items at ≡ Some p) × (p.from ≡ from) × (bytes_from from (take at packets.now.items) ≡ [])) }
    ensures none { IfNone result (bytes_from from packets.now.items ≡ []) }
{
    for at in 0..packets.len() {
        if packets[at].from == from {
            return Some(at);
        }
    }
    None
}

/// Brings the next packet of a sender to the front; false where there is none.
fn bring_forward(packets: &mut VecDeque<Packet>, from: u32) -> bool
    ensures brought { OnTrue result (IsBrought from packets.old.items packets.new.items) }
    ensures none { OnFalse result ((packets.new ≡ packets.old) × (bytes_from from packets.old.items ≡ [])) }
{
    let Some(at) = place_of(packets, from) else {
        return false;
    };
    let Some(packet) = packets.remove(at) else {
        unreachable!()
    };
    packets.push_front_reserved(packet);
    true
}

/// Unpins the block that was read, and frees it.
pub(crate) fn close<R: Wait, D: Disk>(rt: &R, hand: &mut Hand<'_, D>, stream: &mut Stream)
    requires own { AreOfPool hand.old.pool (pinned_of stream.old.shown) }
    ensures stream { stream.new ≡ record stream.old { shown = None; at = 0 } }
    ensures permits { hand.new.permits ≡ hand.old.permits + length (pinned_of stream.old.shown) }
    ensures gone { hand.new.notes.gone ≡ hand.old.notes.gone + length (pinned_of stream.old.shown) }
    ensures made { hand.new.notes.made ≡ hand.old.notes.made }
    ensures follows { Follows hand.old hand.new }
{
    stream.at = 0;
    let Some(pinned) = stream.shown.take() else {
        return;
    };
    let block = hand.unpin(rt, pinned);
    hand.free(rt, block);
}

/// Puts the packet to the front that is to be read next: where a row has begun, the next one of its sender. False where no
/// packet is left.
fn choose(stream: &mut Stream) -> Result<bool, PinErr>
    requires inside { IsInside stream.old }
    requires read { IsRead stream.old }
    ensures chosen { IsChosen stream.old stream.new }
    ensures some { IfOk result (λ more. OnTrue more (IsReady stream.new)) }
    ensures end { IfOk result (λ more. OnFalse more ((stream.old.packets.items ≡ []) × (stream.old.pending ≡ 0) × (stream.new ≡ stream.old))) }
    ensures refused { IfErr result (λ e. Misses (reading_of stream.old) e) }
{
    if stream.pending == 0 {
        return Ok(!stream.packets.is_empty());
    }
    if bring_forward(&mut stream.packets, stream.from) {
        Ok(true)
    } else {
        Err(PinErr::Damaged)
    }
}

/// Pins the block of the first packet.
fn open_first<R: Wait, D: Disk>(
    rt: &R,
    hand: &mut Hand<'_, D>,
    stream: &mut Stream,
) -> Result<(), PinErr>
    requires own { AreOfPool hand.old.pool (blocks_in stream.old.packets.items) }
    requires permit { 0 < hand.old.permits }
    requires some { IsReady stream.old }
    requires closed { stream.old.shown ≡ None }
    ensures opened { OnOk result (IsOpened stream.old stream.new) }
    ensures same { OnErr result ((stream.new.packets.items ≡ stream.old.packets.items) × (stream.new ≡ record stream.old { packets = stream.new.packets })) }
    ensures permits { hand.new.permits + length (pinned_of stream.new.shown) ≡ hand.old.permits }
    ensures tally { SameTally hand.old.notes hand.new.notes }
    ensures refused { IfErr result (λ e. RefusesPin hand.old.notes hand.new.notes e) }
    ensures follows { Follows hand.old hand.new }
{
    let Some(packet) = stream.packets.pop_front() else {
        unreachable!()
    };
    let Packet { from, seq, block } = packet;
    match hand.pin(rt, block) {
        Ok(pinned) => {
            stream.shown = Some(pinned);
            stream.from = from;
            Ok(())
        }
        Err((block, refusal)) => {
            stream
                .packets
                .push_front_reserved(Packet { from, seq, block });
            Err(refusal)
        }
    }
}

/// Turns to the next packet: the block that was read is freed, and the next one is pinned. False where no packet is left.
fn turn_to_next<R: Wait, D: Disk>(
    rt: &R,
    hand: &mut Hand<'_, D>,
    stream: &mut Stream,
) -> Result<bool, PinErr>
    requires inside { IsInside stream.old }
    requires read { IsRead stream.old }
    requires own { AreOfPool hand.old.pool (blocks_of (reading_of stream.old)) }
    requires permit { 0 < hand.old.permits + pins (reading_of stream.old) }
    ensures inside { IsInside stream.new }
    ensures moved { IsMoved hand.old.pool (reading_of stream.old) (reading_of stream.new) }
    ensures drains { Drains hand.old hand.new (reading_of stream.old) (reading_of stream.new) }
    ensures fewer { IfOk result (λ more. OnTrue more (length stream.new.packets.items < length stream.old.packets.items)) }
    ensures end { IfOk result (λ more. OnFalse more (IsDone (reading_of stream.new))) }
    ensures refused { IfErr result (λ e. RefusesStream hand.old hand.new (reading_of stream.old) e) }
    ensures follows { Follows hand.old hand.new }
{
    close(rt, hand, stream);
    if !choose(stream)? {
        return Ok(false);
    }
    open_first(rt, hand, stream)?;
    Ok(true)
}

/// The place of the next row; None at the end. After a refusal nothing is read.
#[cold]
#[inline(never)]
pub(crate) fn advance<R: Wait, D: Disk>(
    rt: &R,
    hand: &mut Hand<'_, D>,
    stream: &mut Stream,
) -> Result<Option<RowPlace>, PinErr>
    requires inside { IsInside stream.old }
    requires own { AreOfPool hand.old.pool (blocks_of (reading_of stream.old)) }
    requires permit { 0 < hand.old.permits + pins (reading_of stream.old) }
    ensures inside { IsInside stream.new }
    ensures drains { Drains hand.old hand.new (reading_of stream.old) (reading_of stream.new) }
    ensures rises { Rises stream.old.from stream.old.packets.items → Rises stream.new.from stream.new.packets.items }
    ensures some { IfOk result (λ o. IfSome o (λ place. GivesNext hand.old.pool (reading_of stream.old) place stream.new)) }
    ensures none { IfOk result (λ o. IfNone o (IsSame hand.old.pool (reading_of stream.old) (reading_of stream.new) × IsDone (reading_of stream.new))) }
    ensures same { OnErr result (IsSame hand.old.pool (reading_of stream.old) (reading_of stream.new)) }
    ensures refused { IfErr result (λ e. RefusesStream hand.old hand.new (reading_of stream.old) e) }
    ensures follows { Follows hand.old hand.new }
{
    loop {
        if let Some(place) = find(stream)? {
            return Ok(Some(place));
        }
        if !turn_to_next(rt, hand, stream)? {
            return Ok(None);
        }
    }
}

/// Frees the blocks of packets.
pub(crate) fn free_all<R: Wait, D: Disk>(rt: &R, hand: &mut Hand<'_, D>, packets: VecDeque<Packet>)
    requires own { AreOfPool hand.old.pool (blocks_in packets.items) }
    ensures permits { hand.new.permits ≡ hand.old.permits }
    ensures gone { hand.new.notes.gone ≡ hand.old.notes.gone + length packets.items }
    ensures made { hand.new.notes.made ≡ hand.old.notes.made }
    ensures follows { Follows hand.old hand.new }
{
    let mut packets = packets;
    while let Some(packet) = packets.pop_front() {
        hand.free(rt, packet.block);
    }
}
