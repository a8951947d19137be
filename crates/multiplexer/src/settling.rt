//! All ends of a mail come together.
ghost use Rattle.std.specs.Prelude.{◌≡◌, ℕ, ◌++◌, [], All, map, length, IfOk};
ghost use Rattle.multiplexer.specs.Mixes.{IsMix};
ghost use Rattle.multiplexer.specs.Settling.{AreAllEnds, AreDrained, AreIntakesOf, AreSendersOf, AreSettled, gather_each, knowing};

use crate::inbox::Inbox;
use crate::lane::{Intake, Lane};
use crate::packet::Packet;
use crate::post::SendEnd;
use crate::recv_end::RecvEnd;
use crate::view::Queue;
use dia_edge::NoMemory;
use std::alloc::Global;
use std::sync::Wait;

/// For each receiver the packets that it did not take, in order. All ends of one mail are wanted, in order of rank. Without
/// memory the packets that are left are dropped, and their blocks stay in the pool until that ends.
pub fn settle<'m, R: Wait>(
    rt: &R,
    alloc: Global,
    sends: Vec<SendEnd<'m>>,
    recvs: Vec<RecvEnd<'m>>,
) -> Result<Vec<Inbox>, NoMemory>
    requires { AreAllEnds sends.items recvs.items }
    ensures { IfOk result (λ boxes. AreSettled sends.entry.items recvs.entry.items boxes.items) }
{
    let Some(first) = recvs.first() else {
        return Ok(Vec::new(alloc));
    };
    let queues = first.queues();
    let mut intakes = intakes_of(alloc, recvs)?;
    gather_all(queues, intakes.as_mut_slice(), sends);
    drain_all(rt, alloc, queues, intakes)
}

/// The receivers' places at their queues.
fn intakes_of<'m>(alloc: Global, recvs: Vec<RecvEnd<'m>>) -> Result<Vec<Intake>, NoMemory>
    ensures { IfOk result (λ v. AreIntakesOf recvs.entry.items v.items) }
{
    let mut intakes = Vec::with_capacity(alloc, recvs.len())?;
    for recv in recvs {
        intakes.push(recv.into_intake())?;
    }
    Ok(intakes)
}

/// Each intake gathers all senders.
fn gather_all<'m>(queues: &[Queue], intakes: &mut [Intake], sends: Vec<SendEnd<'m>>)
    requires own { map (λ i. i.queue) intakes.old ≡ queues.now }
    requires new { All (λ i. i.known ≡ []) intakes.old }
    requires ends { AreSendersOf queues.now sends.items }
    ensures { intakes.new ≡ knowing 0 sends.entry.items intakes.old }
{
    for send in sends {
        gather_lanes(queues, intakes, send.into_lanes());
    }
}

/// Each intake gathers the lane at its place.
fn gather_lanes(queues: &[Queue], intakes: &mut [Intake], lanes: Vec<Lane>)
    requires own { map (λ i. i.queue) intakes.old ≡ queues.now }
    requires lanes { map (λ l. l.queue) lanes.items ≡ queues.now }
    requires next { (from : ℕ) × All (λ l. l.from ≡ from) lanes.items × All (λ i. length i.known ≡ from) intakes.old }
    ensures { intakes.new ≡ gather_each intakes.old lanes.items }
{
    let mut at = 0;
    for lane in lanes {
        intakes[at].gather(&queues[at], lane);
        at += 1;
    }
}

/// What is left for one receiver. There is room for each packet before it is taken, so that none is lost.
fn drain<R: Wait>(
    rt: &R,
    alloc: Global,
    queue: &Queue,
    intake: Intake,
) -> Result<Vec<Packet>, NoMemory>
    requires own { intake.queue ≡ queue.now }
    requires all { intake.made ≡ length intake.known }
    ensures { IfOk result (λ v. IsMix intake.known (intake.taken ++ v.items)) }
{
    let mut intake = intake;
    let mut packets = Vec::new(alloc);
    for _ in rt.forever() {
        packets.reserve(1)?;
        match intake.take(rt, queue) {
            Some(packet) => packets.push_reserved(packet),
            None => return Ok(packets),
        }
    }
    unreachable!()
}

/// What is left for each receiver.
fn drain_all<R: Wait>(
    rt: &R,
    alloc: Global,
    queues: &[Queue],
    intakes: Vec<Intake>,
) -> Result<Vec<Inbox>, NoMemory>
    requires own { map (λ i. i.queue) intakes.items ≡ queues.now }
    requires all { All (λ i. i.made ≡ length i.known) intakes.items }
    ensures { IfOk result (λ boxes. AreDrained intakes.items boxes.items) }
{
    let mut boxes = Vec::with_capacity(alloc, queues.len())?;
    let mut at = 0;
    for intake in intakes {
        let packets = drain(rt, alloc, &queues[at], intake)?;
        boxes.push(Inbox { packets })?;
        at += 1;
    }
    Ok(boxes)
}
