//! The two kinds of place at one receiver's queue: a sender's lane, and the receiver's intake.
ghost use Rattle.std.specs.Prelude.{◌≡◌, ◌+◌, ◌^◌, ◌<◌, ◌++◌, [], ◌∷◌, length, IfOk, IfNone, MatchResult, MatchOption};
ghost use Rattle.dia_edge.specs.Counts.{raised};
ghost use Rattle.multiplexer.specs.Mixes.{IsMix, WasAll};
ghost use Rattle.multiplexer.specs.Lanes.{LaneValue, IntakeValue};

use crate::packet::Packet;
use crate::view::{Enrols, Gathers, Pass, Queue, Sent, Taken};
use block_pool::BlockRef;
use crossbeam_queue::RuledSegQueue;
use dia_edge::NoMemory;
use std::alloc::{AllocError, Global};
use std::marker::Model;
use std::sync::Wait;

/// A sender's place at one receiver's queue. Contracts see the queue, the sender's number and the blocks sent.
#[derive(Drop)]
pub struct Lane {
    pass: Pass,
    from: u32,
    next: u64,
}

impl Model for Lane {
    ghost use Rattle.std.specs.Prelude.{◌≡◌, length, None};
    ghost use Rattle.multiplexer.specs.Lanes.{LaneValue, blocks_of};
    ghost use Rattle.multiplexer.specs.declared.view.View.TheVariants.{Sends};

    ghost Value = { LaneValue };

    ghost view = { λ l. record { queue = record { web = l.pass.web; heap = l.pass.heap }; from = l.from; sent = blocks_of l.pass.me.view.client } };

    ghost invariant = { λ l. (l.pass.me.hand ≡ None) × (l.pass.me.spare ≡ None) × (l.pass.me.view.client ≡ Sends l.from (blocks_of l.pass.me.view.client)) × (l.next ≡ length (blocks_of l.pass.me.view.client)) };
}

/// The receiver's place at its queue. Contracts see the queue, the packets taken, how many senders were made, and
/// what each sender that was gathered had sent.
#[derive(Drop)]
pub struct Intake {
    pass: Pass,
    misses: u64,
}

impl Model for Intake {
    ghost use Rattle.std.specs.Prelude.{◌≡◌, None};
    ghost use Rattle.multiplexer.specs.Lanes.{IntakeValue, taken_of, made_of, known_of};
    ghost use Rattle.multiplexer.specs.declared.view.View.TheVariants.{Receives};

    ghost Value = { IntakeValue };

    ghost view = { λ i. record { queue = record { web = i.pass.web; heap = i.pass.heap }; taken = taken_of i.pass.me.view.client; made = made_of i.pass.me.view.client; known = known_of i.pass.me.view.client; misses = i.misses } };

    ghost invariant = { λ i. (i.pass.me.hand ≡ None) × (i.pass.me.spare ≡ None) × (i.pass.me.view.client ≡ Receives (taken_of i.pass.me.view.client) (made_of i.pass.me.view.client) (known_of i.pass.me.view.client)) };
}

/// An empty queue, and its receiver's intake.
pub fn open_queue(alloc: Global) -> Result<(Queue, Intake), AllocError>
    ensures { IfOk result (λ q. q.1 ≡ record { queue = q.0; taken = []; made = 0; known = []; misses = 0 }) }
{
    let (ruled, pass) = RuledSegQueue::with_rule(alloc)?;
    Ok((Queue { ruled }, Intake { pass, misses: 0 }))
}

impl Lane {
    /// Sends a block, with the next number. It comes back only for want of memory.
    pub fn send<R: Wait>(
        &mut self,
        rt: &R,
        queue: &Queue,
        block: BlockRef,
    ) -> Result<(), (BlockRef, NoMemory)>
        requires own { self.old.queue ≡ queue.now }
        requires room { length self.old.sent < 2 ^ 56 }
        ensures same { (self.new.queue ≡ self.old.queue) × (self.new.from ≡ self.old.from) }
        ensures sent { MatchResult result (λ _. self.new.sent ≡ self.old.sent ++ block ∷ []) (λ e. (e.0 ≡ block) × (self.new.sent ≡ self.old.sent)) }
    {
        let packet = Packet {
            from: self.from,
            seq: self.next,
            block,
        };
        match queue.ruled.push_as::<Sent, R>(rt, &mut self.pass, packet) {
            Ok(()) => {
                self.next += 1;
                Ok(())
            }
            Err(packet) => Err((packet.block, NoMemory)),
        }
    }
}

impl Intake {
    /// The lane of the next sender, by rank.
    pub fn enrol(&mut self, queue: &Queue, from: u32) -> Lane
        requires own { self.old.queue ≡ queue.now }
        requires next { self.old.made ≡ from }
        ensures made { self.new ≡ record self.old { made = self.old.made + 1 } }
        ensures lane { result ≡ record { queue = queue.now; from = from; sent = [] } }
    {
        let pass = queue.ruled.another::<Enrols>(&mut self.pass);
        Lane {
            pass,
            from,
            next: 0,
        }
    }

    /// Gathers the next sender, by rank: what it sent is known then.
    pub fn gather(&mut self, queue: &Queue, lane: Lane)
        requires own { (self.old.queue ≡ queue.now) × (lane.queue ≡ queue.now) }
        requires next { lane.from ≡ length self.old.known }
        ensures known { self.new ≡ record self.old { known = self.old.known ++ lane.sent ∷ [] } }
    {
        let Lane { pass, .. } = lane;
        queue.ruled.absorb::<Gathers>(&mut self.pass, pass);
    }

    /// The packet at the front. None where the queue was found empty, which counts as a miss: what was taken is then all that
    /// had been sent, and once all senders are gathered, all that they sent.
    pub fn take<R: Wait>(&mut self, rt: &R, queue: &Queue) -> Option<Packet>
        requires own { self.old.queue ≡ queue.now }
        ensures taken { MatchOption result (self.new ≡ record self.old { misses = raised self.old.misses }) (λ p. self.new ≡ record self.old { taken = self.old.taken ++ p ∷ [] }) }
        ensures none { IfNone result (WasAll self.old.made self.old.taken) }
        ensures all { IfNone result (self.old.made ≡ length self.old.known → IsMix self.old.known self.old.taken) }
    {
        match queue.ruled.pop_as::<Taken, R>(rt, &mut self.pass) {
            Some(packet) => Some(packet),
            None => {
                self.misses = self.misses.saturating_add(1);
                None
            }
        }
    }
}
