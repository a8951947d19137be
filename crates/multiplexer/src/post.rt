//! Ends to send through.
ghost use Rattle.std.specs.Prelude.{◌≡◌, ℕ, ◌^◌, ◌<◌, [], List, length, map, All, slice_index_or, MatchResult};
ghost use Rattle.std.specs.declared.alloc.Global.{Global};
ghost use Rattle.crossbeam_queue.specs.SegTies.{SegId};
ghost use Rattle.block_pool.specs.Handles.{BlockValue};
ghost use Rattle.multiplexer.specs.Sending.{with_sent};

use crate::lane::Lane;
use crate::view::Queue;
use block_pool::BlockRef;
use dia_edge::NoMemory;
use std::marker::Model;
use std::sync::Wait;

/// What a worker sends blocks through. It waits at most for a step of another thread at the same queue, never for a packet
/// to be taken.
pub trait Post {
    /// The mail, by its receivers' queues.
    ghost mail: { Self → List (SegId Global) };

    /// The sender's rank.
    ghost sender: { Self → ℕ };

    /// How many receivers there are.
    ghost workers: { Self → ℕ };

    /// By receiver, the blocks sent to it, in order.
    ghost sent: { Self → List (List BlockValue) };

    /// Sends a block to the worker of a rank. It comes back only for want of memory, and then nothing was sent.
    fn send<R: Wait>(
        &mut self,
        rt: &R,
        to: u32,
        block: BlockRef,
    ) -> Result<(), (BlockRef, NoMemory)>
        requires to { to < workers self.old }
        requires room { length (slice_index_or (sent self.old) to []) < 2 ^ 56 }
        ensures same { (mail self.new ≡ mail self.old) × (sender self.new ≡ sender self.old) × (workers self.new ≡ workers self.old) }
        ensures sent { MatchResult result (λ _. sent self.new ≡ with_sent (sent self.old) to block) (λ e. (e.0 ≡ block) × (sent self.new ≡ sent self.old)) };
}

/// A worker's end to send through. Contracts see the mail, the worker's rank, and by receiver the blocks sent.
#[derive(Drop)]
pub struct SendEnd<'m> {
    pub(crate) queues: &'m [Queue],
    pub(crate) from: u32,
    pub(crate) lanes: Vec<Lane>,
}

impl<'m> Model for SendEnd<'m> {
    ghost use Rattle.std.specs.Prelude.{◌≡◌, map, All};
    ghost use Rattle.multiplexer.specs.Sending.{SendValue};

    ghost Value = { SendValue };

    ghost view = { λ e. record { mail = e.queues.now; sender = e.from; sent = map (λ l. l.sent) e.lanes.items } };

    ghost invariant = { λ e. (map (λ l. l.queue) e.lanes.items ≡ e.queues.now) × All (λ l. l.from ≡ e.from) e.lanes.items };
}

impl<'m> Post for SendEnd<'m> {
    ghost use Rattle.std.specs.Prelude.{length};

    ghost mail = { λ e. e.mail };

    ghost sender = { λ e. e.sender };

    ghost workers = { λ e. length e.mail };

    ghost sent = { λ e. e.sent };

    fn send<R: Wait>(
        &mut self,
        rt: &R,
        to: u32,
        block: BlockRef,
    ) -> Result<(), (BlockRef, NoMemory)> {
        let queues = self.queues;
        let at = to as usize;
        let lane = &mut self.lanes[at];
        lane.send(rt, &queues[at], block)
    }
}

impl<'m> SendEnd<'m> {
    /// The lanes, by receiver.
    pub(crate) fn into_lanes(self) -> Vec<Lane>
        ensures queues { map (λ l. l.queue) result.items ≡ self.entry.mail }
        ensures sent { map (λ l. l.sent) result.items ≡ self.entry.sent }
        ensures from { All (λ l. l.from ≡ self.entry.sender) result.items }
    {
        let SendEnd {
            queues: _,
            from: _,
            lanes,
        } = self;
        lanes
    }
}
