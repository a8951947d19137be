//! The rule of a receiver's queue, and its five kinds of step: a packet is sent, or taken; a sender is made, or gathered; the
//! queue is found empty.
ghost use Rattle.std.specs.Prelude.{◌≡◌};

use crate::packet::Packet;
use block_pool::BlockRef;
use crossbeam_queue::protocol::{Join, Lesson, Outcome, Protocol, Split};
use crossbeam_queue::{RuledSegQueue, SegPass};
use std::collections::LinkedList;
use std::marker::Model;

/// What a pass at a receiver's queue knows. Contracts speak of it; no value of it is ever made.
pub enum View {
    /// A sender's: its number, and the blocks that it sent.
    Sends(u32, LinkedList<BlockRef>),
    /// The receiver's: the packets taken, how many senders were made, and what each sender gathered had sent.
    Receives(LinkedList<Packet>, u64, LinkedList<LinkedList<BlockRef>>),
    /// One that is spent.
    Spent,
}

/// The rule: what each sender sent is what was taken of it, and then what the queue holds of it.
pub struct Delivery;

impl Protocol<Packet, View> for Delivery {
    ghost use Rattle.multiplexer.specs.Delivery.{Delivers, keeper};

    ghost holds = { Delivers };

    ghost first = { keeper };
}

/// The receiver makes a sender.
pub struct Enrols;

impl Split<View> for Enrols {
    ghost use Rattle.multiplexer.specs.Steps.{enrolling, enrolled};

    ghost left = { enrolling };

    ghost right = { enrolled };
}

/// The receiver gathers a sender.
pub struct Gathers;

impl Join<View> for Gathers {
    ghost use Rattle.multiplexer.specs.Steps.{gathered, spent};

    ghost both = { gathered };

    ghost spent = { spent };
}

/// A packet was sent.
pub struct Sent;

impl Outcome<Packet, View> for Sent {
    ghost use Rattle.multiplexer.specs.Steps.{after_send};

    ghost then = { λ v p w. w ≡ after_send v p };
}

/// A packet was taken, or the queue was found empty.
pub struct Taken;

impl Outcome<Packet, View> for Taken {
    ghost use Rattle.multiplexer.specs.Steps.{after_take};

    ghost then = { λ v p w. w ≡ after_take v p };
}

impl Lesson<Packet, View> for Taken {
    ghost use Rattle.multiplexer.specs.Steps.{IsMixOnce};

    ghost fact = { IsMixOnce };
}

/// A place at a queue.
pub type Pass = SegPass<Packet, View>;

/// One receiver's queue. What is left in it is dropped with it.
pub struct Queue {
    pub(crate) ruled: RuledSegQueue<Packet, View, Delivery>,
}

impl Model for Queue {
    ghost use Rattle.std.specs.declared.alloc.Global.{Global};
    ghost use Rattle.crossbeam_queue.specs.SegTies.{SegId};

    ghost Value = { SegId Global };

    ghost view = { λ q. q.ruled };
}

impl Drop for Queue {
    fn drop(self) {
        let Self { ruled } = self;
        ruled.destroy();
    }
}
