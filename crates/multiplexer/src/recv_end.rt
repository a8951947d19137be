//! Ends to receive through.
ghost use Rattle.std.specs.Prelude.{◌≡◌, [], ◌∷◌, ◌++◌, length, MatchOption, IfNone};
ghost use Rattle.multiplexer.specs.Mixes.{WasAll};
ghost use Rattle.multiplexer.specs.Settling.{IsIntakeOf};
ghost use Rattle.dia_edge.specs.Counts.{raised};

use crate::lane::Intake;
use crate::packet::Packet;
use crate::view::Queue;
use std::marker::Model;
use std::sync::Wait;

/// A worker's end to take from. Contracts see the mail, the worker's rank, the packets taken, and the count of misses: how
/// often there was none.
#[derive(Drop)]
pub struct RecvEnd<'m> {
    pub(crate) queues: &'m [Queue],
    pub(crate) rank: u32,
    pub(crate) intake: Intake,
}

impl<'m> Model for RecvEnd<'m> {
    ghost use Rattle.std.specs.Prelude.{◌≡◌, [], length, Some, slice_get};
    ghost use Rattle.multiplexer.specs.Receiving.{RecvValue};

    ghost Value = { RecvValue };

    ghost view = { λ e. record { mail = e.queues.now; rank = e.rank; taken = e.intake.taken; misses = e.intake.misses } };

    ghost invariant = { λ e. (slice_get e.queues.now e.rank ≡ Some e.intake.queue) × (e.intake.made ≡ length e.queues.now) × (e.intake.known ≡ []) };
}

impl<'m> RecvEnd<'m> {
    /// The packet at the front. None where the queue was found empty, which counts as a miss: what was taken is then all that
    /// had been sent at some moment.
    pub fn take<R: Wait>(&mut self, rt: &R) -> Option<Packet>
        ensures taken { MatchOption result (self.new ≡ record self.old { misses = raised self.old.misses }) (λ p. self.new ≡ record self.old { taken = self.old.taken ++ p ∷ [] }) }
        ensures none { IfNone result (WasAll (length self.old.mail) self.old.taken) }
    {
        let queues = self.queues;
        let queue = &queues[self.rank as usize];
        self.intake.take(rt, queue)
    }

    /// The queues of the mail.
    pub(crate) fn queues(&self) -> &'m [Queue]
        ensures { result.now ≡ self.now.mail }
    {
        self.queues
    }

    /// The place at the worker's own queue.
    pub(crate) fn into_intake(self) -> Intake
        ensures { IsIntakeOf self.entry result }
    {
        let RecvEnd {
            queues: _,
            rank: _,
            intake,
        } = self;
        intake
    }
}
