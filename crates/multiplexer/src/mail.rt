//! A mail, and how its ends are made.
ghost use Rattle.std.specs.Prelude.{◌≡◌, ℕ, ◌<◌, ◌^◌, [], false, All, map, length, IfOk, OnOk};
ghost use Rattle.multiplexer.specs.Settling.{with_sender, new_lane};
ghost use Rattle.multiplexer.specs.Mails.{AreNewRecvs, AreNewSends, made_intake};

use crate::lane::{Intake, Lane, open_queue};
use crate::post::SendEnd;
use crate::recv_end::RecvEnd;
use crate::view::Queue;
use dia_edge::NoMemory;
use std::alloc::Global;
use std::marker::Model;

/// The mail of so many workers: a queue for each. Contracts see the queues, and whether the ends were given out.
#[derive(Drop)]
pub struct Mail {
    queues: Vec<Queue>,
    intakes: Option<Vec<Intake>>,
}

impl Model for Mail {
    ghost use Rattle.std.specs.Prelude.{is_none, IfSome, ◌≡◌, ◌<◌, ◌^◌, map, length};
    ghost use Rattle.multiplexer.specs.Mails.{MailValue, made_intake};

    ghost Value = { MailValue };

    ghost view = { λ m. record { mail = m.queues.items; is_given = is_none m.intakes } };

    ghost invariant = { λ m. (length m.queues.items < 2 ^ 32) × IfSome m.intakes (λ v. v.items ≡ map (made_intake 0) m.queues.items) };
}

impl Mail {
    /// A mail with an empty queue for each worker.
    pub fn open(alloc: Global, workers: u32) -> Result<Mail, NoMemory>
        ensures { IfOk result (λ m. (length m.mail ≡ workers) × (m.is_given ≡ false)) }
    {
        let mut queues = Vec::with_capacity(alloc, workers as usize)?;
        let mut intakes = Vec::with_capacity(alloc, workers as usize)?;
        for _worker in 0..workers {
            let (queue, intake) = open_queue(alloc)?;
            queues.push(queue)?;
            intakes.push(intake)?;
        }
        Ok(Mail {
            queues,
            intakes: Some(intakes),
        })
    }

    /// An end to send through and one to receive through for each worker, in order of rank. They are given out once, and may go
    /// to other threads.
    pub fn ends<'m>(
        &'m mut self,
        alloc: Global,
    ) -> Result<(Vec<SendEnd<'m>>, Vec<RecvEnd<'m>>), NoMemory>
        requires { self.old.is_given ≡ false }
        ensures { IfOk result (λ e. AreNewSends self.old.mail e.0.items × AreNewRecvs self.old.mail e.1.items) }
    {
        let Some(mut intakes) = self.intakes.take() else {
            unreachable!()
        };
        let queues = self.queues.as_slice();
        let sends = make_sends(alloc, queues, intakes.as_mut_slice())?;
        let recvs = make_recvs(alloc, queues, intakes)?;
        Ok((sends, recvs))
    }
}

/// A lane of one sender at each queue.
fn enrol(
    alloc: Global,
    queues: &[Queue],
    intakes: &mut [Intake],
    from: u32,
) -> Result<Vec<Lane>, NoMemory>
    requires own { map (λ i. i.queue) intakes.old ≡ queues.now }
    requires next { All (λ i. i.made ≡ from) intakes.old }
    ensures intakes { OnOk result (intakes.new ≡ map with_sender intakes.old) }
    ensures lanes { IfOk result (λ ls. ls.items ≡ map (new_lane from) queues.now) }
{
    let mut lanes = Vec::with_capacity(alloc, queues.len())?;
    for at in 0..queues.len() {
        lanes.push(intakes[at].enrol(&queues[at], from))?;
    }
    Ok(lanes)
}

/// An end to send through for each worker.
fn make_sends<'m>(
    alloc: Global,
    queues: &'m [Queue],
    intakes: &mut [Intake],
) -> Result<Vec<SendEnd<'m>>, NoMemory>
    requires workers { length queues.now < 2 ^ 32 }
    requires intakes { intakes.old ≡ map (made_intake 0) queues.now }
    ensures intakes { OnOk result (intakes.new ≡ map (made_intake (length queues.entry.now)) queues.entry.now) }
    ensures ends { IfOk result (λ v. AreNewSends queues.entry.now v.items) }
{
    let mut sends = Vec::with_capacity(alloc, queues.len())?;
    for from in 0..queues.len() as u32 {
        let lanes = enrol(alloc, queues, intakes, from)?;
        sends.push(SendEnd {
            queues,
            from,
            lanes,
        })?;
    }
    Ok(sends)
}

/// An end to receive through for each worker, for whom all senders were made.
fn make_recvs<'m>(
    alloc: Global,
    queues: &'m [Queue],
    intakes: Vec<Intake>,
) -> Result<Vec<RecvEnd<'m>>, NoMemory>
    requires workers { length queues.now < 2 ^ 32 }
    requires intakes { intakes.items ≡ map (made_intake (length queues.now)) queues.now }
    ensures { IfOk result (λ v. AreNewRecvs queues.entry.now v.items) }
{
    let mut recvs = Vec::with_capacity(alloc, queues.len())?;
    let mut rank = 0;
    for intake in intakes {
        recvs.push(RecvEnd {
            queues,
            rank,
            intake,
        })?;
        rank += 1;
    }
    Ok(recvs)
}
