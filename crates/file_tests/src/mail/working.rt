//! What one worker does.
ghost use Rattle.std.specs.Prelude.{◌≡◌, ℕ, ◌+◌, ◌^◌, ◌<◌, ◌≤◌, [], length, slice_index_or, IfSome};
ghost use Rattle.file_tests.specs.Workers.{IsFresh, IsOf, KeepsEnds, pool_of_five};

use block_pool::{BlockRef, Hand, Pass, Permits, Pool};
use dia_edge::MemDisk;
use multiplexer::{Packet, Post, RecvEnd, SendEnd};
use std::marker::Model;
use std::sync::Wait;

/// A worker's ends and share, the packets that it took, and whether all was sent.
#[derive(Drop)]
pub(super) struct Worker<'m> {
    pub(super) send: SendEnd<'m>,
    pub(super) recv: RecvEnd<'m>,
    pub(super) pass: Pass,
    pub(super) permits: Permits,
    pub(super) taken: Vec<Packet>,
    pub(super) is_whole: bool,
}

impl<'m> Model for Worker<'m> {
    ghost use Rattle.file_tests.specs.Workers.{WorkerValue};

    ghost Value = { WorkerValue };

    ghost view = { λ w. record { send = w.send; recv = w.recv; pass = w.pass; permits = w.permits } };
}

/// A new block that has this number.
pub(super) fn seal_number<R: Wait>(rt: &R, hand: &mut Hand<'_, MemDisk>, n: u64) -> Option<BlockRef>
    requires permit { 0 < hand.old.permits }
    requires block { 4096 ≤ hand.old.pool.opening.block }
    ensures same { (hand.new.pool ≡ hand.old.pool) × (hand.new.permits ≡ hand.old.permits) }
    ensures block { IfSome result (λ block. block.pool ≡ hand.old.pool) }
{
    let Ok(mut frame) = hand.frame(rt) else {
        return None;
    };
    frame.put(&n.to_le_bytes());
    match hand.seal(rt, frame) {
        Ok(block) => Some(block),
        Err((frame, _)) => {
            hand.give_back(rt, frame);
            None
        }
    }
}

/// Sends a block that has this number.
pub(super) fn send_number<P: Post, R: Wait>(
    rt: &R,
    hand: &mut Hand<'_, MemDisk>,
    post: &mut P,
    to: u32,
    number: u64,
) -> Option<()>
    requires permit { 0 < hand.old.permits }
    requires block { 4096 ≤ hand.old.pool.opening.block }
    requires to { to < P.workers post.old }
    requires room { length (slice_index_or (P.sent post.old) to []) < 2 ^ 56 }
    ensures hand { (hand.new.pool ≡ hand.old.pool) × (hand.new.permits ≡ hand.old.permits) }
    ensures same { (P.mail post.new ≡ P.mail post.old) × (P.sender post.new ≡ P.sender post.old) × (P.workers post.new ≡ P.workers post.old) }
    ensures room { (j : ℕ) → length (slice_index_or (P.sent post.new) j []) ≤ length (slice_index_or (P.sent post.old) j []) + 1 }
{
    let block = seal_number(rt, hand, number)?;
    match post.send(rt, to, block) {
        Ok(()) => Some(()),
        Err(_) => None,
    }
}

/// Sends so many blocks, to one worker after the other, and takes between.
fn send_all<R: Wait>(
    rt: &R,
    hand: &mut Hand<'_, MemDisk>,
    send: &mut SendEnd<'_>,
    recv: &mut RecvEnd<'_>,
    taken: &mut Vec<Packet>,
    workers: u32,
    count: u32,
) -> Option<()>
    requires permit { 0 < hand.old.permits }
    requires block { 4096 ≤ hand.old.pool.opening.block }
    requires workers { (0 < workers) × (workers ≡ length send.old.mail) }
    requires new { (j : ℕ) → slice_index_or send.old.sent j [] ≡ [] }
    ensures hand { (hand.new.pool ≡ hand.old.pool) × (hand.new.permits ≡ hand.old.permits) }
    ensures send { (send.new.mail ≡ send.old.mail) × (send.new.sender ≡ send.old.sender) }
    ensures recv { (recv.new.mail ≡ recv.old.mail) × (recv.new.rank ≡ recv.old.rank) }
{
    for number in 0..count {
        send_number(rt, hand, send, number % workers, number as u64)?;
        if let Some(packet) = recv.take(rt) {
            taken.push(packet).ok()?;
        }
    }
    Some(())
}

/// The worker once it has sent so many blocks.
pub(super) fn work<'m, R: Wait>(
    rt: &R,
    pool: &Pool<MemDisk>,
    worker: Worker<'m>,
    workers: u32,
    count: u32,
) -> Worker<'m>
    requires fresh { IsFresh workers worker }
    requires own { IsOf (pool_of_five pool.now) worker }
    ensures keeps { KeepsEnds (pool_of_five pool.now) worker.entry result }
{
    let Worker {
        mut send,
        mut recv,
        pass,
        permits,
        mut taken,
        ..
    } = worker;
    let mut hand = Hand::new(pool, pass, permits);
    let done = send_all(
        rt, &mut hand, &mut send, &mut recv, &mut taken, workers, count,
    );
    let (pass, permits) = hand.end();
    Worker {
        send,
        recv,
        pass,
        permits,
        taken,
        is_whole: done.is_some(),
    }
}
