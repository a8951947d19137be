//! Workers that send to one another at once.
ghost use Rattle.std.specs.Prelude.{◌≡◌, ◌+◌, ◌<◌, All, length, map, IfOk, vec_len};
ghost use Rattle.block_pool.specs.Workers.{IsReady};
ghost use Rattle.multiplexer.specs.Mails.{AreNewRecvs, AreNewSends};
ghost use Rattle.file_tests.specs.Workers.{IsFresh, IsOf, KeepsEnds, pool_of_five};

use super::working::{Worker, work};
use block_pool::{Pass, Permits, Pool};
use dia_edge::{MemDisk, NoMemory};
use multiplexer::{Inbox, Mail, Packet, RecvEnd, SendEnd, settle};
use std::alloc::Global;
use std::sync::Wait;
use std::thread;
use std::thread::Threads;

/// The workers' ends, and what they took.
#[derive(Drop)]
struct Parted<'m> {
    sends: Vec<SendEnd<'m>>,
    recvs: Vec<RecvEnd<'m>>,
    fronts: Vec<Vec<Packet>>,
}

/// A worker with the last of these shares.
fn next_worker<'m>(
    alloc: Global,
    pool: &Pool<MemDisk>,
    send: SendEnd<'m>,
    recv: RecvEnd<'m>,
    shares: &mut Vec<(Pass, Permits)>,
) -> Worker<'m>
    requires ready { All (IsReady (pool_of_five pool.now)) shares.old.items }
    requires some { 0 < vec_len shares.old }
    ensures rest { All (IsReady (pool_of_five pool.entry.now)) shares.new.items }
    ensures count { vec_len shares.new + 1 ≡ vec_len shares.old }
    ensures own { IsOf (pool_of_five pool.entry.now) result }
    ensures ends { (result.send ≡ send.entry) × (result.recv ≡ recv.entry) }
{
    let _ = pool;
    let Some((pass, permits)) = shares.pop() else {
        unreachable!()
    };
    Worker {
        send,
        recv,
        pass,
        permits,
        taken: Vec::new(alloc),
        is_whole: false,
    }
}

/// A worker for each pair of ends.
fn pair_up<'m>(
    alloc: Global,
    pool: &Pool<MemDisk>,
    sends: Vec<SendEnd<'m>>,
    recvs: Vec<RecvEnd<'m>>,
    shares: Vec<(Pass, Permits)>,
) -> Result<Vec<Worker<'m>>, NoMemory>
    requires len { (length sends.items ≡ length recvs.items) × (length sends.items ≡ vec_len shares) }
    requires ready { All (IsReady (pool_of_five pool.now)) shares.items }
    ensures sends { IfOk result (λ v. map (λ w. w.send) v.items ≡ sends.entry.items) }
    ensures recvs { IfOk result (λ v. map (λ w. w.recv) v.items ≡ recvs.entry.items) }
    ensures own { IfOk result (λ v. All (IsOf (pool_of_five pool.entry.now)) v.items) }
{
    let mut workers = Vec::with_capacity(alloc, sends.len())?;
    let mut shares = shares;
    let mut rest = recvs.into_iter();
    for send in sends {
        let Some(recv) = rest.next() else {
            unreachable!()
        };
        workers.push(next_worker(alloc, pool, send, recv, &mut shares))?;
    }
    Ok(workers)
}

/// The ends, and what was taken.
fn part<'m>(alloc: Global, workers: Vec<Worker<'m>>) -> Result<Parted<'m>, NoMemory>
    ensures sends { IfOk result (λ p. p.sends.items ≡ map (λ w. w.send) workers.entry.items) }
    ensures recvs { IfOk result (λ p. p.recvs.items ≡ map (λ w. w.recv) workers.entry.items) }
{
    let mut sends = Vec::with_capacity(alloc, workers.len())?;
    let mut recvs = Vec::with_capacity(alloc, workers.len())?;
    let mut fronts = Vec::with_capacity(alloc, workers.len())?;
    for worker in workers {
        if !worker.is_whole {
            return Err(NoMemory);
        }
        let Worker {
            send,
            recv,
            taken,
            ..
        } = worker;
        sends.push(send)?;
        recvs.push(recv)?;
        fronts.push(taken)?;
    }
    Ok(Parted {
        sends,
        recvs,
        fronts,
    })
}

/// Each front with its rest.
fn join_all(
    alloc: Global,
    fronts: Vec<Vec<Packet>>,
    boxes: Vec<Inbox>,
) -> Result<Vec<Inbox>, NoMemory> {
    let mut joined = Vec::with_capacity(alloc, boxes.len())?;
    let mut rest = boxes.into_iter();
    for front in fronts {
        let Some(inbox) = rest.next() else {
            return Ok(joined);
        };
        joined.push(Inbox::join(front, inbox)?)?;
    }
    Ok(joined)
}

/// Four workers in threads, each of which sends so many blocks, to one worker after the other, and takes between. What each
/// got.
pub(super) fn exchange<R: Threads + Wait + Sync>(
    rt: &R,
    alloc: Global,
    pool: &Pool<MemDisk>,
    shares: Vec<(Pass, Permits)>,
    count: u32,
) -> Result<Vec<Inbox>, NoMemory>
    requires len { vec_len shares ≡ 4 }
    requires ready { All (IsReady (pool_of_five pool.now)) shares.items }
{
    let mut mail = Mail::open(alloc, 4)?;
    let (sends, recvs) = mail.ends(alloc)?;
    let workers = pair_up(alloc, pool, sends, recvs, shares)?;
    let workers = thread::map_vec(
        rt,
        workers,
        &|worker| -> Worker<'_>
            requires { IsFresh 4 worker × IsOf (pool_of_five pool.now) worker }
            ensures { KeepsEnds (pool_of_five pool.entry.now) worker.entry result }
        { work(rt, pool, worker, 4, count) },
    )?;
    let Parted {
        sends,
        recvs,
        fronts,
    } = part(alloc, workers)?;
    let boxes = settle(rt, alloc, sends, recvs)?;
    join_all(alloc, fronts, boxes)
}
