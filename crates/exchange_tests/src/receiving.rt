//! What two workers receive: in which order the rows come, and where a sink refuses one.
ghost use Rattle.std.specs.Prelude.{◌≡◌, ◌≤◌, ◌<◌, ◌∷◌, [], All, OnOk, IfOk, IfSome, false, length, vec_len, vec_capacity};
ghost use Rattle.std.specs.List.{AllZip};
ghost use Rattle.row_defs.specs.declared.kind.Kind.TheVariants.{Int};
ghost use Rattle.block_pool.specs.Handles.{AreOfPool, Follows};
ghost use Rattle.block_pool.specs.Workers.{IsReady, new_pool};
ghost use Rattle.mix_stream.specs.Packets.{blocks_in};
ghost use Rattle.arrivals.specs.Phases.{HasReceived};
ghost use Rattle.exchange_tests.specs.Boxed.{AreHands, AreBoxes};

pub(crate) mod keep;

use arrivals::Arrival;
use block_pool::{BlockRef, Hand, OpenErr, Pass, Permits, Pool};
use dia_edge::{MemDisk, NoMemory, OpenGate};
use dia_item::{Kind, Kinds};
use hand_phase::run_hands;
use keep::{Keep, Refused};
use lop_chain::RowSink;
use multiplexer::{Inbox, Packet};
use scatter::FeedErr;
use std::alloc::Global;
use std::sync::Wait;
use std::test::Fail;
use std::thread::Threads;
use worker_step::Way;

/// A pool for two workers, and their shares.
fn open(alloc: Global) -> Result<(Pool<MemDisk>, Vec<(Pass, Permits)>), OpenErr>
    ensures ready { IfOk result (λ opened. All (IsReady (new_pool opened.0 28 4096)) opened.1.items) }
    ensures len { IfOk result (λ opened. vec_len opened.1 ≡ 2) }
{
    let disk = MemDisk::new(alloc, Vec::new(alloc));
    match Pool::open(alloc, disk, 114_688, 4_096, 2) {
        Ok((pool, shares)) => Ok((pool, shares)),
        Err((_, refusal)) => Err(refusal),
    }
}

/// Their hands.
fn hands_of<'p>(
    pool: &'p Pool<MemDisk>,
    shares: Vec<(Pass, Permits)>,
    mut hands: Vec<Hand<'p, MemDisk>>,
) -> Vec<Hand<'p, MemDisk>>
    requires ready { All (IsReady (new_pool pool.now 28 4096)) shares.items }
    requires room { (vec_len hands ≡ 0) × (vec_len shares ≤ vec_capacity hands) }
    ensures hands { AreHands (new_pool pool.now 28 4096) result.items }
    ensures len { vec_len result ≡ vec_len shares }
{
    for (pass, permits) in shares {
        hands.push_reserved(Hand::new(pool, pass, permits));
    }
    hands
}

/// The hands' passes.
fn passes_of(
    pool: &Pool<MemDisk>,
    hands: Vec<Hand<'_, MemDisk>>,
    mut passes: Vec<Pass>,
) -> Vec<Pass>
    requires own { All (λ hand. hand.pool ≡ new_pool pool.now 28 4096) hands.items }
    requires room { (vec_len passes ≡ 0) × (vec_len hands ≤ vec_capacity passes) }
    ensures own { All (λ pass. pass.pool ≡ new_pool pool.now 28 4096) result.items }
    ensures len { vec_len result ≡ vec_len hands.entry }
{
    let _ = pool;
    for hand in hands {
        let (pass, _) = hand.end();
        passes.push_reserved(pass);
    }
    passes
}

/// A new block that is the row of this number.
fn seal<R: Wait>(rt: &R, hand: &mut Hand<'_, MemDisk>, number: u64) -> Option<BlockRef>
    requires permit { 0 < hand.old.permits }
    requires block { hand.old.pool.opening.block ≡ 4096 }
    ensures same { (hand.new.pool ≡ hand.old.pool) × (hand.new.permits ≡ hand.old.permits) }
    ensures block { IfSome result (λ block. block.pool ≡ hand.old.pool) }
{
    let Ok(mut frame) = hand.frame(rt) else {
        return None;
    };
    frame.put(&number.to_le_bytes());
    match hand.seal(rt, frame) {
        Ok(block) => Some(block),
        Err((frame, _)) => {
            hand.give_back(rt, frame);
            None
        }
    }
}

/// Packets by their senders, their numbers and their rows.
fn seal_all<R: Wait>(
    rt: &R,
    alloc: Global,
    hand: &mut Hand<'_, MemDisk>,
    pieces: &[(u32, u64, u64)],
) -> Option<Inbox>
    requires permit { 0 < hand.old.permits }
    requires block { hand.old.pool.opening.block ≡ 4096 }
    ensures same { (hand.new.pool ≡ hand.old.pool) × (hand.new.permits ≡ hand.old.permits) }
    ensures own { IfSome result (λ inbox. AreOfPool hand.old.pool (blocks_in inbox.packets.items)) }
{
    let mut packets = Vec::new(alloc);
    for piece in pieces.iter() {
        let (from, seq, number) = *piece;
        let block = seal(rt, hand, number)?;
        packets.push(Packet { from, seq, block }).ok()?;
    }
    Some(Inbox { packets })
}

/// What two senders sent to each of two workers.
fn boxes_of<R: Wait>(rt: &R, alloc: Global, hand: &mut Hand<'_, MemDisk>) -> Option<Vec<Inbox>>
    requires permit { 0 < hand.old.permits }
    requires block { hand.old.pool.opening.block ≡ 4096 }
    ensures same { (hand.new.pool ≡ hand.old.pool) × (hand.new.permits ≡ hand.old.permits) }
    ensures own { IfSome result (λ boxes. AreBoxes hand.old.pool boxes.items) }
    ensures len { IfSome result (λ boxes. vec_len boxes ≡ 2) }
{
    let Some(zero) = seal_all(rt, alloc, hand, &[(1, 0, 3), (0, 0, 1), (0, 1, 2)]) else {
        return None;
    };
    let Some(one) = seal_all(
        rt,
        alloc,
        hand,
        &[(1, 0, 6), (0, 0, 4), (1, 1, 7), (0, 1, 5)],
    ) else {
        return None;
    };
    let Ok(boxes) = vec![in alloc; zero, one] else {
        return None;
    };
    Some(boxes)
}

/// The same, by the first of the hands.
fn fill<R: Wait>(
    rt: &R,
    alloc: Global,
    pool: &Pool<MemDisk>,
    hands: &mut Vec<Hand<'_, MemDisk>>,
) -> Option<Vec<Inbox>>
    requires hands { AreHands (new_pool pool.now 28 4096) hands.old.items }
    requires len { vec_len hands.old ≡ 2 }
    ensures hands { AreHands (new_pool pool.now 28 4096) hands.new.items }
    ensures len { vec_len hands.new ≡ 2 }
    ensures own { IfSome result (λ boxes. AreBoxes (new_pool pool.now 28 4096) boxes.items) }
    ensures boxes { IfSome result (λ boxes. vec_len boxes ≡ 2) }
{
    let _ = pool;
    boxes_of(rt, alloc, &mut hands[0])
}

/// One phase: each worker keeps the numbers that it receives.
pub(crate) fn receive<'p, R: Threads + Wait + Sync>(
    rt: &R,
    alloc: Global,
    way: &mut Way<'_, OpenGate>,
    pool: &'p Pool<MemDisk>,
    hands: &mut Vec<Hand<'p, MemDisk>>,
    boxes: Vec<Inbox>,
    sinks: &mut Vec<Keep<'p>>,
) -> Result<(), FeedErr<Refused>>
    requires hands { AreHands (new_pool pool.now 28 4096) hands.old.items }
    requires own { AreBoxes (new_pool pool.now 28 4096) boxes.items }
    requires open { All (λ (s : Keep). s.shut ≡ false) sinks.old.items }
    requires len { (vec_len hands.old ≡ 2) × (vec_len boxes ≡ 2) × (vec_len sinks.old ≡ 2) }
    ensures received { OnOk result (HasReceived ⟦<Keep<'p> as RowSink>⟧ (Int ∷ []) boxes.items sinks.old.items hands.old.items sinks.new.items hands.new.items) }
    ensures follows { AllZip Follows hands.old.items hands.new.items }
{
    let _ = pool;
    let begun = Arrival::begin(alloc, Kinds::one(Kind::Int), hands, boxes, sinks);
    let mut arrival: Arrival<'p, MemDisk, Keep<'p>> = match begun {
        Ok(arrival) => arrival,
        Err(NoMemory) => return Err(FeedErr::NoMemory),
    };
    let answer = run_hands(rt, alloc, way, hands, &mut arrival.works);
    arrival.finish(rt, alloc, hands, sinks, answer)
}

/// What a phase came to, and what both workers kept.
#[derive(Drop)]
struct Come {
    answer: Result<(), FeedErr<Refused>>,
    zero: Vec<u64>,
    one: Vec<u64>,
}

/// What both workers keep, of which each takes only so many numbers.
fn keep_all<'p, R: Threads + Wait + Sync>(
    rt: &R,
    alloc: Global,
    way: &mut Way<'_, OpenGate>,
    pool: &'p Pool<MemDisk>,
    hands: &mut Vec<Hand<'p, MemDisk>>,
    most: usize,
) -> Option<Come>
    requires hands { AreHands (new_pool pool.now 28 4096) hands.old.items }
    requires len { vec_len hands.old ≡ 2 }
    ensures own { All (λ hand. hand.pool ≡ new_pool pool.now 28 4096) hands.new.items }
    ensures len { vec_len hands.new ≡ 2 }
{
    let Some(boxes) = fill(rt, alloc, pool, hands) else {
        return None;
    };
    let zero = Keep::new(Vec::new(alloc), most);
    let one = Keep::new(Vec::new(alloc), most);
    let Ok(mut sinks) = vec![in alloc; zero, one] else {
        return None;
    };
    let answer = receive(rt, alloc, way, pool, hands, boxes, &mut sinks);
    let (Some(one), Some(zero)) = (sinks.pop(), sinks.pop()) else {
        return None;
    };
    Some(Come {
        answer,
        zero: zero.numbers,
        one: one.numbers,
    })
}

/// The same in a pool of their own.
fn arrive<R: Threads + Wait + Sync>(
    rt: &R,
    alloc: Global,
    way: &mut Way<'_, OpenGate>,
    most: usize,
) -> Option<Come> {
    let Ok(hands) = Vec::with_capacity(alloc, 2) else {
        return None;
    };
    let Ok(passes) = Vec::with_capacity(alloc, 2) else {
        return None;
    };
    let Ok((pool, shares)) = open(alloc) else {
        return None;
    };
    let mut hands = hands_of(&pool, shares, hands);
    let come = keep_all(rt, alloc, way, &pool, &mut hands, most);
    let passes = passes_of(&pool, hands, passes);
    let _disk = pool.finish(rt, passes);
    come
}

#[test]
fn rows_come_by_rank_of_their_senders(rt: HostRuntime) -> Result<(), Fail> {
    let alloc = rt.alloc();
    for seed in 0..4 {
        let mut order = Way::Order { seed };
        let come = arrive(&rt, alloc, &mut order, 9).ok_or("refused")?;
        assert_eq!(rt; come.answer, Ok(()));
        assert_eq!(rt; come.zero.as_slice(), [1, 2, 3].as_slice());
        assert_eq!(rt; come.one.as_slice(), [4, 5, 6, 7].as_slice());
    }
    Ok(())
}

#[test]
fn a_sink_that_refuses_has_the_rows_before(rt: HostRuntime) -> Result<(), Fail> {
    let alloc = rt.alloc();
    let mut threads = Way::Threads {
        gate: &OpenGate,
        phase: 0,
    };
    let come = arrive(&rt, alloc, &mut threads, 3).ok_or("refused")?;
    assert_eq!(rt; come.answer, Err(FeedErr::Sink(Refused)));
    assert_eq!(rt; come.zero.as_slice(), [1, 2, 3].as_slice());
    assert_eq!(rt; come.one.as_slice(), [4, 5, 6].as_slice());
    Ok(())
}
