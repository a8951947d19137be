//! Numbers that two workers send to each other.
ghost use Rattle.std.specs.Prelude.{◌≡◌, ◌≤◌, ◌<◌, ◌∷◌, [], ℕ, None, All, IfOk, OnOk, vec_len, vec_capacity};
ghost use Rattle.row_defs.specs.declared.kind.Kind.TheVariants.{Int};
ghost use Rattle.row_defs.specs.LocalOps.{AreSoundOps};
ghost use Rattle.dia_item.specs.KindList.{kind_list};
ghost use Rattle.block_pool.specs.Workers.{new_pool};
ghost use Rattle.lop_chain.specs.Ops.{ops_in};
ghost use Rattle.scatter.specs.Stocks.{lines_of};
ghost use Rattle.exchange_tests.specs.Boxed as Boxed;
ghost use Rattle.exchange_tests.specs.Boxed.{AreBoxes};
ghost use Rattle.exchange_tests.specs.Linked.{AreHands, AreReady};

use crate::receiving::keep::Keep;
use crate::receiving::receive;
use block_pool::{Hand, OpenErr, Pass, Permits, Pool};
use dia_edge::{MemDisk, OpenGate};
use dia_item::{Kind, Kinds, RowRef};
use link::{Link, LinkErr};
use lop_chain::{Operand, Root};
use multiplexer::Inbox;
use scatter::{Home, Stock};
use std::alloc::Global;
use std::sync::Wait;
use std::test::Fail;
use std::thread::Threads;
use worker_step::Way;

/// A pool for two workers over a disk with calls that fail, and their shares.
pub(crate) fn open(
    alloc: Global,
    fail: Vec<u64>,
) -> Result<(Pool<MemDisk>, Vec<(Pass, Permits)>), OpenErr>
    ensures ready { IfOk result (λ opened. AreReady (new_pool opened.0 28 4096) opened.1.items) }
    ensures len { IfOk result (λ opened. vec_len opened.1 ≡ 2) }
{
    let disk = MemDisk::new(alloc, fail);
    match Pool::open(alloc, disk, 114_688, 4_096, 2) {
        Ok((pool, shares)) => Ok((pool, shares)),
        Err((_, refusal)) => Err(refusal),
    }
}

/// Their hands.
pub(crate) fn hands_of<'p>(
    pool: &'p Pool<MemDisk>,
    shares: Vec<(Pass, Permits)>,
    mut hands: Vec<Hand<'p, MemDisk>>,
) -> Vec<Hand<'p, MemDisk>>
    requires ready { AreReady (new_pool pool.now 28 4096) shares.items }
    requires room { (vec_len hands ≡ 0) × (vec_len shares ≤ vec_capacity hands) }
    ensures hands { AreHands (new_pool pool.now 28 4096) result.items }
    ensures len { vec_len result ≡ vec_len shares }
{
    for (pass, permits) in shares {
        hands.push_reserved(Hand::new(pool, pass, permits));
    }
    hands
}

/// The hands' passes.
pub(crate) fn passes_of(
    pool: &Pool<MemDisk>,
    hands: Vec<Hand<'_, MemDisk>>,
    mut passes: Vec<Pass>,
) -> Vec<Pass>
    requires own { All (λ hand. hand.pool ≡ new_pool pool.now 28 4096) hands.items }
    requires room { (vec_len passes ≡ 0) × (vec_len hands ≤ vec_capacity passes) }
    ensures own { All (λ pass. pass.pool ≡ new_pool pool.now 28 4096) result.items }
    ensures len { vec_len result ≡ vec_len hands.entry }
{
    let _ = pool;
    for hand in hands {
        let (pass, _) = hand.end();
        passes.push_reserved(pass);
    }
    passes
}

/// The numbers below `rows`.
fn numbers(alloc: Global, rows: u64) -> Operand
    ensures root { result.root ≡ Root.Count 1 rows }
    ensures sound { AreSoundOps (Int ∷ []) (ops_in result.chain.items) (kind_list result.kinds) }
{
    Operand {
        root: Root::Count { line: 1, rows },
        last: false,
        kinds: Kinds::one(Kind::Int),
        chain: Vec::new(alloc),
    }
}

/// Every other row goes to the first worker, and the others to the second.
fn by_parity(_row: RowRef<'_>, taken: u64) -> u32
    ensures { result < 2 }
{
    (taken % 2) as u32
}

/// Sends every other number to the first worker, and the others to the second.
fn link_numbers<'p, R: Threads + Wait + Sync>(
    rt: &R,
    alloc: Global,
    way: &mut Way<'_, OpenGate>,
    pool: &'p Pool<MemDisk>,
    rows: u64,
    stock: &mut Stock<Home>,
    hands: &mut Vec<Hand<'p, MemDisk>>,
) -> Result<Vec<Inbox>, LinkErr>
    requires hands { AreHands (new_pool pool.now 28 4096) hands.old.items }
    requires len { (vec_len hands.old ≡ 2) × (stock.old.workers ≡ 2) }
    requires none { (n : ℕ) → lines_of stock.old n ≡ None }
    ensures own { All (λ hand. hand.pool ≡ new_pool pool.now 28 4096) hands.new.items }
    ensures len { vec_len hands.new ≡ 2 }
    ensures hands { OnOk result (Boxed.AreHands (new_pool pool.now 28 4096) hands.new.items) }
    ensures boxes { IfOk result (λ boxes. AreBoxes (new_pool pool.now 28 4096) boxes.items) }
    ensures count { IfOk result (λ boxes. vec_len boxes ≡ 2) }
{
    let _ = pool;
    let operand = numbers(alloc, rows);
    let Ok(routes) = vec![in alloc; by_parity, by_parity] else {
        return Err(LinkErr::NoMemory);
    };
    let link = Link {
        last: false,
        routes,
    };
    link.run(rt, alloc, way, stock, &operand, hands)
}

/// What both workers keep of the numbers that are sent to them.
fn exchange<'p, R: Threads + Wait + Sync>(
    rt: &R,
    alloc: Global,
    way: &mut Way<'_, OpenGate>,
    pool: &'p Pool<MemDisk>,
    rows: u64,
    hands: &mut Vec<Hand<'p, MemDisk>>,
) -> Option<(Vec<u64>, Vec<u64>)>
    requires hands { AreHands (new_pool pool.now 28 4096) hands.old.items }
    requires len { vec_len hands.old ≡ 2 }
    ensures own { All (λ hand. hand.pool ≡ new_pool pool.now 28 4096) hands.new.items }
    ensures len { vec_len hands.new ≡ 2 }
{
    let Ok(mut stock) = Stock::new(alloc, Home, 2) else {
        return None;
    };
    let Ok(boxes) = link_numbers(rt, alloc, way, pool, rows, &mut stock, hands) else {
        return None;
    };
    let zero = Keep::new(Vec::new(alloc), 9);
    let one = Keep::new(Vec::new(alloc), 9);
    let Ok(mut sinks) = vec![in alloc; zero, one] else {
        return None;
    };
    let answer = receive(rt, alloc, way, pool, hands, boxes, &mut sinks);
    match (answer, sinks.pop(), sinks.pop()) {
        (Ok(()), Some(one), Some(zero)) => Some((zero.numbers, one.numbers)),
        _ => None,
    }
}

/// How many packets came to each of both workers.
fn packets(boxes: Vec<Inbox>) -> Option<(usize, usize)> {
    let mut boxes = boxes;
    let Some(two) = boxes.pop() else {
        return None;
    };
    let Some(one) = boxes.pop() else {
        return None;
    };
    Some((one.packets.len(), two.packets.len()))
}

/// How many packets come to each of both workers.
fn link_all<'p, R: Threads + Wait + Sync>(
    rt: &R,
    alloc: Global,
    way: &mut Way<'_, OpenGate>,
    pool: &'p Pool<MemDisk>,
    rows: u64,
    hands: &mut Vec<Hand<'p, MemDisk>>,
) -> Result<Option<(usize, usize)>, LinkErr>
    requires hands { AreHands (new_pool pool.now 28 4096) hands.old.items }
    requires len { vec_len hands.old ≡ 2 }
    ensures own { All (λ hand. hand.pool ≡ new_pool pool.now 28 4096) hands.new.items }
    ensures len { vec_len hands.new ≡ 2 }
{
    let Ok(mut stock) = Stock::new(alloc, Home, 2) else {
        return Err(LinkErr::NoMemory);
    };
    match link_numbers(rt, alloc, way, pool, rows, &mut stock, hands) {
        Ok(boxes) => Ok(packets(boxes)),
        Err(refusal) => Err(refusal),
    }
}

/// What they keep in a pool of their own.
fn kept<R: Threads + Wait + Sync>(
    rt: &R,
    alloc: Global,
    way: &mut Way<'_, OpenGate>,
    rows: u64,
) -> Option<(Vec<u64>, Vec<u64>)> {
    let hands = Vec::with_capacity(alloc, 2).ok()?;
    let passes = Vec::with_capacity(alloc, 2).ok()?;
    let (pool, shares) = open(alloc, Vec::new(alloc)).ok()?;
    let mut hands = hands_of(&pool, shares, hands);
    let kept = exchange(rt, alloc, way, &pool, rows, &mut hands);
    let passes = passes_of(&pool, hands, passes);
    let _disk = pool.finish(rt, passes);
    kept
}

/// How many packets come to both in a pool of their own, whose disk fails at a call where it says so.
fn outcome<R: Threads + Wait + Sync>(
    rt: &R,
    alloc: Global,
    way: &mut Way<'_, OpenGate>,
    rows: u64,
    fail: Vec<u64>,
) -> Option<Result<Option<(usize, usize)>, LinkErr>> {
    let hands = Vec::with_capacity(alloc, 2).ok()?;
    let passes = Vec::with_capacity(alloc, 2).ok()?;
    let (pool, shares) = open(alloc, fail).ok()?;
    let mut hands = hands_of(&pool, shares, hands);
    let counts = link_all(rt, alloc, way, &pool, rows, &mut hands);
    let passes = passes_of(&pool, hands, passes);
    let _disk = pool.finish(rt, passes);
    Some(counts)
}

/// The first worker has the numbers 0 and 1 to send, and the second 2, 3 and 4.
#[test]
fn what_was_dealt_out_is_received(rt: HostRuntime) -> Result<(), Fail> {
    let alloc = rt.alloc();
    let mut threads = Way::Threads {
        gate: &OpenGate,
        phase: 0,
    };
    let (zero, one) = kept(&rt, alloc, &mut threads, 5).ok_or("refused")?;
    assert_eq!(rt; zero.as_slice(), [0, 2, 4].as_slice());
    assert_eq!(rt; one.as_slice(), [1, 3].as_slice());
    Ok(())
}

#[test]
fn what_was_dealt_out_is_received_in_an_order(rt: HostRuntime) -> Result<(), Fail> {
    let mut order = Way::Order { seed: 3 };
    let (zero, one) = kept(&rt, rt.alloc(), &mut order, 5).ok_or("refused")?;
    assert_eq!(rt; zero.as_slice(), [0, 2, 4].as_slice());
    assert_eq!(rt; one.as_slice(), [1, 3].as_slice());
    Ok(())
}

/// Each worker has 5000 numbers of 8 bytes from each, which fill ten blocks.
#[test]
fn each_worker_has_every_other_number(rt: HostRuntime) -> Result<(), Fail> {
    let alloc = rt.alloc();
    for seed in 0..4 {
        let mut way = Way::Order { seed };
        let few = outcome(&rt, alloc, &mut way, 5, Vec::new(alloc)).ok_or("refused")?;
        assert_eq!(rt; few, Ok(Some((2, 2))));
    }
    let mut threads = Way::Threads {
        gate: &OpenGate,
        phase: 0,
    };
    let many = outcome(&rt, alloc, &mut threads, 20_000, Vec::new(alloc)).ok_or("refused")?;
    assert_eq!(rt; many, Ok(Some((20, 20))));
    Ok(())
}

#[test]
fn a_disk_that_fails_is_told(rt: HostRuntime) -> Result<(), Fail> {
    let alloc = rt.alloc();
    let fail = vec![in alloc; 1]?;
    let mut way = Way::Order { seed: 1 };
    let failed = outcome(&rt, alloc, &mut way, 60_000, fail).ok_or("refused")?;
    assert_eq!(rt; failed, Err(LinkErr::Disk { count: 1 }));
    Ok(())
}
