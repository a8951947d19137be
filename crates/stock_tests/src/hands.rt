//! What no clause says: that works use their hands by threads and in an order, and what they come to.
ghost use Rattle.std.specs.Prelude.{◌≡◌, ◌≤◌, All, IfOk, vec_len, vec_capacity};
ghost use Rattle.block_pool.specs.Opening.{IsOf};
ghost use Rattle.block_pool.specs.Workers.{IsReady, new_pool};
ghost use Rattle.stock_tests.specs.Rounds.{AreHands};

mod rounds;

use block_pool::{Hand, OpenErr, Pass, Permits, Pool};
use dia_edge::{MemDisk, OpenGate};
use hand_phase::run_hands;
use lent_step::Stopped;
use rounds::{NEVER, Rounds};
use std::alloc::{AllocError, Global};
use std::process::Abort;
use std::sync::Wait;
use std::test::Fail;
use std::thread::Threads;
use worker_step::Way;

/// A pool for three workers, and their shares.
fn open_three(alloc: Global) -> Result<(Pool<MemDisk>, Vec<(Pass, Permits)>), OpenErr>
    ensures ready { IfOk result (λ opened. All (IsReady (new_pool opened.0 45 4096)) opened.1.items) }
    ensures len { IfOk result (λ opened. vec_len opened.1 ≡ 3) }
{
    let disk = MemDisk::new(alloc, Vec::new(alloc));
    match Pool::open(alloc, disk, 184_320, 4_096, 3) {
        Ok((pool, shares)) => Ok((pool, shares)),
        Err((_, refusal)) => Err(refusal),
    }
}

/// Their hands.
fn hands_of<'p>(
    pool: &'p Pool<MemDisk>,
    shares: Vec<(Pass, Permits)>,
    mut hands: Vec<Hand<'p, MemDisk>>,
) -> Vec<Hand<'p, MemDisk>>
    requires ready { All (IsReady (new_pool pool.now 45 4096)) shares.items }
    requires room { (vec_len hands ≡ 0) × (vec_len shares ≤ vec_capacity hands) }
    ensures hands { AreHands (new_pool pool.now 45 4096) result.items }
    ensures len { vec_len result ≡ vec_len shares }
{
    for (pass, permits) in shares {
        hands.push_reserved(Hand::new(pool, pass, permits));
    }
    hands
}

/// The hands' passes.
fn passes_of(
    pool: &Pool<MemDisk>,
    hands: Vec<Hand<'_, MemDisk>>,
    mut passes: Vec<Pass>,
) -> Vec<Pass>
    requires own { All (λ hand. hand.pool ≡ new_pool pool.now 45 4096) hands.items }
    requires room { (vec_len passes ≡ 0) × (vec_len hands ≤ vec_capacity passes) }
    ensures own { All (λ pass. pass.pool ≡ new_pool pool.now 45 4096) result.items }
    ensures len { vec_len result ≡ vec_len hands.entry }
{
    let _ = pool;
    for hand in hands {
        let (pass, _) = hand.end();
        passes.push_reserved(pass);
    }
    passes
}

fn works<'p>(alloc: Global, faults_at: u32) -> Result<Vec<Rounds<'p, MemDisk>>, AllocError>
    ensures { IfOk result (λ works. vec_len works ≡ 3) }
{
    let one = Rounds::new(3, NEVER);
    let two = Rounds::new(5, faults_at);
    let three = Rounds::new(0, NEVER);
    Ok(vec![in alloc; one, two, three]?)
}

/// At how many rounds left the second of three works faults, and what the phase comes to.
#[derive(Drop)]
struct Case {
    faults_at: u32,
    answer: Result<(), Stopped<u32>>,
    left: u32,
    shown: u32,
}

/// Lends the hands for a phase of three works, and looks at what came back.
fn run_three<'p, R: Threads + Wait + Abort + Sync>(
    rt: &R,
    alloc: Global,
    way: &mut Way<'_, OpenGate>,
    pool: &'p Pool<MemDisk>,
    mut hands: Vec<Hand<'p, MemDisk>>,
    mut works: Vec<Rounds<'p, MemDisk>>,
    case: &Case,
) -> Vec<Hand<'p, MemDisk>>
    requires hands { AreHands (new_pool pool.now 45 4096) hands.items }
    requires count { (vec_len hands ≡ 3) × (vec_len works ≡ 3) }
    ensures own { All (λ hand. hand.pool ≡ new_pool pool.now 45 4096) result.items }
    ensures count { vec_len result ≡ 3 }
{
    let _ = pool;
    let answer = run_hands(rt, alloc, way, &mut hands, &mut works);
    assert_eq!(rt; answer, case.answer);
    assert_eq!(rt; works.len(), 3);
    let left = (works[0].left, works[1].left, works[2].left);
    assert_eq!(rt; left, (0, case.left, 0));
    let shown = (works[0].shown, works[1].shown, works[2].shown);
    assert_eq!(rt; shown, (3, case.shown, 0));
    hands
}

/// Opens a pool for a phase, and ends it.
fn look<R: Threads + Wait + Abort + Sync>(
    rt: &R,
    alloc: Global,
    way: &mut Way<'_, OpenGate>,
    case: &Case,
) -> Result<(), Fail> {
    let hands = Vec::with_capacity(alloc, 3)?;
    let passes = Vec::with_capacity(alloc, 3)?;
    let works = works(alloc, case.faults_at)?;
    let (pool, shares) = match open_three(alloc) {
        Ok(opened) => opened,
        Err(refusal) => return Err(refusal.into()),
    };
    let hands = hands_of(&pool, shares, hands);
    let hands = run_three(rt, alloc, way, &pool, hands, works, case);
    let passes = passes_of(&pool, hands, passes);
    let _disk = pool.finish(rt, passes);
    Ok(())
}

#[test]
fn hands_are_lent_by_threads_and_in_an_order(rt: HostRuntime) -> Result<(), Fail> {
    let alloc = rt.alloc();
    let done = Case {
        faults_at: NEVER,
        answer: Ok(()),
        left: 0,
        shown: 5,
    };
    let stopped = Case {
        faults_at: 2,
        answer: Err(Stopped::Fault(2)),
        left: 2,
        shown: 3,
    };
    for case in [&done, &stopped] {
        let mut threads = Way::Threads {
            gate: &OpenGate,
            phase: 0,
        };
        look(&rt, alloc, &mut threads, case)?;
        look(&rt, alloc, &mut Way::Order { seed: 7 }, case)?;
    }
    Ok(())
}
