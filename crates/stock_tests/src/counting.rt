//! How many rows each worker's feed gives, whatever the workers' way.
ghost use Rattle.std.specs.Prelude.{◌≡◌, ◌≤◌, ◌∷◌, ℕ, [], All, vec_len};
ghost use Rattle.row_defs.specs.declared.kind.Kind.TheVariants.{Int};
ghost use Rattle.row_defs.specs.LocalOps.{AreSoundOps};
ghost use Rattle.block_pool.specs.Workers.{new_pool};
ghost use Rattle.stock_tests.specs.Rounds.{AreHands};
ghost use Rattle.lop_chain.specs.Ops.{ops_in};

use crate::adding::{hands_of, odd_and_next, open, passes_of};
use block_pool::{Hand, Pool};
use dia_edge::{MemDisk, OpenGate};
use feed_counts::rows_by_rank;
use lop_chain::{Operand, Root};
use scatter::{Home, Stock};
use std::alloc::Global;
use std::sync::Wait;
use std::test::Fail;
use std::thread::Threads;
use worker_step::Way;

/// How many rows each worker's feed gives; `None` where they aren't counted.
fn count<'p, R: Threads + Wait + Sync>(
    rt: &R,
    alloc: Global,
    way: &mut Way<'_, OpenGate>,
    pool: &'p Pool<MemDisk>,
    hands: &mut Vec<Hand<'p, MemDisk>>,
    operand: &Operand,
    workers: u32,
) -> Option<Vec<u64>>
    requires hands { AreHands (new_pool pool.now 448 4096) hands.old.items }
    requires workers { (1 ≤ workers) × (workers ≤ 16) }
    requires len { vec_len hands.old ≡ workers }
    requires root { (n : ℕ) × (operand.now.root ≡ Root.Count 1 n) }
    requires sound { AreSoundOps (Int ∷ []) (ops_in operand.now.chain.items) (Int ∷ []) }
    ensures own { All (λ hand. hand.pool ≡ new_pool pool.now 448 4096) hands.new.items }
    ensures len { vec_len hands.new ≡ workers }
{
    let _ = pool;
    let Ok(mut stock) = Stock::new(alloc, Home, workers) else {
        return None;
    };
    rows_by_rank(rt, alloc, way, &mut stock, operand, hands).ok()
}

/// The same, in a pool of its own.
fn count_apart<R: Threads + Wait + Sync>(
    rt: &R,
    alloc: Global,
    way: &mut Way<'_, OpenGate>,
    operand: &Operand,
    workers: u32,
) -> Option<Vec<u64>>
    requires workers { (1 ≤ workers) × (workers ≤ 16) }
    requires root { (n : ℕ) × (operand.now.root ≡ Root.Count 1 n) }
    requires sound { AreSoundOps (Int ∷ []) (ops_in operand.now.chain.items) (Int ∷ []) }
{
    let Ok(hands) = Vec::with_capacity(alloc, workers as usize) else {
        return None;
    };
    let Ok(passes) = Vec::with_capacity(alloc, workers as usize) else {
        return None;
    };
    let Ok((pool, shares)) = open(alloc, workers) else {
        return None;
    };
    let mut hands = hands_of(&pool, shares, hands);
    let counts = count(rt, alloc, way, &pool, &mut hands, operand, workers);
    let passes = passes_of(&pool, hands, passes);
    let _disk = pool.finish(rt, passes);
    counts
}

#[test]
fn each_worker_counts_the_rows_of_its_feed(rt: HostRuntime) -> Result<(), Fail> {
    let alloc = rt.alloc();
    let operand = odd_and_next(alloc)?;
    let mut threads = Way::Threads {
        gate: &OpenGate,
        phase: 0,
    };
    let counts = count_apart(&rt, alloc, &mut threads, &operand, 3);
    assert!(rt; counts.is_some_and(|counts| counts.as_slice() == [332, 334, 334].as_slice()));
    let alone = count_apart(&rt, alloc, &mut Way::Order { seed: 7 }, &operand, 1);
    assert!(rt; alone.is_some_and(|counts| counts.as_slice() == [1_000].as_slice()));
    Ok(())
}
