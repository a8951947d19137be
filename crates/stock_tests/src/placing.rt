//! Numbers that two workers cache, and a disk that fails.
ghost use Rattle.std.specs.Prelude.{◌≡◌, ◌≤◌, ℕ, ◌∷◌, [], None, OnOk, All, IfOk, IsSome, false, vec_len, vec_capacity};
ghost use Rattle.row_defs.specs.declared.kind.Kind.TheVariants.{Int};
ghost use Rattle.row_defs.specs.LocalOps.{AreSoundOps};
ghost use Rattle.dia_item.specs.KindList.{kind_list};
ghost use Rattle.block_pool.specs.Workers.{new_pool};
ghost use Rattle.lop_chain.specs.Ops.{ops_in};
ghost use Rattle.scatter.specs.Stocks.{lines_of};
ghost use Rattle.scatter.specs.Phases.{pools_of};
ghost use Rattle.stock_tests.specs.WorkedFiles.{AreReady, AreHands, IsStocked};

use block_pool::{Hand, OpenErr, Pass, Permits, Pool};
use dia_edge::{MemDisk, NoMemory, OpenGate};
use dia_expr::{Expr, Math};
use dia_file::File;
use dia_item::{Kind, Kinds};
use lop_chain::{Operand, Root, ScriptOp};
use place_node::{NodeErr, PlaceFn, PlaceNode};
use scatter::{Home, Stock};
use std::alloc::Global;
use std::sync::Wait;
use std::test::Fail;
use std::thread::Threads;
use worker_step::Way;

/// The line that is stored.
const LINE: u32 = 3;

/// A pool for two workers over a disk with calls that fail, and their shares.
fn open(alloc: Global, fail: Vec<u64>) -> Result<(Pool<MemDisk>, Vec<(Pass, Permits)>), OpenErr>
    ensures ready { IfOk result (λ opened. AreReady (new_pool opened.0 28 4096) opened.1.items) }
    ensures len { IfOk result (λ opened. vec_len opened.1 ≡ 2) }
{
    let disk = MemDisk::new(alloc, fail);
    match Pool::open(alloc, disk, 114_688, 4_096, 2) {
        Ok((pool, shares)) => Ok((pool, shares)),
        Err((_, refusal)) => Err(refusal),
    }
}

/// Their hands.
fn hands_of<'p>(
    pool: &'p Pool<MemDisk>,
    shares: Vec<(Pass, Permits)>,
    mut hands: Vec<Hand<'p, MemDisk>>,
) -> Vec<Hand<'p, MemDisk>>
    requires ready { AreReady (new_pool pool.now 28 4096) shares.items }
    requires room { (vec_len hands ≡ 0) × (vec_len shares ≤ vec_capacity hands) }
    ensures hands { AreHands (new_pool pool.now 28 4096) result.items }
    ensures len { vec_len result ≡ vec_len shares }
{
    for (pass, permits) in shares {
        hands.push_reserved(Hand::new(pool, pass, permits));
    }
    hands
}

/// The hands' passes.
fn passes_of(
    pool: &Pool<MemDisk>,
    hands: Vec<Hand<'_, MemDisk>>,
    mut passes: Vec<Pass>,
) -> Vec<Pass>
    requires own { All (λ hand. hand.pool ≡ new_pool pool.now 28 4096) hands.items }
    requires room { (vec_len passes ≡ 0) × (vec_len hands ≤ vec_capacity passes) }
    ensures own { All (λ pass. pass.pool ≡ new_pool pool.now 28 4096) result.items }
    ensures len { vec_len result ≡ vec_len hands.entry }
{
    let _ = pool;
    for hand in hands {
        let (pass, _) = hand.end();
        passes.push_reserved(pass);
    }
    passes
}

/// The numbers below `rows`.
fn numbers(alloc: Global, rows: u64) -> Operand
    ensures root { result.root ≡ Root.Count 1 rows }
    ensures kinds { kind_list result.kinds ≡ Int ∷ [] }
    ensures sound { AreSoundOps (Int ∷ []) (ops_in result.chain.items) (kind_list result.kinds) }
{
    Operand {
        root: Root::Count { line: 1, rows },
        last: false,
        kinds: Kinds::one(Kind::Int),
        chain: Vec::new(alloc),
    }
}

/// The odd numbers of the line, at its last use or not.
fn odd(alloc: Global, last: bool) -> Result<Operand, NoMemory>
    ensures root { IfOk result (λ operand. operand.root ≡ Root.Stored LINE) }
    ensures last { IfOk result (λ operand. operand.last ≡ last) }
    ensures sound { IfOk result (λ operand. AreSoundOps (Int ∷ []) (ops_in operand.chain.items) (kind_list operand.kinds)) }
{
    let left = Box::new(alloc, Expr::Column(0))?;
    let right = Box::new(alloc, Expr::Number(2))?;
    let mut chain = Vec::new(alloc);
    chain.push(ScriptOp::Filter(Expr::Math(Math::Mod, left, right)))?;
    Ok(Operand {
        root: Root::Stored(LINE),
        last,
        kinds: Kinds::one(Kind::Int),
        chain,
    })
}

/// How many rows files have together.
fn rows_in(files: &[File]) -> u64 {
    let mut rows = 0u64;
    for file in files {
        rows = rows.saturating_add(file.rows());
    }
    rows
}

/// Caches the numbers below `rows`, and puts them in stock.
fn store<'p, R: Threads + Wait + Sync>(
    rt: &R,
    alloc: Global,
    way: &mut Way<'_, OpenGate>,
    pool: &'p Pool<MemDisk>,
    stock: &mut Stock<Home>,
    rows: u64,
    hands: &mut Vec<Hand<'p, MemDisk>>,
) -> Result<u64, NodeErr>
    requires hands { AreHands (new_pool pool.now 28 4096) hands.old.items }
    requires len { (vec_len hands.old ≡ 2) × (stock.old.workers ≡ 2) }
    requires none { (n : ℕ) → lines_of stock.old n ≡ None }
    ensures own { All (λ hand. hand.pool ≡ new_pool pool.now 28 4096) hands.new.items }
    ensures hands { OnOk result (AreHands (new_pool pool.now 28 4096) hands.new.items) }
    ensures len { (vec_len hands.new ≡ 2) × (stock.new.workers ≡ 2) }
    ensures stocked { OnOk result (IsStocked (pools_of hands.new.items) LINE (lines_of stock.new)) }
{
    let _ = pool;
    let operand = numbers(alloc, rows);
    let node = PlaceNode::new(PlaceFn::Cache);
    let files = match node.run(rt, alloc, way, stock, &operand, hands) {
        Ok(files) => files,
        Err(refusal) => return Err(refusal),
    };
    let count = rows_in(files.as_slice());
    match stock.put(alloc, LINE, files) {
        Ok(()) => Ok(count),
        Err(NoMemory) => Err(NodeErr::NoMemory),
    }
}

/// Caches the odd numbers of the line, and answers how many there are.
fn cache_odd<'p, R: Threads + Wait + Sync>(
    rt: &R,
    alloc: Global,
    way: &mut Way<'_, OpenGate>,
    pool: &'p Pool<MemDisk>,
    stock: &mut Stock<Home>,
    last: bool,
    hands: &mut Vec<Hand<'p, MemDisk>>,
) -> Result<u64, NodeErr>
    requires hands { AreHands (new_pool pool.now 28 4096) hands.old.items }
    requires len { (vec_len hands.old ≡ 2) × (stock.old.workers ≡ 2) }
    requires stocked { IsStocked (pools_of hands.old.items) LINE (lines_of stock.old) }
    ensures own { All (λ hand. hand.pool ≡ new_pool pool.now 28 4096) hands.new.items }
    ensures hands { OnOk result (AreHands (new_pool pool.now 28 4096) hands.new.items) }
    ensures len { (vec_len hands.new ≡ 2) × (stock.new.workers ≡ 2) }
    ensures stocked { OnOk result (last ≡ false → IsStocked (pools_of hands.new.items) LINE (lines_of stock.new)) }
{
    let _ = pool;
    let Ok(operand) = odd(alloc, last) else {
        return Err(NodeErr::NoMemory);
    };
    let node = PlaceNode::new(PlaceFn::Cache);
    match node.run(rt, alloc, way, stock, &operand, hands) {
        Ok(files) => Ok(rows_in(files.as_slice())),
        Err(refusal) => Err(refusal),
    }
}

/// How many numbers are cached, how many of them are odd, and how many of them are at the last use.
fn counts<'p, R: Threads + Wait + Sync>(
    rt: &R,
    alloc: Global,
    way: &mut Way<'_, OpenGate>,
    pool: &'p Pool<MemDisk>,
    rows: u64,
    hands: &mut Vec<Hand<'p, MemDisk>>,
) -> Result<(u64, u64, u64), NodeErr>
    requires hands { AreHands (new_pool pool.now 28 4096) hands.old.items }
    requires len { vec_len hands.old ≡ 2 }
    ensures own { All (λ hand. hand.pool ≡ new_pool pool.now 28 4096) hands.new.items }
    ensures len { vec_len hands.new ≡ 2 }
{
    let Ok(mut stock) = Stock::new(alloc, Home, 2) else {
        return Err(NodeErr::NoMemory);
    };
    let all = store(rt, alloc, way, pool, &mut stock, rows, hands)?;
    let kept = cache_odd(rt, alloc, way, pool, &mut stock, false, hands)?;
    let last = cache_odd(rt, alloc, way, pool, &mut stock, true, hands)?;
    Ok((all, kept, last))
}

/// The same in a pool of their own, whose disk fails at a call where it says so.
fn outcome<R: Threads + Wait + Sync>(
    rt: &R,
    alloc: Global,
    way: &mut Way<'_, OpenGate>,
    rows: u64,
    fail: Vec<u64>,
) -> Option<Result<(u64, u64, u64), NodeErr>> {
    let hands = Vec::with_capacity(alloc, 2).ok()?;
    let passes = Vec::with_capacity(alloc, 2).ok()?;
    let (pool, shares) = open(alloc, fail).ok()?;
    let mut hands = hands_of(&pool, shares, hands);
    let counts = counts(rt, alloc, way, &pool, rows, &mut hands);
    let passes = passes_of(&pool, hands, passes);
    let _disk = pool.finish(rt, passes);
    Some(counts)
}

#[test]
fn numbers_are_cached_kept_and_consumed(rt: HostRuntime) -> Result<(), Fail> {
    let alloc = rt.alloc();
    for seed in 0..4 {
        let mut way = Way::Order { seed };
        let few = outcome(&rt, alloc, &mut way, 5, Vec::new(alloc)).ok_or("refused")?;
        assert_eq!(rt; few, Ok((5, 2, 2)));
    }
    let mut threads = Way::Threads {
        gate: &OpenGate,
        phase: 0,
    };
    let many = outcome(&rt, alloc, &mut threads, 20_000, Vec::new(alloc)).ok_or("refused")?;
    assert_eq!(rt; many, Ok((20_000, 10_000, 10_000)));
    Ok(())
}

#[test]
fn a_disk_that_fails_is_told(rt: HostRuntime) -> Result<(), Fail> {
    let alloc = rt.alloc();
    let fail = vec![in alloc; 1]?;
    let mut way = Way::Order { seed: 1 };
    let failed = outcome(&rt, alloc, &mut way, 60_000, fail).ok_or("refused")?;
    assert_eq!(rt; failed, Err(NodeErr::Disk { count: 1 }));
    Ok(())
}
