//! One text, whatever the workers and their way, and what is known at once.
ghost use Rattle.std.specs.Prelude.{◌≡◌, ◌≤◌, ◌<◌, ◌∷◌, ℕ, [], All, IfOk, vec_len, vec_capacity};
ghost use Rattle.row_defs.specs.declared.kind.Kind.TheVariants.{Int};
ghost use Rattle.row_defs.specs.LocalOps.{AreSoundOps};
ghost use Rattle.block_pool.specs.Workers.{IsReady, new_pool};
ghost use Rattle.stock_tests.specs.Rounds.{AreHands};
ghost use Rattle.lop_chain.specs.Ops.{ops_in};

use block_pool::{Hand, OpenErr, Pass, Permits, Pool};
use dia_edge::{MemDisk, MemSink, NoMemory, OpenGate};
use dia_expr::{Expr, Math};
use dia_item::{Kind, Kinds};
use feed_actions::{ActErr, size, sum};
use lop_chain::{Operand, Root, ScriptOp};
use scatter::{Home, Stock};
use std::alloc::Global;
use std::sync::Wait;
use std::test::Fail;
use std::thread::Threads;
use worker_step::Way;

/// A pool for these workers, and their shares.
pub(crate) fn open(
    alloc: Global,
    workers: u32,
) -> Result<(Pool<MemDisk>, Vec<(Pass, Permits)>), OpenErr>
    requires { (1 ≤ workers) × (workers ≤ 16) }
    ensures ready { IfOk result (λ opened. All (IsReady (new_pool opened.0 448 4096)) opened.1.items) }
    ensures len { IfOk result (λ opened. vec_len opened.1 ≡ workers) }
{
    let disk = MemDisk::new(alloc, Vec::new(alloc));
    match Pool::open(alloc, disk, 1_835_008, 4_096, workers) {
        Ok((pool, shares)) => Ok((pool, shares)),
        Err((_, refusal)) => Err(refusal),
    }
}

/// Their hands.
pub(crate) fn hands_of<'p>(
    pool: &'p Pool<MemDisk>,
    shares: Vec<(Pass, Permits)>,
    mut hands: Vec<Hand<'p, MemDisk>>,
) -> Vec<Hand<'p, MemDisk>>
    requires ready { All (IsReady (new_pool pool.now 448 4096)) shares.items }
    requires room { (vec_len hands ≡ 0) × (vec_len shares ≤ vec_capacity hands) }
    ensures hands { AreHands (new_pool pool.now 448 4096) result.items }
    ensures len { vec_len result ≡ vec_len shares }
{
    for (pass, permits) in shares {
        hands.push_reserved(Hand::new(pool, pass, permits));
    }
    hands
}

/// The hands' passes.
pub(crate) fn passes_of(
    pool: &Pool<MemDisk>,
    hands: Vec<Hand<'_, MemDisk>>,
    mut passes: Vec<Pass>,
) -> Vec<Pass>
    requires own { All (λ hand. hand.pool ≡ new_pool pool.now 448 4096) hands.items }
    requires room { (vec_len passes ≡ 0) × (vec_len hands ≤ vec_capacity passes) }
    ensures own { All (λ pass. pass.pool ≡ new_pool pool.now 448 4096) result.items }
    ensures len { vec_len result ≡ vec_len hands.entry }
{
    let _ = pool;
    for hand in hands {
        let (pass, _) = hand.end();
        passes.push_reserved(pass);
    }
    passes
}

/// The numbers below 1,000, and of each odd one the number and the next.
pub(crate) fn odd_and_next(alloc: Global) -> Result<Operand, NoMemory>
    ensures root { IfOk result (λ operand. operand.root ≡ Root.Count 1 1000) }
    ensures sound { IfOk result (λ operand. AreSoundOps (Int ∷ []) (ops_in operand.chain.items) (Int ∷ [])) }
{
    let left = Box::new(alloc, Expr::Column(0))?;
    let right = Box::new(alloc, Expr::Number(2))?;
    let mut chain = Vec::new(alloc);
    chain.push(ScriptOp::Filter(Expr::Math(Math::Mod, left, right)))?;
    chain.push(ScriptOp::Spread {
        column: 0,
        count: 2,
    })?;
    Ok(Operand {
        root: Root::Count {
            line: 1,
            rows: 1_000,
        },
        last: false,
        kinds: Kinds::one(Kind::Int),
        chain,
    })
}

/// The numbers below 2^32, of each of which 16 rows are made, of each of these 16, and of each of these so many.
fn spread(alloc: Global, count: u32) -> Result<Operand, NoMemory>
    requires { (1 ≤ count) × (count ≤ 16) }
    ensures root { IfOk result (λ operand. operand.root ≡ Root.Count 1 4294967296) }
    ensures sound { IfOk result (λ operand. AreSoundOps (Int ∷ []) (ops_in operand.chain.items) (Int ∷ [])) }
{
    let sixteen = ScriptOp::Spread {
        column: 0,
        count: 16,
    };
    let again = ScriptOp::Spread {
        column: 0,
        count: 16,
    };
    let mut chain = Vec::new(alloc);
    chain.push(sixteen)?;
    chain.push(again)?;
    chain.push(ScriptOp::Spread { column: 0, count })?;
    Ok(Operand {
        root: Root::Count {
            line: 1,
            rows: 1 << 32,
        },
        last: false,
        kinds: Kinds::one(Kind::Int),
        chain,
    })
}

/// The number that is asked for.
#[derive(Clone, Copy)]
enum Asked {
    Size,
    Sum,
}

/// Writes it.
fn put<'p, R: Threads + Wait + Sync>(
    rt: &R,
    alloc: Global,
    way: &mut Way<'_, OpenGate>,
    pool: &'p Pool<MemDisk>,
    hands: &mut Vec<Hand<'p, MemDisk>>,
    operand: &Operand,
    asked: Asked,
    workers: u32,
    out: &mut MemSink,
) -> Result<(), ActErr>
    requires hands { AreHands (new_pool pool.now 448 4096) hands.old.items }
    requires workers { (1 ≤ workers) × (workers ≤ 16) }
    requires len { vec_len hands.old ≡ workers }
    requires root { (n : ℕ) × (operand.now.root ≡ Root.Count 1 n) }
    requires sound { AreSoundOps (Int ∷ []) (ops_in operand.now.chain.items) (Int ∷ []) }
    ensures own { All (λ hand. hand.pool ≡ new_pool pool.now 448 4096) hands.new.items }
    ensures len { vec_len hands.new ≡ workers }
{
    let _ = pool;
    let Ok(mut stock) = Stock::new(alloc, Home, workers) else {
        return Err(ActErr::NoMemory);
    };
    match asked {
        Asked::Size => size(rt, alloc, way, &mut stock, operand, hands, out),
        Asked::Sum => sum(rt, alloc, way, &mut stock, operand, 0, hands, out),
    }
}

/// Writes it, in a pool of its own.
fn ask<R: Threads + Wait + Sync>(
    rt: &R,
    alloc: Global,
    way: &mut Way<'_, OpenGate>,
    operand: &Operand,
    asked: Asked,
    workers: u32,
    out: &mut MemSink,
) -> Result<(), ActErr>
    requires workers { (1 ≤ workers) × (workers ≤ 16) }
    requires root { (n : ℕ) × (operand.now.root ≡ Root.Count 1 n) }
    requires sound { AreSoundOps (Int ∷ []) (ops_in operand.now.chain.items) (Int ∷ []) }
{
    let Ok(hands) = Vec::with_capacity(alloc, workers as usize) else {
        return Err(ActErr::NoMemory);
    };
    let Ok(passes) = Vec::with_capacity(alloc, workers as usize) else {
        return Err(ActErr::NoMemory);
    };
    let Ok((pool, shares)) = open(alloc, workers) else {
        return Err(ActErr::NoMemory);
    };
    let mut hands = hands_of(&pool, shares, hands);
    let answer = put(
        rt, alloc, way, &pool, &mut hands, operand, asked, workers, out,
    );
    let passes = passes_of(&pool, hands, passes);
    let _disk = pool.finish(rt, passes);
    answer
}

/// Writes both, one after the other.
fn texts<R: Threads + Wait + Sync>(
    rt: &R,
    alloc: Global,
    way: &mut Way<'_, OpenGate>,
    workers: u32,
    out: &mut MemSink,
) -> Result<(), ActErr>
    requires { (1 ≤ workers) × (workers ≤ 16) }
{
    let Ok(operand) = odd_and_next(alloc) else {
        return Err(ActErr::NoMemory);
    };
    ask(rt, alloc, way, &operand, Asked::Size, workers, out)?;
    ask(rt, alloc, way, &operand, Asked::Sum, workers, out)
}

#[test]
fn all_workers_come_to_one_text_by_threads_and_in_any_order(rt: HostRuntime) -> Result<(), Fail> {
    let alloc = rt.alloc();
    for workers in [1, 2, 3, 16] {
        let mut threads = Way::Threads {
            gate: &OpenGate,
            phase: 0,
        };
        let mut out = MemSink::new(alloc, Vec::new(alloc));
        texts(&rt, alloc, &mut threads, workers, &mut out)
            .ok()
            .ok_or("refused")?;
        for seed in 0..10 {
            texts(&rt, alloc, &mut Way::Order { seed }, workers, &mut out)
                .ok()
                .ok_or("refused")?;
        }
        let mut texts = out.bytes().chunks(12);
        assert_eq!(rt; texts.len(), 11);
        assert!(rt; texts.all(|text| text == b"1000\n500500\n".as_slice()));
    }
    Ok(())
}

#[test]
fn the_size_of_a_spread_is_known_without_a_phase(rt: HostRuntime) -> Result<(), Fail> {
    let alloc = rt.alloc();
    let operand = spread(alloc, 1)?;
    let way = &mut Way::Order { seed: 0 };
    let mut out = MemSink::new(alloc, Vec::new(alloc));
    let answer = ask(&rt, alloc, way, &operand, Asked::Size, 2, &mut out);
    assert_eq!(rt; answer, Ok(()));
    assert!(rt; out.bytes() == b"1099511627776\n".as_slice());
    Ok(())
}

#[test]
fn more_rows_than_may_arrive_are_refused_at_once(rt: HostRuntime) -> Result<(), Fail> {
    let alloc = rt.alloc();
    let operand = spread(alloc, 16)?;
    let way = &mut Way::Order { seed: 0 };
    let mut out = MemSink::new(alloc, Vec::new(alloc));
    for asked in [Asked::Size, Asked::Sum] {
        let answer = ask(&rt, alloc, way, &operand, asked, 2, &mut out);
        assert_eq!(rt; answer, Err(ActErr::TooManyRows));
    }
    assert!(rt; out.bytes().is_empty());
    Ok(())
}
