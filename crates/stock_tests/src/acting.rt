//! One text, whatever the workers, and what is told where it can't be written.
ghost use Rattle.std.specs.Prelude.{◌≡◌, ◌≤◌, ◌∷◌, [], All, IfOk, vec_len, vec_capacity};
ghost use Rattle.row_defs.specs.declared.kind.Kind.TheVariants.{Int};
ghost use Rattle.row_defs.specs.LocalOps.{AreSoundOps};
ghost use Rattle.script_defs.specs.Sound.{IsSoundAction};
ghost use Rattle.script_read.specs.Statements.{action_in};
ghost use Rattle.block_pool.specs.Workers.{IsReady, new_pool};
ghost use Rattle.stock_tests.specs.Rounds.{AreHands};
ghost use Rattle.lop_chain.specs.Ops.{ops_in};

use actions::{ActErr, act};
use block_pool::{Hand, OpenErr, Pass, Permits, Pool};
use dia_edge::{MemDisk, MemSink, NoMemory, OpenGate};
use dia_expr::{Expr, Math};
use dia_item::{Kind, Kinds};
use lop_chain::{Operand, Root, ScriptOp};
use scatter::{Home, Stock};
use script_read::Action;
use std::alloc::Global;
use std::sync::Wait;
use std::test::Fail;
use std::thread::Threads;
use text_out::OutBuffer;
use worker_step::Way;

/// A pool for these workers, and their shares.
fn open(alloc: Global, workers: u32) -> Result<(Pool<MemDisk>, Vec<(Pass, Permits)>), OpenErr>
    requires { (1 ≤ workers) × (workers ≤ 16) }
    ensures ready { IfOk result (λ opened. All (IsReady (new_pool opened.0 448 4096)) opened.1.items) }
    ensures len { IfOk result (λ opened. vec_len opened.1 ≡ workers) }
{
    let disk = MemDisk::new(alloc, Vec::new(alloc));
    match Pool::open(alloc, disk, 1_835_008, 4_096, workers) {
        Ok((pool, shares)) => Ok((pool, shares)),
        Err((_, refusal)) => Err(refusal),
    }
}

/// Their hands.
fn hands_of<'p>(
    pool: &'p Pool<MemDisk>,
    shares: Vec<(Pass, Permits)>,
    mut hands: Vec<Hand<'p, MemDisk>>,
) -> Vec<Hand<'p, MemDisk>>
    requires ready { All (IsReady (new_pool pool.now 448 4096)) shares.items }
    requires room { (vec_len hands ≡ 0) × (vec_len shares ≤ vec_capacity hands) }
    ensures hands { AreHands (new_pool pool.now 448 4096) result.items }
    ensures len { vec_len result ≡ vec_len shares }
{
    for (pass, permits) in shares {
        hands.push_reserved(Hand::new(pool, pass, permits));
    }
    hands
}

/// The hands' passes.
fn passes_of(
    pool: &Pool<MemDisk>,
    hands: Vec<Hand<'_, MemDisk>>,
    mut passes: Vec<Pass>,
) -> Vec<Pass>
    requires own { All (λ hand. hand.pool ≡ new_pool pool.now 448 4096) hands.items }
    requires room { (vec_len passes ≡ 0) × (vec_len hands ≤ vec_capacity passes) }
    ensures own { All (λ pass. pass.pool ≡ new_pool pool.now 448 4096) result.items }
    ensures len { vec_len result ≡ vec_len hands.entry }
{
    let _ = pool;
    for hand in hands {
        let (pass, _) = hand.end();
        passes.push_reserved(pass);
    }
    passes
}

/// Does an action on the numbers below `rows` through these lines; `None` where memory ran out before.
fn act_with<'p, R: Threads + Wait + Sync>(
    rt: &R,
    alloc: Global,
    way: &mut Way<'_, OpenGate>,
    pool: &'p Pool<MemDisk>,
    hands: &mut Vec<Hand<'p, MemDisk>>,
    workers: u32,
    action: &Action,
    rows: u64,
    chain: Vec<ScriptOp>,
    out: &mut MemSink,
) -> Option<Result<(), ActErr>>
    requires hands { AreHands (new_pool pool.now 448 4096) hands.old.items }
    requires workers { (1 ≤ workers) × (workers ≤ 16) }
    requires len { vec_len hands.old ≡ workers }
    requires sound { AreSoundOps (Int ∷ []) (ops_in chain.items) (Int ∷ []) }
    requires actable { IsSoundAction (Int ∷ []) (action_in action.now) }
    ensures own { All (λ hand. hand.pool ≡ new_pool pool.now 448 4096) hands.new.items }
    ensures len { vec_len hands.new ≡ workers }
{
    let _ = pool;
    let operand = Operand {
        root: Root::Count { line: 1, rows },
        last: false,
        kinds: Kinds::one(Kind::Int),
        chain,
    };
    let Ok(mut stock) = Stock::new(alloc, Home, workers) else {
        return None;
    };
    let Ok(mut buffer) = OutBuffer::new(alloc) else {
        return None;
    };
    Some(act(
        rt,
        alloc,
        way,
        &mut stock,
        action,
        &operand,
        hands,
        &mut buffer,
        out,
    ))
}

/// The same in a pool of its own.
fn act_on<R: Threads + Wait + Sync>(
    rt: &R,
    alloc: Global,
    way: &mut Way<'_, OpenGate>,
    workers: u32,
    action: &Action,
    rows: u64,
    chain: Vec<ScriptOp>,
    out: &mut MemSink,
) -> Option<Result<(), ActErr>>
    requires workers { (1 ≤ workers) × (workers ≤ 16) }
    requires sound { AreSoundOps (Int ∷ []) (ops_in chain.items) (Int ∷ []) }
    requires actable { IsSoundAction (Int ∷ []) (action_in action.now) }
{
    let Ok(hands) = Vec::with_capacity(alloc, workers as usize) else {
        return None;
    };
    let Ok(passes) = Vec::with_capacity(alloc, workers as usize) else {
        return None;
    };
    let Ok((pool, shares)) = open(alloc, workers) else {
        return None;
    };
    let mut hands = hands_of(&pool, shares, hands);
    let done = act_with(
        rt, alloc, way, &pool, &mut hands, workers, action, rows, chain, out,
    );
    let passes = passes_of(&pool, hands, passes);
    let _disk = pool.finish(rt, passes);
    done
}

/// Of each odd number the number and the next.
fn odd_and_next(alloc: Global) -> Result<Vec<ScriptOp>, NoMemory>
    ensures { IfOk result (λ ops. AreSoundOps (Int ∷ []) (ops_in ops.items) (Int ∷ [])) }
{
    let left = Box::new(alloc, Expr::Column(0))?;
    let right = Box::new(alloc, Expr::Number(2))?;
    let mut ops = Vec::new(alloc);
    ops.push(ScriptOp::Filter(Expr::Math(Math::Mod, left, right)))?;
    ops.push(ScriptOp::Spread {
        column: 0,
        count: 2,
    })?;
    Ok(ops)
}

/// Of each number 16, three times over.
fn spread_thrice(alloc: Global) -> Result<Vec<ScriptOp>, NoMemory>
    ensures { IfOk result (λ ops. AreSoundOps (Int ∷ []) (ops_in ops.items) (Int ∷ [])) }
{
    let mut ops = Vec::new(alloc);
    ops.push(ScriptOp::Spread {
        column: 0,
        count: 16,
    })?;
    ops.push(ScriptOp::Spread {
        column: 0,
        count: 16,
    })?;
    ops.push(ScriptOp::Spread {
        column: 0,
        count: 16,
    })?;
    Ok(ops)
}

/// Whether the action is done on the odd numbers below 6 and the next of each.
fn is_done<R: Threads + Wait + Sync>(
    rt: &R,
    alloc: Global,
    way: &mut Way<'_, OpenGate>,
    workers: u32,
    action: &Action,
    out: &mut MemSink,
) -> bool
    requires workers { (1 ≤ workers) × (workers ≤ 16) }
    requires actable { IsSoundAction (Int ∷ []) (action_in action.now) }
{
    let Ok(chain) = odd_and_next(alloc) else {
        return false;
    };
    let done = act_on(rt, alloc, way, workers, action, 6, chain, out);
    matches!(done, Some(Ok(())))
}

/// Whether all three actions are done, one after the other.
fn are_done<R: Threads + Wait + Sync>(
    rt: &R,
    alloc: Global,
    way: &mut Way<'_, OpenGate>,
    workers: u32,
    out: &mut MemSink,
) -> bool
    requires { (1 ≤ workers) × (workers ≤ 16) }
{
    is_done(rt, alloc, way, workers, &Action::Print { of: 1 }, out)
        && is_done(rt, alloc, way, workers, &Action::Size { of: 1 }, out)
        && is_done(
            rt,
            alloc,
            way,
            workers,
            &Action::Sum { of: 1, column: 0 },
            out,
        )
}

#[test]
fn all_actions_write_one_text_by_threads_and_in_any_order(rt: HostRuntime) -> Result<(), Fail> {
    let alloc = rt.alloc();
    for workers in [1, 2, 3, 16] {
        let mut threads = Way::Threads {
            gate: &OpenGate,
            phase: 0,
        };
        let mut out = MemSink::new(alloc, Vec::new(alloc));
        assert!(rt; are_done(&rt, alloc, &mut threads, workers, &mut out));
        for seed in 0..10 {
            assert!(rt; are_done(&rt, alloc, &mut Way::Order { seed }, workers, &mut out));
        }
        let mut texts = out.bytes().chunks(17);
        assert_eq!(rt; texts.len(), 11);
        assert!(rt; texts.all(|text| text == b"1\n2\n3\n4\n5\n6\n6\n21\n".as_slice()));
    }
    Ok(())
}

#[test]
fn too_many_rows_are_known_before_the_first_byte(rt: HostRuntime) -> Result<(), Fail> {
    let alloc = rt.alloc();
    let Ok(chain) = spread_thrice(alloc) else {
        return Err("memory".into());
    };
    let mut out = MemSink::new(alloc, Vec::new(alloc));
    let print = Action::Print { of: 1 };
    let done = act_on(
        &rt,
        alloc,
        &mut Way::Order { seed: 7 },
        2,
        &print,
        1 << 32,
        chain,
        &mut out,
    );
    assert_eq!(rt; done, Some(Err(ActErr::TooManyRows)));
    assert!(rt; out.bytes().is_empty());
    Ok(())
}

#[test]
fn a_write_that_fails_is_told(rt: HostRuntime) -> Result<(), Fail> {
    let alloc = rt.alloc();
    for call in [1, 3] {
        let Ok(chain) = odd_and_next(alloc) else {
            return Err("memory".into());
        };
        let mut out = MemSink::new(alloc, vec![in alloc; call]?);
        let print = Action::Print { of: 1 };
        let done = act_on(
            &rt,
            alloc,
            &mut Way::Order { seed: 7 },
            2,
            &print,
            60_000,
            chain,
            &mut out,
        );
        assert_eq!(rt; done, Some(Err(ActErr::Write { count: 1 })));
        assert_eq!(rt; out.bytes().is_empty(), call == 1);
    }
    Ok(())
}
