//! Lines of two workers over one pool: fed twice, and fed into sinks that refuse a row.
ghost use Rattle.std.specs.Prelude.{◌≡◌, ◌+◌, ◌<◌, ◌∷◌, [], false, true, ◌≤◌, None, Some, IfOk, IfSome, OnOk, IsSome, vec_capacity};
ghost use Rattle.row_defs.specs.declared.kind.Kind.TheVariants.{Int};
ghost use Rattle.row_defs.specs.LocalOps.{AreSoundOps};
ghost use Rattle.block_pool.specs.Handles.{AreOfPool};
ghost use Rattle.block_pool.specs.Workers.{IsReady, new_pool};
ghost use Rattle.dia_file.specs.Files.{FileValue, IsFileOf};
ghost use Rattle.dia_file.specs.Writers.{IsWriterOf, frames_of};
ghost use Rattle.lop_chain.specs.Ops.{ops_in};
ghost use Rattle.scatter.specs.Feeds.{part_feed};
ghost use Rattle.lop_chain.specs.declared.operand.Root.TheVariants.{Stored};
ghost use Rattle.stock_tests.specs.Stocked.{numbers_line, IsStocked};
ghost use Rattle.scatter.specs.Stocks.{lines_of};

mod keep;
mod mail;

use block_pool::{Hand, OpenErr, Pass, Permits, Pool};
use dia_edge::{Disk, MemDisk, NoMemory};
use dia_expr::{Expr, Math};
use dia_file::{File, FileWriter, PushErr};
use dia_item::{Kind, Kinds, RowBuf};
use keep::Keep;
use lop_chain::{Operand, Root, ScriptOp};
use scatter::{Feed, Home, Stock};
use std::alloc::Global;
use std::sync::Wait;
use std::test::Fail;

/// The line that is stored.
const LINE: u32 = 3;

/// Pushes the numbers from `start` up to `end`.
fn fill<R: Wait, D: Disk>(
    rt: &R,
    hand: &mut Hand<'_, D>,
    writer: &mut FileWriter,
    buffer: &mut RowBuf,
    start: u64,
    end: u64,
) -> Result<(), PushErr>
    requires kinds { writer.old.kinds ≡ Int ∷ [] }
    requires unbroken { writer.old.is_broken ≡ false }
    requires own { IsWriterOf hand.old.pool writer.old }
    requires permit { 0 < hand.old.permits + frames_of writer.old }
    ensures unbroken { OnOk result (writer.new.is_broken ≡ false) }
    ensures kinds { OnOk result (writer.new.kinds ≡ Int ∷ []) }
    ensures own { OnOk result (IsWriterOf hand.new.pool writer.new) }
    ensures pool { hand.new.pool ≡ hand.old.pool }
    ensures permits { OnOk result (hand.new.permits + frames_of writer.new ≡ hand.old.permits + frames_of writer.old) }
{
    for n in start..end {
        buffer.set_int(n);
        match writer.push(rt, hand, buffer.row()) {
            Ok(()) => {}
            Err(refusal) => return Err(refusal),
        }
    }
    Ok(())
}

/// A file of these numbers.
fn file_of<R: Wait, D: Disk>(
    rt: &R,
    alloc: Global,
    hand: &mut Hand<'_, D>,
    start: u64,
    end: u64,
) -> Option<File>
    requires permit { 0 < hand.old.permits }
    ensures kinds { IfSome result (λ file. file.kinds ≡ Int ∷ []) }
    ensures own { IfSome result (λ file. IsFileOf hand.new.pool file) }
    ensures pool { hand.new.pool ≡ hand.old.pool }
{
    let mut buffer = RowBuf::new(alloc).ok()?;
    let mut writer = FileWriter::new(alloc, Kinds::one(Kind::Int), 1_000_000);
    if fill(rt, hand, &mut writer, &mut buffer, start, end).is_err() {
        return None;
    }
    match writer.finish(rt, hand) {
        Ok(file) => Some(file),
        Err(_) => None,
    }
}

/// Of each odd number the number and the next one.
fn odd_and_next(alloc: Global) -> Result<Vec<ScriptOp>, NoMemory>
    ensures { IfOk result (λ ops. AreSoundOps (Int ∷ []) (ops_in ops.items) (Int ∷ [])) }
{
    let left = Box::new(alloc, Expr::Column(0))?;
    let right = Box::new(alloc, Expr::Number(2))?;
    let mut ops = Vec::new(alloc);
    ops.push(ScriptOp::Filter(Expr::Math(Math::Mod, left, right)))?;
    ops.push(ScriptOp::Spread {
        column: 0,
        count: 2,
    })?;
    Ok(ops)
}

/// Steps a feed until its end or a refusal, and ends it.
fn drain<'p, R: Wait>(
    rt: &R,
    hand: &mut Hand<'p, MemDisk>,
    mut feed: Feed,
    sink: &mut Keep<'p>,
) -> Option<File>
    requires own { AreOfPool hand.old.pool feed.blocks }
    requires fits { AreSoundOps feed.kinds feed.ops (Int ∷ []) }
    requires fresh { (feed.pins ≡ 1) × (feed.pinned ≡ 0) }
    ensures file { result ≡ feed.keeps }
    ensures pool { hand.new.pool ≡ hand.old.pool }
{
    if hand.permits() > 0 {
        'steps: while !sink.shut {
            let Ok(true) = feed.step(rt, hand, sink) else {
                break;
            };
        }
    }
    feed.end(rt, hand)
}

/// Puts the line in stock.
fn put_two(alloc: Global, stock: &mut Stock<Home>, one: File, two: File) -> Result<(), NoMemory>
    requires workers { stock.old.workers ≡ 2 }
    requires kinds { (one.kinds ≡ Int ∷ []) × (two.kinds ≡ Int ∷ []) }
    ensures line { OnOk result (lines_of stock.new LINE ≡ Some (numbers_line (Some one) (Some two))) }
    ensures workers { stock.new.workers ≡ 2 }
{
    let parts = vec![in alloc; one, two]?;
    stock.put(alloc, LINE, parts)
}

/// The feeds of the line's two parts.
fn two_feeds(
    alloc: Global,
    stock: &mut Stock<Home>,
    operand: &Operand,
    last: bool,
) -> Option<(Feed, Feed)>
    requires line { (a : FileValue) × (b : FileValue) × (lines_of stock.old LINE ≡ Some (numbers_line (Some a) (Some b))) }
    requires root { operand.now.root ≡ Stored LINE }
    ensures feeds { IfSome result (λ feeds. (a b : FileValue) → lines_of stock.old LINE ≡ Some (numbers_line (Some a) (Some b))
        → (feeds.0 ≡ part_feed last (ops_in operand.now.chain.items) a) × (feeds.1 ≡ part_feed last (ops_in operand.now.chain.items) b)) }
    ensures gone { IsSome result → last ≡ true → lines_of stock.new LINE ≡ None }
    ensures lent { IsSome result → last ≡ false → lines_of stock.new LINE ≡ Some (numbers_line None None) }
{
    let Ok(mut feeds) = stock.feeds(alloc, operand, last) else {
        return None;
    };
    let second = feeds.pop()?;
    let first = feeds.pop()?;
    Some((first, second))
}

/// Feeds the line into a sink, the first part and then the second, and gives the parts back.
fn feed_kept<'p, R: Wait>(
    rt: &R,
    alloc: Global,
    stock: &mut Stock<Home>,
    operand: &Operand,
    one: &mut Hand<'p, MemDisk>,
    two: &mut Hand<'p, MemDisk>,
    sink: &mut Keep<'p>,
) -> Option<()>
    requires stocked { IsStocked one.old.pool LINE (lines_of stock.old) }
    requires pool { two.old.pool ≡ one.old.pool }
    requires root { operand.now.root ≡ Stored LINE }
    requires fits { AreSoundOps (Int ∷ []) (ops_in operand.now.chain.items) (Int ∷ []) }
    ensures stocked { IsSome result → IsStocked one.new.pool LINE (lines_of stock.new) }
    ensures pools { (one.new.pool ≡ one.old.pool) × (two.new.pool ≡ two.old.pool) }
{
    let (first, second) = two_feeds(alloc, stock, operand, false)?;
    let a = drain(rt, one, first, sink);
    let b = drain(rt, two, second, sink);
    let (Some(a), Some(b)) = (a, b) else {
        return None;
    };
    stock.restore(LINE, 0, a);
    stock.restore(LINE, 1, b);
    Some(())
}

/// Feeds the line for the last time, and answers whether no part came back.
fn feed_last<'p, R: Wait>(
    rt: &R,
    alloc: Global,
    stock: &mut Stock<Home>,
    operand: &Operand,
    one: &mut Hand<'p, MemDisk>,
    two: &mut Hand<'p, MemDisk>,
    sink: &mut Keep<'p>,
) -> Option<bool>
    requires stocked { IsStocked one.old.pool LINE (lines_of stock.old) }
    requires pool { two.old.pool ≡ one.old.pool }
    requires root { operand.now.root ≡ Stored LINE }
    requires fits { AreSoundOps (Int ∷ []) (ops_in operand.now.chain.items) (Int ∷ []) }
    ensures gone { IsSome result → lines_of stock.new LINE ≡ None }
    ensures pools { (one.new.pool ≡ one.old.pool) × (two.new.pool ≡ two.old.pool) }
{
    let (first, second) = two_feeds(alloc, stock, operand, true)?;
    let a = drain(rt, one, first, sink);
    let b = drain(rt, two, second, sink);
    Some(a.is_none() && b.is_none())
}

/// What two feedings of a line came to: the numbers that the sinks took, and whether no part came back from the last one.
#[derive(Drop)]
struct Outcome {
    kept: Vec<u64>,
    last: Vec<u64>,
    freed: bool,
}

/// Feeds the numbers below 1,000, of which the first worker has 600, into a sink that takes so many rows, and then into one
/// that takes all.
fn feed_twice<'p, R: Wait>(
    rt: &R,
    alloc: Global,
    one: &mut Hand<'p, MemDisk>,
    two: &mut Hand<'p, MemDisk>,
    most: usize,
) -> Option<Outcome>
    requires pool { two.old.pool ≡ one.old.pool }
    requires permits { (0 < one.old.permits) × (0 < two.old.permits) }
    ensures pools { (one.new.pool ≡ one.old.pool) × (two.new.pool ≡ two.old.pool) }
{
    let Ok(chain) = odd_and_next(alloc) else {
        return None;
    };
    let operand = Operand {
        root: Root::Stored(LINE),
        last: false,
        kinds: Kinds::one(Kind::Int),
        chain,
    };
    let a = file_of(rt, alloc, one, 0, 600)?;
    let b = file_of(rt, alloc, two, 600, 1_000)?;
    let Ok(mut stock) = Stock::new(alloc, Home, 2) else {
        return None;
    };
    let Ok(()) = put_two(alloc, &mut stock, a, b) else {
        return None;
    };
    let mut kept = Keep::new(Vec::new(alloc), most);
    feed_kept(rt, alloc, &mut stock, &operand, one, two, &mut kept)?;
    let mut last = Keep::new(Vec::new(alloc), 10_000);
    let freed = feed_last(rt, alloc, &mut stock, &operand, one, two, &mut last)?;
    let Home = stock.end();
    Some(Outcome {
        kept: kept.numbers,
        last: last.numbers,
        freed,
    })
}

/// A pool for two workers, and their shares.
fn open_two(alloc: Global) -> Result<(Pool<MemDisk>, (Pass, Permits), (Pass, Permits)), OpenErr>
    ensures one { IfOk result (λ opened. IsReady (new_pool opened.0 28 4096) opened.1) }
    ensures two { IfOk result (λ opened. IsReady (new_pool opened.0 28 4096) opened.2) }
{
    let disk = MemDisk::new(alloc, Vec::new(alloc));
    match Pool::open(alloc, disk, 114_688, 4_096, 2) {
        Ok((pool, mut shares)) => {
            let (Some(two), Some(one)) = (shares.pop(), shares.pop()) else {
                unreachable!()
            };
            Ok((pool, one, two))
        }
        Err((_, refusal)) => Err(refusal),
    }
}

/// Ends a pool with its two passes.
fn end<R: Wait>(rt: &R, pool: Pool<MemDisk>, one: Pass, two: Pass, mut passes: Vec<Pass>)
    requires one { one.pool ≡ new_pool pool 28 4096 }
    requires two { two.pool ≡ new_pool pool 28 4096 }
    requires room { (passes.items ≡ []) × (2 ≤ vec_capacity passes) }
{
    passes.push_reserved(one);
    passes.push_reserved(two);
    pool.finish(rt, passes);
}

/// The same in a pool of their own.
fn outcome_of<R: Wait>(rt: &R, alloc: Global, most: usize) -> Option<Outcome> {
    let passes = Vec::with_capacity(alloc, 2).ok()?;
    let (pool, (pass, permits), (other, more)) = open_two(alloc).ok()?;
    let mut one = Hand::new(&pool, pass, permits);
    let mut two = Hand::new(&pool, other, more);
    let outcome = feed_twice(rt, alloc, &mut one, &mut two, most);
    let (pass, _) = one.end();
    let (other, _) = two.end();
    end(rt, pool, pass, other, passes);
    outcome
}

/// Whether these are the numbers from 1 on.
fn counts_from_one(numbers: &[u64]) -> bool {
    (1..).zip(numbers).all(|(n, number)| n == *number)
}

#[test]
fn a_line_is_fed_twice_and_a_sink_that_refuses_a_row_has_those_before(
    rt: HostRuntime,
) -> Result<(), Fail> {
    for (most, taken) in [
        (0, 0),
        (1, 1),
        (2, 2),
        (3, 3),
        (599, 599),
        (600, 600),
        (601, 601),
        (999, 999),
        (1_000, 1_000),
        (5_000, 1_000),
    ] {
        let outcome = outcome_of(&rt, rt.alloc(), most).ok_or("refused")?;
        assert_eq!(rt; outcome.kept.len(), taken);
        assert!(rt; counts_from_one(outcome.kept.as_slice()));
        assert_eq!(rt; outcome.last.len(), 1_000);
        assert!(rt; counts_from_one(outcome.last.as_slice()));
        assert!(rt; outcome.freed);
    }
    Ok(())
}
