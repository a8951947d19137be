//! Numbers that are printed by the one worker there is.
ghost use Rattle.std.specs.Prelude.{◌≡◌, ◌<◌, ◌∷◌, [], length, vec_capacity, IfOk, IfSome};
ghost use Rattle.row_defs.specs.declared.kind.Kind.TheVariants.{Int};
ghost use Rattle.block_pool.specs.Workers.{IsReady, new_pool};

use block_pool::{Hand, LEAST_BLOCK, OpenErr, Pass, Permits, Pool};
use dia_edge::{MemDisk, MemSink};
use dia_item::{Kind, Kinds};
use feed_print::print_feed;
use lop_chain::{Operand, Root};
use scatter::{Feed, Home, Stock};
use std::alloc::Global;
use std::sync::Wait;
use std::test::Fail;
use text_out::OutBuffer;

/// A pool for one worker.
fn open_one(alloc: Global) -> Result<(Pool<MemDisk>, (Pass, Permits)), OpenErr>
    ensures ready { IfOk result (λ opened. IsReady (new_pool opened.0 13 4096) opened.1) }
{
    let disk = MemDisk::new(alloc, Vec::new(alloc));
    match Pool::open(alloc, disk, 53_248, LEAST_BLOCK, 1) {
        Ok((pool, shares)) => {
            let mut shares = shares;
            let share = shares.pop();
            let Some(share) = share else { unreachable!() };
            Ok((pool, share))
        }
        Err((_, refusal)) => Err(refusal),
    }
}

/// Ends a pool with one of its passes.
fn end<R: Wait>(rt: &R, pool: Pool<MemDisk>, pass: Pass, passes: Vec<Pass>) -> MemDisk
    requires own { pass.pool.turn ≡ pool }
    requires room { (passes.items ≡ []) × (0 < vec_capacity passes) }
{
    let mut passes = passes;
    passes.push_reserved(pass);
    pool.finish(rt, passes)
}

/// A feed of three numbers.
fn three_numbers(alloc: Global) -> Option<Feed>
    ensures { IfSome result (λ feed. (feed.kinds ≡ Int ∷ []) × (feed.ops ≡ []) × (feed.blocks ≡ []) × (feed.pins ≡ 0)) }
{
    let operand = Operand {
        root: Root::Count { line: 1, rows: 3 },
        last: false,
        kinds: Kinds::one(Kind::Int),
        chain: Vec::new(alloc),
    };
    let Ok(mut stock) = Stock::new(alloc, Home, 1) else {
        return None;
    };
    let Ok(mut feeds) = stock.feeds(alloc, &operand, false) else {
        return None;
    };
    feeds.pop()
}

/// Prints three numbers.
fn print_three<R: Wait>(
    rt: &R,
    alloc: Global,
    hand: &mut Hand<'_, MemDisk>,
    out: &mut MemSink,
) -> Option<bool>
    ensures pool { hand.new.pool ≡ hand.old.pool }
{
    let mut feed = three_numbers(alloc)?;
    let Ok(mut buffer) = OutBuffer::new(alloc) else {
        return None;
    };
    let printed = print_feed(rt, &mut feed, hand, &mut buffer, out).is_ok();
    let _file = feed.end(rt, hand);
    Some(printed && buffer.flush(out).is_ok())
}

#[test]
fn numbers_are_printed(rt: HostRuntime) -> Result<(), Fail> {
    let alloc = rt.alloc();
    let passes = Vec::with_capacity(alloc, 1)?;
    let (pool, (pass, permits)) = match open_one(alloc) {
        Ok(opened) => opened,
        Err(refusal) => return Err(refusal.into()),
    };
    let mut hand = Hand::new(&pool, pass, permits);
    let mut out = MemSink::new(alloc, Vec::new(alloc));
    let printed = print_three(&rt, alloc, &mut hand, &mut out);
    assert_eq!(rt; printed, Some(true));
    assert_eq!(rt; out.bytes(), b"0\n1\n2\n".as_slice());
    let (pass, _) = hand.end();
    let _disk = end(&rt, pool, pass, passes);
    Ok(())
}
