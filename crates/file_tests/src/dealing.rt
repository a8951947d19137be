//! A scatter over a mail and a pool with a disk in memory.
ghost use Rattle.std.specs.Prelude.{◌≡◌, ◌<◌, ◌≤◌, ◌^◌, ◌∷◌, [], ℕ, length, vec_capacity, IfOk};
ghost use Rattle.row_defs.specs.declared.kind.Kind.TheVariants.{Int};
ghost use Rattle.row_defs.specs.Rows.{kinds_of};
ghost use Rattle.dia_item.specs.Lent.{row_in_ref};
ghost use Rattle.exchange.specs.Dealing.{sent_to};
ghost use Rattle.exchange.specs.Limits.{most_begun};
ghost use Rattle.block_pool.specs.Workers.{IsReady, new_pool};

use block_pool::{Hand, LEAST_BLOCK, OpenErr, Pass, Permits, Pool};
use dia_edge::MemDisk;
use dia_item::{Kind, Kinds, RowBuf, RowRef};
use exchange::Scatter;
use lop_chain::RowSink;
use multiplexer::{Mail, Post};
use std::alloc::Global;
use std::sync::Wait;
use std::test::Fail;

/// A pool for one worker.
fn open_one(alloc: Global) -> Result<(Pool<MemDisk>, (Pass, Permits)), OpenErr>
    ensures ready { IfOk result (λ opened. IsReady (new_pool opened.0 13 4096) opened.1) }
{
    let disk = MemDisk::new(alloc, Vec::new(alloc));
    match Pool::open(alloc, disk, 53_248, LEAST_BLOCK, 1) {
        Ok((pool, shares)) => {
            let mut shares = shares;
            let share = shares.pop();
            let Some(share) = share else { unreachable!() };
            Ok((pool, share))
        }
        Err((_, refusal)) => Err(refusal),
    }
}

/// Ends a pool with one of its passes.
fn end<R: Wait>(rt: &R, pool: Pool<MemDisk>, pass: Pass, passes: Vec<Pass>) -> MemDisk
    requires own { pass.pool.turn ≡ pool }
    requires room { (passes.items ≡ []) × (0 < vec_capacity passes) }
{
    let mut passes = passes;
    passes.push_reserved(pass);
    pool.finish(rt, passes)
}

/// Deals one row out to the only worker there is.
fn deal_one<R: Wait, P: Post + Drop>(
    rt: &R,
    alloc: Global,
    hand: &mut Hand<'_, MemDisk>,
    post: P,
    row: RowRef<'_>,
) -> Option<P>
    requires post { (P.workers post ≡ 1) × (length (P.sent post) ≡ 1) × ((w : ℕ) → length (sent_to (P.sent post) w) < most_begun) }
    requires kinds { kinds_of (row_in_ref row) ≡ Int ∷ [] }
    requires permit { 0 < hand.old.permits }
    requires block { LEAST_BLOCK ≤ hand.old.pool.opening.block }
    ensures pool { hand.new.pool ≡ hand.old.pool }
{
    let route = |_row: RowRef<'_>, _taken: u64| -> u32
        ensures { result ≡ 0 }
    { 0 };
    let Ok(mut scatter) = Scatter::new(alloc, Kinds::one(Kind::Int), 1, route, post) else {
        return None;
    };
    if scatter.take(rt, hand, row).is_err() {
        return None;
    }
    scatter.finish(rt, hand).ok()
}

/// The number of a packet that was sent, as it was dealt out.
fn exchange_one<R: Wait>(rt: &R, alloc: Global, hand: &mut Hand<'_, MemDisk>) -> Option<u64>
    requires permit { 0 < hand.old.permits }
    requires block { LEAST_BLOCK ≤ hand.old.pool.opening.block }
    ensures pool { hand.new.pool ≡ hand.old.pool }
{
    let mut room = RowBuf::new(alloc).ok()?;
    room.push_int(7);
    let Ok(mut mail) = Mail::open(alloc, 1) else {
        return None;
    };
    let Ok((mut sends, mut recvs)) = mail.ends(alloc) else {
        return None;
    };
    let end = sends.pop()?;
    let _sent = deal_one(rt, alloc, hand, end, room.row())?;
    let mut recv = recvs.pop()?;
    let packet = recv.take(rt)?;
    Some(packet.seq)
}

#[test]
fn a_row_is_sent(rt: HostRuntime) -> Result<(), Fail> {
    let alloc = rt.alloc();
    let passes = Vec::with_capacity(alloc, 1)?;
    let (pool, (pass, permits)) = match open_one(alloc) {
        Ok(opened) => opened,
        Err(refusal) => return Err(refusal.into()),
    };
    let mut hand = Hand::new(&pool, pass, permits);
    let seq = exchange_one(&rt, alloc, &mut hand);
    assert_eq!(rt; seq, Some(0));
    let (pass, _) = hand.end();
    let _disk = end(&rt, pool, pass, passes);
    Ok(())
}
