//! Readers by rank over a pool with a disk in memory: the order of the rows.
ghost use Rattle.std.specs.Prelude.{◌≡◌, ◌+◌, ◌/◌, ◌^◌, ◌<◌, ◌≤◌, [], IfOk, IfSome, length, vec_capacity};
ghost use Rattle.block_pool.specs.Handles.{AreOfPool};
ghost use Rattle.block_pool.specs.Workers.{IsReady, new_pool};
ghost use Rattle.mix_stream.specs.Packets.{blocks_in};

use block_pool::{BlockRef, Hand, OpenErr, Pass, Permits, Pool};
use cat_stream::CatReader;
use dia_edge::MemDisk;
use dia_item::{Field, Kind, Kinds};
use multiplexer::{Inbox, Packet};
use std::alloc::Global;
use std::sync::Wait;
use std::test::Fail;

/// A pool for one worker.
fn open_one(alloc: Global, limit: u64) -> Result<(Pool<MemDisk>, (Pass, Permits)), OpenErr>
    requires limit { limit ≤ 2 ^ 40 }
    ensures ready { IfOk result (λ opened. IsReady (new_pool opened.0 (limit / 4096) 4096) opened.1) }
{
    let disk = MemDisk::new(alloc, Vec::new(alloc));
    match Pool::open(alloc, disk, limit, 4096, 1) {
        Ok((pool, shares)) => {
            let mut shares = shares;
            let share = shares.pop();
            let Some(share) = share else { unreachable!() };
            Ok((pool, share))
        }
        Err((_, refusal)) => Err(refusal),
    }
}

/// Ends a pool with one of its passes.
fn end<R: Wait>(rt: &R, pool: Pool<MemDisk>, pass: Pass, passes: Vec<Pass>) -> MemDisk
    requires own { pass.pool.turn ≡ pool }
    requires room { (passes.items ≡ []) × (0 < vec_capacity passes) }
{
    let mut passes = passes;
    passes.push_reserved(pass);
    pool.finish(rt, passes)
}

/// A new block that is the row of this number.
fn seal<R: Wait>(rt: &R, hand: &mut Hand<'_, MemDisk>, number: u64) -> Option<BlockRef>
    requires permit { 0 < hand.old.permits }
    requires block { hand.old.pool.opening.block ≡ 4096 }
    ensures same { (hand.new.pool ≡ hand.old.pool) × (hand.new.permits ≡ hand.old.permits) }
    ensures block { IfSome result (λ block. block.pool ≡ hand.old.pool) }
{
    let Ok(mut frame) = hand.frame(rt) else {
        return None;
    };
    frame.put(&number.to_le_bytes());
    match hand.seal(rt, frame) {
        Ok(block) => Some(block),
        Err((frame, _)) => {
            hand.give_back(rt, frame);
            None
        }
    }
}

/// Packets by their senders, their numbers and their rows.
fn seal_all<R: Wait>(
    rt: &R,
    alloc: Global,
    hand: &mut Hand<'_, MemDisk>,
    pieces: &[(u32, u64, u64)],
) -> Option<Inbox>
    requires permit { 0 < hand.old.permits }
    requires block { hand.old.pool.opening.block ≡ 4096 }
    ensures same { (hand.new.pool ≡ hand.old.pool) × (hand.new.permits ≡ hand.old.permits) }
    ensures own { IfSome result (λ inbox. AreOfPool hand.old.pool (blocks_in inbox.packets.items)) }
{
    let mut packets = Vec::new(alloc);
    for piece in pieces.iter() {
        let (from, seq, number) = *piece;
        let block = seal(rt, hand, number)?;
        packets.push(Packet { from, seq, block }).ok()?;
    }
    Some(Inbox { packets })
}

/// The numbers of all rows, in their order.
fn read_all<R: Wait>(
    rt: &R,
    alloc: Global,
    hand: &mut Hand<'_, MemDisk>,
    inbox: Inbox,
) -> Option<Vec<u64>>
    requires permit { 0 < hand.old.permits }
    requires own { AreOfPool hand.old.pool (blocks_in inbox.packets.items) }
    ensures pool { hand.new.pool ≡ hand.old.pool }
{
    let mut numbers = Vec::new(alloc);
    let Ok(mut reader) = CatReader::of(inbox, Kinds::one(Kind::Int)) else {
        return None;
    };
    for _ in 0..100u32 {
        match reader.next(rt, hand) {
            Ok(Some(row)) => {
                if row.columns() > 0 {
                    if let Field::Int(number) = row.field(0) {
                        numbers.push(number).ok()?;
                    }
                }
            }
            Ok(None) => break,
            Err(_) => return None,
        }
    }
    reader.end(rt, hand);
    Some(numbers)
}

/// What a reader gives of these packets.
fn read_pieces<R: Wait>(rt: &R, alloc: Global, pieces: &[(u32, u64, u64)]) -> Option<Vec<u64>> {
    let passes = Vec::with_capacity(alloc, 1).ok()?;
    let (pool, (pass, permits)) = open_one(alloc, 53_248).ok()?;
    let mut hand = Hand::new(&pool, pass, permits);
    let numbers = match seal_all(rt, alloc, &mut hand, pieces) {
        Some(inbox) => read_all(rt, alloc, &mut hand, inbox),
        None => None,
    };
    let (pass, _) = hand.end();
    let _disk = end(rt, pool, pass, passes);
    numbers
}

#[test]
fn rows_come_by_rank(rt: HostRuntime) -> Result<(), Fail> {
    let alloc = rt.alloc();
    let numbers = read_pieces(&rt, alloc, &[(1, 0, 3), (0, 0, 1), (0, 1, 2)]);
    assert_eq!(rt; numbers, Some(vec![in alloc; 1, 2, 3]?));
    Ok(())
}
