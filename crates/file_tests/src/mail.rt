//! Mail between workers, over a pool with a disk in memory: what no clause says of it.
ghost use Rattle.std.specs.Prelude.{◌≡◌, ◌<◌, [], All, IfOk, vec_len, vec_capacity};
ghost use Rattle.block_pool.specs.Workers.{IsReady};
ghost use Rattle.file_tests.specs.Workers.{pool_of_five};

mod exchanging;
mod reading;
mod row;
mod working;

use block_pool::{Hand, OpenErr, Pass, Permits, Pool};
use dia_edge::MemDisk;
use exchanging::exchange;
use reading::{counts, names};
use row::exchange_three;
use std::alloc::Global;
use std::sync::Wait;
use std::test::Fail;

/// A pool with room for four workers and one more, whose pass ends it.
fn open_five(alloc: Global) -> Result<(Pool<MemDisk>, Vec<(Pass, Permits)>), OpenErr>
    ensures ready { IfOk result (λ opened. All (IsReady (pool_of_five opened.0)) opened.1.items) }
    ensures count { IfOk result (λ opened. vec_len opened.1 ≡ 5) }
{
    let disk = MemDisk::new(alloc, Vec::new(alloc));
    match Pool::open(alloc, disk, 1_048_576, 4096, 5) {
        Ok(opened) => Ok(opened),
        Err((_, refusal)) => Err(refusal),
    }
}

/// Ends a pool with one of its passes.
fn end<R: Wait>(rt: &R, pool: Pool<MemDisk>, pass: Pass, passes: Vec<Pass>) -> MemDisk
    requires own { pass.pool.turn ≡ pool }
    requires room { (passes.items ≡ []) × (0 < vec_capacity passes) }
{
    let mut passes = passes;
    passes.push_reserved(pass);
    pool.finish(rt, passes)
}

#[test]
fn packets_come_in_their_order(rt: HostRuntime) -> Result<(), Fail> {
    let alloc = rt.alloc();
    let passes = Vec::with_capacity(alloc, 1)?;
    let (pool, mut shares) = match open_five(alloc) {
        Ok(opened) => opened,
        Err(refusal) => return Err(refusal.into()),
    };
    let Some(share) = shares.pop() else {
        unreachable!()
    };
    let (pass, permits) = share;
    let mut hand = Hand::new(&pool, pass, permits);
    let outcome = exchange_three(&rt, alloc, &mut hand);
    let (pass, _) = hand.end();
    let _disk = end(&rt, pool, pass, passes);
    match outcome {
        Some((none, inbox)) => {
            let names = names(alloc, &inbox)?;
            assert_eq!(rt; names.as_slice(), [(1, 0), (0, 0), (0, 1)].as_slice());
            assert_eq!(rt; none.packets.len(), 0);
        }
        None => panic!(&rt; "not sent or not taken"),
    }
    Ok(())
}

/// Each of four workers sends 10,000 packets to each.
#[test]
fn packets_of_four_threads_come_once_and_in_order(rt: HostRuntime) -> Result<(), Fail> {
    let alloc = rt.alloc();
    let passes = Vec::with_capacity(alloc, 1)?;
    let (pool, mut shares) = match open_five(alloc) {
        Ok(opened) => opened,
        Err(refusal) => return Err(refusal.into()),
    };
    let Some(share) = shares.pop() else {
        unreachable!()
    };
    let (pass, _) = share;
    let outcome = exchange(&rt, alloc, &pool, shares, 40_000);
    let _disk = end(&rt, pool, pass, passes);
    let boxes = outcome?;
    assert_eq!(rt; boxes.len(), 4);
    for inbox in boxes.iter() {
        assert_eq!(rt; counts(inbox), Some([10_000; 4]));
    }
    Ok(())
}
