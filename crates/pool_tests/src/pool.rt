//! Pools over disks in memory, used by one hand and by four threads at once: what no clause says of them.
ghost use Rattle.std.specs.Prelude.{◌≡◌, ℕ, ◌+◌, ◌*◌, ◌/◌, ◌^◌, ◌<◌, ◌≤◌, [], All, IfOk, IfSome, vec_len, vec_capacity};
ghost use Rattle.block_pool.specs.Handles.{AreOfPool};
ghost use Rattle.block_pool.specs.Workers.{AreJobs, IsJob, IsReady, new_pool, pool_of_four};

use block_pool::{
    BlockRef, Hand, LEAST_BLOCK, MOST_BLOCK, MOST_LIMIT, OpenErr, Pass, Permits, Pool,
};
use dia_edge::{Disk, MemDisk};
use std::alloc::Global;
use std::marker::Model;
use std::sync::Wait;
use std::test::Fail;
use std::thread::{Threads, join};

/// A worker's share, blocks, and a number: that of the first block, or how many pins showed what was sealed.
#[derive(Drop)]
struct Job {
    pass: Pass,
    permits: Permits,
    blocks: Vec<BlockRef>,
    number: u64,
}

impl Model for Job {
    ghost use Rattle.block_pool.specs.Workers.{JobValue};

    ghost Value = { JobValue };

    ghost view = { λ job. record { pass = job.pass; permits = job.permits; blocks = job.blocks.items } };
}

/// A pool for one worker.
fn open_one(
    alloc: Global,
    limit: u64,
    block: u32,
) -> Result<(Pool<MemDisk>, (Pass, Permits)), OpenErr>
    requires limit { limit ≤ MOST_LIMIT }
    requires block { (LEAST_BLOCK ≤ block) × (block ≤ MOST_BLOCK) }
    ensures ready { IfOk result (λ opened. IsReady (new_pool opened.0 (limit / block) block) opened.1) }
{
    let disk = MemDisk::new(alloc, Vec::new(alloc));
    match Pool::open(alloc, disk, limit, block, 1) {
        Ok((pool, shares)) => {
            let mut shares = shares;
            let share = shares.pop();
            let Some(share) = share else { unreachable!() };
            Ok((pool, share))
        }
        Err((_, refusal)) => Err(refusal),
    }
}

/// Ends a pool with one of its passes.
fn end<R: Wait>(rt: &R, pool: Pool<MemDisk>, pass: Pass, passes: Vec<Pass>) -> MemDisk
    requires own { pass.pool.turn ≡ pool }
    requires room { (passes.items ≡ []) × (0 < vec_capacity passes) }
{
    let mut passes = passes;
    passes.push_reserved(pass);
    pool.finish(rt, passes)
}

/// A new block that has this number.
fn seal_number<R: Wait>(rt: &R, hand: &mut Hand<'_, MemDisk>, n: u64) -> Option<BlockRef>
    requires permit { 0 < hand.old.permits }
    requires block { LEAST_BLOCK ≤ hand.old.pool.opening.block }
    ensures same { (hand.new.pool ≡ hand.old.pool) × (hand.new.permits ≡ hand.old.permits) }
    ensures block { IfSome result (λ block. block.pool ≡ hand.old.pool) }
{
    let Ok(mut frame) = hand.frame(rt) else {
        return None;
    };
    frame.put(&n.to_le_bytes());
    match hand.seal(rt, frame) {
        Ok(block) => Some(block),
        Err((frame, _)) => {
            hand.give_back(rt, frame);
            None
        }
    }
}

/// Whether a pin of the block shows this number. The block is back in the pool.
fn shows_number<R: Wait>(
    rt: &R,
    hand: &mut Hand<'_, MemDisk>,
    block: BlockRef,
    n: u64,
) -> (BlockRef, bool)
    requires own { block.pool ≡ hand.old.pool }
    requires permit { 0 < hand.old.permits }
    ensures same { (hand.new.pool ≡ hand.old.pool) × (hand.new.permits ≡ hand.old.permits) }
    ensures block { result.0.pool ≡ hand.old.pool }
{
    match hand.pin(rt, block) {
        Ok(pinned) => {
            let shows = pinned.bytes().starts_with(&n.to_le_bytes());
            (hand.unpin(rt, pinned), shows)
        }
        Err((block, _)) => (block, false),
    }
}

/// Seals 10,000 blocks, and pins and frees each but every tenth, which is kept.
fn fill<R: Wait>(rt: &R, pool: &Pool<MemDisk>, job: Job) -> Job
    requires job { IsJob (pool_of_four pool.now) job }
    ensures job { IsJob (pool_of_four pool.now) result }
{
    let Job {
        pass,
        permits,
        mut blocks,
        number: first,
    } = job;
    let mut hand = Hand::new(pool, pass, permits);
    let mut right = 0u64;
    for n in 0..10_000u64 {
        let number = first.wrapping_add(n);
        let Some(block) = seal_number(rt, &mut hand, number) else {
            continue;
        };
        if n % 10 == 0 {
            let _ = blocks.push(block);
            continue;
        }
        let (block, shows) = shows_number(rt, &mut hand, block, number);
        hand.free(rt, block);
        right = right.wrapping_add(shows as u64);
    }
    let (pass, permits) = hand.end();
    Job {
        pass,
        permits,
        blocks,
        number: right,
    }
}

/// Pins and frees the blocks, whose numbers go up by ten.
fn drain<R: Wait>(rt: &R, alloc: Global, pool: &Pool<MemDisk>, job: Job) -> Job
    requires job { IsJob (pool_of_four pool.now) job }
    ensures job { IsJob (pool_of_four pool.now) result }
{
    let Job {
        pass,
        permits,
        blocks,
        mut number,
    } = job;
    let mut hand = Hand::new(pool, pass, permits);
    let mut right = 0u64;
    for block in blocks {
        let (block, shows) = shows_number(rt, &mut hand, block, number);
        hand.free(rt, block);
        number = number.wrapping_add(10);
        right = right.wrapping_add(shows as u64);
    }
    let (pass, permits) = hand.end();
    Job {
        pass,
        permits,
        blocks: Vec::new(alloc),
        number: right,
    }
}

/// Drains the blocks of a job, or where it has none fills it.
fn work<R: Wait>(rt: &R, alloc: Global, pool: &Pool<MemDisk>, job: Job) -> Job
    requires job { IsJob (pool_of_four pool.now) job }
    ensures job { IsJob (pool_of_four pool.now) result }
{
    if job.blocks.is_empty() {
        return fill(rt, pool, job);
    }
    drain(rt, alloc, pool, job)
}

fn work_by_two<R: Threads + Wait + Sync>(
    rt: &R,
    alloc: Global,
    pool: &Pool<MemDisk>,
    jobs: (Job, Job),
) -> (Job, Job)
    requires jobs { AreJobs (pool_of_four pool.now) jobs }
    ensures jobs { AreJobs (pool_of_four pool.now) result }
{
    let (one, two) = jobs;
    join(
        rt,
        move || -> Job
            requires { IsJob (pool_of_four pool.now) one }
            ensures { IsJob (pool_of_four pool.entry.now) result }
        { work(rt, alloc, pool, one) },
        move || -> Job
            requires { IsJob (pool_of_four pool.now) two }
            ensures { IsJob (pool_of_four pool.entry.now) result }
        { work(rt, alloc, pool, two) },
    )
}

fn work_by_four<R: Threads + Wait + Sync>(
    rt: &R,
    alloc: Global,
    pool: &Pool<MemDisk>,
    left: (Job, Job),
    right: (Job, Job),
) -> ((Job, Job), (Job, Job))
    requires left { AreJobs (pool_of_four pool.now) left }
    requires right { AreJobs (pool_of_four pool.now) right }
    ensures left { AreJobs (pool_of_four pool.now) result.0 }
    ensures right { AreJobs (pool_of_four pool.now) result.1 }
{
    join(
        rt,
        move || -> (Job, Job)
            requires { AreJobs (pool_of_four pool.now) left }
            ensures { AreJobs (pool_of_four pool.entry.now) result }
        { work_by_two(rt, alloc, pool, left) },
        move || -> (Job, Job)
            requires { AreJobs (pool_of_four pool.now) right }
            ensures { AreJobs (pool_of_four pool.entry.now) result }
        { work_by_two(rt, alloc, pool, right) },
    )
}

/// Why no pool for one worker opens, if none does.
fn refusal<R: Wait>(rt: &R, alloc: Global, limit: u64, block: u32) -> Option<OpenErr>
    requires limit { limit ≤ MOST_LIMIT }
    requires block { (LEAST_BLOCK ≤ block) × (block ≤ MOST_BLOCK) }
{
    let Ok(passes) = Vec::with_capacity(alloc, 1) else {
        return Some(OpenErr::NoMemory);
    };
    match open_one(alloc, limit, block) {
        Ok((pool, (pass, _))) => {
            let _disk = end(rt, pool, pass, passes);
            None
        }
        Err(refusal) => Some(refusal),
    }
}

#[test]
fn a_pool_opens_from_its_need_on(rt: HostRuntime) -> Result<(), Fail> {
    let alloc = rt.alloc();
    let few = refusal(&rt, alloc, 425_983, 32_768);
    assert_eq!(rt;
        few,
        Some(OpenErr::TooSmall {
            frames: 12,
            need: 13
        })
    );
    assert_eq!(rt; refusal(&rt, alloc, 425_984, 32_768), None);
    let most = refusal(&rt, alloc, MOST_LIMIT, MOST_BLOCK);
    assert!(rt; most.is_none() || most == Some(OpenErr::NoMemory));
    let small = refusal(&rt, alloc, MOST_LIMIT, LEAST_BLOCK);
    assert!(rt; small.is_none() || small == Some(OpenErr::NoMemory));
    Ok(())
}

/// One hundred blocks, one after the other.
#[test]
fn freed_blocks_leave_their_frames(rt: HostRuntime) -> Result<(), Fail> {
    let alloc = rt.alloc();
    let passes = Vec::with_capacity(alloc, 1)?;
    let (pool, (pass, permits)) = match open_one(alloc, 425_984, 32_768) {
        Ok(opened) => opened,
        Err(refusal) => return Err(refusal.into()),
    };
    let mut hand = Hand::new(&pool, pass, permits);
    for n in 0..100u64 {
        match seal_number(&rt, &mut hand, n) {
            Some(block) => hand.free(&rt, block),
            None => panic!(&rt; "not sealed"),
        }
    }
    let (pass, _) = hand.end();
    let disk = end(&rt, pool, pass, passes);
    assert_eq!(rt; disk.write_count(), 0);
    Ok(())
}

/// Seals 40 blocks through 13 frames, pins and weighs them, and answers the hand with them.
fn spill<'p, R: Wait>(
    rt: &R,
    alloc: Global,
    hand: &mut Hand<'p, MemDisk>,
    room: Vec<BlockRef>,
) -> Option<Vec<BlockRef>>
    requires permit { 0 < hand.old.permits }
    requires block { LEAST_BLOCK ≤ hand.old.pool.opening.block }
    requires room { (vec_len room ≡ 0) × (40 ≤ vec_capacity room) }
    ensures same { (hand.new.pool ≡ hand.old.pool) × (hand.new.permits ≡ hand.old.permits) }
    ensures own { IfSome result (λ blocks. AreOfPool hand.old.pool blocks.items) }
{
    let mut blocks = room;
    for n in 0..40u64 {
        blocks.push_reserved(seal_number(rt, hand, n)?);
    }
    hand.weigh(rt, alloc, blocks).ok()
}

#[test]
fn spilled_blocks_are_shown(rt: HostRuntime) -> Result<(), Fail> {
    let alloc = rt.alloc();
    let passes = Vec::with_capacity(alloc, 1)?;
    let room = Vec::with_capacity(alloc, 40)?;
    let (pool, (pass, permits)) = match open_one(alloc, 53_248, 4096) {
        Ok(opened) => opened,
        Err(refusal) => return Err(refusal.into()),
    };
    let mut hand = Hand::new(&pool, pass, permits);
    let Some(blocks) = spill(&rt, alloc, &mut hand, room) else {
        panic!(&rt; "not sealed or not weighed");
    };
    let mut number = 0u64;
    for block in blocks {
        let (block, shows) = shows_number(&rt, &mut hand, block, number);
        assert!(rt; shows, "block {number}");
        hand.free(&rt, block);
        number = number.wrapping_add(1);
    }
    assert_eq!(rt; (number, hand.permits()), (40, 13));
    let (pass, _) = hand.end();
    let disk = end(&rt, pool, pass, passes);
    // 27 blocks were spilled as they were sealed, and no more than one went out anew.
    assert!(rt; disk.write_count() >= 27 && disk.write_count() <= 28);
    Ok(())
}

/// A pool of the least size for four workers.
fn open_four(alloc: Global) -> Result<(Pool<MemDisk>, Vec<(Pass, Permits)>), OpenErr>
    ensures ready { IfOk result (λ opened. All (IsReady (pool_of_four opened.0)) opened.1.items) }
    ensures count { IfOk result (λ opened. vec_len opened.1 ≡ 4) }
{
    let disk = MemDisk::new(alloc, Vec::new(alloc));
    match Pool::open(alloc, disk, 262_144, 4096, 4) {
        Ok(opened) => Ok(opened),
        Err((_, refusal)) => Err(refusal),
    }
}

/// A job for the next worker.
fn next_job(
    alloc: Global,
    pool: &Pool<MemDisk>,
    shares: &mut Vec<(Pass, Permits)>,
    first: u64,
) -> Job
    requires ready { All (IsReady (pool_of_four pool.now)) shares.old.items }
    requires some { 0 < vec_len shares.old }
    ensures rest { All (IsReady (pool_of_four pool.now)) shares.new.items }
    ensures count { vec_len shares.new + 1 ≡ vec_len shares.old }
    ensures job { IsJob (pool_of_four pool.now) result }
{
    let _ = pool;
    let share = shares.pop();
    let Some((pass, permits)) = share else {
        unreachable!()
    };
    Job {
        pass,
        permits,
        blocks: Vec::new(alloc),
        number: first,
    }
}

fn numbers(left: &(Job, Job), right: &(Job, Job)) -> [u64; 4] {
    [left.0.number, left.1.number, right.0.number, right.1.number]
}

/// Each worker has the blocks that the one before it kept, the first of which has its first number.
fn each_to_the_next(
    pool: &Pool<MemDisk>,
    left: (Job, Job),
    right: (Job, Job),
) -> ((Job, Job), (Job, Job))
    requires left { AreJobs (pool_of_four pool.now) left }
    requires right { AreJobs (pool_of_four pool.now) right }
    ensures left { AreJobs (pool_of_four pool.now) result.0 }
    ensures right { AreJobs (pool_of_four pool.now) result.1 }
{
    let _ = pool;
    let (one, two) = left;
    let (three, four) = right;
    (
        (
            Job {
                pass: one.pass,
                permits: one.permits,
                blocks: four.blocks,
                number: 30_000,
            },
            Job {
                pass: two.pass,
                permits: two.permits,
                blocks: one.blocks,
                number: 0,
            },
        ),
        (
            Job {
                pass: three.pass,
                permits: three.permits,
                blocks: two.blocks,
                number: 10_000,
            },
            Job {
                pass: four.pass,
                permits: four.permits,
                blocks: three.blocks,
                number: 20_000,
            },
        ),
    )
}

#[test]
fn each_pin_shows_what_was_sealed(rt: HostRuntime) -> Result<(), Fail> {
    let alloc = rt.alloc();
    let passes = Vec::with_capacity(alloc, 1)?;
    let (pool, mut shares) = match open_four(alloc) {
        Ok(opened) => opened,
        Err(refusal) => return Err(refusal.into()),
    };
    let one = next_job(alloc, &pool, &mut shares, 0);
    let two = next_job(alloc, &pool, &mut shares, 10_000);
    let three = next_job(alloc, &pool, &mut shares, 20_000);
    let four = next_job(alloc, &pool, &mut shares, 30_000);
    let (left, right) = work_by_four(&rt, alloc, &pool, (one, two), (three, four));
    assert_eq!(rt; numbers(&left, &right), [9000; 4]);
    let (left, right) = each_to_the_next(&pool, left, right);
    let (left, right) = work_by_four(&rt, alloc, &pool, left, right);
    assert_eq!(rt; numbers(&left, &right), [1000; 4]);
    let (one, _) = left;
    let disk = end(&rt, pool, one.pass, passes);
    assert_eq!(rt; disk.fault_count(), 0);
    Ok(())
}
