//! Readers over a pool with a disk in memory: what no clause says of them.
ghost use Rattle.std.specs.Prelude.{◌≡◌, ◌+◌, ◌/◌, ◌^◌, ◌<◌, ◌≤◌, [], IfOk, IfSome, length, vec_capacity};
ghost use Rattle.block_pool.specs.Handles.{AreOfPool};
ghost use Rattle.block_pool.specs.Workers.{IsReady, new_pool};
ghost use Rattle.mix_stream.specs.Packets.{blocks_in};
ghost use Rattle.mix_stream.specs.Reading.{blocks_of, pins};

use block_pool::{BlockRef, Hand, OpenErr, Pass, Permits, PinErr, Pool};
use dia_edge::MemDisk;
use dia_item::{Field, Kind, Kinds, RowBuf, RowRef};
use mix_stream::MixReader;
use multiplexer::{Inbox, Packet};
use std::alloc::Global;
use std::sync::Wait;
use std::test::Fail;

/// What the packets of a case hold: the sender, the number, and the bytes of each.
type Piece<'a> = (u32, u64, &'a [u8]);

/// The rows that a reader gave, by their number or by the first byte and the length of their text, how many faults of the
/// disk it answered, and whether it found damage.
#[derive(Drop, Debug, PartialEq, Eq)]
struct Given {
    rows: Vec<(u64, usize)>,
    faults: u32,
    damaged: bool,
}

/// A pool for one worker, over a disk whose calls of these numbers fail.
fn open_one(
    alloc: Global,
    limit: u64,
    fail: Vec<u64>,
) -> Result<(Pool<MemDisk>, (Pass, Permits)), OpenErr>
    requires limit { limit ≤ 2 ^ 40 }
    ensures ready { IfOk result (λ opened. IsReady (new_pool opened.0 (limit / 4096) 4096) opened.1) }
{
    let disk = MemDisk::new(alloc, fail);
    match Pool::open(alloc, disk, limit, 4096, 1) {
        Ok((pool, shares)) => {
            let mut shares = shares;
            let share = shares.pop();
            let Some(share) = share else { unreachable!() };
            Ok((pool, share))
        }
        Err((_, refusal)) => Err(refusal),
    }
}

/// Ends a pool with one of its passes.
fn end<R: Wait>(rt: &R, pool: Pool<MemDisk>, pass: Pass, passes: Vec<Pass>) -> MemDisk
    requires own { pass.pool.turn ≡ pool }
    requires room { (passes.items ≡ []) × (0 < vec_capacity passes) }
{
    let mut passes = passes;
    passes.push_reserved(pass);
    pool.finish(rt, passes)
}

/// A new block that has these bytes.
fn seal<R: Wait>(rt: &R, hand: &mut Hand<'_, MemDisk>, bytes: &[u8]) -> Option<BlockRef>
    requires permit { 0 < hand.old.permits }
    requires block { hand.old.pool.opening.block ≡ 4096 }
    ensures same { (hand.new.pool ≡ hand.old.pool) × (hand.new.permits ≡ hand.old.permits) }
    ensures block { IfSome result (λ block. block.pool ≡ hand.old.pool) }
{
    if bytes.len() > 4096 {
        return None;
    }
    let Ok(mut frame) = hand.frame(rt) else {
        return None;
    };
    frame.put(bytes);
    match hand.seal(rt, frame) {
        Ok(block) => Some(block),
        Err((frame, _)) => {
            hand.give_back(rt, frame);
            None
        }
    }
}

/// Packets of these pieces.
fn seal_all<R: Wait>(
    rt: &R,
    alloc: Global,
    hand: &mut Hand<'_, MemDisk>,
    pieces: &[Piece<'_>],
) -> Option<Inbox>
    requires permit { 0 < hand.old.permits }
    requires block { hand.old.pool.opening.block ≡ 4096 }
    ensures same { (hand.new.pool ≡ hand.old.pool) × (hand.new.permits ≡ hand.old.permits) }
    ensures own { IfSome result (λ inbox. AreOfPool hand.old.pool (blocks_in inbox.packets.items)) }
{
    let mut packets = Vec::new(alloc);
    for piece in pieces.iter() {
        let (from, seq, bytes) = *piece;
        let block = seal(rt, hand, bytes)?;
        packets.push(Packet { from, seq, block }).ok()?;
    }
    Some(Inbox { packets })
}

/// The row's number, or the first byte and the length of its text.
fn summary(row: RowRef<'_>) -> (u64, usize) {
    if row.columns() == 0 {
        return (0, 0);
    }
    match row.field(0) {
        Field::Int(n) => (n, 8),
        Field::Text(text) => (text.first().map_or(0, |byte| *byte as u64), text.len()),
    }
}

/// Reads to the end, or to the first damage.
fn read_all<R: Wait>(
    rt: &R,
    alloc: Global,
    hand: &mut Hand<'_, MemDisk>,
    inbox: Inbox,
    kinds: Kinds,
) -> Option<Given>
    requires permit { 0 < hand.old.permits }
    requires own { AreOfPool hand.old.pool (blocks_in inbox.packets.items) }
    ensures pool { hand.new.pool ≡ hand.old.pool }
{
    let mut given = Given {
        rows: Vec::new(alloc),
        faults: 0,
        damaged: false,
    };
    let mut reader = MixReader::of(inbox, kinds);
    for _ in 0..1000u32 {
        match reader.next(rt, hand) {
            Ok(Some(row)) => given.rows.push(summary(row)).ok()?,
            Ok(None) => break,
            Err(PinErr::Disk { .. }) => given.faults = given.faults.wrapping_add(1),
            Err(_) => {
                given.damaged = true;
                break;
            }
        }
    }
    reader.end(rt, hand);
    Some(given)
}

/// What a reader gives of packets of these pieces, over a pool of 13 frames whose disk fails at some calls.
fn read_pieces<R: Wait>(
    rt: &R,
    alloc: Global,
    fail: Vec<u64>,
    pieces: &[Piece<'_>],
    kinds: Kinds,
) -> Option<Given> {
    let passes = Vec::with_capacity(alloc, 1).ok()?;
    let (pool, (pass, permits)) = open_one(alloc, 53_248, fail).ok()?;
    let mut hand = Hand::new(&pool, pass, permits);
    let given = match seal_all(rt, alloc, &mut hand, pieces) {
        Some(inbox) => read_all(rt, alloc, &mut hand, inbox, kinds),
        None => None,
    };
    let (pass, _) = hand.end();
    let _disk = end(rt, pool, pass, passes);
    given
}

#[test]
fn rows_come_in_the_order_of_the_packets(rt: HostRuntime) -> Result<(), Fail> {
    let alloc = rt.alloc();
    let (x, y, z) = (1u64.to_le_bytes(), 2u64.to_le_bytes(), 3u64.to_le_bytes());
    let pieces: [Piece<'_>; 3] = [(1, 0, &z), (0, 0, &x), (0, 1, &y)];
    let given = read_pieces(&rt, alloc, Vec::new(alloc), &pieces, Kinds::one(Kind::Int));
    let rows = vec![in alloc; (3, 8), (1, 8), (2, 8)]?;
    let wanted = Given {
        rows,
        faults: 0,
        damaged: false,
    };
    assert_eq!(rt; given, Some(wanted));
    Ok(())
}

/// Sender 0's row begins first, and goes on behind a packet of sender 1, whose own row is cut off.
#[test]
fn a_row_is_given_whole_and_one_cut_off_is_damaged(rt: HostRuntime) -> Result<(), Fail> {
    let alloc = rt.alloc();
    let pieces: [Piece<'_>; 3] = [
        (0, 0, &[7, 0, 0]),
        (1, 0, &[9, 0, 0, 0, 0]),
        (0, 1, &[0, 0, 0, 0, 0, 8, 0, 0, 0, 0, 0, 0, 0]),
    ];
    let given = read_pieces(&rt, alloc, Vec::new(alloc), &pieces, Kinds::one(Kind::Int));
    let rows = vec![in alloc; (7, 8), (8, 8)]?;
    let wanted = Given {
        rows,
        faults: 0,
        damaged: true,
    };
    assert_eq!(rt; given, Some(wanted));
    Ok(())
}

/// The bytes of two rows of one text of 60,000 bytes each.
fn two_texts(alloc: Global, first: u8, second: u8) -> Option<Vec<u8>> {
    let mut bytes = Vec::new(alloc);
    for letter in [first, second] {
        let mut text = Vec::new(alloc);
        text.resize(60_000, letter).ok()?;
        bytes.extend_from_slice(&60_000u32.to_le_bytes()).ok()?;
        bytes.extend_from_slice(&text).ok()?;
    }
    Some(bytes)
}

/// Two rows of each of three senders in blocks of 4,096 bytes, a block of each in turn, with a disk of which one call fails.
#[test]
fn long_rows_of_three_senders_come_whole(rt: HostRuntime) -> Result<(), Fail> {
    let alloc = rt.alloc();
    let (Some(first), Some(second), Some(third)) = (
        two_texts(alloc, 1, 2),
        two_texts(alloc, 3, 4),
        two_texts(alloc, 5, 6),
    ) else {
        panic!(&rt; "no memory");
    };
    let mut pieces = Vec::new(alloc);
    let blocks = first
        .chunks(4096)
        .zip(second.chunks(4096))
        .zip(third.chunks(4096));
    let mut seq = 0u64;
    for ((one, two), three) in blocks {
        pieces.push((0, seq, one))?;
        pieces.push((1, seq, two))?;
        pieces.push((2, seq, three))?;
        seq = seq.wrapping_add(1);
    }
    let fail = vec![in alloc; 100]?;
    let given = read_pieces(&rt, alloc, fail, &pieces, Kinds::one(Kind::Text));
    let rows = vec![in alloc;
        (1, 60_000),
        (2, 60_000),
        (3, 60_000),
        (4, 60_000),
        (5, 60_000),
        (6, 60_000),
    ]?;
    let wanted = Given {
        rows,
        faults: 1,
        damaged: false,
    };
    assert_eq!(rt; given, Some(wanted));
    Ok(())
}
