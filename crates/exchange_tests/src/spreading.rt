//! Numbers of one worker that are spread over two.
ghost use Rattle.std.specs.Prelude.{◌≡◌, ◌+◌, ◌<◌, ◌∷◌, [], false, All, IfSome, OnOk, vec_len};
ghost use Rattle.row_defs.specs.declared.kind.Kind.TheVariants.{Int};
ghost use Rattle.block_pool.specs.Workers.{new_pool};
ghost use Rattle.dia_file.specs.Files.{IsFileOf};
ghost use Rattle.dia_file.specs.Writers.{IsWriterOf, frames_of};
ghost use Rattle.scatter.specs.Stocks.{IsPartOf};
ghost use Rattle.exchange_tests.specs.Boxed as Boxed;
ghost use Rattle.exchange_tests.specs.Linked.{AreHands};

use crate::linking::{hands_of, open, passes_of};
use block_pool::{Hand, Pool};
use dia_edge::{Disk, MemDisk, OpenGate};
use dia_file::{File, FileWriter, KeepReader, PushErr};
use dia_item::{Field, Kind, Kinds, RowBuf};
use scatter::{Home, Stock};
use spread::spread;
use std::alloc::Global;
use std::sync::Wait;
use std::test::Fail;
use std::thread::Threads;
use worker_step::Way;

/// The line that the file becomes.
const LINE: u32 = 1;

/// Pushes the numbers below this one.
fn fill<R: Wait, D: Disk>(
    rt: &R,
    hand: &mut Hand<'_, D>,
    writer: &mut FileWriter,
    buffer: &mut RowBuf,
    rows: u64,
) -> Result<(), PushErr>
    requires kinds { writer.old.kinds ≡ Int ∷ [] }
    requires unbroken { writer.old.is_broken ≡ false }
    requires own { IsWriterOf hand.old.pool writer.old }
    requires permit { 0 < hand.old.permits + frames_of writer.old }
    ensures unbroken { OnOk result (writer.new.is_broken ≡ false) }
    ensures kinds { OnOk result (writer.new.kinds ≡ Int ∷ []) }
    ensures own { OnOk result (IsWriterOf hand.new.pool writer.new) }
    ensures pool { hand.new.pool ≡ hand.old.pool }
    ensures permits { OnOk result (hand.new.permits + frames_of writer.new ≡ hand.old.permits + frames_of writer.old) }
{
    for n in 0..rows {
        buffer.set_int(n);
        match writer.push(rt, hand, buffer.row()) {
            Ok(()) => {}
            Err(refusal) => return Err(refusal),
        }
    }
    Ok(())
}

/// A file of the numbers below this one.
fn file_of<R: Wait, D: Disk>(
    rt: &R,
    alloc: Global,
    hand: &mut Hand<'_, D>,
    rows: u64,
) -> Option<File>
    requires permit { 0 < hand.old.permits }
    ensures own { IfSome result (λ file. IsFileOf hand.new.pool file) }
    ensures pool { hand.new.pool ≡ hand.old.pool }
    ensures permits { IfSome result (λ file. hand.new.permits ≡ hand.old.permits) }
{
    let mut buffer = RowBuf::new(alloc).ok()?;
    let mut writer = FileWriter::new(alloc, Kinds::one(Kind::Int), 1_000_000);
    if fill(rt, hand, &mut writer, &mut buffer, rows).is_err() {
        return None;
    }
    match writer.finish(rt, hand) {
        Ok(file) => Some(file),
        Err(_) => None,
    }
}

/// How many rows are left that are the numbers from this one on.
fn read_in_order<R: Wait, D: Disk>(
    rt: &R,
    hand: &mut Hand<'_, D>,
    reader: &mut KeepReader,
    first: u64,
) -> Option<u64>
    requires own { IsFileOf hand.old.pool reader.old.file }
    requires permit { 0 < hand.old.permits + reader.old.pinned }
    ensures pool { hand.new.pool ≡ hand.old.pool }
    ensures file { reader.new.file ≡ reader.old.file }
{
    let mut next = first;
    for _ in 0..u64::MAX {
        match reader.next(rt, hand) {
            Ok(Some(row)) => {
                if row.columns() == 0 || row.field(0) != Field::Int(next) {
                    return None;
                }
                next = next.wrapping_add(1);
            }
            Ok(None) => return Some(next.wrapping_sub(first)),
            Err(_) => return None,
        }
    }
    None
}

/// How many rows a part has, which are the numbers from this one on.
fn rows_of_part<R: Wait, D: Disk>(
    rt: &R,
    hand: &mut Hand<'_, D>,
    part: Option<File>,
    first: u64,
) -> Option<u64>
    requires own { IsPartOf hand.old.pool part }
    requires permit { 0 < hand.old.permits }
    ensures pool { hand.new.pool ≡ hand.old.pool }
{
    let Some(file) = part else {
        return None;
    };
    let mut reader = file.keep();
    let rows = read_in_order(rt, hand, &mut reader, first);
    let file = reader.end(rt, hand);
    file.clear(rt, hand);
    rows
}

/// The file of the numbers below this one, of the first worker.
fn first_file<R: Wait>(
    rt: &R,
    alloc: Global,
    pool: &Pool<MemDisk>,
    hands: &mut Vec<Hand<'_, MemDisk>>,
    rows: u64,
) -> Option<File>
    requires hands { AreHands (new_pool pool.now 28 4096) hands.old.items }
    requires len { vec_len hands.old ≡ 2 }
    ensures own { All (λ hand. hand.pool ≡ new_pool pool.now 28 4096) hands.new.items }
    ensures len { vec_len hands.new ≡ 2 }
    ensures hands { IfSome result (λ file. AreHands (new_pool pool.now 28 4096) hands.new.items) }
    ensures file { IfSome result (λ file. IsFileOf (new_pool pool.now 28 4096) file) }
{
    let _ = pool;
    file_of(rt, alloc, &mut hands[0], rows)
}

/// The parts of a file of the first worker that is spread over both.
fn parts_of<'p, R: Threads + Wait + Sync>(
    rt: &R,
    alloc: Global,
    way: &mut Way<'_, OpenGate>,
    pool: &'p Pool<MemDisk>,
    hands: &mut Vec<Hand<'p, MemDisk>>,
    file: File,
) -> Option<Vec<Option<File>>>
    requires hands { AreHands (new_pool pool.now 28 4096) hands.old.items }
    requires len { vec_len hands.old ≡ 2 }
    requires file { IsFileOf (new_pool pool.now 28 4096) file }
    ensures own { All (λ hand. hand.pool ≡ new_pool pool.now 28 4096) hands.new.items }
    ensures len { vec_len hands.new ≡ 2 }
    ensures hands { IfSome result (λ parts. Boxed.AreHands (new_pool pool.now 28 4096) hands.new.items) }
    ensures parts { IfSome result (λ parts. All (IsPartOf (new_pool pool.now 28 4096)) parts.items) }
{
    let _ = pool;
    let Ok(mut stock) = Stock::new(alloc, Home, 2) else {
        return None;
    };
    match spread(rt, alloc, way, &mut stock, hands, LINE, file) {
        Ok(()) => Some(stock.take(LINE)),
        Err(_) => None,
    }
}

/// How many rows both parts have, which are the numbers in order.
fn rows_of_parts<R: Wait>(
    rt: &R,
    pool: &Pool<MemDisk>,
    hands: &mut Vec<Hand<'_, MemDisk>>,
    parts: Vec<Option<File>>,
) -> Option<(u64, u64)>
    requires hands { Boxed.AreHands (new_pool pool.now 28 4096) hands.old.items }
    requires len { vec_len hands.old ≡ 2 }
    requires parts { All (IsPartOf (new_pool pool.now 28 4096)) parts.items }
    ensures own { All (λ hand. hand.pool ≡ new_pool pool.now 28 4096) hands.new.items }
    ensures len { vec_len hands.new ≡ 2 }
{
    let _ = pool;
    let mut parts = parts;
    let Some(two) = parts.pop() else {
        return None;
    };
    let Some(one) = parts.pop() else {
        return None;
    };
    let Some(first) = rows_of_part(rt, &mut hands[0], one, 0) else {
        return None;
    };
    let Some(second) = rows_of_part(rt, &mut hands[1], two, first) else {
        return None;
    };
    Some((first, second))
}

/// The parts of the numbers below this one that are spread over both workers: how many rows each has.
fn spread_numbers<'p, R: Threads + Wait + Sync>(
    rt: &R,
    alloc: Global,
    way: &mut Way<'_, OpenGate>,
    pool: &'p Pool<MemDisk>,
    rows: u64,
    hands: &mut Vec<Hand<'p, MemDisk>>,
) -> Option<(u64, u64)>
    requires hands { AreHands (new_pool pool.now 28 4096) hands.old.items }
    requires len { vec_len hands.old ≡ 2 }
    ensures own { All (λ hand. hand.pool ≡ new_pool pool.now 28 4096) hands.new.items }
    ensures len { vec_len hands.new ≡ 2 }
{
    let Some(file) = first_file(rt, alloc, pool, hands, rows) else {
        return None;
    };
    let Some(parts) = parts_of(rt, alloc, way, pool, hands, file) else {
        return None;
    };
    rows_of_parts(rt, pool, hands, parts)
}

/// The same in a pool of their own.
fn outcome<R: Threads + Wait + Sync>(
    rt: &R,
    alloc: Global,
    way: &mut Way<'_, OpenGate>,
    rows: u64,
) -> Option<(u64, u64)> {
    let hands = Vec::with_capacity(alloc, 2).ok()?;
    let passes = Vec::with_capacity(alloc, 2).ok()?;
    let (pool, shares) = open(alloc, Vec::new(alloc)).ok()?;
    let mut hands = hands_of(&pool, shares, hands);
    let counts = spread_numbers(rt, alloc, way, &pool, rows, &mut hands);
    let passes = passes_of(&pool, hands, passes);
    let _disk = pool.finish(rt, passes);
    counts
}

/// The 80,000 bytes fill 20 blocks of 512 rows, the last of which isn't full.
#[test]
fn a_file_is_spread_in_order(rt: HostRuntime) -> Result<(), Fail> {
    let alloc = rt.alloc();
    let mut threads = Way::Threads {
        gate: &OpenGate,
        phase: 0,
    };
    let counts = outcome(&rt, alloc, &mut threads, 10_000).ok_or("refused")?;
    assert_eq!(rt; counts, (5_120, 4_880));
    let mut order = Way::Order { seed: 3 };
    let counts = outcome(&rt, alloc, &mut order, 10_000).ok_or("refused")?;
    assert_eq!(rt; counts, (5_120, 4_880));
    Ok(())
}
