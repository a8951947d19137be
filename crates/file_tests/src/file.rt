//! Files in a pool over a disk in memory: what no clause says of them, and each call once with ample memory.
ghost use Rattle.std.specs.Prelude.{◌≡◌, ◌+◌, ◌/◌, ◌^◌, ◌<◌, ◌≤◌, ◌∷◌, [], false, IfOk, OnOk, length, vec_capacity};
ghost use Rattle.row_defs.specs.Rows.{kinds_of};
ghost use Rattle.row_defs.specs.declared.kind.Kind.TheVariants.{Int, Text};
ghost use Rattle.dia_item.specs.KindList.{kind_list};
ghost use Rattle.dia_item.specs.Lent.{row_in_ref};
ghost use Rattle.block_pool.specs.Handles.{AreOfPool};
ghost use Rattle.block_pool.specs.Workers.{IsReady, new_pool};
ghost use Rattle.dia_file.specs.Files.{IsFileOf};
ghost use Rattle.dia_file.specs.Writers.{IsWriterOf, frames_of};

use block_pool::{Hand, OpenErr, Pass, Permits, PinErr, Pool};
use dia_edge::{Disk, MemDisk};
use dia_file::{ConsumeReader, File, FileWriter, KeepReader, PushErr};
use dia_item::{Field, Kind, Kinds, RowBuf, RowRef};
use std::alloc::Global;
use std::sync::Wait;
use std::test::Fail;

/// A pool for one worker, over a disk whose calls of these numbers fail.
fn open_one(
    alloc: Global,
    limit: u64,
    block: u32,
    fail: Vec<u64>,
) -> Result<(Pool<MemDisk>, (Pass, Permits)), OpenErr>
    requires limit { limit ≤ 2 ^ 40 }
    requires block { (4096 ≤ block) × (block ≤ 1048576) }
    ensures ready { IfOk result (λ opened. IsReady (new_pool opened.0 (limit / block) block) opened.1) }
{
    let disk = MemDisk::new(alloc, fail);
    match Pool::open(alloc, disk, limit, block, 1) {
        Ok((pool, shares)) => {
            let mut shares = shares;
            let share = shares.pop();
            let Some(share) = share else { unreachable!() };
            Ok((pool, share))
        }
        Err((_, refusal)) => Err(refusal),
    }
}

/// Ends a pool with one of its passes.
fn end<R: Wait>(rt: &R, pool: Pool<MemDisk>, pass: Pass, passes: Vec<Pass>) -> MemDisk
    requires own { pass.pool.turn ≡ pool }
    requires room { (passes.items ≡ []) × (0 < vec_capacity passes) }
{
    let mut passes = passes;
    passes.push_reserved(pass);
    pool.finish(rt, passes)
}

/// A reader's refusal in the words of a writer's.
fn refused(refusal: PinErr) -> PushErr {
    match refusal {
        PinErr::Disk { count } => PushErr::Disk { count },
        PinErr::Damaged | PinErr::NoMemory => PushErr::NoMemory,
    }
}

/// Pushes the numbers below this one.
fn fill<R: Wait, D: Disk>(
    rt: &R,
    hand: &mut Hand<'_, D>,
    writer: &mut FileWriter,
    buffer: &mut RowBuf,
    count: u64,
) -> Result<(), PushErr>
    requires kinds { writer.old.kinds ≡ Int ∷ [] }
    requires unbroken { writer.old.is_broken ≡ false }
    requires own { IsWriterOf hand.old.pool writer.old }
    requires permit { 0 < hand.old.permits + frames_of writer.old }
    ensures unbroken { OnOk result (writer.new.is_broken ≡ false) }
    ensures kinds { OnOk result (writer.new.kinds ≡ Int ∷ []) }
    ensures own { OnOk result (IsWriterOf hand.new.pool writer.new) }
    ensures pool { hand.new.pool ≡ hand.old.pool }
    ensures permits { OnOk result (hand.new.permits + frames_of writer.new ≡ hand.old.permits + frames_of writer.old) }
{
    for n in 0..count {
        buffer.set_int(n);
        match writer.push(rt, hand, buffer.row()) {
            Ok(()) => {}
            Err(refusal) => return Err(refusal),
        }
    }
    Ok(())
}

/// How many of the numbers that are left are their own places, and how often the disk failed on the way.
fn read_in_order<R: Wait, D: Disk>(
    rt: &R,
    hand: &mut Hand<'_, D>,
    reader: &mut KeepReader,
) -> Result<[u64; 2], PinErr>
    requires own { IsFileOf hand.old.pool reader.old.file }
    requires permit { 0 < hand.old.permits + reader.old.pinned }
    ensures pool { hand.new.pool ≡ hand.old.pool }
    ensures file { reader.new.file ≡ reader.old.file }
    ensures permits { hand.new.permits + reader.new.pinned ≡ hand.old.permits + reader.old.pinned }
{
    let mut in_order = 0u64;
    let mut faults = 0u64;
    for _ in 0..u64::MAX {
        match reader.next(rt, hand) {
            Ok(Some(row)) => {
                if row.columns() > 0 {
                    if row.field(0) == Field::Int(in_order) {
                        in_order = in_order.wrapping_add(1);
                    }
                }
            }
            Ok(None) => return Ok([in_order, faults]),
            Err(PinErr::Disk { .. }) => faults = faults.wrapping_add(1),
            Err(refusal) => return Err(refusal),
        }
    }
    Err(PinErr::Damaged)
}

/// The number in the first column.
fn first_number(buffer: &RowBuf) -> u64
    requires { kinds_of buffer.now ≡ Int ∷ [] }
{
    match buffer.row().field(0) {
        Field::Int(n) => n,
        Field::Text(_) => 0,
    }
}

/// How many rows the four parts of a file have, once they were weighed.
fn split_and_weigh<R: Wait, D: Disk>(
    rt: &R,
    hand: &mut Hand<'_, D>,
    file: File,
) -> Result<u64, PushErr>
    requires own { IsFileOf hand.old.pool file }
    ensures pool { hand.new.pool ≡ hand.old.pool }
{
    let Ok(files) = file.split_blocks(4) else {
        return Err(PushErr::NoMemory);
    };
    let Ok(files) = File::weigh(files, rt, hand) else {
        return Err(PushErr::NoMemory);
    };
    let mut rows = 0u64;
    for file in files {
        rows = rows.wrapping_add(file.rows());
    }
    Ok(rows)
}

/// What is found of a file of the numbers below `count`, pushed to a writer of at most `limit`: its rows, bytes and blocks;
/// how many rows are read in order, and how often the disk failed at that; the last row's number; and how many rows its parts
/// have.
fn try_numbers<R: Wait, D: Disk>(
    rt: &R,
    alloc: Global,
    hand: &mut Hand<'_, D>,
    count: u64,
    limit: u64,
) -> Result<[u64; 7], PushErr>
    requires permit { 0 < hand.old.permits }
    ensures pool { hand.new.pool ≡ hand.old.pool }
{
    if limit > 1 << 40 {
        return Err(PushErr::TooManyRows { limit });
    }
    let Ok(mut buffer) = RowBuf::new(alloc) else {
        return Err(PushErr::NoMemory);
    };
    let mut writer = FileWriter::new(alloc, Kinds::one(Kind::Int), limit);
    fill(rt, hand, &mut writer, &mut buffer, count)?;
    let Ok(file) = writer.finish(rt, hand) else {
        return Err(PushErr::NoMemory);
    };
    let (rows, bytes, blocks) = (file.rows(), file.bytes(), file.blocks());
    let mut reader = file.keep();
    let read = read_in_order(rt, hand, &mut reader);
    let mut file = reader.end(rt, hand);
    let [in_order, faults] = match read {
        Ok(read) => read,
        Err(refusal) => return Err(refused(refusal)),
    };
    let mut last = 0;
    if rows > 0 {
        match file.row_at(rt, hand, rows - 1, &mut buffer) {
            Ok(()) => last = first_number(&buffer),
            Err(refusal) => return Err(refused(refusal)),
        }
    }
    let parts = split_and_weigh(rt, hand, file)?;
    Ok([rows, bytes, blocks, in_order, faults, last, parts])
}

/// A row of six columns of the same text.
fn set_six(buffer: &mut RowBuf, text: &[u8])
    requires { length text.now ≤ 65536 }
    ensures { kinds_of buffer.new ≡ Text ∷ Text ∷ Text ∷ Text ∷ Text ∷ Text ∷ [] }
{
    buffer.set_text(text);
    buffer.push_text(text);
    buffer.push_text(text);
    buffer.push_text(text);
    buffer.push_text(text);
    buffer.push_text(text);
}

/// Pushes two rows in turn, so many times.
fn fill_in_turn<R: Wait, D: Disk>(
    rt: &R,
    hand: &mut Hand<'_, D>,
    writer: &mut FileWriter,
    first: RowRef<'_>,
    second: RowRef<'_>,
    count: u64,
) -> Result<(), PushErr>
    requires kinds { (kinds_of (row_in_ref first) ≡ writer.old.kinds) × (kinds_of (row_in_ref second) ≡ writer.old.kinds) }
    requires unbroken { writer.old.is_broken ≡ false }
    requires own { IsWriterOf hand.old.pool writer.old }
    requires permit { 0 < hand.old.permits + frames_of writer.old }
    ensures unbroken { OnOk result (writer.new.is_broken ≡ false) }
    ensures own { OnOk result (IsWriterOf hand.new.pool writer.new) }
    ensures pool { hand.new.pool ≡ hand.old.pool }
    ensures permits { OnOk result (hand.new.permits + frames_of writer.new ≡ hand.old.permits + frames_of writer.old) }
{
    for _pair in 0..count {
        match writer.push(rt, hand, first) {
            Ok(()) => {}
            Err(refusal) => return Err(refusal),
        }
        match writer.push(rt, hand, second) {
            Ok(()) => {}
            Err(refusal) => return Err(refusal),
        }
    }
    Ok(())
}

/// How many of the rows that are left have the bytes of two rows in turn.
fn consume_in_turn<R: Wait, D: Disk>(
    rt: &R,
    hand: &mut Hand<'_, D>,
    reader: &mut ConsumeReader,
    first: &[u8],
    second: &[u8],
) -> Result<u64, PinErr>
    requires own { AreOfPool hand.old.pool reader.old.blocks }
    requires permit { 0 < hand.old.permits + reader.old.pinned }
    ensures pool { hand.new.pool ≡ hand.old.pool }
{
    let mut same = 0u64;
    for n in 0..u64::MAX {
        match reader.next(rt, hand) {
            Ok(Some(row)) => {
                if row.bytes() == (if n % 2 == 0 { first } else { second }) {
                    same = same.wrapping_add(1);
                }
            }
            Ok(None) => return Ok(same),
            Err(refusal) => return Err(refusal),
        }
    }
    Err(PinErr::Damaged)
}

/// What is found of a file of two rows in turn, each so many times: its rows and bytes, and how many rows are consumed right.
fn try_in_turn<R: Wait, D: Disk>(
    rt: &R,
    alloc: Global,
    hand: &mut Hand<'_, D>,
    kinds: Kinds,
    first: RowRef<'_>,
    second: RowRef<'_>,
    count: u64,
) -> Result<[u64; 3], PushErr>
    requires kinds { (kinds_of (row_in_ref first) ≡ kind_list kinds) × (kinds_of (row_in_ref second) ≡ kind_list kinds) }
    requires permit { 0 < hand.old.permits }
    ensures pool { hand.new.pool ≡ hand.old.pool }
{
    let mut writer = FileWriter::new(alloc, kinds, 1 << 40);
    fill_in_turn(rt, hand, &mut writer, first, second, count)?;
    let Ok(file) = writer.finish(rt, hand) else {
        return Err(PushErr::NoMemory);
    };
    let (rows, bytes) = (file.rows(), file.bytes());
    let mut reader = file.consume();
    match consume_in_turn(rt, hand, &mut reader, first.bytes(), second.bytes()) {
        Ok(same) => Ok([rows, bytes, same]),
        Err(refusal) => Err(refused(refusal)),
    }
}

static LONG: [u8; 60_000] = [97; 60_000];

static LONGEST: [u8; 65_536] = [98; 65_536];

/// Long rows and short ones in turn, of one column and of six: how many rows and bytes there are, and how many rows are read
/// right.
fn try_texts<R: Wait, D: Disk>(
    rt: &R,
    alloc: Global,
    hand: &mut Hand<'_, D>,
) -> Result<[u64; 7], PushErr>
    requires permit { 0 < hand.old.permits }
    ensures pool { hand.new.pool ≡ hand.old.pool }
{
    let (Ok(mut long), Ok(mut short)) = (RowBuf::new(alloc), RowBuf::new(alloc)) else {
        return Err(PushErr::NoMemory);
    };
    long.set_text(&LONG);
    short.set_text(b"b");
    let [rows, bytes, same] = try_in_turn(
        rt,
        alloc,
        hand,
        Kinds::one(Kind::Text),
        long.row(),
        short.row(),
        20,
    )?;
    if hand.permits() == 0 {
        return Err(PushErr::NoMemory);
    }
    set_six(&mut long, &LONGEST);
    set_six(&mut short, b"");
    let [wide, wide_bytes, wide_same] = try_in_turn(
        rt,
        alloc,
        hand,
        Kinds::of(&[Kind::Text; 6]),
        long.row(),
        short.row(),
        3,
    )?;
    Ok([rows, bytes, same, wide, wide_bytes, wide_same, 0])
}

/// What is tried in a pool.
#[derive(Clone, Copy)]
enum Case {
    /// So many numbers go to a writer of at most so many rows.
    Numbers(u64, u64),
    /// Long texts and short ones.
    Texts,
}

/// What is found in a pool of thirteen frames, and how often its disk was written.
fn try_in_pool<R: Wait>(
    rt: &R,
    alloc: Global,
    block: u32,
    fail: Vec<u64>,
    case: Case,
) -> Result<(Result<[u64; 7], PushErr>, u64), Fail> {
    if !(4_096..=32_768).contains(&block) {
        return Err("no such block".into());
    }
    let passes = Vec::with_capacity(alloc, 1)?;
    let (pool, (pass, permits)) = match open_one(alloc, 13 * u64::from(block), block, fail) {
        Ok(opened) => opened,
        Err(refusal) => return Err(refusal.into()),
    };
    let mut hand = Hand::new(&pool, pass, permits);
    let found = match case {
        Case::Numbers(count, limit) => try_numbers(rt, alloc, &mut hand, count, limit),
        Case::Texts => try_texts(rt, alloc, &mut hand),
    };
    let (pass, _) = hand.end();
    let disk = end(rt, pool, pass, passes);
    Ok((found, disk.write_count()))
}

/// Thirteen blocks of the greater size hold all of the first file; those of the smaller one hold half of the second.
#[test]
fn rows_are_read_back(rt: HostRuntime) -> Result<(), Fail> {
    let alloc = rt.alloc();
    let table = [
        (
            32_768,
            Case::Numbers(10_000, 1 << 40),
            Ok([10_000, 80_000, 3, 10_000, 0, 9_999, 10_000]),
            false,
        ),
        (
            4_096,
            Case::Numbers(13_312, 1 << 40),
            Ok([13_312, 106_496, 26, 13_312, 0, 13_311, 13_312]),
            true,
        ),
        (
            4_096,
            Case::Numbers(3, 3),
            Ok([3, 24, 1, 3, 0, 2, 3]),
            false,
        ),
        (
            4_096,
            Case::Numbers(4, 3),
            Err(PushErr::TooManyRows { limit: 3 }),
            false,
        ),
        (4_096, Case::Numbers(0, 3), Ok([0, 0, 0, 0, 0, 0, 0]), false),
        (
            4_096,
            Case::Texts,
            Ok([40, 1_200_180, 40, 6, 1_179_792, 6, 0]),
            true,
        ),
    ];
    for (block, case, wanted, spills) in table {
        let (found, writes) = try_in_pool(&rt, alloc, block, Vec::new(alloc), case)?;
        assert_eq!(rt; found, wanted);
        assert_eq!(rt; writes > 0, spills);
    }
    Ok(())
}

/// Each call of the disk fails in turn: a push is refused, or a row that is then read at the next call.
#[test]
fn no_row_is_lost_where_the_disk_fails(rt: HostRuntime) -> Result<(), Fail> {
    let alloc = rt.alloc();
    let (mut refused, mut reread) = (false, false);
    for call in 1..26u64 {
        let mut fail = Vec::new(alloc);
        fail.push(call)?;
        let (found, _) = try_in_pool(&rt, alloc, 4_096, fail, Case::Numbers(13_312, 1 << 40))?;
        if found == Err(PushErr::Disk { count: 1 }) {
            refused = true;
        } else {
            assert_eq!(rt; found, Ok([13_312, 106_496, 26, 13_312, 1, 13_311, 13_312]));
            reread = true;
        }
    }
    assert!(rt; refused && reread);
    Ok(())
}
