//! A row that is written to a file of a pool with a disk in memory, as it comes and behind its number.
ghost use Rattle.std.specs.Prelude.{◌≡◌, ◌<◌, ◌∷◌, [], List, IsSome, vec_capacity, IfOk};
ghost use Rattle.row_defs.specs.declared.kind.Kind.{Kind};
ghost use Rattle.row_defs.specs.declared.kind.Kind.TheVariants.{Int};
ghost use Rattle.row_defs.specs.Rows.{kinds_of};
ghost use Rattle.dia_item.specs.Lent.{row_in_ref};
ghost use Rattle.block_pool.specs.Workers.{IsReady, new_pool};
ghost use Rattle.dia_file.specs.Files.{IsFileOf};
ghost use Rattle.file_sink.specs.Numbered.{kinds_behind, IsNewSink};

use block_pool::{Hand, LEAST_BLOCK, OpenErr, Pass, Permits, Pool};
use dia_edge::MemDisk;
use dia_file::File;
use dia_item::{Field, Kind, Kinds, RowBuf, RowRef};
use file_sink::{FileSink, NumberedSink};
use lop_chain::RowSink;
use std::alloc::Global;
use std::sync::Wait;
use std::test::Fail;

/// A pool for one worker.
fn open_one(alloc: Global) -> Result<(Pool<MemDisk>, (Pass, Permits)), OpenErr>
    ensures ready { IfOk result (λ opened. IsReady (new_pool opened.0 13 4096) opened.1) }
{
    let disk = MemDisk::new(alloc, Vec::new(alloc));
    match Pool::open(alloc, disk, 53_248, LEAST_BLOCK, 1) {
        Ok((pool, shares)) => {
            let mut shares = shares;
            let share = shares.pop();
            let Some(share) = share else { unreachable!() };
            Ok((pool, share))
        }
        Err((_, refusal)) => Err(refusal),
    }
}

/// Ends a pool with one of its passes.
fn end<R: Wait>(rt: &R, pool: Pool<MemDisk>, pass: Pass, passes: Vec<Pass>) -> MemDisk
    requires own { pass.pool.turn ≡ pool }
    requires room { (passes.items ≡ []) × (0 < vec_capacity passes) }
{
    let mut passes = passes;
    passes.push_reserved(pass);
    pool.finish(rt, passes)
}

/// Writes one row, and answers how many bytes the file has.
fn write_one<R: Wait>(
    rt: &R,
    alloc: Global,
    hand: &mut Hand<'_, MemDisk>,
    row: RowRef<'_>,
) -> Option<u64>
    requires kinds { kinds_of (row_in_ref row) ≡ Int ∷ [] }
    requires permit { 0 < hand.old.permits }
    ensures pool { hand.new.pool ≡ hand.old.pool }
{
    let mut sink = FileSink::new(alloc, Kinds::one(Kind::Int), 1, hand);
    if sink.take(rt, hand, row).is_err() {
        sink.cancel(rt, hand);
        return None;
    }
    let Ok(file) = sink.finish(rt, hand) else {
        return None;
    };
    let bytes = file.bytes();
    file.clear(rt, hand);
    Some(bytes)
}

/// The number in the first column of a file's first row.
fn first_number<R: Wait>(
    rt: &R,
    hand: &mut Hand<'_, MemDisk>,
    file: &mut File,
    room: &mut RowBuf,
) -> Option<u64>
    requires kinds { (more : List Kind) × (file.old.kinds ≡ Int ∷ more) }
    requires own { IsFileOf hand.old.pool file.old }
    requires permit { 0 < hand.old.permits }
    ensures pool { hand.new.pool ≡ hand.old.pool }
    ensures permits { hand.new.permits ≡ hand.old.permits }
    ensures file { file.new ≡ file.old }
{
    if file.rows() == 0 || file.row_at(rt, hand, 0, room).is_err() {
        return None;
    }
    match room.row().field(0) {
        Field::Int(n) => Some(n),
        Field::Text(_) => None,
    }
}

/// Writes one row by a sink, and answers how many bytes the file has, and the first number in it.
fn write_by<'p, R: Wait>(
    rt: &R,
    hand: &mut Hand<'p, MemDisk>,
    sink: NumberedSink<'p, MemDisk>,
    row: RowRef<'_>,
    room: &mut RowBuf,
) -> Option<(u64, Option<u64>)>
    requires row { kinds_of (row_in_ref row) ≡ Int ∷ [] }
    requires kinds { sink.sink.writer.kinds ≡ kinds_behind sink.next (Int ∷ []) }
    requires new { IsNewSink hand.old.pool sink.sink.writer.kinds 1 sink.sink }
    requires permit { 0 < hand.old.permits }
    ensures pool { hand.new.pool ≡ hand.old.pool }
    ensures permits { IsSome result → hand.new.permits ≡ hand.old.permits }
{
    let mut sink = sink;
    if sink.take(rt, hand, row).is_err() {
        sink.into_file().cancel(rt, hand);
        return None;
    }
    let Ok(mut file) = sink.into_file().finish(rt, hand) else {
        return None;
    };
    let number = first_number(rt, hand, &mut file, room);
    let bytes = file.bytes();
    file.clear(rt, hand);
    Some((bytes, number))
}

/// Writes one row as it comes, and then behind the number 5.
fn write_both<R: Wait>(
    rt: &R,
    alloc: Global,
    hand: &mut Hand<'_, MemDisk>,
    row: RowRef<'_>,
    room: &mut RowBuf,
) -> Option<[(u64, Option<u64>); 2]>
    requires row { kinds_of (row_in_ref row) ≡ Int ∷ [] }
    requires permit { 0 < hand.old.permits }
    ensures pool { hand.new.pool ≡ hand.old.pool }
{
    let kinds = Kinds::one(Kind::Int);
    let plain = NumberedSink::plain(alloc, kinds, 1, hand);
    let plain = write_by(rt, hand, plain, row, room)?;
    let Ok(numbering) = NumberedSink::numbering(alloc, kinds, 1, hand, 5) else {
        return None;
    };
    let numbered = write_by(rt, hand, numbering, row, room)?;
    Some([plain, numbered])
}

#[test]
fn a_row_is_written_behind_its_number(rt: HostRuntime) -> Result<(), Fail> {
    let alloc = rt.alloc();
    let passes = Vec::with_capacity(alloc, 1)?;
    let mut row = RowBuf::new(alloc)?;
    row.push_int(7);
    let mut room = RowBuf::new(alloc)?;
    let (pool, (pass, permits)) = match open_one(alloc) {
        Ok(opened) => opened,
        Err(refusal) => return Err(refusal.into()),
    };
    let mut hand = Hand::new(&pool, pass, permits);
    let both = write_both(&rt, alloc, &mut hand, row.row(), &mut room);
    assert_eq!(rt; both, Some([(8, Some(7)), (16, Some(5))]));
    let (pass, _) = hand.end();
    let _disk = end(&rt, pool, pass, passes);
    Ok(())
}

#[test]
fn a_row_is_written(rt: HostRuntime) -> Result<(), Fail> {
    let alloc = rt.alloc();
    let passes = Vec::with_capacity(alloc, 1)?;
    let mut room = RowBuf::new(alloc)?;
    room.push_int(7);
    let (pool, (pass, permits)) = match open_one(alloc) {
        Ok(opened) => opened,
        Err(refusal) => return Err(refusal.into()),
    };
    let mut hand = Hand::new(&pool, pass, permits);
    let bytes = write_one(&rt, alloc, &mut hand, room.row());
    assert_eq!(rt; bytes, Some(8));
    let (pass, _) = hand.end();
    let _disk = end(&rt, pool, pass, passes);
    Ok(())
}
