//! Inputs on a shelf in memory that become files in a pool over a disk in memory.
ghost use Rattle.std.specs.Prelude.{◌≡◌, ◌+◌, ◌/◌, ◌^◌, ◌<◌, ◌≤◌, [], IfOk, vec_capacity};
ghost use Rattle.block_pool.specs.Workers.{IsReady, new_pool};
ghost use Rattle.dia_file.specs.Files.{IsFileOf};

use block_pool::{Hand, OpenErr, Pass, Permits, Pool};
use dia_edge::{Disk, MemDisk, MemShelf, Name};
use dia_file::{File, KeepReader};
use dia_item::Field;
use input_file::{ReadFileErr, read_file};
use std::alloc::Global;
use std::sync::Wait;
use std::test::Fail;

/// A pool for one worker.
fn open_one(alloc: Global, limit: u64) -> Result<(Pool<MemDisk>, (Pass, Permits)), OpenErr>
    requires limit { limit ≤ 2 ^ 40 }
    ensures ready { IfOk result (λ opened. IsReady (new_pool opened.0 (limit / 4096) 4096) opened.1) }
{
    let disk = MemDisk::new(alloc, Vec::new(alloc));
    match Pool::open(alloc, disk, limit, 4096, 1) {
        Ok((pool, shares)) => {
            let mut shares = shares;
            let share = shares.pop();
            let Some(share) = share else { unreachable!() };
            Ok((pool, share))
        }
        Err((_, refusal)) => Err(refusal),
    }
}

/// Ends a pool with one of its passes.
fn end<R: Wait>(rt: &R, pool: Pool<MemDisk>, pass: Pass, passes: Vec<Pass>) -> MemDisk
    requires own { pass.pool.turn ≡ pool }
    requires room { (passes.items ≡ []) × (0 < vec_capacity passes) }
{
    let mut passes = passes;
    passes.push_reserved(pass);
    pool.finish(rt, passes)
}

/// The texts of the rows that are left, each with a semicolon behind it.
fn texts<R: Wait, D: Disk>(
    rt: &R,
    alloc: Global,
    hand: &mut Hand<'_, D>,
    reader: &mut KeepReader,
) -> Option<Vec<u8>>
    requires own { IsFileOf hand.old.pool reader.old.file }
    requires permit { 0 < hand.old.permits + reader.old.pinned }
    ensures pool { hand.new.pool ≡ hand.old.pool }
    ensures file { reader.new.file ≡ reader.old.file }
{
    let mut all = Vec::new(alloc);
    for _ in 0..100u32 {
        match reader.next(rt, hand) {
            Ok(Some(row)) => {
                if row.columns() > 0 {
                    if let Field::Text(text) = row.field(0) {
                        all.extend_from_slice(text).ok()?;
                        all.push(b';').ok()?;
                    }
                }
            }
            Ok(None) => break,
            Err(_) => return None,
        }
    }
    Some(all)
}

/// The same of a whole file, which is then cleared.
fn texts_of<R: Wait, D: Disk>(
    rt: &R,
    alloc: Global,
    hand: &mut Hand<'_, D>,
    file: File,
) -> Option<Vec<u8>>
    requires own { IsFileOf hand.old.pool file }
    ensures pool { hand.new.pool ≡ hand.old.pool }
{
    if hand.permits() == 0 {
        return None;
    }
    let mut reader = file.keep();
    let all = texts(rt, alloc, hand, &mut reader);
    reader.end(rt, hand).clear(rt, hand);
    all
}

/// What the input of a name becomes, on a shelf that has `s` alone and gives three bytes at a time.
fn read_texts<R: Wait>(
    rt: &R,
    alloc: Global,
    name: &str,
    bytes: &[u8],
) -> Option<Result<Vec<u8>, ReadFileErr>> {
    let mut files = Vec::new(alloc);
    let input = (
        Name::of(alloc, "s").ok()?,
        Vec::from_slice(alloc, bytes).ok()?,
    );
    files.push(input).ok()?;
    let mut shelf = MemShelf::new(files, 3, Vec::new(alloc));
    let name = Name::of(alloc, name).ok()?;
    let passes = Vec::with_capacity(alloc, 1).ok()?;
    let (pool, (pass, permits)) = open_one(alloc, 53_248).ok()?;
    let mut hand = Hand::new(&pool, pass, permits);
    let read = match read_file(rt, alloc, &mut shelf, &name, &mut hand) {
        Ok(file) => match texts_of(rt, alloc, &mut hand, file) {
            Some(texts) => Some(Ok(texts)),
            None => None,
        },
        Err(refusal) => Some(Err(refusal)),
    };
    let (pass, _) = hand.end();
    let _disk = end(rt, pool, pass, passes);
    read
}

#[test]
fn the_rows_are_the_lines(rt: HostRuntime) -> Result<(), Fail> {
    let alloc = rt.alloc();
    let long = vec![in alloc; b'x'; 65_537]?;
    let cases: [(&str, &[u8], Result<&[u8], ReadFileErr>); 4] = [
        ("s", b"ab\n\nlonger\nc", Ok(b"ab;;longer;c;")),
        ("s", b"", Ok(b"")),
        ("t", b"ab", Err(ReadFileErr::Missing)),
        ("s", &long, Err(ReadFileErr::LineTooLong { line: 1 })),
    ];
    for (name, bytes, wanted) in cases {
        match (read_texts(&rt, alloc, name, bytes), wanted) {
            (Some(Ok(texts)), Ok(wanted)) => assert_eq!(rt; texts.as_slice(), wanted),
            (Some(Err(refusal)), Err(wanted)) => assert_eq!(rt; refusal, wanted),
            _ => panic!(&rt; "another answer"),
        }
    }
    Ok(())
}
