//! Worked scripts.

use dia_edge::NoMemory;
use script_read::{Cause, ReadErr, read_script};
use std::alloc::Global;
use std::test::Fail;

fn bad(line: u32, cause: Cause) -> Option<ReadErr> {
    Some(ReadErr::Bad { line, cause })
}

/// The bytes, and behind them one more byte so many times.
fn repeated(alloc: Global, prefix: &[u8], byte: u8, count: u64) -> Result<Vec<u8>, NoMemory> {
    let mut bytes = Vec::from_slice(alloc, prefix)?;
    for _ in 0..count {
        bytes.push(byte)?;
    }
    Ok(bytes)
}

/// A script of two lines, a text and a number, and one more.
fn third(alloc: Global, line: &[u8]) -> Result<Vec<u8>, NoMemory> {
    let mut bytes = Vec::from_slice(alloc, b"t = lines in\nn = generate 5\n")?;
    bytes.extend_from_slice(line)?;
    Ok(bytes)
}

#[test]
fn scripts_are_accepted(rt: HostRuntime) -> Result<(), Fail> {
    let scripts: [&[u8]; 14] = [
        b"",
        b"\n\n",
        b"# none",
        b"   # none\n   \n",
        b"t = lines in",
        b"  t   =  lines   in  \n",
        b"t = lines =\nm = map t f0 f0 f0 f0 f0 f0\nprint m\nsize m\nprint m\n",
        b"t = lines in\n\n# the columns\nm = map t f0 len f0\nsum m 1",
        b"print = lines in\nprint print\n",
        b"abcdefghijklmnopqrstuvwxyz_01234 = lines in\nprint abcdefghijklmnopqrstuvwxyz_01234\n",
        b"n = generate 4294967296\ne = filter n eq 0 mod f0 2\nsum e 00000000000000000000",
        b"n = generate 0\ns = flatmap n spread 0 16\nw = flatmap s spread 0 1\nsize w",
        b"t = lines in\nk = cache t\nm = map k f0 len f0\nc = cache m\nsum c 1\nprint k",
        b"t = lines in\nw = flatmap t words 0\nq = map w if lt f0 'm 'low 'high 1\nsize q\nsum q 1",
    ];
    for script in scripts {
        assert_eq!(rt; read_script(rt.alloc(), script).err(), None);
    }
    Ok(())
}

#[test]
fn scripts_are_refused(rt: HostRuntime) -> Result<(), Fail> {
    let scripts: [(&[u8], Option<ReadErr>); 21] = [
        (b"t = lines", bad(1, Cause::BadForm)),
        (b"t = lines in out", bad(1, Cause::BadForm)),
        (b"t =", bad(1, Cause::BadForm)),
        (b"= = =", bad(1, Cause::BadForm)),
        (b"1t = lines in", bad(1, Cause::BadForm)),
        (
            b"abcdefghijklmnopqrstuvwxyz_012345 = lines in",
            bad(1, Cause::BadForm),
        ),
        (b"t = lines\tin", bad(1, Cause::BadForm)),
        (b"t = lines in\r\n", bad(1, Cause::BadForm)),
        (b"a = generate", bad(1, Cause::BadForm)),
        (b"b = map a f0", bad(1, Cause::UnknownName)),
        (b"m = map m f0\nm = lines in", bad(1, Cause::UnknownName)),
        (b"b = zork a", bad(1, Cause::UnknownWord)),
        (b"\n# c\nt", bad(3, Cause::UnknownWord)),
        (b"a = generate 1\na = zork b", bad(2, Cause::NameTaken)),
        (b"t = lines in\nsize x\nsize", bad(2, Cause::UnknownName)),
        (
            b"t = lines in\nt = generate 1\nsize x",
            bad(2, Cause::NameTaken),
        ),
        (
            b"t = lines in\nzork\nt = lines in",
            bad(2, Cause::UnknownWord),
        ),
        (
            b"t = lines in\nb = map t 1x\nzork",
            bad(2, Cause::BadNumber),
        ),
        (
            b"t = lines in\nb = map t f1\nb = map t 1x",
            bad(2, Cause::BadColumn),
        ),
        (b"t = lines in\nsum t 0\nsum t 1", bad(2, Cause::BadKind)),
        (
            b"t = lines in\nb = map t 1 1 1 1 1 1 1\nsum t 0",
            bad(2, Cause::TooManyColumns),
        ),
    ];
    for (script, want) in scripts {
        assert_eq!(rt; read_script(rt.alloc(), script).err(), want);
    }
    Ok(())
}

#[test]
fn the_cause_listed_earlier_stands_before_the_other(rt: HostRuntime) -> Result<(), Fail> {
    let lines: [(&[u8], Cause); 26] = [
        (b"b = map x add f0", Cause::BadForm),
        (b"t = map n add f0", Cause::BadForm),
        (b"B = zork n", Cause::BadForm),
        (b"b = generate 1x 2", Cause::BadForm),
        (b"b = map t f1 add f0", Cause::BadForm),
        (b"b = filter t f0 f0", Cause::BadForm),
        (b"b = map n 1 1 1 1 1 1 1 add f0", Cause::BadForm),
        (b"t = map x f0", Cause::UnknownName),
        (b"b = map x zork", Cause::UnknownName),
        (b"b = map x 1x", Cause::UnknownName),
        (b"b = map x 1 1 1 1 1 1 1", Cause::UnknownName),
        (b"t = map n zork", Cause::NameTaken),
        (b"t = generate 1x", Cause::NameTaken),
        (b"t = map n f1", Cause::NameTaken),
        (b"t = filter t f0", Cause::NameTaken),
        (b"t = map n 1 1 1 1 1 1 1", Cause::NameTaken),
        (b"b = map n 1x zork add", Cause::UnknownWord),
        (b"b = map n f1 zork", Cause::UnknownWord),
        (b"b = map n len f0 zork", Cause::UnknownWord),
        (b"b = map n 1 1 1 1 1 1 1 zork", Cause::UnknownWord),
        (b"b = map n f1 1x", Cause::BadNumber),
        (b"b = map n len f0 1x", Cause::BadNumber),
        (b"b = map n 1 1 1 1 1 1 1x", Cause::BadNumber),
        (b"b = map n len f0 f1", Cause::BadColumn),
        (b"b = map n f1 1 1 1 1 1 1", Cause::BadColumn),
        (b"b = map n len f0 1 1 1 1 1 1", Cause::BadKind),
    ];
    for (line, cause) in lines {
        let script = third(rt.alloc(), line)?;
        assert_eq!(rt;
            read_script(rt.alloc(), script.as_slice()).err(),
            bad(3, cause)
        );
    }
    Ok(())
}

#[test]
fn each_word_has_its_refusals(rt: HostRuntime) -> Result<(), Fail> {
    let lines: [(&[u8], Cause); 37] = [
        (b"b = map n", Cause::BadForm),
        (b"b = filter n", Cause::BadForm),
        (b"b = filter n f0 zork", Cause::BadForm),
        (b"b = flatmap n", Cause::BadForm),
        (b"b = flatmap n words", Cause::BadForm),
        (b"b = flatmap n spread 0", Cause::BadForm),
        (b"b = cache", Cause::BadForm),
        (b"b = cache n n", Cause::BadForm),
        (b"size n n", Cause::BadForm),
        (b"sum n", Cause::BadForm),
        (b"b = flatmap x zork", Cause::UnknownName),
        (b"b = cache x", Cause::UnknownName),
        (b"sum x 1x", Cause::UnknownName),
        (b"t = flatmap n zork", Cause::NameTaken),
        (b"t = cache n", Cause::NameTaken),
        (b"b = print n", Cause::UnknownWord),
        (b"cache n", Cause::UnknownWord),
        (b"b = flatmap n zork 1x", Cause::UnknownWord),
        (b"b = filter n zork f0 f0", Cause::UnknownWord),
        (b"b = map n f", Cause::UnknownWord),
        (b"b = map n f10", Cause::UnknownWord),
        (b"b = map n F0", Cause::UnknownWord),
        (b"b = map n -1", Cause::UnknownWord),
        (b"b = generate 4294967297", Cause::BadNumber),
        (b"b = flatmap n spread 1 0", Cause::BadNumber),
        (b"b = flatmap n spread 0 17", Cause::BadNumber),
        (b"b = flatmap n words x", Cause::BadNumber),
        (b"sum n 18446744073709551616", Cause::BadNumber),
        (b"sum n 000000000000000000000", Cause::BadNumber),
        (b"sum n 18446744073709551615", Cause::BadColumn),
        (b"b = flatmap n words 1", Cause::BadColumn),
        (b"b = filter t f1", Cause::BadColumn),
        (b"sum t 0", Cause::BadKind),
        (b"b = filter t f0", Cause::BadKind),
        (b"b = flatmap n words 0", Cause::BadKind),
        (b"b = flatmap t spread 0 16", Cause::BadKind),
        (b"b = map n 1 1 1 1 1 1 1", Cause::TooManyColumns),
    ];
    for (line, cause) in lines {
        let script = third(rt.alloc(), line)?;
        assert_eq!(rt;
            read_script(rt.alloc(), script.as_slice()).err(),
            bad(3, cause)
        );
    }
    Ok(())
}

#[test]
fn long_scripts_are_refused(rt: HostRuntime) -> Result<(), Fail> {
    let cases: [(&[u8], u8, u64, Option<ReadErr>); 15] = [
        (b"", b'\n', 256, None),
        (b"", b'\n', 257, bad(257, Cause::ScriptLong)),
        (b"", b'#', 512, None),
        (b"", b'#', 513, bad(1, Cause::LineLong)),
        (b"", b'#', 131_328, bad(1, Cause::LineLong)),
        (b"", b'#', 131_329, bad(257, Cause::ScriptLong)),
        (b"size\n", b'#', 513, bad(1, Cause::BadForm)),
        (b"size a ", b'a', 513, bad(1, Cause::LineLong)),
        (b"size ", b'a', 513, bad(1, Cause::LineLong)),
        (
            b"a = lines b\na = lines ",
            b'a',
            513,
            bad(2, Cause::LineLong),
        ),
        (b"zork ", b'a', 513, bad(1, Cause::LineLong)),
        (b"a = generate ", b'1', 513, bad(1, Cause::LineLong)),
        (
            b"a = lines b\nc = map a f1 '",
            b'a',
            513,
            bad(2, Cause::LineLong),
        ),
        (
            b"a = lines b\nc = filter a '",
            b'a',
            513,
            bad(2, Cause::LineLong),
        ),
        (
            b"a = lines b\nc = map a 1 1 1 1 1 1 '",
            b'a',
            513,
            bad(2, Cause::LineLong),
        ),
    ];
    for (prefix, byte, count, want) in cases {
        let script = repeated(rt.alloc(), prefix, byte, count)?;
        assert_eq!(rt; read_script(rt.alloc(), script.as_slice()).err(), want);
    }
    Ok(())
}
