//! The largest scripts, inputs and rows.

use super::{case_of, ends};
use dia_edge::NoMemory;
use std::alloc::{AllocError, Global};
use std::process::Abort;
use std::sync::Wait;
use std::test::Fail;
use std::thread::Threads;

/// So many of a byte.
fn bytes_of(alloc: Global, byte: u8, count: usize) -> Result<Vec<u8>, AllocError> {
    vec![in alloc; byte; count]
}

/// Appends a piece so many times.
fn repeat(bytes: &mut Vec<u8>, piece: &[u8], times: usize) -> Result<(), AllocError> {
    for _ in 0..times {
        bytes.extend_from_slice(piece)?;
    }
    Ok(())
}

/// Checks how a script ends over one input, which comes in pieces of one byte and of a thousand.
fn over<R: Threads + Wait + Sync + Abort>(
    rt: &R,
    alloc: Global,
    script: &[u8],
    input: &[u8],
    status: u8,
    out: &[u8],
    err: &[u8],
) -> Result<(), NoMemory> {
    ends(
        rt,
        alloc,
        &case_of(script, &[("in", input)], 1),
        status,
        out,
        err,
        None,
    )?;
    ends(
        rt,
        alloc,
        &case_of(script, &[("in", input)], 1000),
        status,
        out,
        err,
        None,
    )
}

const LENGTHS: &[u8] = b"t = lines in\nn = map t len f0\nsum n 0\n";

#[test]
fn a_line_is_a_text_or_too_long(rt: HostRuntime) -> Result<(), Fail> {
    let alloc = rt.alloc();
    let text = bytes_of(alloc, b'a', 65_536)?;
    over(&rt, alloc, LENGTHS, text.as_slice(), 0, b"65536\n", b"")?;
    let long = bytes_of(alloc, b'a', 65_537)?;
    over(
        &rt,
        alloc,
        LENGTHS,
        long.as_slice(),
        5,
        b"",
        b"thrill: in line 1 too long\n",
    )?;
    Ok(())
}

#[test]
fn the_longest_script_has_memory(rt: HostRuntime) -> Result<(), Fail> {
    let alloc = rt.alloc();
    // 256 lines of 512 bytes and an end each.
    let mut script = Vec::new(alloc);
    let mut out = Vec::new(alloc);
    script.extend_from_slice(b"g = generate 7")?;
    repeat(&mut script, b" ", 498)?;
    script.extend_from_slice(b"\n")?;
    for _ in 0..255 {
        script.extend_from_slice(b"size g")?;
        repeat(&mut script, b" ", 506)?;
        script.extend_from_slice(b"\n")?;
        out.extend_from_slice(b"7\n")?;
    }
    assert_eq!(rt; script.len(), 131_328);
    ends(
        &rt,
        alloc,
        &case_of(script.as_slice(), &[], 1000),
        0,
        out.as_slice(),
        b"",
        None,
    )?;
    Ok(())
}

#[test]
fn an_input_of_3_mebibytes_has_memory(rt: HostRuntime) -> Result<(), Fail> {
    let alloc = rt.alloc();
    let mut input = Vec::new(alloc);
    repeat(&mut input, b"a line of 31 bytes and its end.\n", 98_304)?;
    assert_eq!(rt; input.len(), 3 << 20);
    over(
        &rt,
        alloc,
        b"t = lines in\nsize t\n",
        input.as_slice(),
        0,
        b"98304\n",
        b"",
    )?;
    Ok(())
}

#[test]
fn the_largest_row_has_memory(rt: HostRuntime) -> Result<(), Fail> {
    let alloc = rt.alloc();
    // Six columns of 65,536 bytes: 393,240 bytes in memory.
    let text = bytes_of(alloc, b'a', 65_536)?;
    let mut out = Vec::new(alloc);
    for _ in 0..5 {
        out.extend_from_slice(text.as_slice())?;
        out.extend_from_slice(b"\t")?;
    }
    out.extend_from_slice(text.as_slice())?;
    out.extend_from_slice(b"\n")?;
    let script = b"t = lines in\nm = map t f0 f0 f0 f0 f0 f0\nprint m\n";
    over(&rt, alloc, script, text.as_slice(), 0, out.as_slice(), b"")?;
    Ok(())
}
