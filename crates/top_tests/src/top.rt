//! Worked rows of the top call.

mod meeting;
mod sizes;
mod spilling;

use dia_edge::{Gate, MemDisk, MemShelf, MemSink, Name, NoMemory, OpenGate};
use std::alloc::Global;
use std::process::Abort;
use std::sync::Wait;
use std::test::Fail;
use std::thread::Threads;
use thrill_top::*;

/// What a shelf, standard output, standard error and a disk are to do.
#[derive(Clone, Copy)]
struct Case<'a> {
    words: &'a [&'a str],
    script: &'a [u8],
    inputs: &'a [(&'a str, &'a [u8])],
    step: usize,
    shelf_fails: u64,
    out_fails: u64,
    err_fails: u64,
    disk_fails: u64,
}

/// What a call came to.
#[derive(Drop)]
struct Seen {
    end: TopEnd<MemDisk>,
    shelf: MemShelf,
    stdout: MemSink,
    stderr: MemSink,
}

fn fails(alloc: Global, call: u64) -> Result<Vec<u64>, NoMemory> {
    let mut calls = Vec::new(alloc);
    if call > 0 {
        calls.push(call)?;
    }
    Ok(calls)
}

fn names(alloc: Global, words: &[&str]) -> Result<Vec<Name>, NoMemory> {
    let mut names = Vec::new(alloc);
    for word in words {
        names.push(Name::of(alloc, word)?)?;
    }
    Ok(names)
}

fn file(alloc: Global, name: &str, bytes: &[u8]) -> Result<(Name, Vec<u8>), NoMemory> {
    Ok((Name::of(alloc, name)?, Vec::from_slice(alloc, bytes)?))
}

/// Bytes as a text, where they are one.
fn text(bytes: &[u8]) -> &str {
    match str::from_utf8(bytes) {
        Ok(text) => text,
        Err(_) => "(not UTF-8)",
    }
}

/// Calls the program.
fn see<R: Threads + Wait + Sync, G: Gate + Sync>(
    rt: &R,
    alloc: Global,
    case: &Case<'_>,
    gate: &G,
) -> Result<Seen, NoMemory> {
    let mut files = Vec::new(alloc);
    if case.script.len() > 0 {
        files.push(file(alloc, "s", case.script)?)?;
    }
    for (name, bytes) in case.inputs {
        files.push(file(alloc, name, bytes)?)?;
    }
    let mut shelf = MemShelf::new(files, case.step.max(1), fails(alloc, case.shelf_fails)?);
    let mut stdout = MemSink::new(alloc, fails(alloc, case.out_fails)?);
    let mut stderr = MemSink::new(alloc, fails(alloc, case.err_fails)?);
    let disk = MemDisk::new(alloc, fails(alloc, case.disk_fails)?);
    let words = names(alloc, case.words)?;
    let end = thrill_call(
        rt,
        alloc,
        words.as_slice(),
        &mut shelf,
        &mut stdout,
        &mut stderr,
        disk,
        gate,
    );
    Ok(Seen {
        end,
        shelf,
        stdout,
        stderr,
    })
}

/// Checks that the call ends with this status and writes just these bytes, and asked for these names.
fn ends<R: Threads + Wait + Sync + Abort>(
    rt: &R,
    alloc: Global,
    case: &Case<'_>,
    status: u8,
    out: &[u8],
    err: &[u8],
    asked: Option<&[&str]>,
) -> Result<(), NoMemory> {
    let seen = see(rt, alloc, case, &OpenGate)?;
    let script = text(case.script);
    assert_eq!(rt;
        (
            seen.end.status,
            text(seen.stdout.bytes()),
            text(seen.stderr.bytes())
        ),
        (status, text(out), text(err)),
        "the script {script}"
    );
    assert!(rt; seen.stdout.bytes() == out, "the script {script}");
    if let Some(asked) = asked {
        assert!(rt; are_named(seen.shelf.asked(), asked), "the script {script}");
    }
    Ok(())
}

/// Whether these are the names, in order.
fn are_named(names: &[Name], texts: &[&str]) -> bool {
    names.len() == texts.len()
        && names
            .iter()
            .zip(texts)
            .all(|(name, text)| name.text() == *text)
}

const RUN: &[&str] = &["run", "s"];

fn case_of<'a>(script: &'a [u8], inputs: &'a [(&'a str, &'a [u8])], step: usize) -> Case<'a> {
    Case {
        words: RUN,
        script,
        inputs,
        step,
        shelf_fails: 0,
        out_fails: 0,
        err_fails: 0,
        disk_fails: 0,
    }
}

/// What each of the log's examples reads, five lines.
const LOG: &[(&str, &[u8])] = &[(
    "access.log",
    b"10.0.0.1 GET /index.html 200 5120\n10.0.0.7 GET /search 500 312\n10.0.0.1 POST /login 302 0\n10.0.0.9 GET /search 500 298\n10.0.0.3 GET /about.html 200 2048\n",
)];

/// A script, its inputs, the status, what is printed, and the fault's line.
type Row<'a> = (&'a [u8], &'a [(&'a str, &'a [u8])], u8, &'a [u8], &'a [u8]);

const TWICE: &[u8] = b"t = lines in\nm = map t f0 f0\nprint m\n";

const TEXTS: &[u8] = b"t = lines in\nsize t\nprint t\n";

const ROWS: &[Row<'static>] = &[
    (TWICE, &[("in", b"a b\nc\n")], 0, b"a b\ta b\nc\tc\n", b""),
    (TWICE, &[("in", b"")], 0, b"", b""),
    (
        b"t = lines in\nm = map t f0 f0\nprint m\nu = lines nowhere\n",
        &[("in", b"a b\nc")],
        0,
        b"a b\ta b\nc\tc\n",
        b"",
    ),
    (
        b"t = lines in\nm = map t f0 f0\nprint m\ns = zork m 1\n",
        &[("in", b"a\n")],
        3,
        b"",
        b"thrill: script line 4: UnknownWord\n",
    ),
    (b"# none\n", &[], 0, b"", b""),
    (
        b"t = lines in\nn = map t len f0\nprint t\nsize t\nsum n 0\n",
        &[("in", b"")],
        0,
        b"0\n0\n",
        b"",
    ),
    (TEXTS, &[("in", b"x\ny")], 0, b"2\nx\ny\n", b""),
    (TEXTS, &[("in", b"x\n\n")], 0, b"2\nx\n\n", b""),
    (TEXTS, &[("in", b"\n")], 0, b"1\n\n", b""),
    (
        b"g = generate 2\nm = map g sub 0 1\nsum m 0\n",
        &[],
        0,
        b"18446744073709551614\n",
        b"",
    ),
    (
        b"t = lines in\nn = map t num f0\nprint n\n",
        &[("in", b"007\n18446744073709551616\n\n")],
        0,
        b"7\n0\n0\n",
        b"",
    ),
    (
        b"t = lines in\nw = flatmap t words 0\nf = filter w eq f0 'b\nsize f\ng = generate 2\nh = flatmap g spread 0 3\nprint h\n",
        &[("in", b"a b a b\n")],
        0,
        b"2\n0\n1\n2\n1\n2\n3\n",
        b"",
    ),
    (
        b"a = lines x\nprint a\nb = lines y\nprint b\nprint a\n",
        &[("x", b"1\n"), ("y", b"2\n")],
        0,
        b"1\n2\n1\n",
        b"",
    ),
    (
        b"a = lines x\nb = lines y\nprint b\nprint a\n",
        &[],
        4,
        b"",
        b"thrill: missing y\n",
    ),
    (
        b"a = lines x\nb = lines y\nprint a\nprint b\n",
        &[("x", b"1\n")],
        4,
        b"1\n",
        b"thrill: missing y\n",
    ),
    (TWICE, &[], 4, b"", b"thrill: missing in\n"),
    (b"", &[], 4, b"", b"thrill: missing s\n"),
    // The examples: errors, columns and bytes.
    (
        b"log = lines access.log\nbad = filter log eq word 3 f0 '500\nprint bad\nsize bad\n",
        LOG,
        0,
        b"10.0.0.7 GET /search 500 312\n10.0.0.9 GET /search 500 298\n2\n",
        b"",
    ),
    (
        b"log = lines access.log\ncut = map log word 2 f0 word 0 f0\nprint cut\n",
        LOG,
        0,
        b"/index.html\t10.0.0.1\n/search\t10.0.0.7\n/login\t10.0.0.1\n/search\t10.0.0.9\n/about.html\t10.0.0.3\n",
        b"",
    ),
    (
        b"log = lines access.log\nbytes = map log num word 4 f0\nsum bytes 0\n",
        LOG,
        0,
        b"7778\n",
        b"",
    ),
    (
        b"g = generate 4294967296\na = flatmap g spread 0 16\nb = flatmap a spread 0 16\nc = flatmap b spread 0 16\nsize c\n",
        &[],
        7,
        b"",
        b"thrill: script line 5: too many rows\n",
    ),
    (
        b"g = generate 4294967296\na = flatmap g spread 0 16\nb = flatmap a spread 0 16\nc = flatmap b spread 0 16\nsum c 0\n",
        &[],
        7,
        b"",
        b"thrill: script line 5: too many rows\n",
    ),
    (
        b"g = generate 4294967296\na = flatmap g spread 0 16\nb = flatmap a spread 0 16\nc = flatmap b spread 0 16\nprint c\n",
        &[],
        7,
        b"",
        b"thrill: script line 5: too many rows\n",
    ),
    (
        b"a = generate 1\na = zork b\n",
        &[],
        3,
        b"",
        b"thrill: script line 2: NameTaken\n",
    ),
    (
        b"b = zork a\n",
        &[],
        3,
        b"",
        b"thrill: script line 1: UnknownWord\n",
    ),
    (
        b"b = map a f0\n",
        &[],
        3,
        b"",
        b"thrill: script line 1: UnknownName\n",
    ),
    (
        b"a = generate\n",
        &[],
        3,
        b"",
        b"thrill: script line 1: BadForm\n",
    ),
];

/// Checks each row, where the shelf gives so many bytes at a time.
fn all_end<R: Threads + Wait + Sync + Abort>(
    rt: &R,
    alloc: Global,
    step: usize,
) -> Result<(), NoMemory> {
    for (script, inputs, status, out, err) in ROWS {
        ends(
            rt,
            alloc,
            &case_of(script, inputs, step),
            *status,
            out,
            err,
            None,
        )?;
    }
    Ok(())
}

const A: &[(&str, &[u8])] = &[("in", b"a\n")];

/// Objects that fail.
fn refuses<R: Threads + Wait + Sync + Abort>(
    rt: &R,
    alloc: Global,
    step: usize,
) -> Result<(), NoMemory> {
    let shelf = Case {
        shelf_fails: 2,
        ..case_of(TWICE, A, step)
    };
    ends(
        rt,
        alloc,
        &shelf,
        8,
        b"",
        b"thrill: read failed\n",
        Some(&["s"]),
    )?;
    let out = Case {
        out_fails: 1,
        ..case_of(TWICE, A, step)
    };
    ends(
        rt,
        alloc,
        &out,
        9,
        b"",
        b"thrill: write failed\n",
        Some(&["s", "in"]),
    )?;
    let err = Case {
        err_fails: 1,
        ..case_of(b"", A, step)
    };
    ends(rt, alloc, &err, 4, b"", b"", Some(&["s"]))?;
    // A number's line and a fault's line are one write each.
    let once = Case {
        out_fails: 2,
        err_fails: 2,
        ..case_of(
            b"g = generate 3\nsize g\nt = lines nowhere\nprint t\n",
            A,
            step,
        )
    };
    ends(
        rt,
        alloc,
        &once,
        4,
        b"3\n",
        b"thrill: missing nowhere\n",
        Some(&["s", "nowhere"]),
    )?;
    Ok(())
}

/// Words that mean nothing.
const USAGES: &[&[&str]] = &[
    &[],
    &["run"],
    &["run", "s", "t"],
    &["run", "-s"],
    &["run", "s", "--block", "4095"],
    &["run", "s", "--workers", "17"],
    &["run", "s", "--workers", "2", "--workers", "2"],
];

#[test]
fn words_mean_a_run_or_are_refused(rt: HostRuntime) -> Result<(), Fail> {
    let alloc = rt.alloc();
    for words in USAGES {
        let case = Case {
            words,
            ..case_of(TWICE, A, 1000)
        };
        ends(&rt, alloc, &case, 2, b"", b"thrill: usage\n", Some(&[]))?;
    }
    let two = Case {
        words: &["run", "--workers=2", "s"],
        ..case_of(TWICE, A, 1000)
    };
    ends(&rt, alloc, &two, 0, b"a\ta\n", b"", Some(&["s", "in"]))?;
    Ok(())
}

#[test]
fn scripts_run(rt: HostRuntime) -> Result<(), Fail> {
    all_end(&rt, rt.alloc(), 1)?;
    all_end(&rt, rt.alloc(), 1000)?;
    Ok(())
}

/// Checks how two actions on one input end, where this call of the shelf fails.
fn twice_used<R: Threads + Wait + Sync + Abort>(
    rt: &R,
    alloc: Global,
    call: u64,
    status: u8,
    err: &[u8],
) -> Result<(), NoMemory> {
    let case = Case {
        shelf_fails: call,
        ..case_of(TEXTS, A, 1000)
    };
    let out: &[u8] = if status == 0 { b"1\na\n" } else { b"" };
    ends(rt, alloc, &case, status, out, err, Some(&["s", "in"]))
}

#[test]
fn an_input_of_two_actions_is_read_once(rt: HostRuntime) -> Result<(), Fail> {
    twice_used(&rt, rt.alloc(), 6, 8, b"thrill: read failed\n")?;
    twice_used(&rt, rt.alloc(), 7, 0, b"")?;
    Ok(())
}

/// A script with lines that no action needs, and two lines of one input.
const SOME_NEEDED: &[u8] =
    b"n = lines nowhere\na = lines in\nb = lines in\nsize b\nsize a\nsize b\n";

#[test]
fn just_the_inputs_that_actions_need_are_opened(rt: HostRuntime) -> Result<(), Fail> {
    let case = case_of(SOME_NEEDED, A, 1000);
    ends(
        &rt,
        rt.alloc(),
        &case,
        0,
        b"1\n1\n1\n",
        b"",
        Some(&["s", "in", "in"]),
    )?;
    Ok(())
}

#[test]
fn faults_have_their_status_and_line(rt: HostRuntime) -> Result<(), Fail> {
    refuses(&rt, rt.alloc(), 1)?;
    refuses(&rt, rt.alloc(), 1000)?;
    Ok(())
}
