//! Lists larger than the pool, and workers.

use super::meeting::Meeting;
use super::{Case, Seen, case_of, see, text};
use dia_edge::{Disk, Held, NoMemory, OpenGate};
use std::alloc::Global;
use std::process::Abort;
use std::sync::Wait;
use std::test::Fail;
use std::thread::Threads;
use thrill_top::TopFault;

/// One worker and 13 frames of 32,768 bytes.
const SMALL: &[&str] = &[
    "run",
    "s",
    "--workers",
    "1",
    "--block",
    "32768",
    "--pool",
    "425984",
];

const CACHED: &[u8] = b"g = generate 200000\nc = cache g\nsum c 0\n";

fn with_words<'a>(words: &'a [&'a str], script: &'a [u8]) -> Case<'a> {
    Case {
        words,
        ..case_of(script, &[], 1000)
    }
}

/// Checks that the call prints this and ends with 0.
fn prints<R: Threads + Wait + Sync + Abort>(
    rt: &R,
    alloc: Global,
    case: &Case<'_>,
    out: &[u8],
) -> Result<Seen, NoMemory> {
    let seen = see(rt, alloc, case, &OpenGate)?;
    assert_eq!(rt; (seen.end.status, seen.stderr.bytes().len()), (0, 0));
    assert!(rt; seen.stdout.bytes() == out);
    Ok(seen)
}

#[test]
fn a_pool_of_just_as_many_frames_as_needed_is_large_enough(rt: HostRuntime) -> Result<(), Fail> {
    let alloc = rt.alloc();
    let script = b"g = generate 2\nm = map g sub 0 1\nsum m 0\n";
    prints(
        &rt,
        alloc,
        &with_words(SMALL, script),
        b"18446744073709551614\n",
    )?;
    let words = &[
        "run",
        "s",
        "--workers",
        "1",
        "--block",
        "32768",
        "--pool",
        "425983",
    ];
    let seen = see(&rt, alloc, &with_words(words, script), &OpenGate)?;
    assert!(&rt;
        matches!(
            &seen.end.fault,
            Some(TopFault::PoolTooSmall {
                frames: 12,
                need: 13
            })
        )
    );
    assert_eq!(&rt;
        (seen.end.status, text(seen.stderr.bytes())),
        (6, "thrill: pool has 12 frames, needs 13\n")
    );
    assert_eq!(&rt;
        (seen.stdout.bytes().len(), seen.shelf.asked().len()),
        (0, 1)
    );
    Ok(())
}

/// The number that a row of one number has, where the bytes begin with one.
fn number_in(bytes: &[u8]) -> Option<u64> {
    let (number, _) = bytes.split_first_chunk::<8>()?;
    Some(u64::from_le_bytes(*number))
}

/// Whether a slot has the encoded rows of one or more consecutive numbers below 200,000 and nothing else.
fn is_consecutive(held: &Held) -> bool {
    let Some(first) = number_in(held.bytes.as_slice()) else {
        return false;
    };
    let mut next = first;
    for row in held.bytes.chunks(8) {
        if number_in(row) != Some(next) || next >= 200_000 {
            return false;
        }
        next = next.saturating_add(1);
    }
    true
}

#[test]
fn a_list_larger_than_the_pool_is_spilled(rt: HostRuntime) -> Result<(), Fail> {
    let alloc = rt.alloc();
    let seen = prints(&rt, alloc, &with_words(SMALL, CACHED), b"19999900000\n")?;
    assert!(&rt; seen.end.disk.write_count() >= 35);
    let consecutive = seen
        .end
        .disk
        .held()
        .iter()
        .filter(|held| is_consecutive(held))
        .count();
    assert!(&rt; consecutive >= 35);
    Ok(())
}

#[test]
fn a_disk_that_fails_ends_the_call(rt: HostRuntime) -> Result<(), Fail> {
    let case = Case {
        disk_fails: 7,
        ..with_words(SMALL, CACHED)
    };
    let seen = see(&rt, rt.alloc(), &case, &OpenGate)?;
    assert_eq!(&rt;
        (
            seen.end.status,
            seen.stdout.bytes().len(),
            text(seen.stderr.bytes())
        ),
        (10, 0, "thrill: disk failed\n")
    );
    Ok(())
}

#[test]
fn a_size_reads_no_block_at_a_lists_last_use(rt: HostRuntime) -> Result<(), Fail> {
    let alloc = rt.alloc();
    let script = b"g = generate 200000\nc = cache g\nsize c\n";
    let seen = prints(&rt, alloc, &with_words(SMALL, script), b"200000\n")?;
    let case = Case {
        disk_fails: seen.end.disk.write_count().saturating_add(1),
        ..with_words(SMALL, script)
    };
    prints(&rt, alloc, &case, b"200000\n")?;
    Ok(())
}

/// The schedules, threads among them.
const SCHEDULES: &[&str] = &["--schedule=0", "--schedule=1", "--schedule=2"];

#[test]
fn four_workers_spill_whatever_the_schedule(rt: HostRuntime) -> Result<(), Fail> {
    let alloc = rt.alloc();
    for schedule in SCHEDULES {
        let words = &[
            "run",
            "s",
            "--workers=4",
            "--block=32768",
            "--pool=2097152",
            *schedule,
        ];
        let script = b"g = generate 1000000\nc = cache g\nsum c 0\n";
        let seen = prints(&rt, alloc, &with_words(words, script), b"499999500000\n")?;
        assert!(&rt; seen.end.disk.write_count() >= 180);
    }
    Ok(())
}

#[test]
fn two_workers_work_at_once(rt: HostRuntime) -> Result<(), Fail> {
    let gate = Meeting::new();
    let script = b"g = generate 5\nc = cache g\nprint c\n";
    let case = with_words(&["run", "s", "--workers", "2"], script);
    let seen = see(&rt, rt.alloc(), &case, &gate)?;
    assert_eq!(&rt;
        (seen.end.status, text(seen.stdout.bytes())),
        (0, "0\n1\n2\n3\n4\n")
    );
    assert_eq!(&rt; gate.met(), 2);
    Ok(())
}

#[test]
fn a_row_that_spans_blocks_is_cached(rt: HostRuntime) -> Result<(), Fail> {
    let alloc = rt.alloc();
    let mut input = Vec::new(alloc);
    for _ in 0..60_000 {
        input.push(b'a')?;
    }
    input.extend_from_slice(b"\nb\n")?;
    let inputs = &[("in", input.as_slice())];
    let script = b"t = lines in\nc = cache t\nm = map c len f0 f0\nprint m\n";
    let case = Case {
        words: &["run", "s", "--workers", "3", "--block", "4096"],
        ..case_of(script, inputs, 1000)
    };
    let seen = see(&rt, alloc, &case, &OpenGate)?;
    let mut out = Vec::new(alloc);
    out.extend_from_slice(b"60000\t")?;
    out.extend_from_slice(input.as_slice())?;
    out.truncate(60_006);
    out.extend_from_slice(b"\n1\tb\n")?;
    assert_eq!(&rt; seen.end.status, 0);
    assert!(&rt; seen.stdout.bytes() == out.as_slice());
    Ok(())
}

#[test]
fn a_cache_is_let_go_after_its_last_reader(rt: HostRuntime) -> Result<(), Fail> {
    // Two lists of 49 blocks each: the second one has the slots that the first one left.
    let script =
        b"g = generate 200000\nc = cache g\nsum c 0\nm = map c f0 1\nsum m 1\nf = filter c lt f0 10\nsize f\nd = cache g\nsum d 0\nsize d\nsum d 0\n";
    let seen = prints(
        &rt,
        rt.alloc(),
        &with_words(SMALL, script),
        b"19999900000\n200000\n10\n19999900000\n200000\n19999900000\n",
    )?;
    assert!(&rt; seen.end.disk.write_count() >= 70);
    assert!(&rt; seen.end.disk.held().len() <= 49);
    Ok(())
}
