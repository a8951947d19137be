//! Worked command lines.

use crate::{Command, words_mean};
use dia_edge::{Name, NoMemory};
use std::alloc::Global;
use std::test::Fail;

/// A script's name, the workers, the bytes of the pool and of a block, and the schedule.
type Told<'a> = (&'a str, u32, u64, u32, u64);

const DEFAULTS: Told<'static> = ("s", 4, 67_108_864, 65_536, 0);

const CASES: &[(&[&str], Option<Told<'static>>)] = &[
    (&[], None),
    (&["run"], None),
    (&["walk", "s"], None),
    (&["run", "s"], Some(DEFAULTS)),
    (&["run", "s", "t"], None),
    (&["run", ""], None),
    (&["run", "-s"], None),
    (&["run", "s", "--threads=2"], None),
    (&["run", "--workers", "17", "s"], None),
    (
        &["run", "s", "--workers", "16"],
        Some(("s", 16, 67_108_864, 65_536, 0)),
    ),
    (&["run", "s", "--workers", "2", "--workers", "2"], None),
    (
        &["run", "--workers=2", "s"],
        Some(("s", 2, 67_108_864, 65_536, 0)),
    ),
    (&["run", "--workers", "--pool", "s"], None),
    (&["run", "--block", "4095", "s"], None),
    (
        &["run", "s", "--pool=1099511627776"],
        Some(("s", 4, 1 << 40, 65_536, 0)),
    ),
    (&["run", "s", "--pool=1099511627777"], None),
    (
        &["run", "s", "--schedule", "18446744073709551615"],
        Some(("s", 4, 67_108_864, 65_536, u64::MAX)),
    ),
    (&["run", "s", "--schedule", "18446744073709551616"], None),
    (&["run", "s", "--workers"], None),
    (&["run", "s", "--workers="], None),
    (
        &[
            "run",
            "--pool",
            "425984",
            "s",
            "--workers",
            "1",
            "--block",
            "32768",
        ],
        Some(("s", 1, 425_984, 32_768, 0)),
    ),
];

fn names(alloc: Global, words: &[&str]) -> Result<Vec<Name>, NoMemory> {
    let mut names = Vec::new(alloc);
    for word in words {
        names.push(Name::of(alloc, word)?)?;
    }
    Ok(names)
}

fn told(command: &Option<Command>) -> Option<Told<'_>> {
    let Some(Command::Run(job)) = command else {
        return None;
    };
    Some((
        job.script.text(),
        job.workers,
        job.limit,
        job.block,
        job.schedule,
    ))
}

#[test]
fn words_mean_a_run_or_nothing(rt: HostRuntime) -> Result<(), Fail> {
    let alloc = rt.alloc();
    for (words, meaning) in CASES {
        let names = names(alloc, words)?;
        let command = words_mean(alloc, names.as_slice())?;
        assert_eq!(rt; told(&command), *meaning);
    }
    Ok(())
}
