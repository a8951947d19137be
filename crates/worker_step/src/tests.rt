//! What no clause says: that workers run at once and each calls the gate, and which order a seed gives.

mod errand;
mod meeting;

use crate::way::Way;
use dia_edge::OpenGate;
use errand::{Errand, NEVER};
use meeting::Meeting;
use std::process::Abort;
use std::sync::Wait;
use std::sync::atomic::{AtomicU64, Ordering};
use std::thread::Threads;

/// How many steps with more to do the tasks have that fault somewhere.
const STEPS: u32 = 6;

#[test]
fn each_worker_comes_to_the_gate_while_the_others_wait(rt: HostRuntime) {
    let log = AtomicU64::new(0);
    for (count, phase, next) in [(1, 0, 1), (2, 7, 8), (4, u32::MAX, u32::MAX)] {
        let meeting = Meeting::new(count);
        let mut way = Way::Threads {
            gate: &meeting,
            phase,
        };
        let mut tasks = [0, 1, 2, 3].map(|rank| Errand::new(rank, rank, NEVER, &log));
        let (workers, _) = tasks.split_at_mut(count);
        assert_eq!(rt; way.run(&rt, workers), Ok(()));
        assert_eq!(rt; meeting.met(), count as u64, "of {count}");
        assert_eq!(rt;
            meeting.phases(),
            count as u64 * u64::from(phase),
            "of {count}"
        );
        if let Way::Threads { phase, .. } = way {
            assert_eq!(rt; phase, next);
        }
    }
}

/// Runs four tasks, of which those above a rank fault at their first step, and that of this rank later.
fn lowest_fault<R: Threads + Wait + Abort + Sync>(
    rt: &R,
    way: &mut Way<'_, OpenGate>,
    rank: u32,
    left: u32,
) {
    let log = AtomicU64::new(0);
    let mut tasks = [0, 1, 2, 3].map(|at| {
        let faults_at = if at < rank {
            NEVER
        } else if at == rank {
            left
        } else {
            STEPS
        };
        Errand::new(at, STEPS, faults_at, &log)
    });
    assert_eq!(rt;
        way.run(rt, &mut tasks),
        Err(rank),
        "rank {rank} with {left} left"
    );
    for task in &tasks {
        let ended = if task.rank < rank {
            0
        } else if task.rank == rank {
            left
        } else {
            STEPS
        };
        assert_eq!(rt; task.left, ended, "rank {rank} with {left} left");
    }
}

#[test]
fn the_lowest_fault_comes_when_all_have_ended(rt: HostRuntime) {
    for (rank, left) in [(0, 0), (0, STEPS), (1, 4), (2, 1), (3, 0), (3, STEPS)] {
        let mut threads = Way::Threads {
            gate: &OpenGate,
            phase: 0,
        };
        lowest_fault(&rt, &mut threads, rank, left);
        for seed in 0..10 {
            lowest_fault(&rt, &mut Way::Order { seed }, rank, left);
        }
    }
}

/// Runs tasks of 3, 0, 2 and 4 steps, each with one more that ends it, and answers the ranks in the order of steps:
/// one hexadecimal digit a step, counted from one.
fn order_of<R: Threads + Wait + Abort + Sync>(rt: &R, way: &mut Way<'_, OpenGate>) -> u64 {
    let log = AtomicU64::new(0);
    let mut tasks = [(0, 3), (1, 0), (2, 2), (3, 4)].map(|(rank, left)| Errand::new(
        rank, left, NEVER, &log,
    ));
    assert_eq!(rt; way.run(rt, &mut tasks), Ok(()));
    log.load(Ordering::SeqCst)
}

#[test]
fn a_seed_gives_one_order_from_phase_to_phase(rt: HostRuntime) {
    let cases = [
        (
            0,
            0x4_1234_4441_3311,
            0x2_1131_4334_4144,
            0x7407_8c76_7c05_60ea,
        ),
        (
            1,
            0x3_2111_4431_3444,
            0x1_3134_1234_1444,
            0xc9cc_af61_3e31_0133,
        ),
        (
            u64::MAX,
            0x1_4241_4143_4313,
            0x3_3123_1141_4444,
            0x1e42_698b_b9d9_c0a1,
        ),
    ];
    for (seed, first, second, last) in cases {
        for _ in 0..2 {
            let mut way = Way::Order { seed };
            assert_eq!(rt; order_of(&rt, &mut way), first, "of {seed}");
            assert_eq!(rt; order_of(&rt, &mut way), second, "of {seed}");
            if let Way::Order { seed: end } = way {
                assert_eq!(rt; end, last, "of {seed}");
            }
        }
    }
}
