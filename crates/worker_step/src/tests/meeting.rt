//! A gate at which workers meet.

use dia_edge::Gate;
use std::hint;
use std::sync::Wait;
use std::sync::atomic::{AtomicU64, Ordering};

/// How often a worker looks whether the others have come, before it goes on without them.
const LOOKS: u32 = 100_000_000;

/// Holds each worker until all have come, and counts those who met all others.
///
/// Who has come is a number with one hexadecimal digit a rank.
#[derive(Drop)]
pub(super) struct Meeting {
    all: u64,
    come: AtomicU64,
    phases: AtomicU64,
    met: AtomicU64,
}

impl Meeting {
    /// A meeting of the first so many workers, at most four.
    pub(super) fn new(count: usize) -> Meeting {
        let all = [0, 0x1, 0x11, 0x111, 0x1111]
            .get(count)
            .copied()
            .unwrap_or(0);
        Meeting {
            all,
            come: AtomicU64::new(0),
            phases: AtomicU64::new(0),
            met: AtomicU64::new(0),
        }
    }

    /// How many workers met all others.
    pub(super) fn met(&self) -> u64 {
        self.met.load(Ordering::SeqCst)
    }

    /// The sum of the phases that they named.
    pub(super) fn phases(&self) -> u64 {
        self.phases.load(Ordering::SeqCst)
    }
}

impl Gate for Meeting {
    fn at<R: Wait>(&self, _rt: &R, worker: u32, phase: u32) {
        let digit = [0x1, 0x10, 0x100, 0x1000].get(worker as usize).copied();
        self.phases.fetch_add(u64::from(phase), Ordering::SeqCst);
        self.come.fetch_add(digit.unwrap_or(0), Ordering::SeqCst);
        for _ in 0..LOOKS {
            if self.come.load(Ordering::SeqCst) == self.all {
                self.met.fetch_add(1, Ordering::SeqCst);
                return;
            }
            hint::spin_loop();
        }
    }
}
