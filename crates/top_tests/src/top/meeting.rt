//! A gate at which two workers meet.

use dia_edge::Gate;
use std::hint;
use std::sync::Wait;
use std::sync::atomic::{AtomicU64, Ordering};

/// How often a worker looks whether the other has come, before it goes on without it.
const LOOKS: u32 = 100_000_000;

/// Holds each of two workers until the other has come, and counts those who met the other.
#[derive(Drop)]
pub(super) struct Meeting {
    come: AtomicU64,
    met: AtomicU64,
}

impl Meeting {
    /// Nobody has come.
    pub(super) fn new() -> Meeting {
        Meeting {
            come: AtomicU64::new(0),
            met: AtomicU64::new(0),
        }
    }

    /// How many workers met the other.
    pub(super) fn met(&self) -> u64 {
        self.met.load(Ordering::SeqCst)
    }
}

impl Gate for Meeting {
    fn at<R: Wait>(&self, _rt: &R, _worker: u32, phase: u32) {
        if phase > 0 {
            return;
        }
        self.come.fetch_add(1, Ordering::SeqCst);
        for _ in 0..LOOKS {
            if self.come.load(Ordering::SeqCst) == 2 {
                self.met.fetch_add(1, Ordering::SeqCst);
                return;
            }
            hint::spin_loop();
        }
    }
}
