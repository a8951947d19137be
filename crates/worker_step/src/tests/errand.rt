//! A task that counts down, and faults at a number of its own.
ghost use Rattle.std.specs.Prelude.{◌≡◌, refl, ⊤};
ghost use Rattle.std.proofs.Common.{◌∙◌};

use crate::task::{Progress, Task};
use std::sync::Wait;
use std::sync::atomic::{AtomicU64, Ordering};

/// The number of steps left at which no task faults.
pub(super) const NEVER: u32 = u32::MAX;

/// Counts its steps down to the end, or to the number at which it faults with its rank.
#[derive(Drop)]
pub(super) struct Errand<'l> {
    pub(super) rank: u32,
    pub(super) left: u32,
    faults_at: u32,
    log: &'l AtomicU64,
}

impl<'l> Errand<'l> {
    pub(super) fn new(rank: u32, left: u32, faults_at: u32, log: &'l AtomicU64) -> Errand<'l> {
        Errand {
            rank,
            left,
            faults_at,
            log,
        }
    }
}

impl Task for Errand<'_> {
    type Fault = u32;

    ghost ready = { λ t. ⊤ };

    ghost follows = { λ t u. u.rank ≡ t.rank };

    ghost done = { λ t. t.left ≡ 0 };

    ghost faulted = { λ t fault. fault ≡ t.rank };

    ghost left = { λ t. t.left };

    fn step<R: Wait>(&mut self, _rt: &R) -> Result<Progress, u32> {
        let steps = self.log.load(Ordering::SeqCst);
        let digit = u64::from(self.rank) + 1;
        self.log.store(steps.wrapping_mul(16).wrapping_add(digit), Ordering::SeqCst);
        if self.left == self.faults_at {
            return Err(self.rank);
        }
        if self.left == 0 {
            return Ok(Progress::Done);
        }
        self.left -= 1;
        Ok(Progress::More)
    }

    ghost follows_refl = { λ t. refl };

    ghost follows_trans = { λ a b c p q. q ∙ p };
}
