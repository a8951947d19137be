//! A task that holds what it is lent.
ghost use Rattle.std.specs.Prelude.{◌≡◌, refl};
ghost use Rattle.std.proofs.Common.{◌∙◌};

use crate::lent_task::LentTask;
use std::snapshot::Snapshot;
use std::sync::Wait;
use worker_step::{Progress, Task};

/// A work with its desk, for the time of a phase.
#[derive(Drop)]
pub(crate) struct Held<H, W> {
    pub(crate) desk: H,
    pub(crate) work: W,
    /// The desk as it was at the start of the phase, of which a fault speaks. It has no bytes.
    pub(crate) began: Snapshot<H>,
    /// Keeps what two workers write at each step on different lines of the cache: tasks lie side by side in a vector.
    pub(crate) apart: [u64; 16],
}

impl<H, W> Held<H, W> {
    pub(crate) fn new(desk: H, work: W) -> Held<H, W>
        ensures desk { result.desk ≡ desk }
        ensures work { result.work ≡ work }
        ensures began { result.began.value ≡ desk }
    {
        let began = Snapshot::of(&desk);
        Held {
            desk,
            work,
            began,
            apart: [0; 16],
        }
    }
}

impl<H, W: LentTask<Desk = H>> Task for Held<H, W> {
    type Fault = W::Fault;

    ghost ready = { λ t. W.ready t.work t.desk × W.keeps t.began.value t.desk };

    ghost follows = { λ t u. W.follows t.work t.desk u.work u.desk × W.keeps t.desk u.desk × (u.began.value ≡ t.began.value) };

    ghost done = { λ t. W.done t.work t.desk };

    ghost faulted = { λ t e. W.faulted t.began.value e t.work t.desk };

    ghost left = { λ t. W.left t.work };

    fn step<R: Wait>(&mut self, rt: &R) -> Result<Progress, W::Fault> {
        self.work.step(rt, &mut self.desk)
    }

    ghost follows_refl = { λ t. (W.follows_refl t.work t.desk, W.keeps_refl t.desk, refl) };

    ghost follows_trans = { λ t u v p q. (W.follows_trans t.work u.work v.work t.desk u.desk v.desk p.0 q.0, W.keeps_trans t.desk u.desk v.desk p.1 q.1, q.2 ∙ p.2) };
}
