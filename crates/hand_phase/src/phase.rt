//! One phase of all workers, with their hands.
ghost use Rattle.std.specs.Prelude.{◌≡◌, ◌≤◌, OnOk, vec_len};
ghost use Rattle.std.specs.List.{AllZip};
ghost use Rattle.worker_step.specs.Ways.{IsNextPhase};
ghost use Rattle.lent_step.specs.Lending.{AllRan, IsFaultAt, OnNoMemory, OnRan, IfFault};
ghost use Rattle.hand_phase.specs.Hands.{AllFollow};

use crate::hand_task::{AnyHand, HandTask};
use dia_edge::Gate;
use lent_step::{Stopped, run_lent};
use std::alloc::Global;
use std::snapshot::Snapshot;
use std::sync::Wait;
use std::thread::Threads;
use worker_step::{MOST_TASKS, Way};

/// Says of hands that were lent what each work keeps of its own.
fn follow<H: AnyHand, W: HandTask<H>>(began: Snapshot<Vec<H>>, hands: &[H], _works: &[W])
    requires { AllZip W.keeps began.value.items hands.now }
    ensures { AllFollow H.hand began.value.items hands.now }
{
    let _ = began;
}

/// Lends each worker's hand to the work of the same rank for one phase, and runs the works to their ends.
///
/// On every answer as many hands and works are back at the same ranks. Want of memory leaves everything as it was.
pub fn run_hands<
    R: Threads + Wait + Sync,
    G: Gate + Sync,
    H: AnyHand + Send + Drop,
    W: HandTask<H, Fault = F> + Send + Drop,
    F: Send + Drop,
>(
    rt: &R,
    alloc: Global,
    way: &mut Way<'_, G>,
    hands: &mut Vec<H>,
    works: &mut Vec<W>,
) -> Result<(), Stopped<F>>
    requires few { vec_len hands.old ≤ MOST_TASKS }
    requires long { vec_len works.old ≡ vec_len hands.old }
    requires ready { AllZip W.ready works.old.items hands.old.items }

    // On every answer.
    ensures follows { AllFollow H.hand hands.old.items hands.new.items }
    ensures keeps { AllZip W.keeps hands.old.items hands.new.items }
    ensures all { AllRan W.follows works.old.items hands.old.items works.new.items hands.new.items }

    ensures done { OnOk result (AllZip W.done works.new.items hands.new.items) }
    ensures faulted { IfFault result (λ fault. IsFaultAt W.done W.faulted hands.old.items works.new.items hands.new.items fault) }
    ensures next { OnRan result (IsNextPhase (vec_len hands.old) way.old way.new) }
    ensures same_hands { OnNoMemory result (hands.new.items ≡ hands.old.items) }
    ensures same_works { OnNoMemory result (works.new.items ≡ works.old.items) }
    ensures same_way { OnNoMemory result (way.new ≡ way.old) }
{
    let began = Snapshot::of(&*hands);
    let answer = run_lent(rt, alloc, way, hands, works);
    follow(began, hands.as_slice(), works.as_slice());
    answer
}
