//! One task at a time makes one step, in an order that a generator picks.
ghost use Rattle.std.specs.Prelude.{◌≡◌, ◌<◌, ◌≤◌, ◌+◌, ◌-◌, ◌%◌, ◌/◌, ◌^◌, suc, All, Some, None, true, false, length, slice_get, slice_index_or, OnOk, OnSome, IfErr, IfSome, IfNone};
ghost use Rattle.std.specs.List.{AllZip};
ghost use Rattle.worker_step.specs.Tasks.{IsFaultOfLowest};
ghost use Rattle.worker_step.specs.Order.{next_number, IsDrawn, live_from, picked, steps_left, noted, Stands};

use crate::task::{MOST_TASKS, Progress, Task};
use std::sync::Wait;

/// What the generator multiplies by.
const FACTOR: u64 = 6_364_136_223_846_793_005;

/// What the generator then adds.
const SUMMAND: u64 = 1_442_695_040_888_963_407;

/// How many low bits of a number are left out of what is drawn.
const BITS_LEFT_OUT: u32 = 33;

/// The generator's number after this one.
fn number_after(seed: u64) -> u64
    ensures { result ≡ next_number seed }
{
    seed.wrapping_mul(FACTOR).wrapping_add(SUMMAND)
}

/// How many tasks are live: those that haven't ended.
fn live_count(live: &[bool]) -> usize
    ensures { result ≡ length (live_from 0 live.now) }
{
    live.iter().filter(|is_live| **is_live).count()
}

/// The rank of the live task at this place among the live ones.
fn live_rank(live: &[bool], place: usize) -> Option<usize>
    ensures { result ≡ slice_get (live_from 0 live.now) place }
{
    let mut left = place;
    for (rank, is_live) in live.iter().enumerate() {
        if *is_live {
            if left == 0 {
                return Some(rank);
            }
            left -= 1;
        }
    }
    None
}

/// The rank of the task that makes the next step; none where all have ended.
fn draw(seed: &mut u64, live: &[bool]) -> Option<usize>
    ensures picked { result ≡ picked seed.old live.now }
    ensures next { OnSome result (seed.new ≡ next_number seed.old) }
    ensures kept { IfNone result (seed.new ≡ seed.old) }
    ensures live { IfSome result (λ rank. (rank < length live.now) × (slice_index_or live.now rank true ≡ true)) }
    ensures none { IfNone result (All (λ is_live. is_live ≡ false) live.now) }
{
    let count = live_count(live);
    if count == 0 {
        return None;
    }
    *seed = number_after(*seed);
    let place = (*seed >> BITS_LEFT_OUT) % count as u64;
    live_rank(live, place as usize)
}

/// Makes one step of a live task, and notes whether it ended, and the fault of the lowest rank.
fn take_step<R: Wait, T: Task<Fault = F>, F: Drop>(
    rt: &R,
    rank: usize,
    tasks: &mut [T],
    live: &mut [bool],
    fault: &mut Option<(usize, F)>,
)
    requires within { rank < length tasks.old }
    requires live { slice_index_or live.old rank true ≡ true }
    requires stands { Stands T.Task tasks.old live.old fault.old }
    ensures stands { Stands T.Task tasks.new live.new fault.new }
    ensures follows { AllZip T.follows tasks.old tasks.new }
    ensures falls { steps_left T.left tasks.new live.new < steps_left T.left tasks.old live.old }
    ensures one { length (live_from 0 live.old) ≤ suc (length (live_from 0 live.new)) }
{
    match tasks[rank].step(rt) {
        Ok(Progress::More) => {}
        Ok(Progress::Done) => live[rank] = false,
        Err(new) => {
            live[rank] = false;
            note(fault, rank, new);
        }
    }
}

/// Keeps the fault of the lower rank.
fn note<F: Drop>(fault: &mut Option<(usize, F)>, rank: usize, new: F)
    ensures { fault.new ≡ noted fault.old rank new }
{
    match fault {
        Some((lowest, _)) if *lowest < rank => {}
        _ => *fault = Some((rank, new)),
    }
}

/// Steps the tasks as the generator picks, until all have ended.
pub(crate) fn run_in_order<R: Wait, T: Task<Fault = F>, F: Drop>(
    rt: &R,
    seed: &mut u64,
    tasks: &mut [T],
) -> Result<(), F>
    requires few { length tasks.old ≤ MOST_TASKS }
    requires ready { All T.ready tasks.old }
    ensures follows { AllZip T.follows tasks.old tasks.new }
    ensures done { OnOk result (All T.done tasks.new) }
    ensures faulted { IfErr result (λ e. IsFaultOfLowest T.done T.faulted tasks.new e) }
    ensures drawn { IsDrawn (length tasks.old) seed.old seed.new }
{
    let mut marks = [true; MOST_TASKS];
    let (live, _) = marks.split_at_mut(tasks.len());
    let mut fault = None;
    'steps: while let Some(rank) = draw(seed, live) {
        take_step(rt, rank, tasks, live, &mut fault);
    }
    match fault {
        None => Ok(()),
        Some((_, fault)) => Err(fault),
    }
}
