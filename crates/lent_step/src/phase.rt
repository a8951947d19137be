//! One phase of all workers, with their desks.
ghost use Rattle.std.specs.Prelude.{◌≡◌, ◌≤◌, ◌+◌, [], All, length, OnOk, IfOk, IfErr, vec_len, vec_capacity};
ghost use Rattle.std.specs.List.{AllZip};
ghost use Rattle.worker_step.specs.Tasks.{IsFaultOfLowest};
ghost use Rattle.worker_step.specs.Ways.{IsNextPhase};
ghost use Rattle.lent_step.specs.Lending.{AreHeld, IsReady, AllRan, IsFaultAt, OnNoMemory, OnRan, IfFault, HasRoom};

use crate::held::Held;
use crate::lent_task::LentTask;
use dia_edge::{Gate, NoMemory};
use std::alloc::Global;
use std::mem;
use std::sync::Wait;
use std::thread::Threads;
use worker_step::{MOST_TASKS, Task, Way};

/// Why a phase came to no good end.
#[derive(Debug, PartialEq, Eq, Drop)]
pub enum Stopped<F> {
    /// There was no memory to begin the phase: nothing was done.
    NoMemory,
    /// The fault of the work of the lowest rank that faulted, when all had ended.
    Fault(F),
}

/// Room for a phase's tasks, and for the way back.
struct Room<H, W> {
    tasks: Vec<Held<H, W>>,
    back: Vec<H>,
    ends: Vec<W>,
}

impl<H: Drop, W: Drop> Room<H, W> {
    fn new(alloc: Global, count: usize) -> Result<Room<H, W>, NoMemory>
        ensures { IfOk result (λ room. HasRoom count room) }
    {
        Ok(Room {
            tasks: Vec::with_capacity(alloc, count)?,
            back: Vec::with_capacity(alloc, count)?,
            ends: Vec::with_capacity(alloc, count)?,
        })
    }
}

/// Says what holds of desks and works that nothing moved.
fn unmoved<H, W: LentTask<Desk = H>>(desks: &[H], works: &[W])
    requires { length works.now ≡ length desks.now }
    ensures desks { AllZip W.keeps desks.now desks.now }
    ensures all { AllRan W.follows works.now desks.now works.now desks.now }
{}

/// Moves each desk into a task, with its work; there is room for all.
fn hold_all<H: Drop, W: Drop>(desks: Vec<H>, works: Vec<W>, tasks: &mut Vec<Held<H, W>>)
    requires long { vec_len works ≡ vec_len desks }
    requires room { (vec_len tasks.old ≡ 0) × (vec_len desks ≤ vec_capacity tasks.old) }
    ensures held { AreHeld tasks.new.items desks.items works.items }
    ensures len { vec_len tasks.new ≡ vec_len desks }
{
    let mut works = works.into_iter();
    for desk in desks {
        let Some(work) = works.next() else {
            unreachable!()
        };
        tasks.push_reserved(Held::new(desk, work));
    }
}

/// Moves each desk into a task that may be stepped, and leaves room for the way back.
fn begin<H: Drop, W: LentTask<Desk = H> + Drop>(
    desks: &mut Vec<H>,
    works: &mut Vec<W>,
    back: Vec<H>,
    ends: Vec<W>,
    tasks: &mut Vec<Held<H, W>>,
)
    requires long { vec_len works.old ≡ vec_len desks.old }
    requires ready { AllZip W.ready works.old.items desks.old.items }
    requires back { (vec_len back ≡ 0) × (vec_len desks.old ≤ vec_capacity back) }
    requires ends { (vec_len ends ≡ 0) × (vec_len desks.old ≤ vec_capacity ends) }
    requires tasks { (vec_len tasks.old ≡ 0) × (vec_len desks.old ≤ vec_capacity tasks.old) }
    ensures held { AreHeld tasks.new.items desks.old.items works.old.items }
    ensures ready { All (IsReady W.LentTask) tasks.new.items }
    ensures len { vec_len tasks.new ≡ vec_len desks.old }
    ensures back { (vec_len desks.new ≡ 0) × (vec_len desks.old ≤ vec_capacity desks.new) }
    ensures ends { (vec_len works.new ≡ 0) × (vec_len desks.old ≤ vec_capacity works.new) }
{
    hold_all(mem::replace(desks, back), mem::replace(works, ends), tasks);
}

/// Takes the tasks apart; there is room for all.
fn part_all<H: Drop, W: Drop>(tasks: Vec<Held<H, W>>, desks: &mut Vec<H>, works: &mut Vec<W>)
    requires desks { (vec_len desks.old ≡ 0) × (vec_len tasks ≤ vec_capacity desks.old) }
    requires works { (vec_len works.old ≡ 0) × (vec_len tasks ≤ vec_capacity works.old) }
    ensures desks { AllZip (λ task desk. desk ≡ task.desk) tasks.items desks.new.items }
    ensures works { AllZip (λ task work. work ≡ task.work) tasks.items works.new.items }
{
    for task in tasks {
        let Held {
            desk,
            work,
            began: _,
            apart: _,
        } = task;
        desks.push_reserved(desk);
        works.push_reserved(work);
    }
}

/// Runs the tasks of a vector.
fn run_all<R: Threads + Wait + Sync, G: Gate + Sync, T: Task<Fault = F> + Send, F: Send + Drop>(
    rt: &R,
    way: &mut Way<'_, G>,
    tasks: &mut Vec<T>,
) -> Result<(), F>
    requires few { vec_len tasks.old ≤ MOST_TASKS }
    requires ready { All T.ready tasks.old.items }
    ensures len { vec_len tasks.new ≡ vec_len tasks.old }
    ensures follows { AllZip T.follows tasks.old.items tasks.new.items }
    ensures done { OnOk result (All T.done tasks.new.items) }
    ensures faulted { IfErr result (λ fault. IsFaultOfLowest T.done T.faulted tasks.new.items fault) }
    ensures next { IsNextPhase (vec_len tasks.old) way.old way.new }
{
    way.run(rt, tasks.as_mut_slice())
}

/// Runs a phase whose tasks, and whose way back, have room.
fn run_held<
    R: Threads + Wait + Sync,
    G: Gate + Sync,
    H: Send + Drop,
    W: LentTask<Desk = H, Fault = F> + Send + Drop,
    F: Send + Drop,
>(
    rt: &R,
    way: &mut Way<'_, G>,
    desks: &mut Vec<H>,
    works: &mut Vec<W>,
    room: Room<H, W>,
) -> Result<(), F>
    requires few { vec_len desks.old ≤ MOST_TASKS }
    requires long { vec_len works.old ≡ vec_len desks.old }
    requires ready { AllZip W.ready works.old.items desks.old.items }
    requires room { HasRoom (vec_len desks.old) room }
    ensures desks { AllZip W.keeps desks.old.items desks.new.items }
    ensures all { AllRan W.follows works.old.items desks.old.items works.new.items desks.new.items }
    ensures done { OnOk result (AllZip W.done works.new.items desks.new.items) }
    ensures faulted { IfErr result (λ fault. IsFaultAt W.done W.faulted desks.old.items works.new.items desks.new.items fault) }
    ensures next { IsNextPhase (vec_len desks.old) way.old way.new }
{
    let Room {
        mut tasks,
        back,
        ends,
    } = room;
    begin(desks, works, back, ends, &mut tasks);
    let answer = run_all(rt, way, &mut tasks);
    part_all(tasks, desks, works);
    answer
}

/// Lends each worker's desk to the work of the same rank for one phase, and runs the works to their ends.
///
/// On every answer as many desks and works are back at the same ranks. Room for the way back is made before any is
/// moved, so that want of memory leaves everything as it was.
pub fn run_lent<
    R: Threads + Wait + Sync,
    G: Gate + Sync,
    H: Send + Drop,
    W: LentTask<Desk = H, Fault = F> + Send + Drop,
    F: Send + Drop,
>(
    rt: &R,
    alloc: Global,
    way: &mut Way<'_, G>,
    desks: &mut Vec<H>,
    works: &mut Vec<W>,
) -> Result<(), Stopped<F>>
    requires few { vec_len desks.old ≤ MOST_TASKS }
    requires long { vec_len works.old ≡ vec_len desks.old }
    requires ready { AllZip W.ready works.old.items desks.old.items }

    // On every answer.
    ensures desks { AllZip W.keeps desks.old.items desks.new.items }
    ensures all { AllRan W.follows works.old.items desks.old.items works.new.items desks.new.items }

    ensures done { OnOk result (AllZip W.done works.new.items desks.new.items) }
    ensures faulted { IfFault result (λ fault. IsFaultAt W.done W.faulted desks.old.items works.new.items desks.new.items fault) }
    ensures next { OnRan result (IsNextPhase (vec_len desks.old) way.old way.new) }
    ensures same_desks { OnNoMemory result (desks.new.items ≡ desks.old.items) }
    ensures same_works { OnNoMemory result (works.new.items ≡ works.old.items) }
    ensures same_way { OnNoMemory result (way.new ≡ way.old) }
{
    let Ok(room) = Room::new(alloc, desks.len()) else {
        unmoved(desks.as_slice(), works.as_slice());
        return Err(Stopped::NoMemory);
    };
    match run_held(rt, way, desks, works, room) {
        Ok(()) => Ok(()),
        Err(fault) => Err(Stopped::Fault(fault)),
    }
}
