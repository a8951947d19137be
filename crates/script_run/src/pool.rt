//! A run in a pool of its own.
ghost use Rattle.std.specs.Prelude.{◌≡◌, ◌/◌, ◌<◌, ◌≤◌, ◌⊎◌, ℕ, All, Err, IfErr, is_some, vec_len, vec_capacity};
ghost use Rattle.std.specs.List.{AllZip};
ghost use Rattle.row_defs.specs.Inputs.{Inputs};
ghost use Rattle.script_defs.specs.Reading.{nothing_known};
ghost use Rattle.script_defs.specs.Sound.{IsSound};
ghost use Rattle.script_defs.specs.Needs.{inputs_needed};
ghost use Rattle.dia_lines.specs.Inputs.{Asks};
ghost use Rattle.stage_laws.specs.Standing.{Ended, EndsWith};
ghost use Rattle.script_run.specs.declared.run_err.RunErr.TheVariants as errors;
ghost use Rattle.script_run.specs.Errors.{ending_in, open_error};
ghost use Rattle.script_run.specs.Jobs.{IsSetupWithin, needed_frames, TellsJob, TellsAll};
ghost use Rattle.script_run.specs.Pools.{IsShareIn, IsHandOf, IsPassOf};
ghost use Rattle.script_run.specs.Weighing.{IsSpilled};

use crate::accepted::run_accepted;
use crate::run_err::RunErr;
use block_pool::{Hand, OpenErr, Pass, Permits, Pool};
use dia_edge::{Disk, Gate, Shelf, Sink};
use script_read::Script;
use std::alloc::Global;
use std::sync::Wait;
use std::thread::Threads;
use worker_step::Way;

/// The error for a pool that wasn't opened.
fn open_err(why: OpenErr) -> RunErr
    ensures { result ≡ open_error why }
{
    match why {
        OpenErr::TooSmall { frames, need } => RunErr::PoolTooSmall { frames, need },
        OpenErr::NoMemory => RunErr::NoMemory,
    }
}

/// With what a job is run.
#[derive(Clone, Copy, Debug, PartialEq, Eq)]
pub struct Setup {
    /// How many workers there are, 1 to 16.
    pub workers: u32,
    /// How many bytes the pool has, at most 2^40.
    pub limit: u64,
    /// How many bytes a block has, 4,096 to 1,048,576.
    pub block: u32,
    /// The number from which the schedule of the workers is made; 0 for threads.
    pub schedule: u64,
}

/// A hand for each share, by rank.
fn hands_for<'p, D: Disk>(
    pool: &'p Pool<D>,
    shares: Vec<(Pass, Permits)>,
    hands: Vec<Hand<'p, D>>,
) -> Vec<Hand<'p, D>>
    requires own { All (IsShareIn pool.now) shares.items }
    requires room { (vec_len hands ≡ 0) × (vec_len shares ≤ vec_capacity hands) }
    ensures hands { AllZip IsHandOf shares.items result.items }
    ensures count { vec_len result ≡ vec_len shares }
{
    let mut hands = hands;
    for (pass, permits) in shares {
        hands.push_reserved(Hand::new(pool, pass, permits));
    }
    hands
}

/// The hands' passes, by rank.
fn passes_of<D: Disk>(hands: Vec<Hand<'_, D>>, passes: Vec<Pass>) -> Vec<Pass>
    requires room { (vec_len passes ≡ 0) × (vec_len hands ≤ vec_capacity passes) }
    ensures passes { AllZip IsPassOf hands.entry.items result.items }
    ensures count { vec_len result ≡ vec_len hands.entry }
{
    let mut passes = passes;
    for hand in hands {
        let (pass, _) = hand.end();
        passes.push_reserved(pass);
    }
    passes
}

/// The way in which the workers take their steps: each in a thread of its own, or in an order made from a schedule's number.
fn way_for<G: Gate>(schedule: u64, gate: &G) -> Way<'_, G> {
    match schedule {
        0 => Way::Threads { gate, phase: 0 },
        seed => Way::Order { seed },
    }
}

/// Runs an accepted script in a pool of its own, and hands the disk back.
///
/// After `PoolTooSmall` nothing was done, and after every other refusal nothing is kept.
pub fn run_job<R: Threads + Wait + Sync, N: Shelf, S: Sink, D: Disk + Send + Sync, G: Gate + Sync>(
    rt: &R,
    alloc: Global,
    script: &Script,
    setup: Setup,
    shelf: &mut N,
    out: &mut S,
    disk: D,
    gate: &G,
) -> (Result<(), RunErr>, D)
    requires sound { IsSound nothing_known 1 script.now }
    requires within { IsSetupWithin setup }
    // Where the shelf tells what it holds and is fixed, and the disk tells: at Ok the whole work is done, and after an error
    // the run ends as that says; and the disk has the writes that each cached list needs.
    ensures ends { (inputs : Inputs) → TellsAll (N.holds shelf.old) (N.is_fixed shelf.old) (is_some (D.slots disk)) inputs
        → Ended (S.taken out.old) (EndsWith (IsSpilled setup.limit setup.block (D.writes disk) (D.writes result.1)) script.now inputs (ending_in result.0)) (S.taken out.new) }
    ensures told { IfErr result.0 (λ e. TellsJob e (N.faults shelf.old) (N.faults shelf.new) (S.faults out.old) (S.faults out.new) (is_some (D.slots disk)) (D.faults disk) (D.faults result.1)) }
    ensures asked { Asks N.Shelf shelf.old shelf.new (inputs_needed script.now) result.0 }
    // A pool that is too small is told with both numbers, and exactly where it is, unless memory ran out. Nothing was done then.
    ensures small { setup.limit / setup.block < needed_frames setup.workers
        → ((result.0 ≡ Err (errors.PoolTooSmall (setup.limit / setup.block) (needed_frames setup.workers))) ⊎ (result.0 ≡ Err errors.NoMemory))
        × (shelf.new ≡ shelf.old) × (out.new ≡ out.old) × (result.1 ≡ disk) }
    ensures enough { (frames need : ℕ) → result.0 ≡ Err (errors.PoolTooSmall frames need) → setup.limit / setup.block < needed_frames setup.workers }
{
    let Ok(hands) = Vec::with_capacity(alloc, setup.workers as usize) else {
        return (Err(RunErr::NoMemory), disk);
    };
    let Ok(passes) = Vec::with_capacity(alloc, setup.workers as usize) else {
        return (Err(RunErr::NoMemory), disk);
    };
    let (pool, shares) = match Pool::open(alloc, disk, setup.limit, setup.block, setup.workers) {
        Ok(opened) => opened,
        Err((disk, why)) => return (Err(open_err(why)), disk),
    };
    let hands = hands_for(&pool, shares, hands);
    let way = way_for(setup.schedule, gate);
    let (result, hands) = run_accepted(rt, alloc, script, hands, way, shelf, out);
    let passes = passes_of(hands, passes);
    let disk = pool.finish(rt, passes);
    (result, disk)
}
