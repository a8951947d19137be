//! The run of an accepted script with the hands of a pool.
ghost use Rattle.std.specs.Prelude.{◌≡◌, ◌<◌, ◌≤◌, ℕ, All, Some, IfErr, vec_len};
ghost use Rattle.std.specs.List.{AllZip};
ghost use Rattle.row_defs.specs.Inputs.{Inputs};
ghost use Rattle.script_defs.specs.Reading.{nothing_known};
ghost use Rattle.script_defs.specs.Sound.{IsSound};
ghost use Rattle.script_defs.specs.Needs.{inputs_needed};
ghost use Rattle.block_pool.specs.Handles.{Follows};
ghost use Rattle.dia_lines.specs.Inputs.{Asks};
ghost use Rattle.scatter.specs.Nets.{AreOfOnePool};
ghost use Rattle.sink_files.specs.Ending.{HasTwoPermits};
ghost use Rattle.stage_laws.specs.Standing.{Ended, EndsWith};
ghost use Rattle.script_run.specs.Errors.{TellsStop, ending_in};
ghost use Rattle.script_run.specs.Held.{told_in, told_by};
ghost use Rattle.script_run.specs.Weighing.{IsWeighed};

use crate::run_err::RunErr;
use crate::team::Team;
use block_pool::Hand;
use dia_edge::{Disk, Gate, NoMemory, Shelf, Sink};
use script_read::Script;
use stage_builder::build;
use std::alloc::Global;
use std::sync::Wait;
use std::thread::Threads;
use worker_step::{MOST_TASKS, Way};

/// Runs an accepted script with these hands, which come back.
pub(crate) fn run_accepted<
    'p,
    R: Threads + Wait + Sync,
    N: Shelf,
    S: Sink,
    D: Disk + Send + Sync,
    G: Gate + Sync,
>(
    rt: &R,
    alloc: Global,
    script: &Script,
    hands: Vec<Hand<'p, D>>,
    way: Way<'_, G>,
    shelf: &mut N,
    out: &mut S,
) -> (Result<(), RunErr>, Vec<Hand<'p, D>>)
    requires sound { IsSound nothing_known 1 script.now }
    requires some { 0 < vec_len hands }
    requires few { vec_len hands ≤ MOST_TASKS }
    requires one { AreOfOnePool hands.items }
    requires permits { All HasTwoPermits hands.items }
    ensures ends { (inputs : Inputs) → told_by (told_in (N.holds shelf.old) (N.is_fixed shelf.old)) hands.entry.items ≡ Some inputs
        → Ended (S.taken out.old) (EndsWith (IsWeighed result.1.items) script.now inputs (ending_in result.0)) (S.taken out.new) }
    ensures told { IfErr result.0 (λ e. TellsStop e (N.faults shelf.old) (N.faults shelf.new) (S.faults out.old) (S.faults out.new) hands.entry.items result.1.items) }
    ensures asked { Asks N.Shelf shelf.old shelf.new (inputs_needed script.now) result.0 }
    ensures follows { AllZip Follows hands.entry.items result.1.items }
    ensures count { vec_len result.1 ≡ vec_len hands.entry }
{
    let plan = match build(alloc, script) {
        Ok(plan) => plan,
        Err(NoMemory) => return (Err(RunErr::NoMemory), hands),
    };
    match Team::new(alloc, script, hands, way) {
        Ok(team) => {
            let mut team = team;
            let result = team.do_plan(rt, &plan, shelf, out);
            (result, team.into_hands())
        }
        Err(hands) => (Err(RunErr::NoMemory), hands),
    }
}
