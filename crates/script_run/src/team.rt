//! The workers of a run, what they hold, and how they do the stages of a plan.
ghost use Rattle.std.specs.List.{AllZip};
ghost use Rattle.std.specs.Prelude.{◌≡◌, ◌<◌, ◌≤◌, ◌∷◌, [], ℕ, List, All, Option, None, Some, IfOk, OnOk, IfErr, vec_len};
ghost use Rattle.row_defs.specs.Inputs.{Inputs};
ghost use Rattle.script_defs.specs.Scripts.{line, act, lines_form, statement_at, action_operand};
ghost use Rattle.script_defs.specs.Reading.{nothing_known};
ghost use Rattle.script_defs.specs.Sound.{IsSound, IsSoundAction};
ghost use Rattle.script_defs.specs.Work.{do_line, do_action};
ghost use Rattle.script_defs.specs.Plans.{IsOperand, IsPlan, item_of, kinds_at};
ghost use Rattle.script_defs.specs.Needs.{read_by, inputs_needed};
ghost use Rattle.dia_file.specs.Files.{IsFileOf};
ghost use Rattle.dia_item.specs.KindList.{kind_list};
ghost use Rattle.dia_lines.specs.Inputs.{Asks, Stays};
ghost use Rattle.lop_chain.specs.Operands.{operand_in};
ghost use Rattle.script_read.specs.Statements.{action_in};
ghost use Rattle.scatter.specs.Nets.{AreOfOnePool};
ghost use Rattle.scatter.specs.Stocks.{lines_of};
ghost use Rattle.scatter.specs.Lines.{HasKinds};
ghost use Rattle.scatter.specs.Phases.{pools_of};
ghost use Rattle.sink_files.specs.Ending.{HasTwoPermits};
ghost use Rattle.stage_builder.specs.Views.{stage_in, plan_in};
ghost use Rattle.stage_laws.specs.Standing.{CanDo, Ended, EndsWith};
ghost use Rattle.script_run.specs.Errors.{TellsStop, ending_in};
ghost use Rattle.script_run.specs.Held.{held_of, kept_by, IsReady, HeldStays, CanRead, IsCacheOf, told_in, told_by};
ghost use Rattle.script_run.specs.Steps.{Does, StopsAt, IsPut};
ghost use Rattle.script_run.specs.Weighing.{IsWeighed};
ghost use Rattle.script_run.specs.declared.run_err.RunErr.TheVariants as errors;

use crate::reading::read_parts;
use crate::run_err::{RunErr, act_err, input_err, place_err};
use crate::weighing::weigh;
use actions::act;
use block_pool::Hand;
use dia_edge::{Disk, Gate, Name, Shelf, Sink};
use dia_file::File;
use lop_chain::Operand;
use place_node::{PlaceFn, PlaceNode};
use scatter::{Home, Stock};
use script_read::{Action, Script};
use stage_builder::{Plan, Stage, Task};
use std::alloc::Global;
use std::sync::Wait;
use std::thread::Threads;
use text_out::OutBuffer;
use worker_step::{MOST_TASKS, Way};

/// The workers of a run: the script, the lines that they have in stock, a hand of the pool each, the way in which they take
/// their steps, and the buffer before the sink.
#[derive(Drop)]
pub(crate) struct Team<'s, 'p, 'g, D: Disk, G: Gate> {
    alloc: Global,
    script: &'s Script,
    stock: Stock<Home>,
    hands: Vec<Hand<'p, D>>,
    way: Way<'g, G>,
    buffer: OutBuffer,
}

impl<'s, 'p, 'g, D: Disk + Send + Sync, G: Gate + Sync> Team<'s, 'p, 'g, D, G> {
    /// A worker for each hand, with no lines; the hands come back where memory ran out.
    pub(crate) fn new(
        alloc: Global,
        script: &'s Script,
        hands: Vec<Hand<'p, D>>,
        way: Way<'g, G>,
    ) -> Result<Team<'s, 'p, 'g, D, G>, Vec<Hand<'p, D>>>
        requires some { 0 < vec_len hands }
        requires few { vec_len hands ≤ MOST_TASKS }
        requires one { AreOfOnePool hands.items }
        requires permits { All HasTwoPermits hands.items }
        ensures script { IfOk result (λ team. team.script.now ≡ script.now) }
        ensures hands { IfOk result (λ team. team.hands.items ≡ hands.entry.items) }
        ensures none { IfOk result (λ team. (n : ℕ) → lines_of team.stock n ≡ None) }
        ensures ready { IfOk result (λ team. IsReady (held_of team)) }
        ensures returned { IfErr result (λ back. back.items ≡ hands.entry.items) }
    {
        let Ok(buffer) = OutBuffer::new(alloc) else {
            return Err(hands);
        };
        match Stock::new(alloc, Home, hands.len() as u32) {
            Ok(stock) => Ok(Team {
                alloc,
                script,
                stock,
                hands,
                way,
                buffer,
            }),
            Err(_) => Err(hands),
        }
    }

    /// The workers' hands; what they kept is gone.
    pub(crate) fn into_hands(self) -> Vec<Hand<'p, D>>
        ensures { result.items ≡ self.entry.hands.items }
    {
        let Team {
            alloc: _,
            script: _,
            stock: _,
            hands,
            way: _,
            buffer: _,
        } = self;
        hands
    }

    /// The files, one per worker, are kept for a line.
    fn put(&mut self, number: u32, files: Vec<File>) -> Result<(), RunErr>
        requires ready { IsReady (held_of self.old) }
        requires count { vec_len files ≡ self.old.stock.workers }
        requires kinds { All (HasKinds (kinds_at self.old.script.now number)) files.items }
        requires own { AllZip IsFileOf (pools_of self.old.hands.items) files.items }
        ensures ok { OnOk result (IsPut number files.items (held_of self.old) (held_of self.new)) }
        ensures err { IfErr result (λ e. e ≡ errors.NoMemory) }
        ensures stays { HeldStays (held_of self.old) (held_of self.new) }
    {
        Ok(self.stock.put(self.alloc, number, files)?)
    }

    /// Reads the lines of an input, which are kept as the rows of a line of the script.
    fn read<R: Wait, N: Shelf>(
        &mut self,
        rt: &R,
        number: u32,
        input: &Name,
        shelf: &mut N,
    ) -> Result<(), RunErr>
        requires sound { IsSound nothing_known 1 self.old.script.now }
        requires is { (name : List ℕ) × (statement_at self.old.script.now number ≡ Some (line name (lines_form input.now))) }
        requires ready { IsReady (held_of self.old) }
        ensures ok { (taken : Option (List ℕ)) → OnOk result (Does (do_line number) [] (told_in (N.holds shelf.old) (N.is_fixed shelf.old)) (held_of self.old) (held_of self.new) taken taken) }
        ensures refused { (taken : Option (List ℕ)) → IfErr result (λ e. StopsAt (do_line number) (told_in (N.holds shelf.old) (N.is_fixed shelf.old)) (held_of self.old) taken e taken) }
        ensures told { (before now : ℕ) → IfErr result (λ e. TellsStop e (N.faults shelf.old) (N.faults shelf.new) before now self.old.hands.items self.new.hands.items) }
        ensures asked { Asks N.Shelf shelf.old shelf.new (input.now ∷ []) result }
        ensures shelf { Stays N.Shelf shelf.old shelf.new }
        ensures stays { HeldStays (held_of self.old) (held_of self.new) }
    {
        match read_parts(rt, self.alloc, shelf, input, &mut self.hands) {
            Ok(files) => self.put(number, files),
            Err(why) => Err(input_err(input, why)),
        }
    }

    /// Keeps the rows that an operand gives as those of a line: all workers write them to files.
    fn cache<R: Threads + Wait + Sync>(
        &mut self,
        rt: &R,
        number: u32,
        operand: &Operand,
    ) -> Result<(), RunErr>
        requires sound { IsSound nothing_known 1 self.old.script.now }
        requires is { (of : ℕ) × IsCacheOf self.old.script.now number of (operand_in operand.now) }
        requires can { CanRead self.old.script.now (operand_in operand.now) (kept_by (lines_of self.old.stock)) }
        requires ready { IsReady (held_of self.old) }
        ensures ok { (told : Option Inputs) (taken : Option (List ℕ)) → OnOk result (Does (do_line number) (operand_in operand.now ∷ []) told (held_of self.old) (held_of self.new) taken taken) }
        ensures refused { (told : Option Inputs) (taken : Option (List ℕ)) → IfErr result (λ e. StopsAt (do_line number) told (held_of self.old) taken e taken) }
        ensures told { (a b x y : ℕ) → IfErr result (λ e. TellsStop e a b x y self.old.hands.items self.new.hands.items) }
        ensures stays { HeldStays (held_of self.old) (held_of self.new) }
    {
        match PlaceNode::new(PlaceFn::Cache).run(
            rt,
            self.alloc,
            &mut self.way,
            &mut self.stock,
            operand,
            &mut self.hands,
        ) {
            Ok(files) => {
                let files = weigh(rt, files, &mut self.hands)?;
                self.put(number, files)
            }
            Err(why) => Err(place_err(number, why)),
        }
    }

    /// Does an action on the rows that its operand gives.
    fn act<R: Threads + Wait + Sync, S: Sink>(
        &mut self,
        rt: &R,
        number: u32,
        action: &Action,
        operand: &Operand,
        out: &mut S,
    ) -> Result<(), RunErr>
        requires is { statement_at self.old.script.now number ≡ Some (act (action_in action.now)) }
        requires operand { IsOperand self.old.script.now (action_operand (action_in action.now)) (operand_in operand.now) }
        requires can { CanRead self.old.script.now (operand_in operand.now) (kept_by (lines_of self.old.stock)) }
        requires acts { IsSoundAction (kind_list operand.now.kinds) (action_in action.now) }
        requires ready { IsReady (held_of self.old) }
        ensures ok { (told : Option Inputs) → OnOk result (Does (do_action number) (operand_in operand.now ∷ []) told (held_of self.old) (held_of self.new) (S.taken out.old) (S.taken out.new)) }
        ensures refused { (told : Option Inputs) → IfErr result (λ e. StopsAt (do_action number) told (held_of self.old) (S.taken out.old) e (S.taken out.new)) }
        ensures told { (before now : ℕ) → IfErr result (λ e. TellsStop e before now (S.faults out.old) (S.faults out.new) self.old.hands.items self.new.hands.items) }
        ensures counts { S.faults out.old ≤ S.faults out.new }
        ensures stays { HeldStays (held_of self.old) (held_of self.new) }
    {
        match act(
            rt,
            self.alloc,
            &mut self.way,
            &mut self.stock,
            action,
            operand,
            &mut self.hands,
            &mut self.buffer,
            out,
        ) {
            Ok(()) => Ok(()),
            Err(why) => Err(act_err(number, why)),
        }
    }

    /// Does a stage.
    fn do_stage<R: Threads + Wait + Sync, N: Shelf, S: Sink>(
        &mut self,
        rt: &R,
        stage: &Stage<'_>,
        shelf: &mut N,
        out: &mut S,
    ) -> Result<(), RunErr>
        requires can { CanDo self.old.script.now (stage_in stage.now) (kept_by (lines_of self.old.stock)) }
        requires ready { IsReady (held_of self.old) }
        ensures ok { OnOk result (Does (item_of stage.now.line (stage_in stage.now).statement) (stage_in stage.now).operands (told_in (N.holds shelf.old) (N.is_fixed shelf.old)) (held_of self.old) (held_of self.new) (S.taken out.old) (S.taken out.new)) }
        ensures refused { IfErr result (λ e. StopsAt (item_of stage.now.line (stage_in stage.now).statement) (told_in (N.holds shelf.old) (N.is_fixed shelf.old)) (held_of self.old) (S.taken out.old) e (S.taken out.new)) }
        ensures told { IfErr result (λ e. TellsStop e (N.faults shelf.old) (N.faults shelf.new) (S.faults out.old) (S.faults out.new) self.old.hands.items self.new.hands.items) }
        ensures asked { Asks N.Shelf shelf.old shelf.new (read_by (stage_in stage.now).statement) result }
        ensures shelf { Stays N.Shelf shelf.old shelf.new }
        ensures counts { S.faults out.old ≤ S.faults out.new }
        ensures stays { HeldStays (held_of self.old) (held_of self.new) }
    {
        match &stage.task {
            Task::Read { input, .. } => self.read(rt, stage.line, input, shelf),
            Task::Cache { operand, .. } => self.cache(rt, stage.line, operand),
            Task::Act { action, operand } => self.act(rt, stage.line, action, operand, out),
        }
    }

    /// Does all stages of the plan.
    pub(crate) fn do_plan<R: Threads + Wait + Sync, N: Shelf, S: Sink>(
        &mut self,
        rt: &R,
        plan: &Plan<'_>,
        shelf: &mut N,
        out: &mut S,
    ) -> Result<(), RunErr>
        requires sound { IsSound nothing_known 1 self.old.script.now }
        requires plan { IsPlan self.old.script.now (plan_in plan.now) }
        requires none { (n : ℕ) → lines_of self.old.stock n ≡ None }
        requires ready { IsReady (held_of self.old) }
        ensures ends { (inputs : Inputs) → told_by (told_in (N.holds shelf.old) (N.is_fixed shelf.old)) self.old.hands.items ≡ Some inputs
            → Ended (S.taken out.old) (EndsWith (IsWeighed self.new.hands.items) self.old.script.now inputs (ending_in result)) (S.taken out.new) }
        ensures told { IfErr result (λ e. TellsStop e (N.faults shelf.old) (N.faults shelf.new) (S.faults out.old) (S.faults out.new) self.old.hands.items self.new.hands.items) }
        ensures asked { Asks N.Shelf shelf.old shelf.new (inputs_needed self.old.script.now) result }
        ensures stays { HeldStays (held_of self.old) (held_of self.new) }
    {
        for stage in plan.stages.as_slice() {
            self.do_stage(rt, stage, shelf, out)?;
        }
        Ok(())
    }
}
