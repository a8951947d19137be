//! What a plan says of the readers of rows that are kept.
ghost use Rattle.std.specs.Prelude.{◌≡◌, ℕ, ◌+◌, ◌∷◌, ◌++◌, List, IfOk, OnOk};
ghost use Rattle.std.specs.List.{count_by};
ghost use Rattle.row_defs.specs.Operands as operands;
ghost use Rattle.row_defs.specs.Operands.{is_stored_at};
ghost use Rattle.script_defs.specs.Plans.{all_operands};
ghost use Rattle.lop_chain.specs.Operands.{root_in, operand_in};
ghost use Rattle.stage_builder.specs.Marks.{roots_of, last_among, marked_operand, marked_stage, marked};
ghost use Rattle.stage_builder.specs.Tables.{counts_in, count_at, Counts};
ghost use Rattle.stage_builder.specs.Views.{stage_in, stages_in};

use crate::plan::{Stage, Task};
use crate::readers::Readers;
use dia_edge::NoMemory;
use lop_chain::{Operand, Root};
use std::alloc::Global;

/// Adds the readers that these stages are.
fn add_readers(stages: &[Stage], readers: &mut Readers) -> Result<(), NoMemory>
    ensures { OnOk result ((n : ℕ) → count_at (counts_in readers.new) n ≡ count_at (counts_in readers.old) n + count_by (is_stored_at n) (roots_of (all_operands (stages_in stages.now)))) }
{
    match stages.split_first() {
        None => Ok(()),
        Some((first, rest)) => {
            if let Task::Cache { operand, .. } | Task::Act { operand, .. } = &first.task {
                readers.add(&operand.root)?;
            }
            add_readers(rest, readers)
        }
    }
}

/// How often these stages read the rows that are kept of each line.
pub(crate) fn readers_among(alloc: Global, stages: &[Stage]) -> Result<Readers, NoMemory>
    ensures { IfOk result (λ readers. Counts (counts_in readers) (roots_of (all_operands (stages_in stages.now)))) }
{
    let mut readers = Readers::new(alloc);
    add_readers(stages, &mut readers)?;
    Ok(readers)
}

/// Whether these rows are kept and none of the later operands reads them.
fn is_last(root: &Root, later: &Readers) -> bool
    ensures { (roots : List operands.Root) → Counts (counts_in later.now) roots → result ≡ last_among (root_in root.now) roots }
{
    match root {
        Root::Stored(line) => later.of(*line) == 0,
        Root::Count { .. } => false,
    }
}

/// Sets whether an operand is the last to read its rows. `left` has its reader, and then those of the later operands.
fn mark_operand(operand: &mut Operand, left: &mut Readers)
    ensures left { (later : List operands.Root) → Counts (counts_in left.old) (root_in operand.old.root ∷ later) → Counts (counts_in left.new) later }
    ensures operand { (later : List operands.Root) → Counts (counts_in left.old) (root_in operand.old.root ∷ later)
        → operand_in operand.new ≡ marked_operand (operand_in operand.old) later }
{
    left.take(&operand.root);
    operand.last = is_last(&operand.root, left);
}

/// Sets by how many operands a stage is read, and whether its operand is the last to read its rows. `left` has the readers
/// from this stage on, and then those of the later stages.
fn mark_stage(stage: &mut Stage, all: &Readers, left: &mut Readers)
    ensures left { (later : List operands.Root) → Counts (counts_in left.old) (roots_of (stage_in stage.old).operands ++ later) → Counts (counts_in left.new) later }
    ensures stage { (roots later : List operands.Root) → Counts (counts_in all.now) roots → Counts (counts_in left.old) (roots_of (stage_in stage.old).operands ++ later)
        → stage_in stage.new ≡ marked_stage roots later (stage_in stage.old) }
{
    stage.readers = all.of(stage.line);
    match &mut stage.task {
        Task::Read { .. } => {}
        Task::Cache { operand, .. } => mark_operand(operand, left),
        Task::Act { operand, .. } => mark_operand(operand, left),
    }
}

/// Marks the stages of a plan, whose readers these are; `left` has them too, and counts down.
pub(crate) fn mark(stages: &mut [Stage], all: &Readers, left: &mut Readers)
    requires all { Counts (counts_in all.now) (roots_of (all_operands (stages_in stages.old))) }
    requires left { Counts (counts_in left.old) (roots_of (all_operands (stages_in stages.old))) }
    ensures { stages_in stages.new ≡ marked (roots_of (all_operands (stages_in stages.old))) (stages_in stages.old) }
{
    for stage in stages.iter_mut() {
        mark_stage(stage, all, left);
    }
}
