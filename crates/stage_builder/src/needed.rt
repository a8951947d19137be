//! The lines that an action needs.
ghost use Rattle.std.specs.Prelude.{◌≡◌, ◌∷◌, ◌++◌, [], ℕ, List, map, IfOk, OnOk};
ghost use Rattle.script_defs.specs.Work.{do_line, closure, lines_to_do};
ghost use Rattle.script_read.specs.Statements.{numbered_in};
ghost use Rattle.script_defs.specs.Scripts.{Script};
ghost use Rattle.std.specs.List.{AllByRecursion};
ghost use Rattle.stage_builder.specs.Tables.{lines_in, IsSetOf};
ghost use Rattle.stage_builder.specs.Items.{items_at, numbered_at, StandsIn};

use crate::line_set::LineSet;
use crate::statements::{add_operands, is_line};
use dia_edge::NoMemory;
use script_read::Numbered;
use std::alloc::Global;

/// Adds the lines that these need, and those that they need.
#[tactic(auto, unfolding(script_defs::specs::Work::closure))]
fn add_needed(statements: &[Numbered], needed: &mut LineSet) -> Result<(), NoMemory>
    ensures { OnOk result ((numbers : List ℕ) → IsSetOf (lines_in needed.old) numbers
        → IsSetOf (lines_in needed.new) (closure (map numbered_in statements.now) numbers)) }
{
    match statements.split_first() {
        None => Ok(()),
        Some((first, rest)) => {
            add_needed(rest, needed)?;
            if needed.has(first.line) {
                add_operands(&first.statement, needed)?;
            }
            Ok(())
        }
    }
}

/// The line, and all that it needs.
pub(crate) fn needed_lines(
    alloc: Global,
    statements: &[Numbered],
    line: u32,
) -> Result<LineSet, NoMemory>
    ensures { IfOk result (λ needed. IsSetOf (lines_in needed) (closure (map numbered_in statements.now) (line ∷ []))) }
{
    let mut needed = LineSet::new(alloc);
    needed.add(line)?;
    add_needed(statements, &mut needed)?;
    Ok(needed)
}

/// Adds those of the needed lines that aren't done yet, in line order.
#[tactic(auto, using(crate::proofs::ItemLemmas::item_is_line))]
pub(crate) fn add_lines<'s>(
    statements: &'s [Numbered],
    needed: &LineSet,
    done: &LineSet,
    lines: &mut Vec<&'s Numbered>,
) -> Result<(), NoMemory>
    ensures items { OnOk result ((wanted did : List ℕ) → IsSetOf (lines_in needed.now) wanted → IsSetOf (lines_in done.now) did
        → items_at lines.new.items ≡ items_at lines.old.items ++ map do_line (lines_to_do (map numbered_in statements.now) wanted did)) }
    ensures stand { (script : Script) → AllByRecursion (StandsIn script) (map numbered_in statements.now) → AllByRecursion (StandsIn script) (numbered_at lines.old.items)
        → OnOk result (AllByRecursion (StandsIn script) (numbered_at lines.new.items)) }
{
    match statements.split_first() {
        None => Ok(()),
        Some((first, rest)) => {
            if is_line(&first.statement) && needed.has(first.line) && !done.has(first.line) {
                lines.push(first)?;
            }
            add_lines(rest, needed, done, lines)
        }
    }
}
