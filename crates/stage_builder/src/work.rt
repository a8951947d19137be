//! The work of a script.
ghost use Rattle.std.specs.Prelude.{◌≡◌, ◌∷◌, ◌++◌, [], ℕ, List, map, IfOk, OnOk};
ghost use Rattle.script_defs.specs.Scripts.{act, action_operand};
ghost use Rattle.script_defs.specs.Work.{do_line, do_action, closure, lines_to_do, work_from, work_of};
ghost use Rattle.script_read.specs.Statements.{numbered_in, statement_in, action_in};
ghost use Rattle.std.specs.List.{AllByRecursion};
ghost use Rattle.script_defs.specs.Reading.{nothing_known};
ghost use Rattle.script_defs.specs.Sound.{IsSound};
ghost use Rattle.stage_builder.specs.Tables.{lines_in, IsSetOf};
ghost use Rattle.stage_builder.specs.Items.{items_at, lines_at, numbered_at, StandsIn};

use crate::line_set::LineSet;
use crate::needed::{add_lines, needed_lines};
use crate::statements::operand;
use dia_edge::NoMemory;
use script_read::{Action, Numbered, Script, Statement};
use std::alloc::Global;

/// The work so far.
#[derive(Drop)]
struct Work<'s> {
    done: LineSet,
    items: Vec<&'s Numbered>,
}

/// Adds these lines.
fn add_all(items: &[&Numbered], lines: &mut LineSet) -> Result<(), NoMemory>
    ensures { OnOk result ((numbers : List ℕ) → IsSetOf (lines_in lines.old) numbers → IsSetOf (lines_in lines.new) (numbers ++ lines_at items.now)) }
{
    match items.split_first() {
        None => Ok(()),
        Some((item, rest)) => {
            lines.add(item.line)?;
            add_all(rest, lines)
        }
    }
}

impl<'s> Work<'s> {
    /// The lines that an action needs and that aren't done yet, and then the action.
    fn add_action(
        &mut self,
        alloc: Global,
        script: &'s [Numbered],
        statement: &'s Numbered,
        action: &Action,
    ) -> Result<(), NoMemory>
        requires { statement_in statement.now.statement ≡ act (action_in action.now) }
        ensures done { OnOk result ((done : List ℕ) → IsSetOf (lines_in self.old.done) done → IsSetOf (lines_in self.new.done)
            (done ++ lines_to_do (map numbered_in script.now) (closure (map numbered_in script.now) (action_operand (action_in action.now) ∷ [])) done)) }
        ensures items { OnOk result ((done : List ℕ) → IsSetOf (lines_in self.old.done) done → items_at self.new.items.items ≡ items_at self.old.items.items
            ++ (map do_line (lines_to_do (map numbered_in script.now) (closure (map numbered_in script.now) (action_operand (action_in action.now) ∷ [])) done)
            ++ do_action statement.now.line ∷ [])) }
        ensures stand { AllByRecursion (StandsIn (map numbered_in script.now)) (map numbered_in script.now) → StandsIn (map numbered_in script.now) (numbered_in statement.now)
            → AllByRecursion (StandsIn (map numbered_in script.now)) (numbered_at self.old.items.items)
            → OnOk result (AllByRecursion (StandsIn (map numbered_in script.now)) (numbered_at self.new.items.items)) }
    {
        let needed = needed_lines(alloc, script, operand(action))?;
        let mut new = Vec::new(alloc);
        add_lines(script, &needed, &self.done, &mut new)?;
        add_all(new.as_slice(), &mut self.done)?;
        new.push(statement)?;
        self.items.extend_from_slice(new.as_slice())?;
        Ok(())
    }

    /// The work of these statements of the script.
    #[tactic(auto, unfolding(script_defs::specs::Work::work_from))]
    fn add(
        &mut self,
        alloc: Global,
        script: &'s [Numbered],
        statements: &'s [Numbered],
    ) -> Result<(), NoMemory>
        ensures items { OnOk result ((done : List ℕ) → IsSetOf (lines_in self.old.done) done → items_at self.new.items.items ≡ items_at self.old.items.items
            ++ work_from (map numbered_in script.now) done (map numbered_in statements.now)) }
        ensures stand { AllByRecursion (StandsIn (map numbered_in script.now)) (map numbered_in script.now)
            → AllByRecursion (StandsIn (map numbered_in script.now)) (map numbered_in statements.now)
            → AllByRecursion (StandsIn (map numbered_in script.now)) (numbered_at self.old.items.items)
            → OnOk result (AllByRecursion (StandsIn (map numbered_in script.now)) (numbered_at self.new.items.items)) }
    {
        match statements.split_first() {
            None => Ok(()),
            Some((first, rest)) => match &first.statement {
                Statement::Line { .. } => self.add(alloc, script, rest),
                Statement::Act(action) => {
                    self.add_action(alloc, script, first, action)?;
                    self.add(alloc, script, rest)
                }
            },
        }
    }
}

/// What is to be done for a script: for each action in order, the lines that it needs and that aren't done yet, in line
/// order, and then the action.
pub(crate) fn work_of<'s>(alloc: Global, script: &'s Script) -> Result<Vec<&'s Numbered>, NoMemory>
    requires { IsSound nothing_known 1 script.now }
    ensures items { IfOk result (λ items. items_at items.items ≡ work_of script.now) }
    ensures stand { IfOk result (λ items. AllByRecursion (StandsIn script.now) (numbered_at items.items)) }
{
    let mut work = Work {
        done: LineSet::new(alloc),
        items: Vec::new(alloc),
    };
    work.add(alloc, script.statements(), script.statements())?;
    Ok(work.items)
}
