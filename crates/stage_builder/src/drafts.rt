//! The stages of the work, before anything is known of their readers.
ghost use Rattle.std.specs.Prelude.{◌≡◌, ◌++◌, map, filter, IfOk, OnOk};
ghost use Rattle.std.specs.List.{AllByRecursion};
ghost use Rattle.script_defs.specs.Reading.{nothing_known};
ghost use Rattle.script_defs.specs.Sound.{IsSound};
ghost use Rattle.script_defs.specs.Plans.{IsStage, is_stage, word_of_action};
ghost use Rattle.script_read.specs.Statements.{numbered_in, action_in};
ghost use Rattle.stage_builder.specs.Items.{item_at, items_at, numbered_at, StandsIn};
ghost use Rattle.stage_builder.specs.Drafts.{IsDraftOf, done_by};
ghost use Rattle.stage_builder.specs.Tables.{script_in, AreRead};
ghost use Rattle.stage_builder.specs.Views.{stages_in};

use crate::lines::Lines;
use crate::operands::operand_of;
use crate::plan::{Stage, Task};
use crate::statements::operand;
use dia_edge::NoMemory;
use script_defs::Word;
use script_read::{Action, Form, Numbered, Statement};
use std::alloc::Global;

fn word_of(action: &Action) -> Word
    ensures { result ≡ word_of_action (action_in action.now) }
{
    match action {
        Action::Print { .. } => Word::Print,
        Action::Size { .. } => Word::Size,
        Action::Sum { .. } => Word::Sum,
    }
}

/// The stage of an item of the work; a line whose rows are made anew at each use has none.
fn stage_of<'s>(
    alloc: Global,
    lines: &Lines<'s>,
    item: &'s Numbered,
) -> Result<Option<Stage<'s>>, NoMemory>
    requires read { AreRead lines.now }
    requires sound { IsSound nothing_known 1 (script_in lines.now) }
    requires stands { StandsIn (script_in lines.now) (numbered_in item.now) }
    ensures { IfOk result (λ stage. IsDraftOf (script_in lines.now) (item_at item.entry) stage) }
{
    match &item.statement {
        Statement::Line { name, form } => match form {
            Form::Lines { input } => Ok(Some(Stage {
                line: item.line,
                word: Word::Lines,
                readers: 0,
                task: Task::Read { name, input },
            })),
            Form::Cache { of } => {
                let operand = operand_of(alloc, lines, *of)?;
                Ok(Some(Stage {
                    line: item.line,
                    word: Word::Cache,
                    readers: 0,
                    task: Task::Cache {
                        name,
                        of: *of,
                        operand,
                    },
                }))
            }
            _ => Ok(None),
        },
        Statement::Act(action) => {
            let operand = operand_of(alloc, lines, operand(action))?;
            Ok(Some(Stage {
                line: item.line,
                word: word_of(action),
                readers: 0,
                task: Task::Act { action, operand },
            }))
        }
    }
}

/// Adds the stages of these items.
pub(crate) fn add_stages<'s>(
    alloc: Global,
    lines: &Lines<'s>,
    items: &[&'s Numbered],
    stages: &mut Vec<Stage<'s>>,
) -> Result<(), NoMemory>
    requires read { AreRead lines.now }
    requires sound { IsSound nothing_known 1 (script_in lines.now) }
    requires stand { AllByRecursion (StandsIn (script_in lines.now)) (numbered_at items.now) }
    ensures order { OnOk result (map done_by (stages_in stages.new.items) ≡ map done_by (stages_in stages.old.items) ++ filter (is_stage (script_in lines.now)) (items_at items.now)) }
    ensures stages { AllByRecursion (IsStage (script_in lines.now)) (stages_in stages.old.items) → OnOk result (AllByRecursion (IsStage (script_in lines.now)) (stages_in stages.new.items)) }
{
    match items.split_first() {
        None => Ok(()),
        Some((item, rest)) => {
            if let Some(stage) = stage_of(alloc, lines, item)? {
                stages.push(stage)?;
            }
            add_stages(alloc, lines, rest, stages)
        }
    }
}
