//! What statements name.
ghost use Rattle.std.specs.Prelude.{◌≡◌, ◌++◌, ℕ, List, OnOk};
ghost use Rattle.std.specs.Option.{option_to_list};
ghost use Rattle.script_defs.specs.Scripts.{operands_of, action_operand, form_operands};
ghost use Rattle.script_defs.specs.Work.{is_line};
ghost use Rattle.stage_builder.specs.Tables.{lines_in, IsSetOf};
ghost use Rattle.script_read.specs.Statements.{statement_in, form_in, action_in};

use crate::line_set::LineSet;
use dia_edge::NoMemory;
use script_read::{Action, Form, Statement};

/// The line that an action names.
pub(crate) fn operand(action: &Action) -> u32
    ensures { result ≡ action_operand (action_in action.now) }
{
    match action {
        Action::Print { of } | Action::Size { of } | Action::Sum { of, .. } => *of,
    }
}

pub(crate) fn is_line(statement: &Statement) -> bool
    ensures { result ≡ is_line (statement_in statement.now) }
{
    match statement {
        Statement::Line { .. } => true,
        Statement::Act(_) => false,
    }
}

/// The line that a form names, where it names one.
fn form_operand(form: &Form) -> Option<u32>
    ensures { option_to_list result ≡ form_operands (form_in form.now) }
{
    match form {
        Form::Lines { .. } | Form::Generate { .. } => None,
        Form::Map { of, .. }
        | Form::Filter { of, .. }
        | Form::Words { of, .. }
        | Form::Spread { of, .. }
        | Form::Cache { of } => Some(*of),
    }
}

/// Adds the lines that a form names.
fn add_form_operands(form: &Form, lines: &mut LineSet) -> Result<(), NoMemory>
    ensures { OnOk result ((numbers : List ℕ) → IsSetOf (lines_in lines.old) numbers → IsSetOf (lines_in lines.new) (numbers ++ form_operands (form_in form.now))) }
{
    match form_operand(form) {
        None => Ok(()),
        Some(of) => lines.add(of),
    }
}

/// Adds the lines that a statement names.
pub(crate) fn add_operands(statement: &Statement, lines: &mut LineSet) -> Result<(), NoMemory>
    ensures { OnOk result ((numbers : List ℕ) → IsSetOf (lines_in lines.old) numbers → IsSetOf (lines_in lines.new) (numbers ++ operands_of (statement_in statement.now))) }
{
    match statement {
        Statement::Line { form, .. } => add_form_operands(form, lines),
        Statement::Act(action) => lines.add(operand(action)),
    }
}
