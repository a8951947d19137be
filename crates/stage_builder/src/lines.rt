//! The lines of a script by number.
ghost use Rattle.std.specs.Prelude.{◌≡◌, ℕ, [], map, Some, OnOk, IfOk, ◌==◌, if◌then◌else◌};
ghost use Rattle.std.specs.Option.{option_map};
ghost use Rattle.script_defs.specs.Scripts.{statement_at};
ghost use Rattle.script_read.specs.Statements.{numbered_in, statement_in};
ghost use Rattle.stage_builder.specs.Lines.{found_form, line_form, form_at, TellsLines};

use dia_edge::NoMemory;
use script_read::{Form, Numbered, Script, Statement};
use std::alloc::Global;

/// A script, and what each of its lines is, at the line's number.
#[derive(Drop)]
pub(crate) struct Lines<'s> {
    pub(crate) script: &'s Script,
    forms: Vec<Option<&'s Form>>,
}

/// What a statement says, where it is a line.
fn form_of(statement: &Statement) -> Option<&Form>
    ensures { option_map found_form result ≡ line_form (Some (statement_in statement.now)) }
{
    match statement {
        Statement::Line { form, .. } => Some(form),
        Statement::Act(_) => None,
    }
}

/// Sets what stands at a number.
fn set_form<'s>(
    forms: &mut Vec<Option<&'s Form>>,
    number: u32,
    form: Option<&'s Form>,
) -> Result<(), NoMemory>
    ensures { OnOk result ((n : ℕ) → form_at forms.new.items n ≡ if number == n then option_map found_form form.entry else form_at forms.old.items n) }
{
    let at = number as usize;
    if forms.len() <= at {
        forms.resize(at + 1, None)?;
    }
    forms[at] = form;
    Ok(())
}

/// Adds these statements' lines, the last one first: the first of several with one number stays.
fn add_forms<'s>(
    statements: &'s [Numbered],
    forms: &mut Vec<Option<&'s Form>>,
) -> Result<(), NoMemory>
    requires { forms.old.items ≡ [] }
    ensures { OnOk result (TellsLines (map numbered_in statements.now) forms.new.items) }
{
    match statements.split_first() {
        None => Ok(()),
        Some((first, rest)) => {
            add_forms(rest, forms)?;
            set_form(forms, first.line, form_of(&first.statement))
        }
    }
}

impl<'s> Lines<'s> {
    ghost use Rattle.stage_builder.specs.Tables.{script_in, AreRead};

    /// The lines of a script.
    pub(crate) fn of(alloc: Global, script: &'s Script) -> Result<Lines<'s>, NoMemory>
        ensures script { IfOk result (λ lines. script_in lines ≡ script.now) }
        ensures read { IfOk result (λ lines. AreRead lines) }
    {
        let mut forms = Vec::new(alloc);
        add_forms(script.statements(), &mut forms)?;
        Ok(Lines { script, forms })
    }

    /// What the line with this number is; None where no line has it.
    pub(crate) fn form(&self, number: u32) -> Option<&'s Form>
        ensures { AreRead self.now → option_map found_form result ≡ line_form (statement_at (script_in self.now) number) }
    {
        self.forms.get(number as usize).copied().flatten()
    }
}
