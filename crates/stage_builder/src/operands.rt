//! What a line stands on: the rows at the bottom, and the local lines over them.
ghost use Rattle.std.specs.Prelude.{◌≡◌, ◌∷◌, [], false, IfOk};
ghost use Rattle.std.specs.Option.{option_map};
ghost use Rattle.row_defs.specs.LocalOps.{IsSoundOp, op_kinds};
ghost use Rattle.script_defs.specs.Scripts.{IsLineIn};
ghost use Rattle.script_defs.specs.Reading.{nothing_known};
ghost use Rattle.script_defs.specs.Sound.{IsSound};
ghost use Rattle.script_defs.specs.Plans.{IsOperand};
ghost use Rattle.dia_item.specs.KindList.{kind_list};
ghost use Rattle.lop_chain.specs.Ops.{op_in};
ghost use Rattle.lop_chain.specs.Operands.{root_in, operand_in};
ghost use Rattle.stage_builder.specs.Lines.{found_form};
ghost use Rattle.stage_builder.specs.Origins.{origin_in, origin_where, named_in, named_where};
ghost use Rattle.stage_builder.specs.Tables.{script_in, AreRead};

use crate::lines::Lines;
use dia_edge::NoMemory;
use dia_item::Kinds;
use lop_chain::{Operand, Root, ScriptOp, copy_exprs};
use row_defs::Kind;
use script_read::{Form, kinds_of_exprs};
use std::alloc::Global;

/// How a line comes to its rows.
#[derive(Drop)]
enum Origin {
    /// They are an input's, and kept.
    Kept,
    /// They are an earlier line's, and kept.
    Cached(u32),
    /// They are so many numbers, made anew at each use.
    Counted(u64),
    /// A local line makes them of an earlier line's, anew at each use.
    Made { of: u32, op: ScriptOp },
}

/// How a line of this form comes to its rows.
fn origin_of(alloc: Global, form: Option<&Form>) -> Result<Origin, NoMemory>
    ensures comes { IfOk result (λ origin. origin_in origin ≡ origin_where (option_map found_form form.entry)) }
    ensures names { IfOk result (λ origin. named_in origin ≡ named_where (option_map found_form form.entry)) }
{
    let (of, op) = match form {
        None | Some(Form::Lines { .. }) => return Ok(Origin::Kept),
        Some(Form::Generate { count }) => return Ok(Origin::Counted(*count)),
        Some(Form::Cache { of }) => return Ok(Origin::Cached(*of)),
        Some(Form::Map { of, exprs }) => {
            (of, ScriptOp::Map(copy_exprs(alloc, exprs.as_slice())?))
        }
        Some(Form::Filter { of, test }) => (of, ScriptOp::Filter(test.copy(alloc)?)),
        Some(Form::Words { of, column }) => (of, ScriptOp::Words { column: *column }),
        Some(Form::Spread { of, column, count }) => {
            let op = ScriptOp::Spread {
                column: *column,
                count: *count,
            };
            (of, op)
        }
    };
    Ok(Origin::Made { of: *of, op })
}

/// The kinds of the rows that a local line makes of rows of these kinds.
fn kinds_behind(alloc: Global, op: &ScriptOp, of: &Kinds) -> Result<Kinds, NoMemory>
    requires { IsSoundOp (kind_list of.now) (op_in op.now) }
    ensures { IfOk result (λ kinds. kind_list kinds ≡ op_kinds (kind_list of.now) (op_in op.now)) }
{
    match op {
        ScriptOp::Map(exprs) => {
            let kinds = kinds_of_exprs(alloc, exprs.as_slice(), of)?;
            Ok(Kinds::of(kinds.as_slice()))
        }
        _ => Ok(*of),
    }
}

fn root_operand(alloc: Global, root: Root, kinds: Kinds) -> Operand
    ensures { operand_in result ≡ record { root = root_in root; last = false; kinds = kind_list kinds; chain = [] } }
{
    Operand {
        root,
        last: false,
        kinds,
        chain: Vec::new(alloc),
    }
}

/// What the line with this number stands on.
pub(crate) fn operand_of(alloc: Global, lines: &Lines<'_>, number: u32) -> Result<Operand, NoMemory>
    requires read { AreRead lines.now }
    requires sound { IsSound nothing_known 1 (script_in lines.now) }
    requires line { IsLineIn (script_in lines.now) number }
    ensures { IfOk result (λ o. IsOperand (script_in lines.now) number (operand_in o)) }
{
    match origin_of(alloc, lines.form(number))? {
        Origin::Kept => {
            let kinds = Kinds::one(Kind::Text);
            Ok(root_operand(alloc, Root::Stored(number), kinds))
        }
        Origin::Cached(of) => {
            // Its rows are those of the line that it keeps.
            let operand = operand_of(alloc, lines, of)?;
            Ok(root_operand(alloc, Root::Stored(number), operand.kinds))
        }
        Origin::Counted(rows) => {
            let root = Root::Count { line: number, rows };
            Ok(root_operand(alloc, root, Kinds::one(Kind::Int)))
        }
        Origin::Made { of, op } => {
            let mut operand = operand_of(alloc, lines, of)?;
            operand.kinds = kinds_behind(alloc, &op, &operand.kinds)?;
            operand.chain.push(op)?;
            Ok(operand)
        }
    }
}
