//! The kinds of a line's rows.
ghost use Rattle.std.specs.Prelude.{◌≡◌, ◌<◌, false, is_none, length, map, IfOk};
ghost use Rattle.std.specs.List.{list_any, filter_map};
ghost use Rattle.row_defs.specs.Values.{expr_kind};
ghost use Rattle.script_defs.specs.Scripts.{form_kinds};
ghost use Rattle.script_defs.specs.Reading.{kinds_among};
ghost use Rattle.dia_expr.specs.Exprs.{expr_in};
ghost use Rattle.dia_item.specs.KindList.{kind_list};
ghost use Rattle.script_read.specs.Accepting.{CanTell};
ghost use Rattle.script_read.specs.Knowing.{earlier_at};
ghost use Rattle.script_read.specs.Statements.{form_in};

use crate::known::Earlier;
use crate::statement::Form;
use dia_edge::NoMemory;
use dia_expr::{Expr, kind_of};
use dia_item::Kinds;
use row_defs::Kind;
use std::alloc::Global;

/// The kinds of the expressions on rows of these kinds, of those that have one.
pub fn kinds_of_exprs(alloc: Global, exprs: &[Expr], of: &Kinds) -> Result<Vec<Kind>, NoMemory>
    ensures { IfOk result (λ kinds. kinds.items ≡ filter_map (expr_kind (kind_list of.now)) (map expr_in exprs.now)) }
{
    let mut kinds = Vec::new(alloc);
    for expr in exprs {
        if let Some(kind) = kind_of(expr, of).ok() {
            kinds.push(kind)?;
        }
    }
    Ok(kinds)
}

/// The kinds of a row of these expressions, each of which has one.
fn row_kinds(alloc: Global, exprs: &[Expr], of: &Kinds) -> Result<Vec<Kind>, NoMemory>
    requires some { 0 < length exprs.now }
    requires kinds { list_any (λ e. is_none (expr_kind (kind_list of.now) e)) (map expr_in exprs.now) ≡ false }
    ensures kinds { IfOk result (λ kinds. kinds.items ≡ filter_map (expr_kind (kind_list of.now)) (map expr_in exprs.now)) }
    ensures some { IfOk result (λ kinds. 0 < length kinds.items) }
{
    let kinds = kinds_of_exprs(alloc, exprs, of)?;
    Ok(kinds)
}

/// The kinds of a line's rows, where those of its operands have these.
pub(crate) fn kinds_of_form(
    alloc: Global,
    form: &Form,
    operands: &[&Earlier],
) -> Result<Vec<Kind>, NoMemory>
    requires { CanTell (kinds_among (map earlier_at operands.now)) (form_in form.now) }
    ensures kinds { IfOk result (λ kinds. kinds.items ≡ form_kinds (kinds_among (map earlier_at operands.now)) (form_in form.now)) }
    ensures some { IfOk result (λ kinds. 0 < length kinds.items) }
{
    match (form, operands.first()) {
        (Form::Lines { .. }, _) => Ok(vec![in alloc; Kind::Text]?),
        (Form::Generate { .. }, _) => Ok(vec![in alloc; Kind::Int]?),
        (Form::Map { exprs, .. }, Some(operand)) => {
            row_kinds(alloc, exprs.as_slice(), &operand.kinds)
        }
        (_, Some(operand)) => Ok(Vec::from_slice(alloc, operand.kinds.list())?),
        (_, None) => unreachable!(),
    }
}
