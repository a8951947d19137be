//! The columns that a map makes, made ready.
ghost use Rattle.std.specs.Prelude.{◌≡◌, ◌≤◌, ◌<◌, ◌+◌, ◌++◌, ◌∷◌, [], length, true, IfOk, IfSome};
ghost use Rattle.row_defs.specs.Rows.{kinds_of};
ghost use Rattle.row_defs.specs.Limits.{most_columns};
ghost use Rattle.row_defs.specs.LocalOps.{map_op, HaveKinds, IsSoundOp, op_kinds};
ghost use Rattle.dia_item.specs.Lent.{row_in_ref};
ghost use Rattle.lop_chain.specs.Ops.{exprs_in, values_of};
ghost use Rattle.lop_chain.specs.Columns.{numbers_in, columns_in};

use crate::number_column::NumberColumn;
use crate::script_op::copy_exprs;
use dia_edge::NoMemory;
use dia_expr::{Expr, eval_ref, is_numeric};
use dia_item::{RowBuf, RowRef};
use std::alloc::Global;

/// The columns that a map makes.
#[derive(Debug, Drop)]
pub(crate) enum Columns {
    /// Numbers alone.
    Numbers(Vec<NumberColumn>),
    /// Columns of any kinds.
    Any(Vec<Expr>),
}

/// The columns, where all are numbers by their form.
fn number_columns(alloc: Global, exprs: &[Expr]) -> Result<Option<Vec<NumberColumn>>, NoMemory>
    ensures { IfOk result (λ all. IfSome all (λ columns. numbers_in columns.items ≡ exprs_in exprs.now)) }
{
    let mut columns = Vec::new(alloc);
    for expr in exprs {
        if !is_numeric(expr) {
            return Ok(None);
        }
        columns.push(NumberColumn::of(alloc, expr)?)?;
    }
    Ok(Some(columns))
}

/// The columns of these expressions.
pub(crate) fn columns_of(alloc: Global, exprs: &[Expr]) -> Result<Columns, NoMemory>
    ensures { IfOk result (λ columns. columns_in columns ≡ exprs_in exprs.now) }
{
    match number_columns(alloc, exprs)? {
        Some(columns) => Ok(Columns::Numbers(columns)),
        None => Ok(Columns::Any(copy_exprs(alloc, exprs)?)),
    }
}

/// The numbers of a row, as further columns.
#[inline(never)]
fn append_numbers(columns: &[NumberColumn], row: &RowRef<'_>, into: &mut RowBuf)
    requires kinds { HaveKinds (kinds_of (row_in_ref row.now)) (numbers_in columns.now) }
    requires room { length into.old + length columns.now ≤ most_columns }
    ensures { into.new ≡ into.old ++ values_of (numbers_in columns.now) (row_in_ref row.now) }
{
    let Some((column, rest)) = columns.split_first() else {
        return;
    };
    into.push_int(column.value(row));
    append_numbers(rest, row, into);
}

/// The values of the expressions on a row, as further columns.
fn append_values(exprs: &[Expr], row: &RowRef<'_>, into: &mut RowBuf)
    requires kinds { HaveKinds (kinds_of (row_in_ref row.now)) (exprs_in exprs.now) }
    requires room { length into.old + length exprs.now ≤ most_columns }
    ensures { into.new ≡ into.old ++ values_of (exprs_in exprs.now) (row_in_ref row.now) }
{
    let Some((expr, rest)) = exprs.split_first() else {
        return;
    };
    eval_ref(expr, row, into);
    append_values(rest, row, into);
}

/// The row of numbers. The kind of a lone one stays from the row before.
#[inline(always)]
fn put_numbers(columns: &[NumberColumn], row: &RowRef<'_>, into: &mut RowBuf)
    requires { IsSoundOp (kinds_of (row_in_ref row.now)) (map_op (numbers_in columns.now)) }
    ensures { into.new ≡ values_of (numbers_in columns.now) (row_in_ref row.now) }
{
    match columns.split_first() {
        Some((column, rest)) => {
            into.set_int(column.value(row));
            if !rest.is_empty() {
                append_numbers(rest, row, into);
            }
        }
        None => unreachable!(),
    }
}

/// The row of values of any kinds.
#[inline(never)]
fn put_any(exprs: &[Expr], row: &RowRef<'_>, into: &mut RowBuf)
    requires { IsSoundOp (kinds_of (row_in_ref row.now)) (map_op (exprs_in exprs.now)) }
    ensures { into.new ≡ values_of (exprs_in exprs.now) (row_in_ref row.now) }
{
    into.clear();
    append_values(exprs, row, into);
}

/// The row that a map makes, in place of what the buffer held.
#[inline(always)]
pub(crate) fn put_values(columns: &Columns, row: &RowRef<'_>, into: &mut RowBuf)
    requires { IsSoundOp (kinds_of (row_in_ref row.now)) (map_op (columns_in columns.now)) }
    ensures row { into.new ≡ values_of (columns_in columns.now) (row_in_ref row.now) }
    ensures kinds { kinds_of into.new ≡ op_kinds (kinds_of (row_in_ref row.now)) (map_op (columns_in columns.now)) }
    ensures some { 0 < length into.new }
{
    match columns {
        Columns::Numbers(columns) => put_numbers(columns.as_slice(), row, into),
        Columns::Any(exprs) => put_any(exprs.as_slice(), row, into),
    }
}
