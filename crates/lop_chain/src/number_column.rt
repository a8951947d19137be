//! A column of numbers, made ready.
ghost use Rattle.std.specs.Prelude.{◌≡◌, true, IfOk, IsSome};
ghost use Rattle.row_defs.specs.Rows.{int, kinds_of};
ghost use Rattle.row_defs.specs.Values.{expr_kind, value_of};
ghost use Rattle.dia_item.specs.Lent.{row_in_ref};
ghost use Rattle.dia_expr.specs.Exprs.{expr_in};
ghost use Rattle.dia_expr.specs.Formulas.{formula_in};
ghost use Rattle.dia_expr.specs.Typing.{is_numeric};

use dia_edge::NoMemory;
use dia_expr::{Expr, Formula};
use dia_item::RowRef;
use std::alloc::Global;

/// A column that is a number by the form of its expression.
#[derive(Debug, Drop)]
pub(crate) struct NumberColumn {
    formula: Formula,
    ghost numeric: { is_numeric (formula_in formula) ≡ true },
}

impl NumberColumn {
    ghost use Rattle.lop_chain.specs.Columns.{number_in};

    /// The column of this expression.
    pub(crate) fn of(alloc: Global, expr: &Expr) -> Result<NumberColumn, NoMemory>
        requires { is_numeric (expr_in expr.now) ≡ true }
        ensures { IfOk result (λ column. number_in column ≡ expr_in expr.now) }
    {
        Ok(NumberColumn {
            formula: Formula::of(alloc, expr)?,
        })
    }

    /// Its number in the row that is made of a row.
    #[inline(always)]
    pub(crate) fn value(&self, row: &RowRef<'_>) -> u64
        requires { IsSome (expr_kind (kinds_of (row_in_ref row.now)) (number_in self.now)) }
        ensures { value_of (number_in self.now) (row_in_ref row.now) ≡ int result }
    {
        self.formula.value(row)
    }
}
