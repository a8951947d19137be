//! Expressions that are made ready.
ghost use Rattle.std.specs.Prelude.{◌≡◌, Some, IfOk};
ghost use Rattle.row_defs.specs.Rows.{int, kinds_of};
ghost use Rattle.row_defs.specs.Values.{expr_kind, value_of};
ghost use Rattle.row_defs.specs.declared.kind.Kind.TheVariants.{Int};
ghost use Rattle.dia_item.specs.Lent.{row_in_ref};
ghost use Rattle.dia_expr.specs.Exprs.{expr_in};
ghost use Rattle.dia_expr.specs.Nodes.{node_in, Computes};

use crate::expr::Expr;
use crate::node::{Node, node_of, node_value};
use dia_edge::NoMemory;
use dia_item::RowRef;
use std::alloc::Global;

/// An expression that is made ready to be evaluated on many rows of whose kinds it makes a number. Contracts see the
/// expression, `formula_in`.
#[derive(Debug, Drop)]
pub struct Formula {
    expr: Expr,
    node: Node,
    ghost computes: { Computes (node_in node) (expr_in expr) },
}

impl Formula {
    ghost use Rattle.dia_expr.specs.Formulas.{formula_in};

    /// An expression, made ready. This takes memory, and evaluation takes none.
    pub fn of(alloc: Global, expr: &Expr) -> Result<Formula, NoMemory>
        ensures { IfOk result (λ formula. formula_in formula ≡ expr_in expr.now) }
    {
        let node = node_of(alloc, expr)?;
        Ok(Formula {
            expr: expr.copy(alloc)?,
            node,
        })
    }

    /// The value on a row of an expression of kind Int.
    #[inline(always)]
    pub fn value(&self, row: &RowRef<'_>) -> u64
        requires { expr_kind (kinds_of (row_in_ref row.now)) (formula_in self.now) ≡ Some Int }
        ensures { value_of (formula_in self.now) (row_in_ref row.now) ≡ int result }
    {
        node_value(&self.node, row)
    }
}
