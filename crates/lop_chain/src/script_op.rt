//! Local lines of a script.
ghost use Rattle.std.specs.Prelude.{◌≡◌, IfOk};
ghost use Rattle.lop_chain.specs.Ops.{exprs_in, ops_in};

use dia_edge::NoMemory;
use dia_expr::Expr;
use std::alloc::Global;

/// One local line: what it makes of a row rests on that row alone.
#[derive(Debug, Drop)]
pub enum ScriptOp {
    /// The row of these expressions' values.
    Map(Vec<Expr>),
    /// The row, where the expression isn't 0.
    Filter(Expr),
    /// The row with each word of a text in the text's place.
    Words {
        /// The text's column, counted from 0.
        column: u32,
    },
    /// The row with each number below `count` added to a column.
    Spread {
        /// The column, counted from 0.
        column: u32,
        /// How many rows are made.
        count: u32,
    },
}

/// The same expressions.
pub fn copy_exprs(alloc: Global, exprs: &[Expr]) -> Result<Vec<Expr>, NoMemory>
    ensures { IfOk result (λ copies. exprs_in copies.items ≡ exprs_in exprs.now) }
{
    let mut copies = Vec::new(alloc);
    for expr in exprs {
        copies.push(expr.copy(alloc)?)?;
    }
    Ok(copies)
}

/// The same lines.
pub fn copy_ops(alloc: Global, ops: &[ScriptOp]) -> Result<Vec<ScriptOp>, NoMemory>
    ensures { IfOk result (λ copies. ops_in copies.items ≡ ops_in ops.now) }
{
    let mut copies = Vec::new(alloc);
    for op in ops {
        copies.push(op.copy(alloc)?)?;
    }
    Ok(copies)
}

impl ScriptOp {
    ghost use Rattle.lop_chain.specs.Ops.{op_in};

    /// The same line.
    pub fn copy(&self, alloc: Global) -> Result<ScriptOp, NoMemory>
        ensures { IfOk result (λ op. op_in op ≡ op_in self.now) }
    {
        match self {
            ScriptOp::Map(exprs) => Ok(ScriptOp::Map(copy_exprs(alloc, exprs.as_slice())?)),
            ScriptOp::Filter(expr) => Ok(ScriptOp::Filter(expr.copy(alloc)?)),
            ScriptOp::Words { column } => Ok(ScriptOp::Words { column: *column }),
            ScriptOp::Spread { column, count } => Ok(ScriptOp::Spread {
                column: *column,
                count: *count,
            }),
        }
    }
}
