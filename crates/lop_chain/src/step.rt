//! Local lines of a script, made ready.
ghost use Rattle.std.specs.Prelude.{◌≡◌, IfOk};
ghost use Rattle.lop_chain.specs.Ops.{op_in, ops_in};
ghost use Rattle.lop_chain.specs.Steps.{step_in, steps_in};

use crate::columns::{Columns, columns_of};
use crate::script_op::ScriptOp;
use dia_edge::NoMemory;
use dia_expr::Formula;
use std::alloc::Global;

/// One local line, made ready for many rows.
#[derive(Debug, Drop)]
pub(crate) enum Step {
    /// The row of these columns.
    Map(Columns),
    /// The row, where the number isn't 0.
    Filter(Formula),
    /// The row with each word of a text in the text's place.
    Words {
        /// The text's column, counted from 0.
        column: u32,
    },
    /// The row with each number below `count` added to a column.
    Spread {
        /// The column, counted from 0.
        column: u32,
        /// How many rows are made.
        count: u32,
    },
}

/// A line, made ready.
fn step_of(alloc: Global, op: &ScriptOp) -> Result<Step, NoMemory>
    ensures { IfOk result (λ step. step_in step ≡ op_in op.now) }
{
    match op {
        ScriptOp::Map(exprs) => Ok(Step::Map(columns_of(alloc, exprs.as_slice())?)),
        ScriptOp::Filter(expr) => Ok(Step::Filter(Formula::of(alloc, expr)?)),
        ScriptOp::Words { column } => Ok(Step::Words { column: *column }),
        ScriptOp::Spread { column, count } => Ok(Step::Spread {
            column: *column,
            count: *count,
        }),
    }
}

/// The lines, made ready.
pub(crate) fn steps_of(alloc: Global, ops: &[ScriptOp]) -> Result<Vec<Step>, NoMemory>
    ensures { IfOk result (λ steps. steps_in steps.items ≡ ops_in ops.now) }
{
    let mut steps = Vec::new(alloc);
    for op in ops {
        steps.push(step_of(alloc, op)?)?;
    }
    Ok(steps)
}

impl Step {
    ghost use Rattle.lop_chain.specs.Steps.{makes_rows};

    /// Whether it makes rows of its own. A filter passes on the row that it was given.
    pub(crate) fn makes_rows(&self) -> bool
        ensures { result ≡ makes_rows self.now }
    {
        !matches!(self, Step::Filter(_))
    }
}
