//! Several local lines, one after the other.
ghost use Rattle.std.specs.Prelude.{◌≡◌, ◌≤◌, false, IfOk, OnOk, IfErr, vec_len, refl};
ghost use Rattle.row_defs.specs.Rows.{kinds_of};
ghost use Rattle.row_defs.specs.LocalOps.{rows_through, AreSoundOps};
ghost use Rattle.dia_item.specs.Lent.{row_in_ref};
ghost use Rattle.lop_chain.specs.Rows.{Kinds};
ghost use Rattle.lop_chain.specs.Calls.{TookRows, TookSome};
ghost use Rattle.lop_chain.specs.Ops.{ops_in};
ghost use Rattle.lop_chain.specs.Steps.{buffers_needed};
ghost use Rattle.lop_chain.specs.OpLemmas.{made_sound};

use crate::local_op::LocalOp;
use crate::push::push_through_all;
use crate::script_op::ScriptOp;
use crate::sink::RowSink;
use crate::step::{Step, steps_of};
use dia_edge::NoMemory;
use dia_item::{RowBuf, RowRef};
use std::alloc::Global;
use std::sync::Wait;

/// Local lines, one after the other, made ready, with a row buffer for each line that makes rows, had at the making of
/// the chain: a push takes no memory.
#[derive(Drop)]
pub struct Chain {
    steps: Vec<Step>,
    buffers: Vec<RowBuf>,
    ghost enough: { buffers_needed steps.items ≤ vec_len buffers },
}

/// A buffer for each of the lines that make rows.
fn buffers_for(alloc: Global, steps: &[Step]) -> Result<Vec<RowBuf>, NoMemory>
    ensures { IfOk result (λ buffers. vec_len buffers ≡ buffers_needed steps.now) }
{
    let mut buffers = Vec::new(alloc);
    for step in steps {
        if step.makes_rows() {
            buffers.push(RowBuf::new(alloc)?)?;
        }
    }
    Ok(buffers)
}

impl Chain {
    ghost use Rattle.lop_chain.specs.Chains.{chain_ops};

    /// A chain of these lines.
    pub fn new(alloc: Global, ops: Vec<ScriptOp>) -> Result<Chain, NoMemory>
        ensures { IfOk result (λ chain. chain_ops chain ≡ ops_in ops.items) }
    {
        let steps = steps_of(alloc, ops.as_slice())?;
        let buffers = buffers_for(alloc, steps.as_slice())?;
        Ok(Chain { steps, buffers })
    }

    /// Pushes the rows that the lines make of a row into a sink, in order; the lines stay. The only refusal is the sink's
    /// own: the rows before the refused one were taken, and nothing was offered after it.
    pub fn push_row<R: Wait, S: RowSink>(
        &mut self,
        rt: &R,
        row: RowRef<'_>,
        desk: &mut S::Desk,
        sink: &mut S,
    ) -> Result<(), S::Refusal>
        requires fits { (to : Kinds) × AreSoundOps (kinds_of (row_in_ref row)) (chain_ops self.old) to × S.accepts sink.old to }
        requires serves { S.serves sink.old desk.old }
        requires is_open { S.is_shut sink.old ≡ false }
        ensures ok { OnOk result (TookRows S.RowSink sink.old desk.old (rows_through (chain_ops self.old) (row_in_ref row.entry)) sink.new desk.new) }
        ensures err { IfErr result (λ e. TookSome S.RowSink sink.old desk.old (rows_through (chain_ops self.old) (row_in_ref row.entry)) e sink.new desk.new) }
        ensures same { chain_ops self.new ≡ chain_ops self.old }
        ensures follows { S.follows desk.old desk.new }
        ensures stays { S.stays sink.old sink.new }
    {
        push_through_all(
            rt,
            self.steps.as_slice(),
            self.buffers.as_mut_slice(),
            &row,
            desk,
            sink,
        )
    }
}

impl LocalOp for Chain {
    ghost use Rattle.lop_chain.specs.Chains.{chain_ops};

    ghost fits = { λ x from to. AreSoundOps from (chain_ops x) to };

    ghost makes = { λ x row rows. rows ≡ rows_through (chain_ops x) row };

    fn push<R: Wait, S: RowSink>(
        &mut self,
        rt: &R,
        row: RowRef<'_>,
        desk: &mut S::Desk,
        sink: &mut S,
    ) -> Result<(), S::Refusal> {
        self.push_row(rt, row, desk, sink)
    }

    ghost total = { λ x from to row h k. (rows_through (chain_ops x) row, refl) };

    ghost sound = { λ x from to row rows h k e. made_sound (chain_ops x) from to row rows h k e };
}
