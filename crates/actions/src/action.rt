//! Does an action.
ghost use Rattle.std.specs.Prelude.{◌≡◌, ◌≤◌, ◌⊎◌, [], OnOk, IfErr, OnErr, All, false, length, vec_len};
ghost use Rattle.std.specs.List.{AllZip};
ghost use Rattle.row_defs.specs.Limits.{most_rows};
ghost use Rattle.row_defs.specs.LocalOps.{AreSoundOps};
ghost use Rattle.script_defs.specs.Runs.{text_of_rows};
ghost use Rattle.script_defs.specs.Sound.{IsSoundAction};
ghost use Rattle.dia_edge.specs.Sinks.{TookAll};
ghost use Rattle.block_pool.specs.Handles.{HandValue, Follows};
ghost use Rattle.lop_chain.specs.Rows.{Kinds};
ghost use Rattle.lop_chain.specs.Ops.{ops_in};
ghost use Rattle.lop_chain.specs.Operands.{root_in};
ghost use Rattle.script_read.specs.Statements.{action_in};
ghost use Rattle.scatter.specs.Lines.{HasRoot, root_kinds};
ghost use Rattle.scatter.specs.Stocks.{lines_of, AreInPools};
ghost use Rattle.scatter.specs.Phases.{pools_of, IsUsed};
ghost use Rattle.scatter.specs.Told.{AreTold, HasPermit, arriving};
ghost use Rattle.actions.specs.Acting.{ActStopped};

use crate::print::print;
use block_pool::Hand;
use dia_edge::{Disk, Gate, Sink};
use feed_actions::{ActErr, size, sum};
use lop_chain::Operand;
use scatter::{Net, Stock};
use script_read::Action;
use std::alloc::Global;
use std::sync::Wait;
use std::thread::Threads;
use text_out::OutBuffer;
use worker_step::{MOST_TASKS, Way};

/// Does an action: writes its text of the rows that arrive.
///
/// `size` and `sum` are one phase over all workers. `print` is done by the calling thread, worker by worker in order of rank,
/// through the buffer; where it isn't known without reading whether too many rows arrive, all workers count them first.
///
/// After `TooManyRows` nothing was written; after another refusal nothing or some prefix of the text, and the buffer may only be
/// dropped. `Disk` comes only where the disk failed in this call, and `Damaged` never where it tells. On every answer each hand
/// is there, and the lines are in stock as before with no part lent, but that where this is the last use the root's line is
/// gone; after a refusal it may be there still.
pub fn act<'p, R: Threads + Wait + Sync, G: Gate + Sync, D: Disk + Send + Sync, X: Net, S: Sink>(
    rt: &R,
    alloc: Global,
    way: &mut Way<'_, G>,
    stock: &mut Stock<X>,
    action: &Action,
    operand: &Operand,
    hands: &mut Vec<Hand<'p, D>>,
    buffer: &mut OutBuffer,
    out: &mut S,
) -> Result<(), ActErr>
    requires few { vec_len hands.old ≤ MOST_TASKS }
    requires long { vec_len hands.old ≡ stock.old.workers }
    requires root { HasRoot (lines_of stock.old) (root_in operand.now.root) }
    requires own { AreInPools (pools_of hands.old.items) (lines_of stock.old) }
    requires actable { (to : Kinds) × AreSoundOps (root_kinds (lines_of stock.old) (root_in operand.now.root)) (ops_in operand.now.chain.items) to
        × IsSoundAction to (action_in action.now) }
    requires permits { All HasPermit hands.old.items }
    requires empty { buffer.old ≡ [] }

    ensures text { OnOk result (AreTold (root_in operand.now.root) hands.old.items → TookAll (S.taken out.old)
        (text_of_rows (action_in action.now) (arriving (lines_of stock.old) (root_in operand.now.root) (ops_in operand.now.chain.items))) (S.taken out.new)) }
    ensures few { OnOk result (AreTold (root_in operand.now.root) hands.old.items
        → length (arriving (lines_of stock.old) (root_in operand.now.root) (ops_in operand.now.chain.items)) ≤ most_rows) }
    ensures permits { OnOk result (AllZip (λ (a b : HandValue). b.permits ≡ a.permits) hands.old.items hands.new.items) }
    ensures empty { OnOk result (buffer.new ≡ []) }
    ensures refused { IfErr result (ActStopped S.Sink (lines_of stock.old) (root_in operand.now.root) (ops_in operand.now.chain.items)
        (text_of_rows (action_in action.now)) hands.old.items hands.new.items out.old out.new) }
    ensures lines { OnOk result (IsUsed (lines_of stock.old) (root_in operand.now.root) operand.now.last (lines_of stock.new)) }
    ensures left { OnErr result (IsUsed (lines_of stock.old) (root_in operand.now.root) operand.now.last (lines_of stock.new)
        ⊎ IsUsed (lines_of stock.old) (root_in operand.now.root) false (lines_of stock.new)) }

    // On every answer.
    ensures counts { S.faults out.old ≤ S.faults out.new }
    ensures follows { AllZip Follows hands.old.items hands.new.items }
    ensures net { stock.new.net ≡ stock.old.net }
    ensures workers { stock.new.workers ≡ stock.old.workers }
{
    match action {
        Action::Print { .. } => print(rt, alloc, way, stock, operand, hands, buffer, out),
        Action::Size { .. } => size(rt, alloc, way, stock, operand, hands, out),
        Action::Sum { column, .. } => { sum(rt, alloc, way, stock, operand, *column, hands, out) }
    }
}
