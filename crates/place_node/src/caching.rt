//! The rows that arrive, written to files by all workers.
ghost use Rattle.std.specs.Prelude.{◌≡◌, ◌≤◌, ◌⊎◌, All, IfOk, OnOk, IfErr, OnErr, length, vec_len};
ghost use Rattle.std.specs.List.{AllZip};
ghost use Rattle.row_defs.specs.Limits.{most_rows};
ghost use Rattle.row_defs.specs.LocalOps.{AreSoundOps};
ghost use Rattle.dia_item.specs.KindList.{kind_list};
ghost use Rattle.block_pool.specs.Handles.{HandValue, Follows};
ghost use Rattle.dia_file.specs.Cuts.{rows_of_files};
ghost use Rattle.dia_file.specs.Files.{IsFileOf};
ghost use Rattle.lop_chain.specs.Ops.{ops_in};
ghost use Rattle.lop_chain.specs.Operands.{root_in};
ghost use Rattle.file_sink.specs.Sinks.{KeepsFile};
ghost use Rattle.scatter.specs.Lines.{HasKinds, HasRoot, root_kinds, root_feeds};
ghost use Rattle.scatter.specs.Stocks.{lines_of, AreInPools};
ghost use Rattle.scatter.specs.Phases.{pools_of, IsUsed, HasSent, HasStopped};
ghost use Rattle.scatter.specs.Told.{AreTold, arriving};
ghost use Rattle.sink_files.specs.Ending.{HasTwoPermits, IsFreshSink};
ghost use Rattle.place_node.specs.Placing.{PlaceRefused};

use crate::node_err::{NodeErr, refusal_of, refusal_of_keeping};
use block_pool::Hand;
use dia_edge::{Disk, Gate, NoMemory};
use dia_file::{File, PushErr};
use file_sink::FileSink;
use hand_phase::run_hands;
use lop_chain::{Operand, RowSink};
use scatter::{FeedErr, Net, Phase, Stock};
use sink_files::{cancel_all, keep_all, made_ready};
use std::alloc::Global;
use std::sync::Wait;
use std::thread::Threads;
use worker_step::{MOST_TASKS, Way};

/// One phase: each worker writes what is made of the rows of its feed.
fn place_phase<'p, R: Threads + Wait + Sync, G: Gate + Sync, D: Disk + Send + Sync, X: Net>(
    rt: &R,
    alloc: Global,
    way: &mut Way<'_, G>,
    stock: &mut Stock<X>,
    operand: &Operand,
    hands: &mut Vec<Hand<'p, D>>,
    sinks: &mut Vec<FileSink<'p, D>>,
) -> Result<(), FeedErr<PushErr>>
    requires few { vec_len hands.old ≤ MOST_TASKS }
    requires long { vec_len hands.old ≡ stock.old.workers }
    requires root { HasRoot (lines_of stock.old) (root_in operand.now.root) }
    requires own { AreInPools (pools_of hands.old.items) (lines_of stock.old) }
    requires sound { AreSoundOps (root_kinds (lines_of stock.old) (root_in operand.now.root)) (ops_in operand.now.chain.items) (kind_list operand.now.kinds) }
    requires permits { All HasTwoPermits hands.old.items }
    requires fresh { AllZip (IsFreshSink (kind_list operand.now.kinds)) sinks.old.items hands.old.items }

    ensures sent { OnOk result (HasSent ⟦<FileSink<'p, D> as RowSink>⟧
        (root_feeds (lines_of stock.old) stock.old.workers (root_in operand.now.root) operand.now.last (ops_in operand.now.chain.items))
        sinks.old.items hands.old.items sinks.new.items hands.new.items) }
    ensures stopped { IfErr result (λ e. (e ≡ FeedErr.NoMemory) ⊎ HasStopped ⟦<FileSink<'p, D> as RowSink>⟧
        (root_feeds (lines_of stock.old) stock.old.workers (root_in operand.now.root) operand.now.last (ops_in operand.now.chain.items))
        sinks.old.items hands.old.items sinks.new.items hands.new.items e) }
    ensures lines { OnOk result (IsUsed (lines_of stock.old) (root_in operand.now.root) operand.now.last (lines_of stock.new)) }
    ensures left { OnErr result (IsUsed (lines_of stock.old) (root_in operand.now.root) operand.now.last (lines_of stock.new) ⊎ (stock.new ≡ stock.old)) }

    // On every answer.
    ensures stays { AllZip KeepsFile sinks.old.items sinks.new.items }
    ensures follows { AllZip Follows hands.old.items hands.new.items }
    ensures net { stock.new.net ≡ stock.old.net }
    ensures workers { stock.new.workers ≡ stock.old.workers }
{
    let mut phase: Phase<'p, D, X, FileSink<'p, D>> = match Phase::begin(
        alloc,
        stock,
        operand,
        operand.last,
        hands,
        sinks,
    ) {
        Ok(phase) => phase,
        Err(NoMemory) => return Err(FeedErr::NoMemory),
    };
    let answer = run_hands(rt, alloc, way, hands, &mut phase.sends);
    phase.finish(rt, alloc, stock, hands, sinks, answer)
}

/// Each worker writes what is made of the rows of its feed to a file.
pub(crate) fn cache<'p, R: Threads + Wait + Sync, G: Gate + Sync, D: Disk + Send + Sync, X: Net>(
    rt: &R,
    alloc: Global,
    way: &mut Way<'_, G>,
    stock: &mut Stock<X>,
    operand: &Operand,
    hands: &mut Vec<Hand<'p, D>>,
) -> Result<Vec<File>, NodeErr>
    requires few { vec_len hands.old ≤ MOST_TASKS }
    requires long { vec_len hands.old ≡ stock.old.workers }
    requires root { HasRoot (lines_of stock.old) (root_in operand.now.root) }
    requires own { AreInPools (pools_of hands.old.items) (lines_of stock.old) }
    requires sound { AreSoundOps (root_kinds (lines_of stock.old) (root_in operand.now.root)) (ops_in operand.now.chain.items) (kind_list operand.now.kinds) }
    requires permits { All HasTwoPermits hands.old.items }

    ensures count { IfOk result (λ files. vec_len files ≡ stock.old.workers) }
    ensures own { IfOk result (λ files. AllZip IsFileOf (pools_of hands.old.items) files.items) }
    ensures kinds { IfOk result (λ files. All (HasKinds (kind_list operand.now.kinds)) files.items) }
    ensures rows { IfOk result (λ files. AreTold (root_in operand.now.root) hands.old.items
        → rows_of_files files.items ≡ arriving (lines_of stock.old) (root_in operand.now.root) (ops_in operand.now.chain.items)) }
    ensures few { IfOk result (λ files. length (rows_of_files files.items) ≤ most_rows) }
    ensures permits { OnOk result (AllZip (λ (a b : HandValue). b.permits ≡ a.permits) hands.old.items hands.new.items) }
    ensures refused { IfErr result (PlaceRefused (lines_of stock.old) (root_in operand.now.root) (ops_in operand.now.chain.items) hands.old.items hands.new.items) }
    ensures lines { OnOk result (IsUsed (lines_of stock.old) (root_in operand.now.root) operand.now.last (lines_of stock.new)) }
    ensures left { OnErr result (IsUsed (lines_of stock.old) (root_in operand.now.root) operand.now.last (lines_of stock.new) ⊎ (stock.new ≡ stock.old)) }

    // On every answer.
    ensures follows { AllZip Follows hands.old.items hands.new.items }
    ensures net { stock.new.net ≡ stock.old.net }
    ensures workers { stock.new.workers ≡ stock.old.workers }
{
    stock.joined(operand, operand.last);
    let (room, mut sinks) = match made_ready(alloc, operand.kinds, hands) {
        Ok(ready) => ready,
        Err(NoMemory) => return Err(NodeErr::NoMemory),
    };
    match place_phase(rt, alloc, way, stock, operand, hands, &mut sinks) {
        Ok(()) => match keep_all(rt, alloc, hands, sinks, room) {
            Ok(files) => Ok(files),
            Err(refusal) => Err(refusal_of_keeping(refusal)),
        },
        Err(fault) => {
            cancel_all(rt, alloc, hands, sinks, room);
            Err(refusal_of(fault))
        }
    }
}
