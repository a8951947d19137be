//! A column of the rows that arrive, added up by all workers.
ghost use Rattle.std.specs.Prelude.{◌≡◌, Err, ◌<◌, ◌≤◌, ◌%◌, ◌^◌, ◌⊎◌, Some, slice_get, IfOk, OnOk, IfErr, OnErr, All, length, vec_len};
ghost use Rattle.std.specs.List.{AllZip, sum_by};
ghost use Rattle.row_defs.specs.Limits.{most_rows};
ghost use Rattle.row_defs.specs.Printed.{column_sum};
ghost use Rattle.row_defs.specs.declared.kind.Kind.TheVariants.{Int};
ghost use Rattle.row_defs.specs.LocalOps.{AreSoundOps};
ghost use Rattle.block_pool.specs.Handles.{HandValue, Follows};
ghost use Rattle.lop_chain.specs.Rows.{Kinds};
ghost use Rattle.lop_chain.specs.Ops.{ops_in};
ghost use Rattle.lop_chain.specs.Operands.{root_in};
ghost use Rattle.scatter.specs.Lines.{HasRoot, root_kinds, root_feeds};
ghost use Rattle.scatter.specs.Stocks.{lines_of, AreInPools};
ghost use Rattle.scatter.specs.Phases.{pools_of, IsUsed, HasSent, HasStopped};
ghost use Rattle.scatter.specs.Told.{AreTold, HasPermit, arriving};
ghost use Rattle.feed_actions.specs.Adding.{IsFreshSummer, rows_added, sum_in};
ghost use Rattle.feed_actions.specs.Counting.{IsTooLong, CountRefused};

use crate::counter::TooManyRows;
use crate::counting::few;
use crate::known::check_known;
use crate::summer::Summer;
use block_pool::Hand;
use dia_edge::{Disk, Gate, NoMemory};
use hand_phase::run_hands;
use lop_chain::{Operand, RowSink};
use scatter::{FeedErr, Net, Phase, Stock};
use std::alloc::Global;
use std::sync::Wait;
use std::thread::Threads;
use worker_step::{MOST_TASKS, Way};

/// So many summers of this column, of no rows yet.
fn summers_for<'p, D: Disk>(
    alloc: Global,
    count: usize,
    column: usize,
) -> Result<Vec<Summer<'p, D>>, NoMemory>
    ensures len { IfOk result (λ summers. vec_len summers ≡ count) }
    ensures fresh { IfOk result (λ summers. All (IsFreshSummer column) summers.items) }
{
    let mut summers = Vec::with_capacity(alloc, count)?;
    for _rank in 0..count {
        summers.push_reserved(Summer::new(column));
    }
    Ok(summers)
}

/// How many rows they took together.
fn total<D: Disk>(summers: &[Summer<'_, D>]) -> u64
    requires { length summers.now ≤ MOST_TASKS }
    ensures { result ≡ sum_by rows_added summers.now }
{
    let mut rows = 0;
    for summer in summers {
        rows += summer.counter.rows;
    }
    rows
}

/// What they come to together, modulo 2^64.
fn sum<D: Disk>(summers: &[Summer<'_, D>]) -> u64
    ensures { result ≡ sum_by sum_in summers.now % 2 ^ 64 }
{
    let mut sum = 0u64;
    for summer in summers {
        sum = sum.wrapping_add(summer.sum);
    }
    sum
}

/// One phase: each worker adds up a column of what is made of the rows of its feed.
fn sum_phase<'p, R: Threads + Wait + Sync, G: Gate + Sync, D: Disk + Send + Sync, X: Net>(
    rt: &R,
    alloc: Global,
    way: &mut Way<'_, G>,
    stock: &mut Stock<X>,
    operand: &Operand,
    column: u32,
    hands: &mut Vec<Hand<'p, D>>,
    summers: &mut Vec<Summer<'p, D>>,
) -> Result<(), FeedErr<TooManyRows>>
    requires few { vec_len hands.old ≤ MOST_TASKS }
    requires long { (vec_len hands.old ≡ stock.old.workers) × (vec_len summers.old ≡ stock.old.workers) }
    requires root { HasRoot (lines_of stock.old) (root_in operand.now.root) }
    requires own { AreInPools (pools_of hands.old.items) (lines_of stock.old) }
    requires sound { (to : Kinds) × AreSoundOps (root_kinds (lines_of stock.old) (root_in operand.now.root)) (ops_in operand.now.chain.items) to × (slice_get to column ≡ Some Int) }
    requires permits { All HasPermit hands.old.items }
    requires fresh { All (IsFreshSummer column) summers.old.items }

    ensures sent { OnOk result (HasSent ⟦<Summer<'p, D> as RowSink>⟧
        (root_feeds (lines_of stock.old) stock.old.workers (root_in operand.now.root) operand.now.last (ops_in operand.now.chain.items))
        summers.old.items hands.old.items summers.new.items hands.new.items) }
    ensures stopped { IfErr result (λ e. (e ≡ FeedErr.NoMemory) ⊎ HasStopped ⟦<Summer<'p, D> as RowSink>⟧
        (root_feeds (lines_of stock.old) stock.old.workers (root_in operand.now.root) operand.now.last (ops_in operand.now.chain.items))
        summers.old.items hands.old.items summers.new.items hands.new.items e) }
    ensures lines { OnOk result (IsUsed (lines_of stock.old) (root_in operand.now.root) operand.now.last (lines_of stock.new)) }
    ensures left { OnErr result (IsUsed (lines_of stock.old) (root_in operand.now.root) operand.now.last (lines_of stock.new) ⊎ (stock.new ≡ stock.old)) }

    // On every answer.
    ensures follows { AllZip Follows hands.old.items hands.new.items }
    ensures net { stock.new.net ≡ stock.old.net }
    ensures workers { stock.new.workers ≡ stock.old.workers }
{
    let mut phase: Phase<'p, D, X, Summer<'p, D>> = match Phase::begin(
        alloc,
        stock,
        operand,
        operand.last,
        hands,
        summers,
    ) {
        Ok(phase) => phase,
        Err(NoMemory) => return Err(FeedErr::NoMemory),
    };
    let answer = run_hands(rt, alloc, way, hands, &mut phase.sends);
    phase.finish(rt, alloc, stock, hands, summers, answer)
}

/// The sum of a column of the rows that arrive, modulo 2^64, by all workers in one phase, which isn't begun where more rows are
/// known to arrive than may.
pub(crate) fn sum_all<'p, R: Threads + Wait + Sync, G: Gate + Sync, D: Disk + Send + Sync, X: Net>(
    rt: &R,
    alloc: Global,
    way: &mut Way<'_, G>,
    stock: &mut Stock<X>,
    operand: &Operand,
    column: u32,
    hands: &mut Vec<Hand<'p, D>>,
) -> Result<u64, FeedErr<TooManyRows>>
    requires few { vec_len hands.old ≤ MOST_TASKS }
    requires long { vec_len hands.old ≡ stock.old.workers }
    requires root { HasRoot (lines_of stock.old) (root_in operand.now.root) }
    requires own { AreInPools (pools_of hands.old.items) (lines_of stock.old) }
    requires sound { (to : Kinds) × AreSoundOps (root_kinds (lines_of stock.old) (root_in operand.now.root)) (ops_in operand.now.chain.items) to × (slice_get to column ≡ Some Int) }
    requires permits { All HasPermit hands.old.items }

    ensures sum { IfOk result (λ n. AreTold (root_in operand.now.root) hands.old.items
        → n ≡ column_sum column (arriving (lines_of stock.old) (root_in operand.now.root) (ops_in operand.now.chain.items))) }
    ensures few { OnOk result (AreTold (root_in operand.now.root) hands.old.items
        → length (arriving (lines_of stock.old) (root_in operand.now.root) (ops_in operand.now.chain.items)) ≤ most_rows) }
    ensures permits { OnOk result (AllZip (λ (a b : HandValue). b.permits ≡ a.permits) hands.old.items hands.new.items) }
    ensures refused { IfErr result (λ e. CountRefused (lines_of stock.old) (root_in operand.now.root) (ops_in operand.now.chain.items) hands.old.items hands.new.items e) }
    ensures lines { OnOk result (IsUsed (lines_of stock.old) (root_in operand.now.root) operand.now.last (lines_of stock.new)) }
    ensures left { OnErr result (IsUsed (lines_of stock.old) (root_in operand.now.root) operand.now.last (lines_of stock.new) ⊎ (stock.new ≡ stock.old)) }
    ensures at_once { IsTooLong (lines_of stock.old) (root_in operand.now.root) (ops_in operand.now.chain.items)
        → (e : TooManyRows) × (result ≡ Err (FeedErr.Sink e)) × (hands.new ≡ hands.old) × (stock.new ≡ stock.old) }

    // On every answer.
    ensures follows { AllZip Follows hands.old.items hands.new.items }
    ensures net { stock.new.net ≡ stock.old.net }
    ensures workers { stock.new.workers ≡ stock.old.workers }
{
    if let Err(refusal) = check_known(stock, operand) {
        return Err(FeedErr::Sink(refusal));
    }
    stock.joined(operand, operand.last);
    let mut summers = match summers_for(alloc, hands.len(), column as usize) {
        Ok(summers) => summers,
        Err(NoMemory) => return Err(FeedErr::NoMemory),
    };
    sum_phase(rt, alloc, way, stock, operand, column, hands, &mut summers)?;
    match few(total(summers.as_slice())) {
        Ok(_) => Ok(sum(summers.as_slice())),
        Err(refusal) => Err(FeedErr::Sink(refusal)),
    }
}
