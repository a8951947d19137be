//! The rows of each worker's feed, counted.
ghost use Rattle.std.specs.Prelude.{◌≡◌, ◌≤◌, List, IfOk, OnOk, IfErr, All, map, length, sum, vec_len, vec_capacity};
ghost use Rattle.std.specs.List.{AllZip, flat_map};
ghost use Rattle.row_defs.specs.Limits.{most_rows};
ghost use Rattle.row_defs.specs.LocalOps.{AreSoundOps};
ghost use Rattle.row_defs.specs.Rows.{Row};
ghost use Rattle.block_pool.specs.Handles.{HandValue, Follows};
ghost use Rattle.lop_chain.specs.Rows.{Kinds};
ghost use Rattle.lop_chain.specs.Ops.{ops_in};
ghost use Rattle.lop_chain.specs.Operands.{root_in};
ghost use Rattle.scatter.specs.Lines.{HasRoot, root_kinds};
ghost use Rattle.scatter.specs.Stocks.{lines_of, AreInPools};
ghost use Rattle.scatter.specs.Phases.{pools_of};
ghost use Rattle.scatter.specs.Told.{AreTold, HasPermit, arriving};
ghost use Rattle.feed_actions.specs.Counting.{IsFreshCounter, CountRefused, rows_counted};
ghost use Rattle.feed_counts.specs.Ranks.{rows_by_rank, row_counts};

use block_pool::Hand;
use dia_edge::{Disk, Gate, NoMemory};
use feed_actions::{Counter, TooManyRows, count_phase, counted_in_all, counters_for, few};
use lop_chain::Operand;
use scatter::{FeedErr, Net, Stock};
use std::alloc::Global;
use std::sync::Wait;
use std::thread::Threads;
use worker_step::{MOST_TASKS, Way};

/// Counters for so many workers, and room for what they count.
fn made_ready<'p, D: Disk>(
    alloc: Global,
    workers: usize,
) -> Result<(Vec<Counter<'p, D>>, Vec<u64>), NoMemory>
    ensures len { IfOk result (λ ready. vec_len ready.0 ≡ workers) }
    ensures fresh { IfOk result (λ ready. All IsFreshCounter ready.0.items) }
    ensures room { IfOk result (λ ready. (vec_len ready.1 ≡ 0) × (workers ≤ vec_capacity ready.1)) }
{
    let counters = counters_for(alloc, workers)?;
    Ok((counters, Vec::with_capacity(alloc, workers)?))
}

/// What each of them counted.
fn counts_of<D: Disk>(counters: &[Counter<'_, D>], mut counts: Vec<u64>) -> Vec<u64>
    requires { (vec_len counts ≡ 0) × (length counters.now ≤ vec_capacity counts) }
    ensures { result.items ≡ map rows_counted counters.now }
{
    for counter in counters {
        counts.push_reserved(counter.rows);
    }
    counts
}

/// How many rows each worker's feed gives, by rank: no more in all than may arrive. They are counted by all workers in one phase,
/// which frees nothing: the operand is there to be read again.
///
/// `Sink` says that more rows arrive than may, `Disk` comes only where the disk failed in this call, `Damaged` never where it
/// tells, and `NoMemory` where there was none. On every answer each hand is there, and the lines are in stock as before.
pub fn rows_by_rank<'p, R: Threads + Wait + Sync, G: Gate + Sync, D: Disk + Send + Sync, X: Net>(
    rt: &R,
    alloc: Global,
    way: &mut Way<'_, G>,
    stock: &mut Stock<X>,
    operand: &Operand,
    hands: &mut Vec<Hand<'p, D>>,
) -> Result<Vec<u64>, FeedErr<TooManyRows>>
    requires few { vec_len hands.old ≤ MOST_TASKS }
    requires long { vec_len hands.old ≡ stock.old.workers }
    requires root { HasRoot (lines_of stock.old) (root_in operand.now.root) }
    requires own { AreInPools (pools_of hands.old.items) (lines_of stock.old) }
    requires sound { (to : Kinds) × AreSoundOps (root_kinds (lines_of stock.old) (root_in operand.now.root)) (ops_in operand.now.chain.items) to }
    requires permits { All HasPermit hands.old.items }

    ensures len { IfOk result (λ counts. vec_len counts ≡ stock.old.workers) }
    ensures counts { IfOk result (λ counts. AreTold (root_in operand.now.root) hands.old.items
        → counts.items ≡ row_counts (rows_by_rank (lines_of stock.old) stock.old.workers (root_in operand.now.root) (ops_in operand.now.chain.items))) }
    ensures few { IfOk result (λ counts. sum counts.items ≤ most_rows) }
    ensures permits { OnOk result (AllZip (λ (a b : HandValue). b.permits ≡ a.permits) hands.old.items hands.new.items) }
    ensures refused { IfErr result (λ e. CountRefused (lines_of stock.old) (root_in operand.now.root) (ops_in operand.now.chain.items) hands.old.items hands.new.items e) }

    // On every answer.
    ensures joined { flat_map (λ (rows : List Row). rows) (rows_by_rank (lines_of stock.old) stock.old.workers (root_in operand.now.root) (ops_in operand.now.chain.items))
        ≡ arriving (lines_of stock.old) (root_in operand.now.root) (ops_in operand.now.chain.items) }
    ensures lines { lines_of stock.new ≡ lines_of stock.old }
    ensures follows { AllZip Follows hands.old.items hands.new.items }
    ensures net { stock.new.net ≡ stock.old.net }
    ensures workers { stock.new.workers ≡ stock.old.workers }
{
    stock.joined(operand, false);
    let (mut counters, counts) = match made_ready(alloc, hands.len()) {
        Ok(ready) => ready,
        Err(NoMemory) => return Err(FeedErr::NoMemory),
    };
    count_phase(rt, alloc, way, stock, operand, false, hands, &mut counters)?;
    match few(counted_in_all(counters.as_slice())) {
        Ok(_) => Ok(counts_of(counters.as_slice(), counts)),
        Err(refusal) => Err(FeedErr::Sink(refusal)),
    }
}
