//! The rows that arrive, counted by all workers.
ghost use Rattle.std.specs.Prelude.{◌≡◌, ℕ, false, Ok, Err, ◌<◌, ◌≤◌, ◌⊎◌, IfOk, OnOk, IfErr, OnErr, All, length, vec_len};
ghost use Rattle.std.specs.List.{AllZip, sum_by};
ghost use Rattle.row_defs.specs.Limits.{most_rows};
ghost use Rattle.row_defs.specs.LocalOps.{AreSoundOps};
ghost use Rattle.block_pool.specs.Handles.{HandValue, Follows};
ghost use Rattle.lop_chain.specs.Rows.{Kinds};
ghost use Rattle.lop_chain.specs.Ops.{ops_in};
ghost use Rattle.lop_chain.specs.Operands.{root_in};
ghost use Rattle.scatter.specs.Lines.{HasRoot, root_kinds, root_feeds};
ghost use Rattle.scatter.specs.Stocks.{lines_of, AreInPools};
ghost use Rattle.scatter.specs.Phases.{pools_of, IsUsed, HasSent, HasStopped};
ghost use Rattle.scatter.specs.Clearing.{IsUnread};
ghost use Rattle.scatter.specs.Told.{AreTold, HasPermit, arriving};
ghost use Rattle.feed_actions.specs.Counting.{known_extent, IsTooLong, CountRefused, IsFreshCounter, rows_counted};

use crate::counter::{Counter, TooManyRows};
use crate::known::{check_known, known_count};
use block_pool::Hand;
use dia_edge::{Disk, Gate, NoMemory};
use hand_phase::run_hands;
use lop_chain::{Operand, RowSink};
use row_defs::limits::MOST_ROWS;
use row_growth::Extent;
use scatter::{FeedErr, Net, Phase, Stock, leave_unread};
use std::alloc::Global;
use std::sync::Wait;
use std::thread::Threads;
use worker_step::{MOST_TASKS, Way};

/// So many counters, of no rows yet.
pub fn counters_for<'p, D: Disk>(
    alloc: Global,
    count: usize,
) -> Result<Vec<Counter<'p, D>>, NoMemory>
    ensures len { IfOk result (λ counters. vec_len counters ≡ count) }
    ensures fresh { IfOk result (λ counters. All IsFreshCounter counters.items) }
{
    let mut counters = Vec::with_capacity(alloc, count)?;
    for _rank in 0..count {
        counters.push_reserved(Counter::new());
    }
    Ok(counters)
}

/// How many rows they counted together.
pub fn counted_in_all<D: Disk>(counters: &[Counter<'_, D>]) -> u64
    requires { length counters.now ≤ MOST_TASKS }
    ensures { result ≡ sum_by rows_counted counters.now }
{
    let mut rows = 0;
    for counter in counters {
        rows += counter.rows;
    }
    rows
}

/// One phase: each worker counts what is made of the rows of its feed. The refusals are those of `rows_arriving`, and the lines
/// are afterwards as there.
pub fn count_phase<'p, R: Threads + Wait + Sync, G: Gate + Sync, D: Disk + Send + Sync, X: Net>(
    rt: &R,
    alloc: Global,
    way: &mut Way<'_, G>,
    stock: &mut Stock<X>,
    operand: &Operand,
    last: bool,
    hands: &mut Vec<Hand<'p, D>>,
    counters: &mut Vec<Counter<'p, D>>,
) -> Result<(), FeedErr<TooManyRows>>
    requires few { vec_len hands.old ≤ MOST_TASKS }
    requires long { (vec_len hands.old ≡ stock.old.workers) × (vec_len counters.old ≡ stock.old.workers) }
    requires root { HasRoot (lines_of stock.old) (root_in operand.now.root) }
    requires own { AreInPools (pools_of hands.old.items) (lines_of stock.old) }
    requires sound { (to : Kinds) × AreSoundOps (root_kinds (lines_of stock.old) (root_in operand.now.root)) (ops_in operand.now.chain.items) to }
    requires permits { All HasPermit hands.old.items }
    requires fresh { All IsFreshCounter counters.old.items }

    ensures sent { OnOk result (HasSent ⟦<Counter<'p, D> as RowSink>⟧
        (root_feeds (lines_of stock.old) stock.old.workers (root_in operand.now.root) last (ops_in operand.now.chain.items))
        counters.old.items hands.old.items counters.new.items hands.new.items) }
    ensures stopped { IfErr result (λ e. (e ≡ FeedErr.NoMemory) ⊎ HasStopped ⟦<Counter<'p, D> as RowSink>⟧
        (root_feeds (lines_of stock.old) stock.old.workers (root_in operand.now.root) last (ops_in operand.now.chain.items))
        counters.old.items hands.old.items counters.new.items hands.new.items e) }
    ensures lines { OnOk result (IsUsed (lines_of stock.old) (root_in operand.now.root) last (lines_of stock.new)) }
    ensures left { OnErr result (IsUsed (lines_of stock.old) (root_in operand.now.root) last (lines_of stock.new) ⊎ (stock.new ≡ stock.old)) }

    // On every answer.
    ensures follows { AllZip Follows hands.old.items hands.new.items }
    ensures net { stock.new.net ≡ stock.old.net }
    ensures workers { stock.new.workers ≡ stock.old.workers }
{
    let mut phase: Phase<'p, D, X, Counter<'p, D>> = match Phase::begin(
        alloc, stock, operand, last, hands, counters,
    ) {
        Ok(phase) => phase,
        Err(NoMemory) => return Err(FeedErr::NoMemory),
    };
    let answer = run_hands(rt, alloc, way, hands, &mut phase.sends);
    phase.finish(rt, alloc, stock, hands, counters, answer)
}

/// How many rows arrive, counted by all workers in one phase: no more than may.
fn count_all<'p, R: Threads + Wait + Sync, G: Gate + Sync, D: Disk + Send + Sync, X: Net>(
    rt: &R,
    alloc: Global,
    way: &mut Way<'_, G>,
    stock: &mut Stock<X>,
    operand: &Operand,
    last: bool,
    hands: &mut Vec<Hand<'p, D>>,
) -> Result<u64, FeedErr<TooManyRows>>
    requires few { vec_len hands.old ≤ MOST_TASKS }
    requires long { vec_len hands.old ≡ stock.old.workers }
    requires root { HasRoot (lines_of stock.old) (root_in operand.now.root) }
    requires own { AreInPools (pools_of hands.old.items) (lines_of stock.old) }
    requires sound { (to : Kinds) × AreSoundOps (root_kinds (lines_of stock.old) (root_in operand.now.root)) (ops_in operand.now.chain.items) to }
    requires permits { All HasPermit hands.old.items }

    ensures count { IfOk result (λ n. AreTold (root_in operand.now.root) hands.old.items
        → n ≡ length (arriving (lines_of stock.old) (root_in operand.now.root) (ops_in operand.now.chain.items))) }
    ensures few { IfOk result (λ n. n ≤ most_rows) }
    ensures permits { OnOk result (AllZip (λ (a b : HandValue). b.permits ≡ a.permits) hands.old.items hands.new.items) }
    ensures refused { IfErr result (λ e. CountRefused (lines_of stock.old) (root_in operand.now.root) (ops_in operand.now.chain.items) hands.old.items hands.new.items e) }
    ensures lines { OnOk result (IsUsed (lines_of stock.old) (root_in operand.now.root) last (lines_of stock.new)) }
    ensures left { OnErr result (IsUsed (lines_of stock.old) (root_in operand.now.root) last (lines_of stock.new) ⊎ (stock.new ≡ stock.old)) }

    // On every answer.
    ensures follows { AllZip Follows hands.old.items hands.new.items }
    ensures net { stock.new.net ≡ stock.old.net }
    ensures workers { stock.new.workers ≡ stock.old.workers }
{
    stock.joined(operand, last);
    let mut counters = match counters_for(alloc, hands.len()) {
        Ok(counters) => counters,
        Err(NoMemory) => return Err(FeedErr::NoMemory),
    };
    count_phase(rt, alloc, way, stock, operand, last, hands, &mut counters)?;
    match few(counted_in_all(counters.as_slice())) {
        Ok(rows) => Ok(rows),
        Err(refusal) => Err(FeedErr::Sink(refusal)),
    }
}

/// How many rows arrive: no more than may. They are counted only where that isn't known at once: by all workers in one phase.
/// Where it is known no block is read, and where this is the last use the root's blocks are freed.
///
/// `Sink` says that more rows arrive than may, `Disk` comes only where the disk failed in this call, `Damaged` never where it
/// tells, and `NoMemory` where there was none. On every answer each hand is there, and the lines are in stock as before with no
/// part lent, but that where this is the last use the root's line is gone.
pub fn rows_arriving<'p, R: Threads + Wait + Sync, G: Gate + Sync, D: Disk + Send + Sync, X: Net>(
    rt: &R,
    alloc: Global,
    way: &mut Way<'_, G>,
    stock: &mut Stock<X>,
    operand: &Operand,
    last: bool,
    hands: &mut Vec<Hand<'p, D>>,
) -> Result<u64, FeedErr<TooManyRows>>
    requires few { vec_len hands.old ≤ MOST_TASKS }
    requires long { vec_len hands.old ≡ stock.old.workers }
    requires root { HasRoot (lines_of stock.old) (root_in operand.now.root) }
    requires own { AreInPools (pools_of hands.old.items) (lines_of stock.old) }
    requires sound { (to : Kinds) × AreSoundOps (root_kinds (lines_of stock.old) (root_in operand.now.root)) (ops_in operand.now.chain.items) to }
    requires permits { All HasPermit hands.old.items }

    ensures count { IfOk result (λ n. AreTold (root_in operand.now.root) hands.old.items
        → n ≡ length (arriving (lines_of stock.old) (root_in operand.now.root) (ops_in operand.now.chain.items))) }
    ensures few { IfOk result (λ n. n ≤ most_rows) }
    ensures permits { OnOk result (AllZip (λ (a b : HandValue). b.permits ≡ a.permits) hands.old.items hands.new.items) }
    ensures refused { IfErr result (λ e. CountRefused (lines_of stock.old) (root_in operand.now.root) (ops_in operand.now.chain.items) hands.old.items hands.new.items e) }
    ensures lines { OnOk result (IsUsed (lines_of stock.old) (root_in operand.now.root) last (lines_of stock.new)) }
    ensures left { OnErr result (IsUsed (lines_of stock.old) (root_in operand.now.root) last (lines_of stock.new) ⊎ (stock.new ≡ stock.old)) }
    ensures at_once { IsTooLong (lines_of stock.old) (root_in operand.now.root) (ops_in operand.now.chain.items)
        → (e : TooManyRows) × (result ≡ Err (FeedErr.Sink e)) × (hands.new ≡ hands.old) × (stock.new ≡ stock.old) }
    ensures unread { (n : ℕ) → known_extent (lines_of stock.old) (root_in operand.now.root) (ops_in operand.now.chain.items) ≡ Extent.Exactly n → n ≤ most_rows
        → (result ≡ Err FeedErr.NoMemory) ⊎ ((result ≡ Ok n) × IsUnread (lines_of stock.old) (root_in operand.now.root) last hands.old.items hands.new.items) }
    ensures kept { (n : ℕ) → last ≡ false → known_extent (lines_of stock.old) (root_in operand.now.root) (ops_in operand.now.chain.items) ≡ Extent.Exactly n
        → (hands.new ≡ hands.old) × (stock.new ≡ stock.old) }

    // On every answer.
    ensures follows { AllZip Follows hands.old.items hands.new.items }
    ensures net { stock.new.net ≡ stock.old.net }
    ensures workers { stock.new.workers ≡ stock.old.workers }
{
    if let Err(refusal) = check_known(stock, operand) {
        return Err(FeedErr::Sink(refusal));
    }
    match known_count(stock, operand) {
        Some(rows) => match leave_unread(rt, alloc, stock, operand.root, last, hands) {
            Ok(()) => Ok(rows),
            Err(NoMemory) => Err(FeedErr::NoMemory),
        },
        None => count_all(rt, alloc, way, stock, operand, last, hands),
    }
}

/// So many rows may arrive at an action, or are too many.
pub fn few(rows: u64) -> Result<u64, TooManyRows>
    ensures ok { IfOk result (λ n. (n ≡ rows) × (rows ≤ most_rows)) }
    ensures many { OnErr result (most_rows < rows) }
{
    if rows > MOST_ROWS {
        return Err(TooManyRows);
    }
    Ok(rows)
}
