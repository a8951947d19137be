//! The rows of several operands, counted.
ghost use Rattle.std.specs.Prelude.{◌≡◌, ◌≤◌, All, IfOk, OnOk, IfErr, sum, vec_len};
ghost use Rattle.std.specs.List.{AllZip};
ghost use Rattle.dia_item.specs.KindList.{kind_list};
ghost use Rattle.row_defs.specs.Limits.{most_rows};
ghost use Rattle.block_pool.specs.Handles.{HandValue, Follows};
ghost use Rattle.scatter.specs.Stocks.{lines_of, AreInPools};
ghost use Rattle.scatter.specs.Phases.{pools_of};
ghost use Rattle.scatter.specs.Told.{HasPermit};
ghost use Rattle.dealing.specs.Operands.{operands_in, IsFed};
ghost use Rattle.dealt_files.specs.Counted.{AreCounted};
ghost use Rattle.dealt_files.specs.Gathered.{CountFault};

use block_pool::Hand;
use dia_edge::{Disk, Gate};
use dia_item::Kinds;
use feed_actions::{TooManyRows, few};
use feed_counts::rows_by_rank;
use lop_chain::Operand;
use scatter::{FeedErr, Net, Stock};
use std::alloc::Global;
use std::sync::Wait;
use std::thread::Threads;
use worker_step::{MOST_TASKS, Way};

/// How many rows each worker has of each operand, and how many there are in all.
#[derive(Drop)]
pub(crate) struct Counts {
    pub(crate) each: Vec<Vec<u64>>,
    pub(crate) total: u64,
}

/// The sum of counts.
fn total_of(counts: &[u64]) -> u64
    requires { sum counts.now ≤ most_rows }
    ensures { result ≡ sum counts.now }
{
    let mut total = 0;
    for count in counts {
        total += *count;
    }
    total
}

/// Counts the rows that each worker has of each operand: no more in all than may arrive. The lines are as before.
pub(crate) fn count_rows<
    'p,
    R: Threads + Wait + Sync,
    G: Gate + Sync,
    D: Disk + Send + Sync,
    X: Net,
>(
    rt: &R,
    alloc: Global,
    way: &mut Way<'_, G>,
    stock: &mut Stock<X>,
    kinds: Kinds,
    operands: &[Operand],
    hands: &mut Vec<Hand<'p, D>>,
) -> Result<Counts, FeedErr<TooManyRows>>
    requires few { vec_len hands.old ≤ MOST_TASKS }
    requires long { vec_len hands.old ≡ stock.old.workers }
    requires fed { All (IsFed (kind_list kinds) (lines_of stock.old)) (operands_in operands.now) }
    requires own { AreInPools (pools_of hands.old.items) (lines_of stock.old) }
    requires permits { All HasPermit hands.old.items }

    ensures counted { IfOk result (λ counts. AreCounted (lines_of stock.old) stock.old.workers hands.old.items (operands_in operands.entry.now) counts.each.items counts.total) }
    ensures permits { OnOk result (AllZip (λ (a b : HandValue). b.permits ≡ a.permits) hands.old.items hands.new.items) }
    ensures refused { IfErr result (CountFault (lines_of stock.old) (operands_in operands.entry.now) hands.old.items hands.new.items) }

    // On every answer.
    ensures lines { lines_of stock.new ≡ lines_of stock.old }
    ensures follows { AllZip Follows hands.old.items hands.new.items }
    ensures net { stock.new.net ≡ stock.old.net }
    ensures workers { stock.new.workers ≡ stock.old.workers }
{
    let Some((operand, operands)) = operands.split_first() else {
        return Ok(Counts {
            each: Vec::new(alloc),
            total: 0,
        });
    };
    let counts = match rows_by_rank(rt, alloc, way, stock, operand, hands) {
        Ok(counts) => counts,
        Err(fault) => return Err(fault),
    };
    let rest = match count_rows(rt, alloc, way, stock, kinds, operands, hands) {
        Ok(rest) => rest,
        Err(fault) => return Err(fault),
    };
    let total = match few(total_of(counts.as_slice()) + rest.total) {
        Ok(total) => total,
        Err(refusal) => return Err(FeedErr::Sink(refusal)),
    };
    let mut each = rest.each;
    let Ok(()) = each.insert(0, counts) else {
        return Err(FeedErr::NoMemory);
    };
    Ok(Counts { each, total })
}
