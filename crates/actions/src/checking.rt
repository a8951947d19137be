//! Whether more rows arrive than may.
ghost use Rattle.std.specs.Prelude.{◌≡◌, ◌≤◌, OnOk, IfErr, All, false, length, vec_len};
ghost use Rattle.std.specs.List.{AllZip};
ghost use Rattle.row_defs.specs.Limits.{most_rows};
ghost use Rattle.row_defs.specs.LocalOps.{AreSoundOps};
ghost use Rattle.block_pool.specs.Handles.{HandValue, Follows};
ghost use Rattle.lop_chain.specs.Rows.{Kinds};
ghost use Rattle.lop_chain.specs.Ops.{ops_in};
ghost use Rattle.lop_chain.specs.Operands.{root_in};
ghost use Rattle.scatter.specs.Lines.{HasRoot, root_kinds};
ghost use Rattle.scatter.specs.Stocks.{lines_of, AreInPools};
ghost use Rattle.scatter.specs.Phases.{pools_of, IsUsed};
ghost use Rattle.scatter.specs.Told.{AreTold, HasPermit, arriving};
ghost use Rattle.feed_actions.specs.Counting.{CountRefused};

use block_pool::Hand;
use dia_edge::{Disk, Gate};
use feed_actions::{TooManyRows, few, known_extent, rows_arriving};
use lop_chain::Operand;
use row_defs::limits::MOST_ROWS;
use row_growth::Extent;
use scatter::{FeedErr, Net, Stock};
use std::alloc::Global;
use std::sync::Wait;
use std::thread::Threads;
use worker_step::{MOST_TASKS, Way};

/// Sees that no more rows arrive than may. They are counted only where that isn't known at once: by all workers in one phase,
/// which leaves the lines as they are.
pub(crate) fn check_few<
    'p,
    R: Threads + Wait + Sync,
    G: Gate + Sync,
    D: Disk + Send + Sync,
    X: Net,
>(
    rt: &R,
    alloc: Global,
    way: &mut Way<'_, G>,
    stock: &mut Stock<X>,
    operand: &Operand,
    hands: &mut Vec<Hand<'p, D>>,
) -> Result<(), FeedErr<TooManyRows>>
    requires few { vec_len hands.old ≤ MOST_TASKS }
    requires long { vec_len hands.old ≡ stock.old.workers }
    requires root { HasRoot (lines_of stock.old) (root_in operand.now.root) }
    requires own { AreInPools (pools_of hands.old.items) (lines_of stock.old) }
    requires sound { (to : Kinds) × AreSoundOps (root_kinds (lines_of stock.old) (root_in operand.now.root)) (ops_in operand.now.chain.items) to }
    requires permits { All HasPermit hands.old.items }

    ensures few { OnOk result (AreTold (root_in operand.now.root) hands.old.items
        → length (arriving (lines_of stock.old) (root_in operand.now.root) (ops_in operand.now.chain.items)) ≤ most_rows) }
    ensures permits { OnOk result (AllZip (λ (a b : HandValue). b.permits ≡ a.permits) hands.old.items hands.new.items) }
    ensures refused { IfErr result (λ e. CountRefused (lines_of stock.old) (root_in operand.now.root) (ops_in operand.now.chain.items) hands.old.items hands.new.items e) }

    // On every answer.
    ensures lines { IsUsed (lines_of stock.old) (root_in operand.now.root) false (lines_of stock.new) }
    ensures follows { AllZip Follows hands.old.items hands.new.items }
    ensures net { stock.new.net ≡ stock.old.net }
    ensures workers { stock.new.workers ≡ stock.old.workers }
{
    match known_extent(stock, operand) {
        Extent::Exactly(rows) => match few(rows) {
            Ok(_) => Ok(()),
            Err(refusal) => Err(FeedErr::Sink(refusal)),
        },
        Extent::AtMost(rows) if rows <= MOST_ROWS => Ok(()),
        Extent::AtMost(_) => {
            rows_arriving(rt, alloc, way, stock, operand, false, hands)?;
            Ok(())
        }
    }
}
