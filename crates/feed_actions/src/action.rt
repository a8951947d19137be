//! The actions that write one number.
ghost use Rattle.std.specs.Prelude.{◌≡◌, ℕ, false, Err, ◌≤◌, ◌⊎◌, Some, slice_get, OnOk, IfErr, OnErr, All, length, vec_len};
ghost use Rattle.std.specs.List.{AllZip};
ghost use Rattle.row_defs.specs.declared.kind.Kind.TheVariants.{Int};
ghost use Rattle.row_defs.specs.Limits.{most_rows};
ghost use Rattle.row_defs.specs.LocalOps.{AreSoundOps};
ghost use Rattle.row_defs.specs.Printed.{number_line};
ghost use Rattle.dia_edge.specs.Sinks.{TookAll};
ghost use Rattle.block_pool.specs.Handles.{HandValue, Follows};
ghost use Rattle.lop_chain.specs.Rows.{Kinds};
ghost use Rattle.lop_chain.specs.Ops.{ops_in};
ghost use Rattle.lop_chain.specs.Operands.{root_in};
ghost use Rattle.scatter.specs.Lines.{HasRoot, root_kinds};
ghost use Rattle.scatter.specs.Stocks.{lines_of, AreInPools};
ghost use Rattle.scatter.specs.Phases.{pools_of, IsUsed};
ghost use Rattle.scatter.specs.Clearing.{IsUnread};
ghost use Rattle.scatter.specs.Told.{AreTold, HasPermit, arriving};
ghost use Rattle.feed_actions.specs.Counting.{known_extent, IsTooLong};
ghost use Rattle.feed_actions.specs.Acting.{act_refusal, size_text, sum_text, Writes, ActRefused};

use crate::adding::sum_all;
use crate::counter::TooManyRows;
use crate::counting::rows_arriving;
use block_pool::Hand;
use dia_edge::{Disk, Failed, Gate, Sink};
use lop_chain::Operand;
use row_growth::Extent;
use scatter::{FeedErr, Net, Stock};
use std::alloc::Global;
use std::sync::Wait;
use std::thread::Threads;
use text_out::put_pieces;
use worker_step::{MOST_TASKS, Way};

/// Why an action wasn't done.
#[derive(Clone, Copy, Debug, PartialEq, Eq)]
pub enum ActErr {
    /// The disk failed in this call; nothing was written.
    Disk {
        /// How many of its calls failed so far.
        count: u64,
    },
    /// The bytes of a block aren't the rows that were written; nothing was written.
    Damaged,
    /// Memory ran out; nothing was written.
    NoMemory,
    /// More rows arrive than may; nothing was written.
    TooManyRows,
    /// A write failed; some prefix of the action's text was written.
    Write {
        /// The sink's count of faults now.
        count: u64,
    },
}

/// What a phase's fault is for an action.
pub fn refusal_of(fault: FeedErr<TooManyRows>) -> ActErr
    ensures { result ≡ act_refusal fault }
{
    match fault {
        FeedErr::Sink(_) => ActErr::TooManyRows,
        FeedErr::Disk { count } => ActErr::Disk { count },
        FeedErr::Damaged => ActErr::Damaged,
        FeedErr::NoMemory => ActErr::NoMemory,
    }
}

/// A number on a line of its own.
fn put_number<S: Sink>(n: u64, out: &mut S) -> Result<(), ActErr>
    ensures { Writes S.Sink out.old out.new (number_line n) result }
{
    let mut digits = itoa::Buffer::new();
    let number = digits.format(n).as_bytes();
    match put_pieces(out, &[number, b"\n"]) {
        Ok(()) => Ok(()),
        Err(Failed) => Err(ActErr::Write {
            count: out.fault_count(),
        }),
    }
}

/// Writes how many rows arrive. They are counted by all workers in one phase, but no block is read where the chain makes as many
/// rows of each: then only memory may be wanting, and only to free the root's blocks at its last use. Nor is one read where more
/// rows are known to arrive than may.
///
/// After a refusal nothing was written, but that after `Write` some prefix of the text was. On every answer each hand is there,
/// and the lines are in stock as before with no part lent, but that where this is the last use the root's line is gone.
pub fn size<'p, R: Threads + Wait + Sync, G: Gate + Sync, D: Disk + Send + Sync, X: Net, S: Sink>(
    rt: &R,
    alloc: Global,
    way: &mut Way<'_, G>,
    stock: &mut Stock<X>,
    operand: &Operand,
    hands: &mut Vec<Hand<'p, D>>,
    out: &mut S,
) -> Result<(), ActErr>
    requires few { vec_len hands.old ≤ MOST_TASKS }
    requires long { vec_len hands.old ≡ stock.old.workers }
    requires root { HasRoot (lines_of stock.old) (root_in operand.now.root) }
    requires own { AreInPools (pools_of hands.old.items) (lines_of stock.old) }
    requires sound { (to : Kinds) × AreSoundOps (root_kinds (lines_of stock.old) (root_in operand.now.root)) (ops_in operand.now.chain.items) to }
    requires permits { All HasPermit hands.old.items }

    ensures text { OnOk result (AreTold (root_in operand.now.root) hands.old.items → TookAll (S.taken out.old)
        (size_text (arriving (lines_of stock.old) (root_in operand.now.root) (ops_in operand.now.chain.items))) (S.taken out.new)) }
    ensures few { OnOk result (AreTold (root_in operand.now.root) hands.old.items
        → length (arriving (lines_of stock.old) (root_in operand.now.root) (ops_in operand.now.chain.items)) ≤ most_rows) }
    ensures permits { OnOk result (AllZip (λ (a b : HandValue). b.permits ≡ a.permits) hands.old.items hands.new.items) }
    ensures refused { IfErr result (ActRefused S.Sink (lines_of stock.old) (root_in operand.now.root) (ops_in operand.now.chain.items) size_text
        hands.old.items hands.new.items out.old out.new) }
    ensures lines { OnOk result (IsUsed (lines_of stock.old) (root_in operand.now.root) operand.now.last (lines_of stock.new)) }
    ensures left { OnErr result (IsUsed (lines_of stock.old) (root_in operand.now.root) operand.now.last (lines_of stock.new) ⊎ (stock.new ≡ stock.old)) }
    ensures at_once { IsTooLong (lines_of stock.old) (root_in operand.now.root) (ops_in operand.now.chain.items)
        → (result ≡ Err ActErr.TooManyRows) × (hands.new ≡ hands.old) × (stock.new ≡ stock.old) }
    ensures unread { (n : ℕ) → known_extent (lines_of stock.old) (root_in operand.now.root) (ops_in operand.now.chain.items) ≡ Extent.Exactly n → n ≤ most_rows
        → (result ≡ Err ActErr.NoMemory) ⊎ (Writes S.Sink out.old out.new (number_line n) result
        × IsUnread (lines_of stock.old) (root_in operand.now.root) operand.now.last hands.old.items hands.new.items) }
    ensures kept { (n : ℕ) → operand.now.last ≡ false → known_extent (lines_of stock.old) (root_in operand.now.root) (ops_in operand.now.chain.items) ≡ Extent.Exactly n
        → (hands.new ≡ hands.old) × (stock.new ≡ stock.old) }

    // On every answer.
    ensures counts { S.faults out.old ≤ S.faults out.new }
    ensures follows { AllZip Follows hands.old.items hands.new.items }
    ensures net { stock.new.net ≡ stock.old.net }
    ensures workers { stock.new.workers ≡ stock.old.workers }
{
    match rows_arriving(rt, alloc, way, stock, operand, operand.last, hands) {
        Ok(rows) => put_number(rows, out),
        Err(fault) => Err(refusal_of(fault)),
    }
}

/// Writes the sum of a column of the rows that arrive, modulo 2^64, added up by all workers in one phase, which isn't begun where
/// more rows are known to arrive than may. What else holds is as at `size`.
pub fn sum<'p, R: Threads + Wait + Sync, G: Gate + Sync, D: Disk + Send + Sync, X: Net, S: Sink>(
    rt: &R,
    alloc: Global,
    way: &mut Way<'_, G>,
    stock: &mut Stock<X>,
    operand: &Operand,
    column: u32,
    hands: &mut Vec<Hand<'p, D>>,
    out: &mut S,
) -> Result<(), ActErr>
    requires few { vec_len hands.old ≤ MOST_TASKS }
    requires long { vec_len hands.old ≡ stock.old.workers }
    requires root { HasRoot (lines_of stock.old) (root_in operand.now.root) }
    requires own { AreInPools (pools_of hands.old.items) (lines_of stock.old) }
    requires sound { (to : Kinds) × AreSoundOps (root_kinds (lines_of stock.old) (root_in operand.now.root)) (ops_in operand.now.chain.items) to × (slice_get to column ≡ Some Int) }
    requires permits { All HasPermit hands.old.items }

    ensures text { OnOk result (AreTold (root_in operand.now.root) hands.old.items → TookAll (S.taken out.old)
        (sum_text column (arriving (lines_of stock.old) (root_in operand.now.root) (ops_in operand.now.chain.items))) (S.taken out.new)) }
    ensures few { OnOk result (AreTold (root_in operand.now.root) hands.old.items
        → length (arriving (lines_of stock.old) (root_in operand.now.root) (ops_in operand.now.chain.items)) ≤ most_rows) }
    ensures permits { OnOk result (AllZip (λ (a b : HandValue). b.permits ≡ a.permits) hands.old.items hands.new.items) }
    ensures refused { IfErr result (ActRefused S.Sink (lines_of stock.old) (root_in operand.now.root) (ops_in operand.now.chain.items) (sum_text column)
        hands.old.items hands.new.items out.old out.new) }
    ensures lines { OnOk result (IsUsed (lines_of stock.old) (root_in operand.now.root) operand.now.last (lines_of stock.new)) }
    ensures left { OnErr result (IsUsed (lines_of stock.old) (root_in operand.now.root) operand.now.last (lines_of stock.new) ⊎ (stock.new ≡ stock.old)) }
    ensures at_once { IsTooLong (lines_of stock.old) (root_in operand.now.root) (ops_in operand.now.chain.items)
        → (result ≡ Err ActErr.TooManyRows) × (hands.new ≡ hands.old) × (stock.new ≡ stock.old) }

    // On every answer.
    ensures counts { S.faults out.old ≤ S.faults out.new }
    ensures follows { AllZip Follows hands.old.items hands.new.items }
    ensures net { stock.new.net ≡ stock.old.net }
    ensures workers { stock.new.workers ≡ stock.old.workers }
{
    match sum_all(rt, alloc, way, stock, operand, column, hands) {
        Ok(sum) => put_number(sum, out),
        Err(fault) => Err(refusal_of(fault)),
    }
}
