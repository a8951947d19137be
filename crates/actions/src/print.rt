//! The rows that arrive, printed.
ghost use Rattle.std.specs.Prelude.{◌≡◌, ◌≤◌, ◌⊎◌, [], OnOk, IfErr, OnErr, All, false, length, vec_len};
ghost use Rattle.std.specs.List.{AllZip};
ghost use Rattle.row_defs.specs.Limits.{most_rows};
ghost use Rattle.row_defs.specs.LocalOps.{AreSoundOps};
ghost use Rattle.dia_edge.specs.Sinks.{Puts, TookAll};
ghost use Rattle.block_pool.specs.Handles.{HandValue, Follows};
ghost use Rattle.lop_chain.specs.Rows.{Kinds};
ghost use Rattle.lop_chain.specs.Ops.{ops_in};
ghost use Rattle.lop_chain.specs.Operands.{root_in};
ghost use Rattle.scatter.specs.Lines.{HasRoot, root_kinds};
ghost use Rattle.scatter.specs.Stocks.{lines_of, AreInPools};
ghost use Rattle.scatter.specs.Phases.{pools_of, IsUsed};
ghost use Rattle.feed_print.specs.Printing.{texts_of_rows};
ghost use Rattle.scatter.specs.Told.{AreTold, HasPermit, arriving};
ghost use Rattle.actions.specs.Printing.{HasPrinted};
ghost use Rattle.actions.specs.Acting.{print_refusal, ActStopped};

use crate::checking::check_few;
use crate::feeds::{Printed, print_feeds};
use block_pool::Hand;
use dia_edge::{Disk, Failed, Gate, NoMemory, Sink};
use feed_actions::{ActErr, refusal_of};
use lop_chain::Operand;
use scatter::{FeedErr, Net, Stock, give_back};
use std::alloc::Global;
use std::mem;
use std::sync::Wait;
use std::thread::Threads;
use text_out::OutBuffer;
use worker_step::{MOST_TASKS, Way};

/// Prints what is made of the rows of an operand's root, by rank: what doesn't wait in the buffer was put. On every answer the
/// parts that were lent are in stock.
fn print_root<'p, R: Wait, D: Disk, X: Net, S: Sink>(
    rt: &R,
    alloc: Global,
    stock: &mut Stock<X>,
    operand: &Operand,
    hands: &mut Vec<Hand<'p, D>>,
    buffer: &mut OutBuffer,
    out: &mut S,
) -> Result<(), FeedErr<Failed>>
    requires long { vec_len hands.old ≡ stock.old.workers }
    requires root { HasRoot (lines_of stock.old) (root_in operand.now.root) }
    requires own { AreInPools (pools_of hands.old.items) (lines_of stock.old) }
    requires sound { (to : Kinds) × AreSoundOps (root_kinds (lines_of stock.old) (root_in operand.now.root)) (ops_in operand.now.chain.items) to }
    requires permits { All HasPermit hands.old.items }

    ensures prints { HasPrinted S.Sink (AreTold (root_in operand.now.root) hands.old.items)
        (arriving (lines_of stock.old) (root_in operand.now.root) (ops_in operand.now.chain.items))
        hands.old.items out.old buffer.old result hands.new.items out.new buffer.new }
    ensures permits { OnOk result (AllZip (λ (a b : HandValue). b.permits ≡ a.permits) hands.old.items hands.new.items) }
    ensures lines { OnOk result (IsUsed (lines_of stock.old) (root_in operand.now.root) operand.now.last (lines_of stock.new)) }
    ensures left { OnErr result (IsUsed (lines_of stock.old) (root_in operand.now.root) operand.now.last (lines_of stock.new) ⊎ (stock.new ≡ stock.old)) }

    // On every answer.
    ensures follows { AllZip Follows hands.old.items hands.new.items }
    ensures net { stock.new.net ≡ stock.old.net }
    ensures workers { stock.new.workers ≡ stock.old.workers }
{
    let Ok(room) = Printed::new(alloc, hands.len()) else {
        return Err(FeedErr::NoMemory);
    };
    let Ok(feeds) = stock.feeds(alloc, operand, operand.last) else {
        return Err(FeedErr::NoMemory);
    };
    let moved = mem::replace(hands, Vec::new(alloc));
    let Printed {
        hands: ended,
        parts,
        answer,
    } = print_feeds(rt, feeds, moved, room, buffer, out);
    *hands = ended;
    give_back(stock, operand.root, operand.last, parts);
    answer
}

/// What a refusal to print is for an action.
fn refusal_to_print<S: Sink>(refusal: FeedErr<Failed>, out: &S) -> ActErr
    ensures { result ≡ print_refusal (S.faults out.now) refusal }
{
    match refusal {
        FeedErr::Sink(_) => ActErr::Write {
            count: out.fault_count(),
        },
        FeedErr::Disk { count } => ActErr::Disk { count },
        FeedErr::Damaged => ActErr::Damaged,
        FeedErr::NoMemory => ActErr::NoMemory,
    }
}

/// Puts what waits.
fn flush<S: Sink>(buffer: &mut OutBuffer, out: &mut S) -> Result<(), ActErr>
    ensures puts { Puts S.taken S.faults out.old out.new buffer.old buffer.new result }
    ensures empty { OnOk result (buffer.new ≡ []) }
    ensures count { IfErr result (λ e. e ≡ ActErr.Write (S.faults out.new)) }
{
    match buffer.flush(out) {
        Ok(()) => Ok(()),
        Err(Failed) => Err(ActErr::Write {
            count: out.fault_count(),
        }),
    }
}

/// Prints the rows that arrive, of which no more come than may.
fn print_all<'p, R: Wait, D: Disk, X: Net, S: Sink>(
    rt: &R,
    alloc: Global,
    stock: &mut Stock<X>,
    operand: &Operand,
    hands: &mut Vec<Hand<'p, D>>,
    buffer: &mut OutBuffer,
    out: &mut S,
) -> Result<(), ActErr>
    requires long { vec_len hands.old ≡ stock.old.workers }
    requires root { HasRoot (lines_of stock.old) (root_in operand.now.root) }
    requires own { AreInPools (pools_of hands.old.items) (lines_of stock.old) }
    requires sound { (to : Kinds) × AreSoundOps (root_kinds (lines_of stock.old) (root_in operand.now.root)) (ops_in operand.now.chain.items) to }
    requires permits { All HasPermit hands.old.items }
    requires few { AreTold (root_in operand.now.root) hands.old.items
        → length (arriving (lines_of stock.old) (root_in operand.now.root) (ops_in operand.now.chain.items)) ≤ most_rows }
    requires empty { buffer.old ≡ [] }

    ensures text { OnOk result (AreTold (root_in operand.now.root) hands.old.items → TookAll (S.taken out.old)
        (texts_of_rows (arriving (lines_of stock.old) (root_in operand.now.root) (ops_in operand.now.chain.items))) (S.taken out.new)) }
    ensures permits { OnOk result (AllZip (λ (a b : HandValue). b.permits ≡ a.permits) hands.old.items hands.new.items) }
    ensures empty { OnOk result (buffer.new ≡ []) }
    ensures refused { IfErr result (ActStopped S.Sink (lines_of stock.old) (root_in operand.now.root) (ops_in operand.now.chain.items) texts_of_rows
        hands.old.items hands.new.items out.old out.new) }
    ensures lines { OnOk result (IsUsed (lines_of stock.old) (root_in operand.now.root) operand.now.last (lines_of stock.new)) }
    ensures left { OnErr result (IsUsed (lines_of stock.old) (root_in operand.now.root) operand.now.last (lines_of stock.new) ⊎ (stock.new ≡ stock.old)) }

    // On every answer.
    ensures counts { S.faults out.old ≤ S.faults out.new }
    ensures follows { AllZip Follows hands.old.items hands.new.items }
    ensures net { stock.new.net ≡ stock.old.net }
    ensures workers { stock.new.workers ≡ stock.old.workers }
{
    match print_root(rt, alloc, stock, operand, hands, buffer, out) {
        Ok(()) => flush(buffer, out),
        Err(refusal) => Err(refusal_to_print(refusal, out)),
    }
}

/// Prints the rows that arrive, all by the calling thread. More rows than may arrive are known before the first byte.
pub(crate) fn print<
    'p,
    R: Threads + Wait + Sync,
    G: Gate + Sync,
    D: Disk + Send + Sync,
    X: Net,
    S: Sink,
>(
    rt: &R,
    alloc: Global,
    way: &mut Way<'_, G>,
    stock: &mut Stock<X>,
    operand: &Operand,
    hands: &mut Vec<Hand<'p, D>>,
    buffer: &mut OutBuffer,
    out: &mut S,
) -> Result<(), ActErr>
    requires few { vec_len hands.old ≤ MOST_TASKS }
    requires long { vec_len hands.old ≡ stock.old.workers }
    requires root { HasRoot (lines_of stock.old) (root_in operand.now.root) }
    requires own { AreInPools (pools_of hands.old.items) (lines_of stock.old) }
    requires sound { (to : Kinds) × AreSoundOps (root_kinds (lines_of stock.old) (root_in operand.now.root)) (ops_in operand.now.chain.items) to }
    requires permits { All HasPermit hands.old.items }
    requires empty { buffer.old ≡ [] }

    ensures text { OnOk result (AreTold (root_in operand.now.root) hands.old.items → TookAll (S.taken out.old)
        (texts_of_rows (arriving (lines_of stock.old) (root_in operand.now.root) (ops_in operand.now.chain.items))) (S.taken out.new)) }
    ensures few { OnOk result (AreTold (root_in operand.now.root) hands.old.items
        → length (arriving (lines_of stock.old) (root_in operand.now.root) (ops_in operand.now.chain.items)) ≤ most_rows) }
    ensures permits { OnOk result (AllZip (λ (a b : HandValue). b.permits ≡ a.permits) hands.old.items hands.new.items) }
    ensures empty { OnOk result (buffer.new ≡ []) }
    ensures refused { IfErr result (ActStopped S.Sink (lines_of stock.old) (root_in operand.now.root) (ops_in operand.now.chain.items) texts_of_rows
        hands.old.items hands.new.items out.old out.new) }
    ensures lines { OnOk result (IsUsed (lines_of stock.old) (root_in operand.now.root) operand.now.last (lines_of stock.new)) }
    ensures left { OnErr result (IsUsed (lines_of stock.old) (root_in operand.now.root) operand.now.last (lines_of stock.new)
        ⊎ IsUsed (lines_of stock.old) (root_in operand.now.root) false (lines_of stock.new)) }

    // On every answer.
    ensures counts { S.faults out.old ≤ S.faults out.new }
    ensures follows { AllZip Follows hands.old.items hands.new.items }
    ensures net { stock.new.net ≡ stock.old.net }
    ensures workers { stock.new.workers ≡ stock.old.workers }
{
    match check_few(rt, alloc, way, stock, operand, hands) {
        Ok(()) => print_all(rt, alloc, stock, operand, hands, buffer, out),
        Err(fault) => Err(refusal_of(fault)),
    }
}
