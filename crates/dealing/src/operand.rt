//! One operand, dealt out by the positions of its rows.
ghost use Rattle.std.specs.Prelude.{◌≡◌, ◌+◌, ◌<◌, ◌≤◌, ◌⊎◌, ◌↔◌, true, ℕ, List, All, length, map, sum, IfOk, IfErr, OnOk, OnErr, vec_len};
ghost use Rattle.std.specs.List.{AllZip};
ghost use Rattle.row_defs.specs.Limits.{most_rows};
ghost use Rattle.row_defs.specs.Rows.{Row};
ghost use Rattle.row_defs.specs.LocalOps.{AreSoundOps};
ghost use Rattle.dia_item.specs.KindList.{kind_list};
ghost use Rattle.block_pool.specs.Handles.{HandValue, Follows};
ghost use Rattle.lop_chain.specs.Ops.{ops_in};
ghost use Rattle.lop_chain.specs.Operands.{root_in};
ghost use Rattle.collective.specs.Shares.{HasPlace};
ghost use Rattle.exchange.specs.Limits.{most_dealt};
ghost use Rattle.scatter.specs.Carrying.{AreForHand};
ghost use Rattle.scatter.specs.Lines.{HasRoot, root_kinds};
ghost use Rattle.scatter.specs.Stocks.{lines_of, AreInPools};
ghost use Rattle.scatter.specs.Phases.{pools_of, IsUsed};
ghost use Rattle.scatter.specs.Told.{Tells, arriving};
ghost use Rattle.link.specs.Linking.{HasFrames, rows_sent};
ghost use Rattle.dealing.specs.Deals.{IsDealtByAll};
ghost use Rattle.dealing.specs.Refusals.{DealRefused};

use block_pool::Hand;
use collective::owner;
use dia_edge::{Disk, Gate};
use dia_item::RowRef;
use link::{Link, LinkErr};
use lop_chain::Operand;
use multiplexer::Inbox;
use scatter::{Net, Stock};
use sent_mail::net_stays;
use std::alloc::Global;
use std::sync::Wait;
use std::thread::Threads;
use worker_step::{MOST_TASKS, Way};

/// Positions that are dealt out.
#[derive(Clone, Copy)]
pub(crate) struct Positions {
    /// How many there are in all.
    pub(crate) total: u64,
    /// Which is the first of these.
    pub(crate) before: u64,
    /// How many workers share them.
    pub(crate) workers: u32,
}

/// The worker whose share has the position of a sender's row; any worker where there is no such position.
fn receiver(total: u64, workers: u32, from: u64, taken: u64) -> u32
    requires some { 0 < workers }
    requires few { (from ≤ most_rows) × (taken < most_dealt) }
    ensures rank { result < workers }
    ensures place { from + taken < total → HasPlace total workers result (from + taken) }
{
    let place = from + taken;
    if place < total {
        owner(total, workers, place)
    } else {
        0
    }
}

/// Deals out the rows of an operand, of which each worker has so many.
pub(crate) fn deal<'p, R: Threads + Wait + Sync, G: Gate + Sync, D: Disk + Send + Sync, X: Net>(
    rt: &R,
    alloc: Global,
    way: &mut Way<'_, G>,
    stock: &mut Stock<X>,
    at: Positions,
    operand: &Operand,
    counts: &[u64],
    hands: &mut Vec<Hand<'p, D>>,
) -> Result<Vec<Inbox>, LinkErr>
    requires few { vec_len hands.old ≤ MOST_TASKS }
    requires workers { at.workers ≡ stock.old.workers }
    requires long { (vec_len hands.old ≡ stock.old.workers) × (length counts.now ≡ stock.old.workers) }
    requires within { (at.before + sum counts.now ≤ at.total) × (at.total ≤ most_rows) }
    requires root { HasRoot (lines_of stock.old) (root_in operand.now.root) }
    requires own { AreInPools (pools_of hands.old.items) (lines_of stock.old) }
    requires sound { AreSoundOps (root_kinds (lines_of stock.old) (root_in operand.now.root)) (ops_in operand.now.chain.items) (kind_list operand.now.kinds) }
    requires permits { All (HasFrames stock.old.workers) hands.old.items }
    requires fits { X.fits stock.old.net hands.old.items }

    ensures pools { IfOk result (λ boxes. AllZip AreForHand hands.new.items boxes.items) }
    ensures dealt { IfOk result (λ boxes. X.tells stock.old.net ≡ true → All Tells hands.old.items
        → counts.now ≡ map (λ (rows : List Row). length rows) (rows_sent (lines_of stock.old) stock.old.workers (root_in operand.now.root) (ops_in operand.now.chain.items))
        → IsDealtByAll (kind_list operand.now.kinds) at.total stock.old.workers at.before (sum counts.now)
        (arriving (lines_of stock.old) (root_in operand.now.root) (ops_in operand.now.chain.items)) boxes.items) }
    ensures permits { OnOk result (AllZip (λ (a b : HandValue). b.permits ≡ a.permits) hands.old.items hands.new.items) }
    ensures tells { OnOk result (X.tells stock.old.net ≡ true → X.tells stock.new.net ≡ true) }
    ensures refused { IfErr result (λ e.
        (All Tells hands.old.items → counts.now ≡ map (λ (rows : List Row). length rows) (rows_sent (lines_of stock.old) stock.old.workers (root_in operand.now.root) (ops_in operand.now.chain.items)))
        → DealRefused (X.tells stock.old.net) (X.faults stock.old.net) (X.faults stock.new.net) hands.old.items hands.new.items e) }
    ensures lines { OnOk result (IsUsed (lines_of stock.old) (root_in operand.now.root) operand.now.last (lines_of stock.new)) }
    ensures left { OnErr result (IsUsed (lines_of stock.old) (root_in operand.now.root) operand.now.last (lines_of stock.new) ⊎ (lines_of stock.new ≡ lines_of stock.old)) }

    // On every answer.
    ensures follows { AllZip Follows hands.old.items hands.new.items }
    ensures fits { (list : List HandValue) → X.fits stock.new.net list ↔ X.fits stock.old.net list }
    ensures counts { X.faults stock.old.net ≤ X.faults stock.new.net }
    ensures stays { X.stays stock.old.net stock.new.net }
    ensures workers { stock.new.workers ≡ stock.old.workers }
{
    let Positions {
        total,
        before,
        workers,
    } = at;
    net_stays(stock);
    let Ok(mut routes) = Vec::with_capacity(alloc, counts.len()) else {
        return Err(LinkErr::NoMemory);
    };
    let mut from = before;
    for count in counts {
        let start = from;
        routes.push_reserved(
            move |_row: RowRef<'_>, taken: u64| -> u32
                requires { (0 < workers) × (start ≤ most_rows) × (taken < most_dealt) }
                ensures rank { result < workers }
                ensures place { start + taken < total → HasPlace total workers result (start + taken) }
            { receiver(total, workers, start, taken) },
        );
        from += *count;
    }
    let link = Link {
        last: operand.last,
        routes,
    };
    link.run(rt, alloc, way, stock, operand, hands)
}
