//! Operands, dealt out one after the other.
ghost use Rattle.std.specs.Prelude.{◌≡◌, ◌+◌, ◌^◌, ◌<◌, ◌≤◌, ◌↔◌, true, ℕ, List, [], All, length, sum, IfOk, IfErr, OnOk, OnErr, vec_len};
ghost use Rattle.std.specs.List.{AllZip};
ghost use Rattle.row_defs.specs.Limits.{most_rows};
ghost use Rattle.dia_item.specs.KindList.{kind_list};
ghost use Rattle.block_pool.specs.Handles.{HandValue, Follows};
ghost use Rattle.scatter.specs.Carrying.{AreForHand};
ghost use Rattle.scatter.specs.Stocks.{lines_of, AreInPools};
ghost use Rattle.scatter.specs.Phases.{pools_of};
ghost use Rattle.scatter.specs.Told.{Tells};
ghost use Rattle.link.specs.Linking.{HasFrames};
ghost use Rattle.dealt_shares.specs.Dealings.{Dealing};
ghost use Rattle.dealing.specs.Operands.{operands_in, IsFed, AreThereInTurn, AreUsed, AreSomeUsed, arriving_all, IsCounted, count_all, ranks_of};
ghost use Rattle.dealing.specs.Boxes.{HasCome};
ghost use Rattle.dealing.specs.Deals.{IsDealt, HoldShares};
ghost use Rattle.dealing.specs.Refusals.{DealRefused};

use crate::merging::merge_all;
use crate::operand::{Positions, deal};
use block_pool::Hand;
use dia_edge::{Disk, Gate, NoMemory};
use dia_item::Kinds;
use link::LinkErr;
use lop_chain::Operand;
use multiplexer::Inbox;
use scatter::{Net, Stock};
use sent_mail::{net_fits, net_stays};
use std::alloc::Global;
use std::snapshot::Snapshot;
use std::sync::Wait;
use std::thread::Threads;
use worker_step::{MOST_TASKS, Way};

/// The sum of counts.
fn total_of(counts: &[u64]) -> u64
    requires { sum counts.now ≤ most_rows }
    ensures { result ≡ sum counts.now }
{
    let mut total = 0;
    for count in counts {
        total += *count;
    }
    total
}

/// So many boxes with nothing in them.
fn empty_boxes(alloc: Global, count: usize) -> Result<Vec<Inbox>, NoMemory>
    ensures len { IfOk result (λ boxes. vec_len boxes ≡ count) }
    ensures none { IfOk result (λ boxes. All (λ (x : Inbox). x.packets.items ≡ []) boxes.items) }
{
    let mut boxes = Vec::with_capacity(alloc, count)?;
    for _rank in 0..count {
        boxes.push_reserved(Inbox {
            packets: Vec::new(alloc),
        });
    }
    Ok(boxes)
}

/// The operands that are still to be dealt out.
#[derive(Clone, Copy)]
struct Rest<'o> {
    kinds: Kinds,
    /// The position of their first row, of how many.
    at: Positions,
    /// How many senders came before.
    senders: u32,
    operands: &'o [Operand],
    /// For each operand, how many rows each worker has.
    counts: &'o [Vec<u64>],
}

/// Deals out operands, behind what came before.
fn deal_rest<'p, R: Threads + Wait + Sync, G: Gate + Sync, D: Disk + Send + Sync, X: Net>(
    rt: &R,
    alloc: Global,
    way: &mut Way<'_, G>,
    stock: &mut Stock<X>,
    rest: Rest<'_>,
    hands: &mut Vec<Hand<'p, D>>,
    into: Vec<Inbox>,
) -> Result<Vec<Inbox>, LinkErr>
    requires few { vec_len hands.old ≤ MOST_TASKS }
    requires workers { rest.at.workers ≡ stock.old.workers }
    requires long { (vec_len hands.old ≡ stock.old.workers) × (vec_len into ≡ stock.old.workers) }
    requires fed { All (IsFed (kind_list rest.kinds) (lines_of stock.old)) (operands_in rest.operands.now) }
    requires in_turn { AreThereInTurn (operands_in rest.operands.now) }
    requires counted { AllZip (IsCounted (lines_of stock.old) stock.old.workers hands.old.items) (operands_in rest.operands.now) rest.counts.now }
    requires within { (rest.at.before + count_all rest.counts.now ≤ rest.at.total) × (rest.at.total ≤ most_rows) }
    requires ranks { rest.senders + ranks_of stock.old.workers (operands_in rest.operands.now) < 2 ^ 32 }
    requires own { AreInPools (pools_of hands.old.items) (lines_of stock.old) }
    requires permits { All (HasFrames stock.old.workers) hands.old.items }
    requires fits { X.fits stock.old.net hands.old.items }
    requires pools { AllZip AreForHand hands.old.items into.items }

    ensures pools { IfOk result (λ boxes. AllZip AreForHand hands.new.items boxes.items) }
    ensures dealt { IfOk result (λ boxes. X.tells stock.old.net ≡ true → All Tells hands.old.items
        → (came : List Dealing) → length came ≡ rest.entry.senders → HasCome (kind_list rest.entry.kinds) came into.items
        → IsDealt (kind_list rest.entry.kinds) rest.entry.at.total stock.old.workers rest.entry.at.before (count_all rest.entry.counts.now) came
        (arriving_all (lines_of stock.old) (operands_in rest.entry.operands.now)) boxes.items) }
    ensures permits { OnOk result (AllZip (λ (a b : HandValue). b.permits ≡ a.permits) hands.old.items hands.new.items) }
    ensures tells { OnOk result (X.tells stock.old.net ≡ true → X.tells stock.new.net ≡ true) }
    ensures refused { IfErr result (DealRefused (X.tells stock.old.net) (X.faults stock.old.net) (X.faults stock.new.net) hands.old.items hands.new.items) }
    ensures lines { OnOk result (AreUsed (lines_of stock.old) (operands_in rest.entry.operands.now) (lines_of stock.new)) }
    ensures left { OnErr result (AreSomeUsed (lines_of stock.old) (operands_in rest.entry.operands.now) (lines_of stock.new)) }

    // On every answer.
    ensures follows { AllZip Follows hands.old.items hands.new.items }
    ensures fits { (list : List HandValue) → X.fits stock.new.net list ↔ X.fits stock.old.net list }
    ensures counts { X.faults stock.old.net ≤ X.faults stock.new.net }
    ensures stays { X.stays stock.old.net stock.new.net }
    ensures workers { stock.new.workers ≡ stock.old.workers }
{
    net_stays(stock);
    let began = Snapshot::of(&*hands);
    let Some((operand, operands)) = rest.operands.split_first() else {
        return Ok(into);
    };
    let Some((count, counts)) = rest.counts.split_first() else {
        return Ok(into);
    };
    let boxes = match deal(
        rt,
        alloc,
        way,
        stock,
        rest.at,
        operand,
        count.as_slice(),
        hands,
    ) {
        Ok(boxes) => boxes,
        Err(refusal) => return Err(refusal),
    };
    net_fits(stock, began, hands);
    let Ok(merged) = merge_all(alloc, into, boxes, rest.senders) else {
        return Err(LinkErr::NoMemory);
    };
    let Positions {
        total,
        before,
        workers,
    } = rest.at;
    let later = Rest {
        kinds: rest.kinds,
        at: Positions {
            total,
            before: before + total_of(count.as_slice()),
            workers,
        },
        senders: rest.senders + workers,
        operands,
        counts,
    };
    deal_rest(rt, alloc, way, stock, later, hands, merged)
}

/// Operands whose rows are dealt out to workers by their positions, one operand after the other.
#[derive(Clone, Copy)]
pub struct Round<'o> {
    /// The kinds of all rows.
    pub kinds: Kinds,
    /// How many rows there are in all.
    pub total: u64,
    /// The operands, in the order of their rows.
    pub operands: &'o [Operand],
    /// For each operand how many rows each worker has, by rank.
    pub counts: &'o [Vec<u64>],
}

impl<'o> Round<'o> {
    /// Deals out the rows of all operands: each worker's box holds its share of them, those of one sender after the other, in
    /// blocks of its own pool.
    ///
    /// `Disk` comes only where a hand's disk failed in this call, `Damaged` never where the disks tell, `Link` only where the
    /// net failed in this call, `LinkBytes` never where it tells, and `TooManyRows` never where the disks tell.
    pub fn deal<'p, R: Threads + Wait + Sync, G: Gate + Sync, D: Disk + Send + Sync, X: Net>(
        self,
        rt: &R,
        alloc: Global,
        way: &mut Way<'_, G>,
        stock: &mut Stock<X>,
        hands: &mut Vec<Hand<'p, D>>,
    ) -> Result<Vec<Inbox>, LinkErr>
        requires few { vec_len hands.old ≤ MOST_TASKS }
        requires long { vec_len hands.old ≡ stock.old.workers }
        requires fed { All (IsFed (kind_list self.kinds) (lines_of stock.old)) (operands_in self.operands.now) }
        requires in_turn { AreThereInTurn (operands_in self.operands.now) }
        requires counted { AllZip (IsCounted (lines_of stock.old) stock.old.workers hands.old.items) (operands_in self.operands.now) self.counts.now }
        requires total { (count_all self.counts.now ≡ self.total) × (self.total ≤ most_rows) }
        requires ranks { ranks_of stock.old.workers (operands_in self.operands.now) < 2 ^ 32 }
        requires own { AreInPools (pools_of hands.old.items) (lines_of stock.old) }
        requires permits { All (HasFrames stock.old.workers) hands.old.items }
        requires fits { X.fits stock.old.net hands.old.items }

        ensures pools { IfOk result (λ boxes. AllZip AreForHand hands.new.items boxes.items) }
        ensures shares { IfOk result (λ boxes. X.tells stock.old.net ≡ true → All Tells hands.old.items
            → HoldShares (kind_list self.entry.kinds) stock.old.workers (arriving_all (lines_of stock.old) (operands_in self.entry.operands.now)) boxes.items) }
        ensures permits { OnOk result (AllZip (λ (a b : HandValue). b.permits ≡ a.permits) hands.old.items hands.new.items) }
        ensures tells { OnOk result (X.tells stock.old.net ≡ true → X.tells stock.new.net ≡ true) }
        ensures refused { IfErr result (DealRefused (X.tells stock.old.net) (X.faults stock.old.net) (X.faults stock.new.net) hands.old.items hands.new.items) }
        ensures lines { OnOk result (AreUsed (lines_of stock.old) (operands_in self.entry.operands.now) (lines_of stock.new)) }
        ensures left { OnErr result (AreSomeUsed (lines_of stock.old) (operands_in self.entry.operands.now) (lines_of stock.new)) }

        // On every answer.
        ensures follows { AllZip Follows hands.old.items hands.new.items }
        ensures fits { (list : List HandValue) → X.fits stock.new.net list ↔ X.fits stock.old.net list }
        ensures counts { X.faults stock.old.net ≤ X.faults stock.new.net }
        ensures stays { X.stays stock.old.net stock.new.net }
        ensures workers { stock.new.workers ≡ stock.old.workers }
    {
        net_stays(stock);
        let Ok(empty) = empty_boxes(alloc, hands.len()) else {
            return Err(LinkErr::NoMemory);
        };
        let rest = Rest {
            kinds: self.kinds,
            at: Positions {
                total: self.total,
                before: 0,
                workers: hands.len() as u32,
            },
            senders: 0,
            operands: self.operands,
            counts: self.counts,
        };
        deal_rest(rt, alloc, way, stock, rest, hands, empty)
    }
}
