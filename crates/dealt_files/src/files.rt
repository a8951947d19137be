//! Rows that are dealt out, in files.
ghost use Rattle.std.specs.Prelude.{◌≡◌, ◌^◌, ◌<◌, ◌≤◌, ◌↔◌, true, List, All, length, IfOk, IfErr, OnOk, OnErr, vec_len};
ghost use Rattle.std.specs.List.{AllZip};
ghost use Rattle.row_defs.specs.Limits.{most_rows};
ghost use Rattle.dia_item.specs.KindList.{kind_list};
ghost use Rattle.block_pool.specs.Handles.{HandValue, Follows};
ghost use Rattle.dia_file.specs.Cuts.{rows_of_files};
ghost use Rattle.dia_file.specs.Files.{IsFileOf};
ghost use Rattle.scatter.specs.Lines.{HasKinds};
ghost use Rattle.scatter.specs.Stocks.{lines_of, AreInPools};
ghost use Rattle.scatter.specs.Phases.{pools_of};
ghost use Rattle.scatter.specs.Told.{Tells};
ghost use Rattle.link.specs.Linking.{HasFrames};
ghost use Rattle.dealing.specs.Operands.{operands_in, IsFed, AreThereInTurn, AreUsed, AreSomeUsed, arriving_all, ranks_of};
ghost use Rattle.dealt_files.specs.Gathered.{GatherRefused};

use crate::counting::{Counts, count_rows};
use crate::deal_err::{DealErr, refusal_of_count, refusal_of_link, refusal_of_receiving};
use arrival_files::received;
use block_pool::Hand;
use dealing::Round;
use dia_edge::{Disk, Gate};
use dia_file::File;
use dia_item::Kinds;
use lop_chain::Operand;
use scatter::{Net, Stock};
use sent_mail::net_fits;
use std::alloc::Global;
use std::snapshot::Snapshot;
use std::sync::Wait;
use std::thread::Threads;
use worker_step::{MOST_TASKS, Way};

/// The files of all rows of all operands, one per worker: joined by rank they have one operand's rows behind the other's, and
/// each has its share of their positions. All workers count the rows, deal them out and write them, each with a permit for a
/// frame for each worker and one for the block that it reads.
///
/// `TooManyRows` comes only where more rows arrive than a line may have, `Disk` only where a hand's disk failed in this call,
/// `Link` only where the net failed in it, and `Damaged` and `LinkBytes` never where the disks and the net tell. On every answer
/// each hand is there, and of the lines none is gone before its last use.
pub fn dealt_files<'p, R: Threads + Wait + Sync, G: Gate + Sync, D: Disk + Send + Sync, X: Net>(
    rt: &R,
    alloc: Global,
    way: &mut Way<'_, G>,
    stock: &mut Stock<X>,
    kinds: Kinds,
    operands: &[Operand],
    hands: &mut Vec<Hand<'p, D>>,
) -> Result<Vec<File>, DealErr>
    requires few { vec_len hands.old ≤ MOST_TASKS }
    requires some { 0 < stock.old.workers }
    requires long { vec_len hands.old ≡ stock.old.workers }
    requires fed { All (IsFed (kind_list kinds) (lines_of stock.old)) (operands_in operands.now) }
    requires in_turn { AreThereInTurn (operands_in operands.now) }
    requires ranks { ranks_of stock.old.workers (operands_in operands.now) < 2 ^ 32 }
    requires own { AreInPools (pools_of hands.old.items) (lines_of stock.old) }
    requires permits { All (HasFrames stock.old.workers) hands.old.items }
    requires fits { X.fits stock.old.net hands.old.items }

    ensures own { IfOk result (λ files. AllZip IsFileOf (pools_of hands.old.items) files.items) }
    ensures kinds { IfOk result (λ files. All (HasKinds (kind_list kinds)) files.items) }
    ensures rows { IfOk result (λ files. X.tells stock.old.net ≡ true → All Tells hands.old.items
        → rows_of_files files.items ≡ arriving_all (lines_of stock.old) (operands_in operands.entry.now)) }
    ensures few { IfOk result (λ files. length (rows_of_files files.items) ≤ most_rows) }
    ensures permits { OnOk result (AllZip (λ (a b : HandValue). b.permits ≡ a.permits) hands.old.items hands.new.items) }
    ensures tells { OnOk result (X.tells stock.old.net ≡ true → X.tells stock.new.net ≡ true) }
    ensures refused { IfErr result (GatherRefused (lines_of stock.old) (operands_in operands.entry.now) (X.tells stock.old.net) (X.faults stock.old.net) (X.faults stock.new.net) hands.old.items hands.new.items) }
    ensures lines { OnOk result (AreUsed (lines_of stock.old) (operands_in operands.entry.now) (lines_of stock.new)) }
    ensures left { OnErr result (AreSomeUsed (lines_of stock.old) (operands_in operands.entry.now) (lines_of stock.new)) }

    // On every answer.
    ensures follows { AllZip Follows hands.old.items hands.new.items }
    ensures fits { (list : List HandValue) → X.fits stock.new.net list ↔ X.fits stock.old.net list }
    ensures counts { X.faults stock.old.net ≤ X.faults stock.new.net }
    ensures stays { X.stays stock.old.net stock.new.net }
    ensures workers { stock.new.workers ≡ stock.old.workers }
{
    let began = Snapshot::of(&*hands);
    let Counts { each, total } = match count_rows(rt, alloc, way, stock, kinds, operands, hands) {
        Ok(counts) => counts,
        Err(fault) => return Err(refusal_of_count(fault)),
    };
    net_fits(stock, began, hands);
    let round = Round {
        kinds,
        total,
        operands,
        counts: each.as_slice(),
    };
    let boxes = match round.deal(rt, alloc, way, stock, hands) {
        Ok(boxes) => boxes,
        Err(fault) => return Err(refusal_of_link(fault)),
    };
    match received(rt, alloc, way, kinds, boxes, hands) {
        Ok(files) => Ok(files),
        Err(fault) => Err(refusal_of_receiving(fault)),
    }
}
