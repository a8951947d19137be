//! A file that is dealt out to all workers.
ghost use Rattle.std.specs.Prelude.{◌≡◌, ◌≤◌, ◌<◌, ◌↔◌, true, false, List, All, IfOk, IfErr, OnOk, length, vec_len};
ghost use Rattle.std.specs.List.{AllZip};
ghost use Rattle.row_defs.specs.declared.kind.Kind.{Kind};
ghost use Rattle.block_pool.specs.Handles.{HandValue, Follows};
ghost use Rattle.dia_file.specs.Cuts.{rows_of_files};
ghost use Rattle.dia_file.specs.Files.{FileValue};
ghost use Rattle.scatter.specs.Carrying.{AreForHand, NotCarried};
ghost use Rattle.scatter.specs.Lines.{HasKinds};
ghost use Rattle.scatter.specs.Stocks.{lines_of};
ghost use Rattle.spread.specs.Dealing.{IsDealtOut, IsOfFirst};

use crate::dealing::send_parts;
use block_pool::Hand;
use dia_edge::Disk;
use dia_file::File;
use multiplexer::{Inbox, Mail};
use scatter::{Net, NetErr, Stock};
use sent_mail::{net_stays, settle_sent};
use std::alloc::Global;
use std::sync::Wait;
use worker_step::MOST_TASKS;

/// Sends these files through a mail whose ends weren't given out, from the first worker, to each worker the one of its rank.
fn carry_parts<R: Wait, D: Disk, X: Net>(
    rt: &R,
    alloc: Global,
    stock: &mut Stock<X>,
    hands: &mut Vec<Hand<'_, D>>,
    parts: Vec<File>,
    mail: &mut Mail,
) -> Result<Vec<Inbox>, NetErr>
    requires new { mail.old.is_given ≡ false }
    requires mail { length mail.old.mail ≡ vec_len hands.old }
    requires some { 0 < vec_len hands.old }
    requires few { vec_len hands.old ≤ MOST_TASKS }
    requires long { (vec_len hands.old ≡ stock.old.workers) × (vec_len parts ≡ stock.old.workers) }
    requires own { All (IsOfFirst hands.old.items) parts.items }
    requires fits { X.fits stock.old.net hands.old.items }

    ensures pools { IfOk result (λ boxes. AllZip AreForHand hands.new.items boxes.items) }
    ensures dealt { IfOk result (λ boxes. (kinds : List Kind) → All (HasKinds kinds) parts.items
        → IsDealtOut kinds (rows_of_files parts.items) (X.tells stock.old.net) hands.old.items boxes.items) }
    ensures tells { OnOk result (X.tells stock.old.net ≡ true → X.tells stock.new.net ≡ true) }
    ensures permits { OnOk result (AllZip (λ (a b : HandValue). b.permits ≡ a.permits) hands.old.items hands.new.items) }
    ensures refused { IfErr result (λ e. NotCarried (X.tells stock.old.net) (X.faults stock.old.net) (X.faults stock.new.net) hands.old.items hands.new.items e) }

    // On every answer.
    ensures follows { AllZip Follows hands.old.items hands.new.items }
    ensures fits { (list : List HandValue) → X.fits stock.new.net list ↔ X.fits stock.old.net list }
    ensures counts { X.faults stock.old.net ≤ X.faults stock.new.net }
    ensures stays { X.stays stock.old.net stock.new.net }
    ensures lines { lines_of stock.new ≡ lines_of stock.old }
    ensures workers { stock.new.workers ≡ stock.old.workers }
{
    net_stays(stock);
    let Ok((mut sends, recvs)) = mail.ends(alloc) else {
        return Err(NetErr::NoMemory);
    };
    let Ok(()) = send_parts(rt, alloc, &mut sends[0], parts) else {
        return Err(NetErr::NoMemory);
    };
    settle_sent(rt, alloc, stock, hands, sends, recvs)
}

/// Deals the rows of a file out to all workers, in blocks in which whole rows end, to each about as many bytes. The boxes of all
/// workers are in blocks of their own pools.
pub(crate) fn deal_out<R: Wait, D: Disk, X: Net>(
    rt: &R,
    alloc: Global,
    stock: &mut Stock<X>,
    hands: &mut Vec<Hand<'_, D>>,
    file: File,
) -> Result<Vec<Inbox>, NetErr>
    requires few { vec_len hands.old ≤ MOST_TASKS }
    requires long { vec_len hands.old ≡ stock.old.workers }
    requires own { IsOfFirst hands.old.items file }
    requires fits { X.fits stock.old.net hands.old.items }

    ensures pools { IfOk result (λ boxes. AllZip AreForHand hands.new.items boxes.items) }
    ensures dealt { IfOk result (λ boxes. IsDealtOut file.kinds file.rows (X.tells stock.old.net) hands.old.items boxes.items) }
    ensures tells { OnOk result (X.tells stock.old.net ≡ true → X.tells stock.new.net ≡ true) }
    ensures permits { OnOk result (AllZip (λ (a b : HandValue). b.permits ≡ a.permits) hands.old.items hands.new.items) }
    ensures refused { IfErr result (λ e. NotCarried (X.tells stock.old.net) (X.faults stock.old.net) (X.faults stock.new.net) hands.old.items hands.new.items e) }

    // On every answer.
    ensures follows { AllZip Follows hands.old.items hands.new.items }
    ensures fits { (list : List HandValue) → X.fits stock.new.net list ↔ X.fits stock.old.net list }
    ensures counts { X.faults stock.old.net ≤ X.faults stock.new.net }
    ensures stays { X.stays stock.old.net stock.new.net }
    ensures lines { lines_of stock.new ≡ lines_of stock.old }
    ensures workers { stock.new.workers ≡ stock.old.workers }
{
    net_stays(stock);
    let workers = hands.len() as u32;
    let Ok(mut mail) = Mail::open(alloc, workers) else {
        return Err(NetErr::NoMemory);
    };
    match file.split_blocks(workers) {
        Ok(parts) => carry_parts(rt, alloc, stock, hands, parts, &mut mail),
        Err(_) => Err(NetErr::NoMemory),
    }
}
