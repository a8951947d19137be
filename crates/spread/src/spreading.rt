//! A file, spread over all workers.
ghost use Rattle.std.specs.Prelude.{◌≡◌, ◌≤◌, ◌↔◌, true, List, All, IfErr, OnOk, OnErr, vec_len};
ghost use Rattle.std.specs.List.{AllZip};
ghost use Rattle.block_pool.specs.Handles.{HandValue, Follows};
ghost use Rattle.scatter.specs.Stocks.{lines_of, AreInPools};
ghost use Rattle.scatter.specs.Phases.{pools_of};
ghost use Rattle.sink_files.specs.Ending.{HasTwoPermits};
ghost use Rattle.spread.specs.Dealing.{IsOfFirst};
ghost use Rattle.spread.specs.Spreading.{IsSpread, SpreadRefused};

use crate::carrying::deal_out;
use crate::spread_err::{SpreadErr, refusal_of_net, refusal_of_receiving};
use arrival_files::received;
use block_pool::Hand;
use dia_edge::{Disk, Gate, NoMemory};
use dia_file::File;
use scatter::{Net, Stock};
use sent_mail::net_stays;
use std::alloc::Global;
use std::sync::Wait;
use std::thread::Threads;
use worker_step::{MOST_TASKS, Way};

/// Makes a file of the first worker a stored line, in place of what that line was. The file's blocks are cut into as many parts as
/// there are workers, of about as many bytes each, behind blocks in which a row ends; each worker is sent its part, and writes its
/// rows to a file of its own, in one phase, with a permit for the block that it reads and one for the frame that it writes.
///
/// `Link` comes only where the net failed in this call, `LinkBytes` never where it tells, `Disk` only where a hand's disk failed
/// in this call, `Damaged` never where the disks and the net tell, and `TooManyRows` there only where the file has more rows
/// than a line may.
pub fn spread<'p, R: Threads + Wait + Sync, G: Gate + Sync, D: Disk + Send + Sync, X: Net>(
    rt: &R,
    alloc: Global,
    way: &mut Way<'_, G>,
    stock: &mut Stock<X>,
    hands: &mut Vec<Hand<'p, D>>,
    line: u32,
    file: File,
) -> Result<(), SpreadErr>
    requires few { vec_len hands.old ≤ MOST_TASKS }
    requires long { vec_len hands.old ≡ stock.old.workers }
    requires file { IsOfFirst hands.old.items file }
    requires own { AreInPools (pools_of hands.old.items) (lines_of stock.old) }
    requires permits { All HasTwoPermits hands.old.items }
    requires fits { X.fits stock.old.net hands.old.items }

    ensures spread { OnOk result (IsSpread file (X.tells stock.old.net) hands.old.items (lines_of stock.old) line (lines_of stock.new)) }
    ensures own { OnOk result (AreInPools (pools_of hands.old.items) (lines_of stock.new)) }
    ensures tells { OnOk result (X.tells stock.old.net ≡ true → X.tells stock.new.net ≡ true) }
    ensures permits { OnOk result (AllZip (λ (a b : HandValue). b.permits ≡ a.permits) hands.old.items hands.new.items) }
    ensures refused { IfErr result (SpreadRefused file (X.tells stock.old.net) (X.faults stock.old.net) (X.faults stock.new.net) hands.old.items hands.new.items) }
    ensures lines { OnErr result (lines_of stock.new ≡ lines_of stock.old) }

    // On every answer.
    ensures follows { AllZip Follows hands.old.items hands.new.items }
    ensures fits { (list : List HandValue) → X.fits stock.new.net list ↔ X.fits stock.old.net list }
    ensures counts { X.faults stock.old.net ≤ X.faults stock.new.net }
    ensures stays { X.stays stock.old.net stock.new.net }
    ensures workers { stock.new.workers ≡ stock.old.workers }
{
    net_stays(stock);
    let kinds = file.kinds();
    let boxes = match deal_out(rt, alloc, stock, hands, file) {
        Ok(boxes) => boxes,
        Err(fault) => return Err(refusal_of_net(fault)),
    };
    let files = match received(rt, alloc, way, kinds, boxes, hands) {
        Ok(files) => files,
        Err(fault) => return Err(refusal_of_receiving(fault)),
    };
    match stock.put(alloc, line, files) {
        Ok(()) => Ok(()),
        Err(NoMemory) => Err(SpreadErr::NoMemory),
    }
}
