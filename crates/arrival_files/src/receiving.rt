//! A phase that writes what workers receive.
ghost use Rattle.std.specs.Prelude.{◌≡◌, ◌≤◌, ◌⊎◌, All, IfOk, OnOk, IfErr, length, vec_len};
ghost use Rattle.std.specs.List.{AllZip};
ghost use Rattle.row_defs.specs.Limits.{most_rows};
ghost use Rattle.dia_item.specs.KindList.{kind_list};
ghost use Rattle.block_pool.specs.Handles.{HandValue, Follows};
ghost use Rattle.dia_file.specs.Cuts.{rows_of_files};
ghost use Rattle.dia_file.specs.Files.{IsFileOf};
ghost use Rattle.file_sink.specs.Sinks.{KeepsFile};
ghost use Rattle.scatter.specs.Carrying.{AreForHand};
ghost use Rattle.scatter.specs.Lines.{HasKinds};
ghost use Rattle.scatter.specs.Phases.{AllThree, pools_of};
ghost use Rattle.sink_files.specs.Ending.{HasTwoPermits, IsFreshSink};
ghost use Rattle.arrivals.specs.Phases.{HasReceived, HasStopped};
ghost use Rattle.arrival_files.specs.Receiving.{HasRowsOf, ReceiveRefused};

use crate::receive_err::{ReceiveErr, refusal_of_keeping, refusal_of_phase};
use arrivals::Arrival;
use block_pool::Hand;
use dia_edge::{Disk, Gate, NoMemory};
use dia_file::{File, PushErr};
use dia_item::Kinds;
use file_sink::FileSink;
use hand_phase::run_hands;
use lop_chain::RowSink;
use multiplexer::Inbox;
use scatter::FeedErr;
use sink_files::{cancel_all, keep_all, made_ready};
use std::alloc::Global;
use std::sync::Wait;
use std::thread::Threads;
use worker_step::{MOST_TASKS, Way};

/// One phase: each worker writes the rows of its box.
fn receive_phase<'p, R: Threads + Wait + Sync, G: Gate + Sync, D: Disk + Send + Sync>(
    rt: &R,
    alloc: Global,
    way: &mut Way<'_, G>,
    kinds: Kinds,
    boxes: Vec<Inbox>,
    hands: &mut Vec<Hand<'p, D>>,
    sinks: &mut Vec<FileSink<'p, D>>,
) -> Result<(), FeedErr<PushErr>>
    requires few { vec_len hands.old ≤ MOST_TASKS }
    requires own { AllZip AreForHand hands.old.items boxes.items }
    requires permits { All HasTwoPermits hands.old.items }
    requires fresh { AllZip (IsFreshSink (kind_list kinds)) sinks.old.items hands.old.items }

    ensures received { OnOk result (HasReceived ⟦<FileSink<'p, D> as RowSink>⟧ (kind_list kinds) boxes.items sinks.old.items hands.old.items sinks.new.items hands.new.items) }
    ensures stopped { IfErr result (λ e. (e ≡ FeedErr.NoMemory)
        ⊎ HasStopped ⟦<FileSink<'p, D> as RowSink>⟧ (kind_list kinds) boxes.items sinks.old.items hands.old.items sinks.new.items hands.new.items e) }

    // On every answer.
    ensures stays { AllZip KeepsFile sinks.old.items sinks.new.items }
    ensures follows { AllZip Follows hands.old.items hands.new.items }
{
    let begun = Arrival::begin(alloc, kinds, hands, boxes, sinks);
    let mut arrival: Arrival<'p, D, FileSink<'p, D>> = match begun {
        Ok(arrival) => arrival,
        Err(NoMemory) => return Err(FeedErr::NoMemory),
    };
    let answer = run_hands(rt, alloc, way, hands, &mut arrival.works);
    arrival.finish(rt, alloc, hands, sinks, answer)
}

/// The files of what workers receive, one per worker and of its hand's pool: each worker writes the rows of these kinds that
/// the packets of its box hold, those of the sender of the lowest rank first. All write in one phase, each with a permit for the
/// block that it reads and one for the frame that it writes, and the blocks of the boxes are freed as they are read.
///
/// `Disk` comes only where a hand's disk failed in this call, `Damaged` never where the disks tell and the boxes hold rows of
/// these kinds, and `TooManyRows` there only where they hold more rows than a line may have. After a refusal what was written
/// is gone.
pub fn received<'p, R: Threads + Wait + Sync, G: Gate + Sync, D: Disk + Send + Sync>(
    rt: &R,
    alloc: Global,
    way: &mut Way<'_, G>,
    kinds: Kinds,
    boxes: Vec<Inbox>,
    hands: &mut Vec<Hand<'p, D>>,
) -> Result<Vec<File>, ReceiveErr>
    requires few { vec_len hands.old ≤ MOST_TASKS }
    requires own { AllZip AreForHand hands.old.items boxes.items }
    requires permits { All HasTwoPermits hands.old.items }

    ensures own { IfOk result (λ files. AllZip IsFileOf (pools_of hands.old.items) files.items) }
    ensures kinds { IfOk result (λ files. All (HasKinds (kind_list kinds)) files.items) }
    ensures rows { IfOk result (λ files. AllThree (HasRowsOf (kind_list kinds)) hands.old.items boxes.items files.items) }
    ensures few { IfOk result (λ files. length (rows_of_files files.items) ≤ most_rows) }
    ensures permits { OnOk result (AllZip (λ (a b : HandValue). b.permits ≡ a.permits) hands.old.items hands.new.items) }
    ensures refused { IfErr result (ReceiveRefused (kind_list kinds) boxes.items hands.old.items hands.new.items) }

    // On every answer.
    ensures follows { AllZip Follows hands.old.items hands.new.items }
{
    let (room, mut sinks) = match made_ready(alloc, kinds, hands) {
        Ok(ready) => ready,
        Err(NoMemory) => return Err(ReceiveErr::NoMemory),
    };
    match receive_phase(rt, alloc, way, kinds, boxes, hands, &mut sinks) {
        Ok(()) => match keep_all(rt, alloc, hands, sinks, room) {
            Ok(files) => Ok(files),
            Err(refusal) => Err(refusal_of_keeping(refusal)),
        },
        Err(fault) => {
            cancel_all(rt, alloc, hands, sinks, room);
            Err(refusal_of_phase(fault))
        }
    }
}
