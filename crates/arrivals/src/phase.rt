//! A phase of arrivals: each worker pushes the rows of its box into its sink.
ghost use Rattle.std.specs.Prelude.{◌≡◌, ◌≤◌, ◌⊎◌, IfOk, OnOk, IfErr, OnErr, vec_len, vec_capacity};
ghost use Rattle.std.specs.List.{AllZip};
ghost use Rattle.dia_item.specs.KindList.{kind_list};
ghost use Rattle.block_pool.specs.Handles.{Follows};
ghost use Rattle.lent_step.specs.Lending.{AllRan, IsFaultAt, IfFault};
ghost use Rattle.scatter.specs.Carrying.{AreForHand};
ghost use Rattle.scatter.specs.Fitting.{RestsOnHands};
ghost use Rattle.scatter.specs.Phases.{AllThree, CanTake, flat_answer};
ghost use Rattle.arrivals.specs.Receives.{CanGoOn};
ghost use Rattle.arrivals.specs.Phases.{IsReaderOf, HasStarted, Gone, Done, Faulted, HasReceived, HasStopped};

use crate::ending::{Back, end_all};
use crate::pushing::laws_of;
use crate::receiving::Receiving;
use block_pool::Hand;
use cat_stream::CatReader;
use dia_edge::{Disk, NoMemory};
use dia_item::Kinds;
use lent_step::Stopped;
use lop_chain::RowSink;
use multiplexer::Inbox;
use scatter::FeedErr;
use std::alloc::Global;
use std::mem;
use std::snapshot::Snapshot;
use std::sync::Wait;

/// A reader of each box.
fn read_all(alloc: Global, kinds: Kinds, boxes: Vec<Inbox>) -> Result<Vec<CatReader>, NoMemory>
    ensures { IfOk result (λ readers. AllZip (IsReaderOf (kind_list kinds)) boxes.items readers.items) }
{
    let mut readers = Vec::with_capacity(alloc, boxes.len())?;
    for inbox in boxes {
        let Ok(reader) = CatReader::of(inbox, kinds) else {
            return Err(NoMemory);
        };
        readers.push_reserved(reader);
    }
    Ok(readers)
}

/// Gives each reader its sink; there is room for all.
fn pair_all<'p, D: Disk, S: Drop>(
    readers: Vec<CatReader>,
    sinks: Vec<S>,
    works: &mut Vec<Receiving<'p, D, S>>,
)
    requires long { vec_len sinks ≡ vec_len readers }
    requires room { (vec_len works.old ≡ 0) × (vec_len readers ≤ vec_capacity works.old) }
    ensures started { AllThree HasStarted readers.items sinks.items works.new.items }
    ensures len { vec_len works.new ≡ vec_len readers }
{
    let mut sinks = sinks.into_iter();
    for reader in readers {
        let Some(sink) = sinks.next() else {
            unreachable!()
        };
        works.push_reserved(Receiving::new(reader, sink));
    }
}

/// A phase of arrivals: each worker pushes the rows of its box into the sink of its rank, by rank of the senders.
///
/// It goes so: `begin`, then `run_hands` with the hands and `works`, then `finish` with what that answered. So the call that
/// runs it knows the type of the sink, as threads ask.
#[derive(Drop)]
pub struct Arrival<'p, D: Disk, S> {
    /// The works, by rank.
    pub works: Vec<Receiving<'p, D, S>>,
    back: Back<'p, D, S>,
    /// The kinds of the rows.
    pub kinds: Kinds,
    /// The works as they began. This and the next ones have no bytes.
    pub began: Snapshot<Vec<Receiving<'p, D, S>>>,
    /// The boxes as they came.
    pub boxes_were: Snapshot<Vec<Inbox>>,
    /// The hands as they were.
    pub hands_were: Snapshot<Vec<Hand<'p, D>>>,
    /// The sinks as they were.
    pub sinks_were: Snapshot<Vec<S>>,
}

impl<'p, D: Disk + 'p, S: RowSink<Desk = Hand<'p, D>> + Drop> Arrival<'p, D, S> {
    ghost use Rattle.arrivals.specs.Begun.{IsBegun};

    /// Makes the works of all workers, of rows of these kinds. The sinks go into them. Without memory the sinks are as they were,
    /// and the packets are dropped: their blocks stay in the pool until that ends.
    pub fn begin(
        alloc: Global,
        kinds: Kinds,
        hands: &Vec<Hand<'p, D>>,
        boxes: Vec<Inbox>,
        sinks: &mut Vec<S>,
    ) -> Result<Arrival<'p, D, S>, NoMemory>
        requires own { AllZip AreForHand hands.now.items boxes.items }
        requires rests { RestsOnHands S.RowSink }
        requires can { AllZip (CanTake S.RowSink (kind_list kinds)) sinks.old.items hands.now.items }

        ensures begun { IfOk result (λ phase. IsBegun S.RowSink phase) }
        ensures ready { IfOk result (λ phase. AllZip (λ work a. CanGoOn S.RowSink work.reader_was.value work.sink_was.value work.reader work.pinned work.sink a) phase.works.items hands.now.items) }
        ensures began { IfOk result (λ phase. phase.began.value.items ≡ phase.works.items) }
        ensures len { IfOk result (λ phase. vec_len phase.works ≡ vec_len hands.now) }
        ensures kinds { IfOk result (λ phase. kind_list phase.kinds ≡ kind_list kinds) }
        ensures boxes { IfOk result (λ phase. phase.boxes_were.value.items ≡ boxes.items) }
        ensures hands { IfOk result (λ phase. phase.hands_were.value.items ≡ hands.now.items) }
        ensures sinks { IfOk result (λ phase. phase.sinks_were.value.items ≡ sinks.old.items) }
        ensures same_sinks { OnErr result (sinks.new ≡ sinks.old) }
    {
        laws_of::<S>();
        let _list = kinds.list();
        let boxes_were = Snapshot::of(&boxes);
        let hands_were = Snapshot::of(hands);
        let sinks_were = Snapshot::of(&*sinks);
        let mut works = Vec::with_capacity(alloc, sinks.len())?;
        let back = Back::new(alloc, sinks.len())?;
        let readers = read_all(alloc, kinds, boxes)?;
        pair_all(readers, mem::replace(sinks, Vec::new(alloc)), &mut works);
        let began = Snapshot::of(&works);
        Ok(Arrival {
            works,
            back,
            kinds,
            began,
            boxes_were,
            hands_were,
            sinks_were,
        })
    }

    /// Ends the phase that the works were run for, with what that came to. The hands and the sinks are there again, and the
    /// blocks that were left are freed. It takes no memory.
    ///
    /// After `Sink` the sink of that rank took the first rows of its box; `Disk` comes only where the disk failed in this phase,
    /// `Damaged` never where it tells and the senders sent rows, and `NoMemory` where there was none.
    pub fn finish<R: Wait>(
        self,
        rt: &R,
        alloc: Global,
        hands: &mut Vec<Hand<'p, D>>,
        sinks: &mut Vec<S>,
        answer: Result<(), Stopped<FeedErr<S::Refusal>>>,
    ) -> Result<(), FeedErr<S::Refusal>>
        requires begun { IsBegun S.RowSink self }
        requires ran { AllRan (Gone S.RowSink) self.began.value.items self.hands_were.value.items self.works.items hands.old.items }
        requires done { OnOk answer (AllZip (Done S.RowSink) self.works.items hands.old.items) }
        requires faulted { IfFault answer (λ e. IsFaultAt (Done S.RowSink) (Faulted S.RowSink) self.hands_were.value.items self.works.items hands.old.items e) }

        ensures received { OnOk result (HasReceived S.RowSink (kind_list self.entry.kinds) self.entry.boxes_were.value.items self.entry.sinks_were.value.items self.entry.hands_were.value.items sinks.new.items hands.new.items) }
        ensures stopped { IfErr result (λ e. (e ≡ FeedErr.NoMemory)
            ⊎ HasStopped S.RowSink (kind_list self.entry.kinds) self.entry.boxes_were.value.items self.entry.sinks_were.value.items self.entry.hands_were.value.items sinks.new.items hands.new.items e) }

        // On every answer.
        ensures follows { AllZip Follows self.entry.hands_were.value.items hands.new.items }
        ensures stays { AllZip S.stays self.entry.sinks_were.value.items sinks.new.items }
    {
        let Arrival {
            works,
            back,
            kinds: _kinds,
            began: _began,
            boxes_were: _boxes,
            hands_were: _hands,
            sinks_were: _sinks,
        } = self;
        let moved = mem::replace(hands, Vec::new(alloc));
        let Back {
            hands: ended,
            sinks: filled,
        } = end_all(rt, moved, works, back);
        *hands = ended;
        *sinks = filled;
        flat(answer)
    }
}

/// Want of memory to run the phase is want of memory.
fn flat<R: Drop>(answer: Result<(), Stopped<FeedErr<R>>>) -> Result<(), FeedErr<R>>
    ensures { result ≡ flat_answer answer }
{
    match answer {
        Ok(()) => Ok(()),
        Err(Stopped::NoMemory) => Err(FeedErr::NoMemory),
        Err(Stopped::Fault(fault)) => Err(fault),
    }
}
