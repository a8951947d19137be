//! A phase over an operand: each worker pushes the rows of its feed into its sink.
ghost use Rattle.std.specs.Prelude.{◌≡◌, ◌≤◌, ◌⊎◌, IfOk, OnOk, IfErr, OnErr, vec_len, vec_capacity};
ghost use Rattle.std.specs.List.{AllZip};
ghost use Rattle.row_defs.specs.LocalOps.{AreSoundOps};
ghost use Rattle.block_pool.specs.Handles.{Follows};
ghost use Rattle.lent_step.specs.Lending.{AllRan, IsFaultAt, IfFault};
ghost use Rattle.lop_chain.specs.Rows.{Kinds};
ghost use Rattle.lop_chain.specs.Ops.{ops_in};
ghost use Rattle.lop_chain.specs.Operands.{root_in};
ghost use Rattle.scatter.specs.Lines.{HasRoot, root_kinds, root_feeds};
ghost use Rattle.scatter.specs.Stocks.{lines_of, AreInPools, IsToRestore};
ghost use Rattle.scatter.specs.Fitting.{RestsOnHands};
ghost use Rattle.scatter.specs.Sends.{CanGoOn};
ghost use Rattle.scatter.specs.Phases.{AllThree, HasBegun, IsRestored, CanTake, pools_of, IsUsed, Gone, Done, Faulted, flat_answer, HasSent, HasStopped};

use crate::ending::{Back, end_all};
use crate::feed::Feed;
use crate::feed_err::FeedErr;
use crate::net::Net;
use crate::pushing::laws_of;
use crate::sending::Sending;
use crate::stock::Stock;
use block_pool::Hand;
use dia_edge::{Disk, NoMemory};
use dia_file::File;
use lent_step::Stopped;
use lop_chain::{Operand, Root, RowSink};
use std::alloc::Global;
use std::mem;
use std::snapshot::Snapshot;
use std::sync::Wait;

/// Gives each feed its sink; there is room for all.
fn pair_all<'p, D: Disk, S: Drop>(
    feeds: Vec<Feed>,
    sinks: Vec<S>,
    sends: &mut Vec<Sending<'p, D, S>>,
)
    requires long { vec_len sinks ≡ vec_len feeds }
    requires room { (vec_len sends.old ≡ 0) × (vec_len feeds ≤ vec_capacity sends.old) }
    ensures begun { AllThree HasBegun feeds.items sinks.items sends.new.items }
    ensures len { vec_len sends.new ≡ vec_len feeds }
{
    let mut sinks = sinks.into_iter();
    for feed in feeds {
        let Some(sink) = sinks.next() else {
            unreachable!()
        };
        sends.push_reserved(Sending::new(feed, sink));
    }
}

/// A phase over an operand: each worker pushes the rows of its part of the root through the chain into the sink of its rank.
/// Joined by rank these are the root's rows.
///
/// It goes so: `begin`, then `run_hands` with the hands and `sends`, then `finish` with what that answered. So the call that
/// runs it knows the type of the sink, as threads ask.
#[derive(Drop)]
pub struct Phase<'p, D: Disk, X, S> {
    /// The works, by rank.
    pub sends: Vec<Sending<'p, D, S>>,
    back: Back<'p, D, S>,
    /// The root whose rows are pushed.
    pub root: Root,
    /// Whether this is its last use.
    pub last: bool,
    /// The works as they began. This and the next ones have no bytes.
    pub began: Snapshot<Vec<Sending<'p, D, S>>>,
    /// The stock as it was.
    pub stock_was: Snapshot<Stock<X>>,
    /// The feeds as they were.
    pub feeds_were: Snapshot<Vec<Feed>>,
    /// The hands as they were.
    pub hands_were: Snapshot<Vec<Hand<'p, D>>>,
    /// The sinks as they were.
    pub sinks_were: Snapshot<Vec<S>>,
}

impl<'p, D: Disk + 'p, X: Net, S: RowSink<Desk = Hand<'p, D>> + Drop> Phase<'p, D, X, S> {
    ghost use Rattle.scatter.specs.Begun.{IsBegun};

    /// Makes the works of all workers. The sinks go into them, and a stored root's parts are lent, or its line is gone where
    /// this is the last use. Without memory all is as it was.
    pub fn begin(
        alloc: Global,
        stock: &mut Stock<X>,
        operand: &Operand,
        last: bool,
        hands: &Vec<Hand<'p, D>>,
        sinks: &mut Vec<S>,
    ) -> Result<Phase<'p, D, X, S>, NoMemory>
        requires long { (vec_len hands.now ≡ stock.old.workers) × (vec_len sinks.old ≡ stock.old.workers) }
        requires root { HasRoot (lines_of stock.old) (root_in operand.now.root) }
        requires own { AreInPools (pools_of hands.now.items) (lines_of stock.old) }
        requires rests { RestsOnHands S.RowSink }
        requires can { (to : Kinds) × AreSoundOps (root_kinds (lines_of stock.old) (root_in operand.now.root)) (ops_in operand.now.chain.items) to
            × AllZip (CanTake S.RowSink to) sinks.old.items hands.now.items }

        ensures begun { IfOk result (λ phase. IsBegun S.RowSink phase (lines_of stock.new) stock.new.workers) }
        ensures ready { IfOk result (λ phase. AllZip (λ send a. CanGoOn S.RowSink send.feed_was.value send.sink_was.value send.feed send.sink a) phase.sends.items hands.now.items) }
        ensures began { IfOk result (λ phase. phase.began.value.items ≡ phase.sends.items) }
        ensures len { IfOk result (λ phase. vec_len phase.sends ≡ vec_len hands.now) }
        ensures root { IfOk result (λ phase. (phase.root ≡ operand.now.root) × (phase.last ≡ last)) }
        ensures stock { IfOk result (λ phase. phase.stock_was.value ≡ stock.old) }
        ensures feeds { IfOk result (λ phase. phase.feeds_were.value.items
            ≡ root_feeds (lines_of stock.old) stock.old.workers (root_in operand.now.root) last (ops_in operand.now.chain.items)) }
        ensures hands { IfOk result (λ phase. phase.hands_were.value.items ≡ hands.now.items) }
        ensures sinks { IfOk result (λ phase. phase.sinks_were.value.items ≡ sinks.old.items) }
        ensures net { stock.new.net ≡ stock.old.net }
        ensures workers { stock.new.workers ≡ stock.old.workers }
        ensures same_stock { OnErr result (stock.new ≡ stock.old) }
        ensures same_sinks { OnErr result (sinks.new ≡ sinks.old) }
    {
        laws_of::<S>();
        let stock_was = Snapshot::of(&*stock);
        let hands_were = Snapshot::of(hands);
        let sinks_were = Snapshot::of(&*sinks);
        let mut sends = Vec::with_capacity(alloc, sinks.len())?;
        let back = Back::new(alloc, sinks.len())?;
        let feeds = stock.feeds(alloc, operand, last)?;
        let feeds_were = Snapshot::of(&feeds);
        pair_all(feeds, mem::replace(sinks, Vec::new(alloc)), &mut sends);
        let began = Snapshot::of(&sends);
        Ok(Phase {
            sends,
            back,
            root: operand.root,
            last,
            began,
            stock_was,
            feeds_were,
            hands_were,
            sinks_were,
        })
    }

    /// Ends the phase that the works were run for, with what that came to. The sinks are there again, and the parts that were
    /// lent are in stock. It takes no memory.
    ///
    /// After `Sink` the sink of that rank took a prefix of what was made of its rows; `Disk` comes only where the disk failed in
    /// this phase, `Damaged` never where it tells, and `NoMemory` where there was none.
    pub fn finish<R: Wait>(
        self,
        rt: &R,
        alloc: Global,
        stock: &mut Stock<X>,
        hands: &mut Vec<Hand<'p, D>>,
        sinks: &mut Vec<S>,
        answer: Result<(), Stopped<FeedErr<S::Refusal>>>,
    ) -> Result<(), FeedErr<S::Refusal>>
        requires begun { IsBegun S.RowSink self (lines_of stock.old) stock.old.workers }
        requires ran { AllRan (Gone S.RowSink) self.began.value.items self.hands_were.value.items self.sends.items hands.old.items }
        requires done { OnOk answer (AllZip (Done S.RowSink) self.sends.items hands.old.items) }
        requires faulted { IfFault answer (λ e. IsFaultAt (Done S.RowSink) (Faulted S.RowSink) self.hands_were.value.items self.sends.items hands.old.items e) }

        ensures sent { OnOk result (HasSent S.RowSink self.entry.feeds_were.value.items self.entry.sinks_were.value.items self.entry.hands_were.value.items sinks.new.items hands.new.items) }
        ensures stopped { IfErr result (λ e. (e ≡ FeedErr.NoMemory)
            ⊎ HasStopped S.RowSink self.entry.feeds_were.value.items self.entry.sinks_were.value.items self.entry.hands_were.value.items sinks.new.items hands.new.items e) }

        // On every answer.
        ensures lines { IsUsed (lines_of self.entry.stock_was.value) (root_in self.entry.root) self.entry.last (lines_of stock.new) }
        ensures follows { AllZip Follows self.entry.hands_were.value.items hands.new.items }
        ensures stays { AllZip S.stays self.entry.sinks_were.value.items sinks.new.items }
        ensures net { stock.new.net ≡ stock.old.net }
        ensures workers { stock.new.workers ≡ stock.old.workers }
    {
        let Phase {
            sends,
            back,
            root,
            last,
            began: _began,
            stock_was: _stock,
            feeds_were: _feeds,
            hands_were: _hands,
            sinks_were: _sinks,
        } = self;
        let moved = mem::replace(hands, Vec::new(alloc));
        let Back {
            hands: ended,
            parts,
            sinks: filled,
        } = end_all(rt, moved, sends, back);
        *hands = ended;
        *sinks = filled;
        give_back(stock, root, last, parts);
        flat(answer)
    }
}

/// Want of memory to begin the phase is want of memory.
fn flat<R: Drop>(answer: Result<(), Stopped<FeedErr<R>>>) -> Result<(), FeedErr<R>>
    ensures { result ≡ flat_answer answer }
{
    match answer {
        Ok(()) => Ok(()),
        Err(Stopped::NoMemory) => Err(FeedErr::NoMemory),
        Err(Stopped::Fault(fault)) => Err(fault),
    }
}

/// A stored root's parts that were lent are in stock again: those that its feeds gave back, by rank. After a last use, and for
/// numbers, none were lent, and there is nothing to do. It takes no memory and has no refusal.
pub fn give_back<X: Net>(stock: &mut Stock<X>, root: Root, last: bool, parts: Vec<Option<File>>)
    requires { IsToRestore (root_in root) last (lines_of stock.old) stock.old.workers parts.items }
    ensures lines { IsRestored (root_in root) last (lines_of stock.old) parts.items (lines_of stock.new) }
    ensures net { stock.new.net ≡ stock.old.net }
    ensures workers { stock.new.workers ≡ stock.old.workers }
{
    match root {
        Root::Stored(number) if !last => stock.restore_all(number, parts),
        _ => {}
    }
}
