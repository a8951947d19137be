//! Lines in stock.
ghost use Rattle.std.specs.Prelude.{◌≡◌, ◌<◌, ◌≤◌, ◌-◌, ◌^◌, ◌↔◌, min, ℕ, true, List, All, map, length, None, Some, IfOk, IfErr, OnOk, OnErr, vec_len, slice_get, slice_set};
ghost use Rattle.std.specs.List.{AllZip, flat_map};
ghost use Rattle.block_pool.specs.Handles.{PoolName, HandValue, Follows};
ghost use Rattle.dia_file.specs.Encoding.{AllFit};
ghost use Rattle.dia_file.specs.Files.{FileValue, IsFileOf};
ghost use Rattle.lop_chain.specs.Operands.{root_in};
ghost use Rattle.lop_chain.specs.Ops.{ops_in};
ghost use Rattle.multiplexer.specs.Settling.{AreAllEnds};
ghost use Rattle.scatter.specs.Carrying.{AreForHand, AreMixesOnBytes, IsAnswerOf, IsFrontOf, NotCarried, SendsOwn};
ghost use Rattle.scatter.specs.Lines.{LineValue, with_parts, first_kinds, HasKinds, Sets, IsWhole, IsLent, HasRoot, root_rows, root_kinds, root_feeds, IsFedFrom};

use crate::feed::Feed;
use crate::feeding::{chains_of, feed_root};
use crate::line::{Line, put_back, replace_parts, rows_in_parts, take_parts};
use crate::net::Net;
use crate::net_err::NetErr;
use crate::settling::settle_all;
use block_pool::Hand;
use dia_edge::{Disk, NoMemory};
use dia_file::File;
use lop_chain::{Operand, Root};
use multiplexer::{Inbox, Packet, RecvEnd, SendEnd};
use std::alloc::Global;
use std::collections::BTreeMap;
use std::marker::Model;
use std::sync::Wait;

/// The lines that are stored, by their numbers, and the net that brings blocks between the workers' pools. Contracts see of
/// each line its kinds and one part per worker, none where that is lent.
#[derive(Drop)]
pub struct Stock<X> {
    net: X,
    workers: u32,
    lines: BTreeMap<u32, Line>,
}

impl<X> Model for Stock<X> {
    ghost use Rattle.std.specs.Coded.{codes};
    ghost use Rattle.scatter.specs.Stocks.{StockValue, stock_value, IsStock};

    ghost Value = { StockValue X };

    ghost coded = { Prim.hlevel (codes, X.code) };

    ghost view = { stock_value };

    ghost invariant = { IsStock };
}

impl<X: Net> Stock<X> {
    ghost use Rattle.scatter.specs.Feeds.{FeedValue};
    ghost use Rattle.scatter.specs.Stocks.{lines_of, AreLent, IsToRestore, AreInPools, FeedsAreInPools};

    /// No lines, for so many workers. It takes no memory yet.
    pub fn new(alloc: Global, net: X, workers: u32) -> Result<Stock<X>, (X, NoMemory)>
        requires { 0 < workers }
        ensures net { IfOk result (λ stock. stock.net ≡ net) }
        ensures workers { IfOk result (λ stock. stock.workers ≡ workers) }
        ensures lines { IfOk result (λ stock. (n : ℕ) → lines_of stock n ≡ None) }
        ensures refused { IfErr result (λ refused. refused.0 ≡ net) }
    {
        Ok(Stock {
            net,
            workers,
            lines: BTreeMap::new(alloc),
        })
    }

    /// The line has these parts, one per worker and of the worker's pool, in place of those that it had. Without memory the
    /// lines are as they were.
    pub fn put(&mut self, alloc: Global, line: u32, parts: Vec<File>) -> Result<(), NoMemory>
        requires count { vec_len parts ≡ self.old.workers }
        requires kinds { All (HasKinds (first_kinds parts.items)) parts.items }
        ensures lines { OnOk result (Sets (lines_of self.old) line
            (Some (record { kinds = first_kinds parts.items; parts = map (λ (f : FileValue). Some f) parts.items })) (lines_of self.new)) }
        ensures pools { OnOk result ((pools : List PoolName) → AreInPools pools (lines_of self.old) → AllZip IsFileOf pools parts.items
            → AreInPools pools (lines_of self.new)) }
        ensures net { self.new.net ≡ self.old.net }
        ensures workers { self.new.workers ≡ self.old.workers }
        ensures err { OnErr result (self.new ≡ self.old) }
    {
        let room = Vec::with_capacity(alloc, self.workers as usize)?;
        let kept = Line::new(parts, room);
        match self.lines.insert(line, kept) {
            Ok(_) => Ok(()),
            Err(_) => Err(NoMemory),
        }
    }

    /// The feeds of an operand, one per worker: joined by rank they have its root's rows. A stored line's parts are lent until
    /// `restore`, and where this is the last use they are freed as they are read, and the line leaves the stock. Without
    /// memory the lines are as they were.
    pub fn feeds(
        &mut self,
        alloc: Global,
        operand: &Operand,
        last: bool,
    ) -> Result<Vec<Feed>, NoMemory>
        requires { HasRoot (lines_of self.old) (root_in operand.now.root) }
        ensures feeds { IfOk result (λ feeds. feeds.items
            ≡ root_feeds (lines_of self.old) self.old.workers (root_in operand.now.root) last (ops_in operand.now.chain.items)) }
        ensures rows { IfOk result (λ feeds. flat_map (λ (f : FeedValue). f.left) feeds.items ≡ root_rows (lines_of self.old) (root_in operand.now.root)) }
        ensures kinds { IfOk result (λ feeds. All (λ (f : FeedValue). f.kinds ≡ root_kinds (lines_of self.old) (root_in operand.now.root)) feeds.items) }
        ensures count { IfOk result (λ feeds. vec_len feeds ≡ self.old.workers) }
        ensures lines { OnOk result (IsFedFrom (lines_of self.old) (root_in operand.now.root) last (lines_of self.new)) }
        ensures lent { IfOk result (λ feeds. IsToRestore (root_in operand.now.root) last (lines_of self.new) self.new.workers (map (λ (f : FeedValue). f.keeps) feeds.items)) }
        ensures pools { OnOk result ((pools : List PoolName) → AreInPools pools (lines_of self.old) → AreInPools pools (lines_of self.new)) }
        ensures own { IfOk result (λ feeds. (pools : List PoolName) → length pools ≡ self.old.workers → AreInPools pools (lines_of self.old) → FeedsAreInPools pools feeds.items) }
        ensures net { self.new.net ≡ self.old.net }
        ensures workers { self.new.workers ≡ self.old.workers }
        ensures err { OnErr result (self.new ≡ self.old) }
    {
        let chains = chains_of(alloc, operand.chain.as_slice(), self.workers)?;
        feed_root(alloc, &mut self.lines, operand.root, chains, last)
    }

    /// How many rows a root has, or `u64::MAX` where they are more. Each of them fits. It reads no block.
    pub fn row_count(&self, root: Root) -> u64
        requires { HasRoot (lines_of self.now) (root_in root) }
        ensures len { result ≡ min (length (root_rows (lines_of self.now) (root_in root))) (2 ^ 64 - 1) }
        ensures fit { AllFit (root_rows (lines_of self.now) (root_in root)) }
    {
        match root {
            Root::Count { rows, .. } => rows,
            Root::Stored(number) => match self.lines.get(&number) {
                Some(line) => rows_in_parts(line.parts.as_slice()),
                None => unreachable!(),
            },
        }
    }

    /// Says that the feeds of an operand, joined by rank, have the rows of its root.
    pub fn joined(&self, operand: &Operand, last: bool)
        ensures { flat_map (λ (f : FeedValue). f.left)
            (root_feeds (lines_of self.now) self.now.workers (root_in operand.now.root) last (ops_in operand.now.chain.items))
            ≡ root_rows (lines_of self.now) (root_in operand.now.root) }
    {
        let _workers = self.workers;
        let _ = operand;
        let _ = last;
    }

    /// The part of a line comes back from the worker to whom it was lent. It takes no memory and has no refusal.
    pub fn restore(&mut self, line: u32, rank: u32, file: File)
        requires { IsLent (lines_of self.old) line rank file.kinds }
        ensures lines { (old : LineValue) → lines_of self.old line ≡ Some old
            → Sets (lines_of self.old) line (Some (with_parts old (slice_set old.parts rank (Some file)))) (lines_of self.new) }
        ensures pools { (pools : List PoolName) (pool : PoolName) → slice_get pools rank ≡ Some pool → IsFileOf pool file
            → AreInPools pools (lines_of self.old) → AreInPools pools (lines_of self.new) }
        ensures net { self.new.net ≡ self.old.net }
        ensures workers { self.new.workers ≡ self.old.workers }
    {
        put_back(&mut self.lines, line, rank, file);
    }

    /// The parts of a line come back from all workers to whom they were lent. It takes no memory and has no refusal.
    pub fn restore_all(&mut self, line: u32, parts: Vec<Option<File>>)
        requires { AreLent (lines_of self.old) line self.old.workers parts.items }
        ensures lines { (old : LineValue) → lines_of self.old line ≡ Some old
            → Sets (lines_of self.old) line (Some (with_parts old parts.items)) (lines_of self.new) }
        ensures net { self.new.net ≡ self.old.net }
        ensures workers { self.new.workers ≡ self.old.workers }
    {
        replace_parts(&mut self.lines, line, parts);
    }

    /// The parts of a line, none of which is lent; the line leaves the stock. It takes no memory and has no refusal.
    pub fn take(&mut self, line: u32) -> Vec<Option<File>>
        requires { IsWhole (lines_of self.old) line }
        ensures parts { (old : LineValue) → lines_of self.old line ≡ Some old → result.items ≡ old.parts }
        ensures lines { Sets (lines_of self.old) line None (lines_of self.new) }
        ensures net { self.new.net ≡ self.old.net }
        ensures workers { self.new.workers ≡ self.old.workers }
    {
        take_parts(&mut self.lines, line)
    }

    /// Settles the mail of all workers, and brings what was sent to the pools of those who are to read it. Each receiver's
    /// packets that were taken before stand in front. It waits.
    ///
    /// The refusals are those of the net's `carry`, and want of memory; what was sent is lost then.
    pub fn settle<'m, R: Wait, D: Disk>(
        &mut self,
        rt: &R,
        alloc: Global,
        hands: &mut Vec<Hand<'_, D>>,
        fronts: Vec<Vec<Packet>>,
        sends: Vec<SendEnd<'m>>,
        recvs: Vec<RecvEnd<'m>>,
    ) -> Result<Vec<Inbox>, NetErr>
        requires ends { AreAllEnds sends.items recvs.items }
        requires count { (vec_len recvs ≡ self.old.workers) × (vec_len hands.old ≡ self.old.workers) }
        requires fronts { AllZip IsFrontOf fronts.items recvs.items }
        requires own { AllZip SendsOwn hands.old.items sends.items }
        requires fits { X.fits self.old.net hands.old.items }

        ensures pools { IfOk result (λ boxes. AllZip AreForHand hands.new.items boxes.items) }
        ensures mixes { IfOk result (λ boxes. X.tells self.old.net ≡ true → AreMixesOnBytes hands.old.items sends.entry.items boxes.items) }
        ensures tells { OnOk result (X.tells self.old.net ≡ true → X.tells self.new.net ≡ true) }
        ensures permits { OnOk result (AllZip (λ (a b : HandValue). b.permits ≡ a.permits) hands.old.items hands.new.items) }
        ensures answered { IfOk result (λ boxes. IsAnswerOf X.answers sends.entry.items boxes) }
        ensures refused { IfErr result (λ e. NotCarried (X.tells self.old.net) (X.faults self.old.net) (X.faults self.new.net) hands.old.items hands.new.items e) }

        // On every answer.
        ensures follows { AllZip Follows hands.old.items hands.new.items }
        ensures fits { (list : List HandValue) → X.fits self.new.net list ↔ X.fits self.old.net list }
        ensures counts { X.faults self.old.net ≤ X.faults self.new.net }
        ensures stays { X.stays self.old.net self.new.net }
        ensures lines { lines_of self.new ≡ lines_of self.old }
        ensures workers { self.new.workers ≡ self.old.workers }
    {
        let boxes = settle_all(rt, alloc, fronts, sends, recvs)?;
        self.net.carry(rt, alloc, hands, boxes)
    }

    /// Ends it: the lines are gone, and their blocks stay in the pools until those end.
    pub fn end(self) -> X
        ensures { result ≡ self.net }
    {
        let Stock {
            net,
            workers: _,
            lines: _,
        } = self;
        net
    }
}
