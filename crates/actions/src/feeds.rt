//! The feeds of all workers, printed by rank.
ghost use Rattle.std.specs.Prelude.{◌≡◌, ◌≤◌, Ok, Err, OnOk, IfOk, IfErr, map, vec_len, vec_capacity};
ghost use Rattle.std.specs.List.{AllZip};
ghost use Rattle.block_pool.specs.Handles.{HandValue, Follows};
ghost use Rattle.scatter.specs.Feeds.{FeedValue};
ghost use Rattle.actions.specs.Printing.{rows_of_feeds, AreToldFeeds, CanPrint, PrintedOne, HasPrinted};

use block_pool::Hand;
use dia_edge::{Disk, Failed, NoMemory, Sink};
use dia_file::File;
use feed_print::print_feed;
use scatter::{Feed, FeedErr};
use std::alloc::Global;
use std::sync::Wait;
use text_out::OutBuffer;

/// Prints the rows of a feed that has just begun, and ends it.
fn print_and_end<'p, R: Wait, D: Disk, S: Sink>(
    rt: &R,
    feed: Feed,
    hand: &mut Hand<'p, D>,
    buffer: &mut OutBuffer,
    out: &mut S,
) -> (Option<File>, Result<(), FeedErr<Failed>>)
    requires can { CanPrint feed hand.old }
    ensures prints { PrintedOne S.Sink feed hand.old out.old buffer.old result.1 hand.new out.new buffer.new }
    ensures file { result.0 ≡ feed.keeps }
    ensures permits { OnOk result.1 (hand.new.permits ≡ hand.old.permits) }
    ensures follows { Follows hand.old hand.new }
{
    let mut feed = feed;
    let answer = print_feed(rt, &mut feed, hand, buffer, out);
    let file = feed.end(rt, hand);
    (file, answer)
}

/// Prints the rows of the next feed, and ends it. Where a feed before was refused, it is only ended.
fn print_next<'p, R: Wait, D: Disk, S: Sink>(
    rt: &R,
    feed: Feed,
    hand: &mut Hand<'p, D>,
    answer: Result<(), FeedErr<Failed>>,
    buffer: &mut OutBuffer,
    out: &mut S,
) -> (Option<File>, Result<(), FeedErr<Failed>>)
    requires can { CanPrint feed hand.old }
    ensures prints { OnOk answer (PrintedOne S.Sink feed hand.old out.old buffer.old result.1 hand.new out.new buffer.new) }
    ensures skips { IfErr answer (λ e. (result.1 ≡ Err e) × (out.new ≡ out.old) × (buffer.new ≡ buffer.old)) }
    ensures file { result.0 ≡ feed.keeps }
    ensures permits { OnOk result.1 (hand.new.permits ≡ hand.old.permits) }
    ensures follows { Follows hand.old hand.new }
{
    match answer {
        Ok(()) => print_and_end(rt, feed, hand, buffer, out),
        Err(refusal) => (feed.end(rt, hand), Err(refusal)),
    }
}

/// What comes of feeds that were printed, by rank.
#[derive(Drop)]
pub(crate) struct Printed<'p, D: Disk> {
    pub(crate) hands: Vec<Hand<'p, D>>,
    /// The files of feeds that were to give them back.
    pub(crate) parts: Vec<Option<File>>,
    /// The first refusal, if there was one.
    pub(crate) answer: Result<(), FeedErr<Failed>>,
}

impl<'p, D: Disk> Printed<'p, D> {
    /// Room for so many.
    pub(crate) fn new(alloc: Global, count: usize) -> Result<Printed<'p, D>, NoMemory>
        ensures none { IfOk result (λ printed. (vec_len printed.hands ≡ 0) × (vec_len printed.parts ≡ 0) × (printed.answer ≡ Ok tt)) }
        ensures room { IfOk result (λ printed. (count ≤ vec_capacity printed.hands) × (count ≤ vec_capacity printed.parts)) }
    {
        Ok(Printed {
            hands: Vec::with_capacity(alloc, count)?,
            parts: Vec::with_capacity(alloc, count)?,
            answer: Ok(()),
        })
    }
}

/// Prints the rows of all feeds by rank, each with its worker's hand, until one is refused, and ends all of them. It takes no
/// memory of its own: `printed` has room for all.
pub(crate) fn print_feeds<'p, R: Wait, D: Disk, S: Sink>(
    rt: &R,
    feeds: Vec<Feed>,
    hands: Vec<Hand<'p, D>>,
    printed: Printed<'p, D>,
    buffer: &mut OutBuffer,
    out: &mut S,
) -> Printed<'p, D>
    requires can { AllZip CanPrint feeds.items hands.items }
    requires none { (vec_len printed.hands ≡ 0) × (vec_len printed.parts ≡ 0) × (printed.answer ≡ Ok tt) }
    requires room { (vec_len feeds ≤ vec_capacity printed.hands) × (vec_len feeds ≤ vec_capacity printed.parts) }
    ensures prints { HasPrinted S.Sink (AreToldFeeds feeds.items hands.entry.items) (rows_of_feeds feeds.items)
        hands.entry.items out.old buffer.old result.answer result.hands.items out.new buffer.new }
    ensures parts { result.parts.items ≡ map (λ (f : FeedValue). f.keeps) feeds.items }
    ensures permits { OnOk result.answer (AllZip (λ (a b : HandValue). b.permits ≡ a.permits) hands.entry.items result.hands.items) }
    ensures follows { AllZip Follows hands.entry.items result.hands.items }
{
    let Printed {
        hands: mut ended,
        mut parts,
        mut answer,
    } = printed;
    let mut hands = hands.into_iter();
    for feed in feeds {
        let Some(mut hand) = hands.next() else {
            unreachable!()
        };
        let (file, now) = print_next(rt, feed, &mut hand, answer, buffer, out);
        parts.push_reserved(file);
        ended.push_reserved(hand);
        answer = now;
    }
    Printed {
        hands: ended,
        parts,
        answer,
    }
}
