//! Feeds of all workers.
ghost use Rattle.std.specs.Prelude.{◌≡◌, ◌<◌, ◌≤◌, ◌^◌, List, All, IsSome, Some, IfOk, OnOk, OnErr, map, length, vec_len, vec_capacity};
ghost use Rattle.std.specs.List.{filter_map};
ghost use Rattle.row_defs.specs.LocalOps.{LocalOp};
ghost use Rattle.collective.specs.Shares.{shares_of};
ghost use Rattle.lop_chain.specs.Ops.{ops_in};
ghost use Rattle.scatter.specs.Feeds.{number_rows, part_feed, number_feed};
ghost use Rattle.lop_chain.specs.Operands.{root_in};
ghost use Rattle.scatter.specs.Lines.{LineValue, lines_in, AreChainsOf, IsWhole, HasRoot, Sets, files_of, left_of, root_feeds, IsFedFrom};
ghost use Rattle.scatter.specs.Stocks.{AreLines};

use crate::feed::Feed;
use crate::line::{Lines, lent_parts, replace_parts, take_parts};
use crate::steps::Numbers;
use collective::share;
use dia_edge::NoMemory;
use dia_file::File;
use dia_item::RowBuf;
use lop_chain::{Chain, Root, ScriptOp, copy_ops};
use std::alloc::Global;

/// A chain of these lines for each worker.
pub(crate) fn chains_of(
    alloc: Global,
    ops: &[ScriptOp],
    workers: u32,
) -> Result<Vec<Chain>, NoMemory>
    ensures len { IfOk result (λ chains. vec_len chains ≡ workers) }
    ensures ops { IfOk result (λ chains. AreChainsOf (ops_in ops.now) chains.items) }
{
    let mut chains = Vec::with_capacity(alloc, workers as usize)?;
    for _rank in 0..workers {
        let copies = copy_ops(alloc, ops)?;
        chains.push_reserved(Chain::new(alloc, copies)?);
    }
    Ok(chains)
}

/// A feed of each part, none of which is lent, through the chain of the same rank; there is room for all.
pub(crate) fn part_feeds(
    parts: Vec<Option<File>>,
    chains: Vec<Chain>,
    last: bool,
    feeds: Vec<Feed>,
) -> Vec<Feed>
    requires whole { All IsSome parts.items }
    requires long { vec_len chains ≡ vec_len parts }
    requires room { (vec_len feeds ≡ 0) × (vec_len parts ≤ vec_capacity feeds) }
    ensures { (ops : List LocalOp) → AreChainsOf ops chains.items
        → result.items ≡ map (part_feed last ops) (filter_map (λ part. part) parts.items) }
{
    let mut feeds = feeds;
    let mut chains = chains.into_iter();
    for part in parts {
        let Some(file) = part else { unreachable!() };
        let Some(chain) = chains.next() else {
            unreachable!()
        };
        feeds.push_reserved(Feed::of_part(file, chain, last));
    }
    feeds
}

/// A feed of each worker's share of the numbers below `rows`.
pub(crate) fn number_feeds(
    alloc: Global,
    rows: u64,
    chains: Vec<Chain>,
) -> Result<Vec<Feed>, NoMemory>
    requires { vec_len chains < 2 ^ 32 }
    ensures { IfOk result (λ feeds. (ops : List LocalOp) → AreChainsOf ops chains.items
        → feeds.items ≡ map (number_feed ops) (shares_of (number_rows 0 rows) (vec_len chains) (vec_len chains))) }
{
    let workers = chains.len() as u32;
    let mut feeds = Vec::with_capacity(alloc, chains.len())?;
    let mut rank = 0u32;
    for chain in chains {
        let (next, end) = share(rows, workers, rank);
        let buffer = RowBuf::new(alloc)?;
        feeds.push_reserved(Feed::count(Numbers { next, end, buffer }, chain));
        rank += 1;
    }
    Ok(feeds)
}

/// Feeds of a line's parts, which are lent, or gone at the last use. Without memory the lines are as they were.
fn feed_line(
    alloc: Global,
    lines: &mut Lines,
    number: u32,
    chains: Vec<Chain>,
    last: bool,
) -> Result<Vec<Feed>, NoMemory>
    requires whole { IsWhole (lines_in lines.old) number }
    requires long { (line : LineValue) → lines_in lines.old number ≡ Some line → length line.parts ≡ vec_len chains }
    ensures feeds { IfOk result (λ feeds. (ops : List LocalOp) → AreChainsOf ops chains.items
        → feeds.items ≡ map (part_feed last ops) (files_of (lines_in lines.old number))) }
    ensures lines { OnOk result (Sets (lines_in lines.old) number (left_of last (lines_in lines.old number)) (lines_in lines.new)) }
    ensures err { OnErr result (lines.new ≡ lines.old) }
{
    let feeds = Vec::with_capacity(alloc, chains.len())?;
    let parts = if last {
        take_parts(lines, number)
    } else {
        let lent = lent_parts(alloc, chains.len())?;
        replace_parts(lines, number, lent)
    };
    Ok(part_feeds(parts, chains, last, feeds))
}

/// Feeds of an operand's root, through the chain of each worker.
pub(crate) fn feed_root(
    alloc: Global,
    lines: &mut Lines,
    root: Root,
    chains: Vec<Chain>,
    last: bool,
) -> Result<Vec<Feed>, NoMemory>
    requires root { HasRoot (lines_in lines.old) (root_in root) }
    requires lines { AreLines (vec_len chains) (lines_in lines.old) }
    requires few { vec_len chains < 2 ^ 32 }
    ensures feeds { IfOk result (λ feeds. (ops : List LocalOp) → AreChainsOf ops chains.items
        → feeds.items ≡ root_feeds (lines_in lines.old) (vec_len chains) (root_in root) last ops) }
    ensures lines { OnOk result (IsFedFrom (lines_in lines.old) (root_in root) last (lines_in lines.new)) }
    ensures err { OnErr result (lines.new ≡ lines.old) }
{
    match root {
        Root::Count { rows, .. } => number_feeds(alloc, rows, chains),
        Root::Stored(number) => feed_line(alloc, lines, number, chains, last),
    }
}
