//! Files whose blocks are freed without being read.
ghost use Rattle.std.specs.Prelude.{◌≡◌, ◌≤◌, false, None, Some, Ok, OnOk, OnErr, vec_len, vec_capacity};
ghost use Rattle.std.specs.List.{AllZip};
ghost use Rattle.block_pool.specs.Handles.{HandValue, Follows};
ghost use Rattle.lop_chain.specs.Operands.{root_in};
ghost use Rattle.scatter.specs.Lines.{LineValue, IsWhole, Sets, HasRoot};
ghost use Rattle.scatter.specs.Stocks.{lines_of, AreInPools};
ghost use Rattle.scatter.specs.Phases.{AllThree, pools_of, IsUsed};
ghost use Rattle.scatter.specs.Clearing.{IsCleared, IsPartIn, IsUnread};

use crate::net::Net;
use crate::stock::Stock;
use block_pool::Hand;
use dia_edge::{Disk, NoMemory};
use dia_file::File;
use lop_chain::Root;
use std::alloc::Global;
use std::mem;
use std::sync::Wait;

/// Frees the blocks of a file, where there is one.
fn clear_one<R: Wait, D: Disk>(rt: &R, hand: &mut Hand<'_, D>, part: Option<File>)
    requires { IsPartIn hand.old part }
    ensures { IsCleared part hand.old hand.new }
{
    if let Some(file) = part {
        file.clear(rt, hand);
    }
}

/// Frees the blocks of each file with its worker's hand; the hands go to where there is room. It takes no memory.
pub fn clear_parts<'p, R: Wait, D: Disk>(
    rt: &R,
    hands: Vec<Hand<'p, D>>,
    parts: Vec<Option<File>>,
    mut cleared: Vec<Hand<'p, D>>,
) -> Vec<Hand<'p, D>>
    requires own { AllZip IsPartIn hands.items parts.items }
    requires room { (vec_len cleared ≡ 0) × (vec_len hands ≤ vec_capacity cleared) }
    ensures { AllThree IsCleared parts.items hands.entry.items result.items }
{
    let mut hands = hands.into_iter();
    for part in parts {
        let Some(mut hand) = hands.next() else {
            unreachable!()
        };
        clear_one(rt, &mut hand, part);
        cleared.push_reserved(hand);
    }
    cleared
}

/// Lets a line go that is read no more: its parts are freed.
fn clear_line<'p, R: Wait, D: Disk, X: Net>(
    rt: &R,
    alloc: Global,
    stock: &mut Stock<X>,
    number: u32,
    hands: &mut Vec<Hand<'p, D>>,
) -> Result<(), NoMemory>
    requires whole { IsWhole (lines_of stock.old) number }
    requires own { AreInPools (pools_of hands.old.items) (lines_of stock.old) }
    ensures lines { OnOk result (Sets (lines_of stock.old) number None (lines_of stock.new)) }
    ensures hands { OnOk result ((line : LineValue) → lines_of stock.old number ≡ Some line → AllThree IsCleared line.parts hands.old.items hands.new.items) }
    ensures same { OnErr result ((hands.new ≡ hands.old) × (stock.new ≡ stock.old)) }
    ensures permits { AllZip (λ (a b : HandValue). b.permits ≡ a.permits) hands.old.items hands.new.items }
    ensures follows { AllZip Follows hands.old.items hands.new.items }
    ensures net { stock.new.net ≡ stock.old.net }
    ensures workers { stock.new.workers ≡ stock.old.workers }
{
    let cleared = Vec::with_capacity(alloc, hands.len())?;
    let parts = stock.take(number);
    let moved = mem::replace(hands, Vec::new(alloc));
    *hands = clear_parts(rt, moved, parts, cleared);
    Ok(())
}

/// Uses an operand's root without reading it: at the last use of a stored line this leaves the stock and its blocks are freed,
/// each by its worker's hand; else there is nothing to do. Without memory all is as it was.
pub fn leave_unread<'p, R: Wait, D: Disk, X: Net>(
    rt: &R,
    alloc: Global,
    stock: &mut Stock<X>,
    root: Root,
    last: bool,
    hands: &mut Vec<Hand<'p, D>>,
) -> Result<(), NoMemory>
    requires root { HasRoot (lines_of stock.old) (root_in root) }
    requires own { AreInPools (pools_of hands.old.items) (lines_of stock.old) }
    ensures lines { OnOk result (IsUsed (lines_of stock.old) (root_in root) last (lines_of stock.new)) }
    ensures unread { OnOk result (IsUnread (lines_of stock.old) (root_in root) last hands.old.items hands.new.items) }
    ensures kept { last ≡ false → (result ≡ Ok tt) × (hands.new ≡ hands.old) × (stock.new ≡ stock.old) }
    ensures same { OnErr result ((hands.new ≡ hands.old) × (stock.new ≡ stock.old)) }
    ensures permits { AllZip (λ (a b : HandValue). b.permits ≡ a.permits) hands.old.items hands.new.items }
    ensures follows { AllZip Follows hands.old.items hands.new.items }
    ensures net { stock.new.net ≡ stock.old.net }
    ensures workers { stock.new.workers ≡ stock.old.workers }
{
    match root {
        Root::Stored(number) if last => clear_line(rt, alloc, stock, number, hands),
        _ => Ok(()),
    }
}
