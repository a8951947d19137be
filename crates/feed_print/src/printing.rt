//! The rows of a feed, printed.
ghost use Rattle.std.specs.Prelude.{◌≡◌, ◌+◌, ◌≤◌, [], false, OnOk};
ghost use Rattle.row_defs.specs.LocalOps.{AreSoundOps};
ghost use Rattle.block_pool.specs.Handles.{AreOfPool, Follows};
ghost use Rattle.lop_chain.specs.Rows.{Kinds};
ghost use Rattle.scatter.specs.Steps.{IsSameFeed};
ghost use Rattle.feed_print.specs.Printing.{Prints};

use crate::printer::Printer;
use crate::pushing::push_all;
use block_pool::Hand;
use dia_edge::{Disk, Failed, Sink};
use scatter::{Feed, FeedErr};
use std::sync::Wait;
use text_out::OutBuffer;

/// Pushes all rows of a feed into a printer.
fn print_into<'p, 'b, 'o, R: Wait, D: Disk + 'p, S: Sink>(
    rt: &R,
    feed: &mut Feed,
    hand: &mut Hand<'p, D>,
    printer: &mut Printer<'p, 'b, 'o, D, S>,
) -> Result<(), FeedErr<Failed>>
    requires sound { (to : Kinds) × AreSoundOps feed.old.kinds feed.old.ops to }
    requires own { AreOfPool hand.old.pool feed.old.blocks }
    requires permit { feed.old.pins ≤ hand.old.permits + feed.old.pinned }
    requires is_open { printer.old.shut ≡ false }
    ensures prints { Prints S.Sink feed.old hand.old printer.old.out.now printer.old.buffer.now result feed.new hand.new printer.new.out.now printer.new.buffer.now }
    ensures end { OnOk result (feed.new.left ≡ []) }
    ensures permits { OnOk result (hand.new.permits + feed.new.pinned ≡ hand.old.permits + feed.old.pinned) }
    ensures same { IsSameFeed feed.old feed.new }
    ensures own { AreOfPool hand.new.pool feed.new.blocks }
    ensures follows { Follows hand.old hand.new }
    ensures out { printer.new.out.ghost_name ≡ printer.old.out.ghost_name }
    ensures buffer { printer.new.buffer.ghost_name ≡ printer.old.buffer.ghost_name }
{
    push_all(rt, feed, hand, printer)
}

/// Prints what the chain of a feed makes of all rows that it has left, in order, behind what waits in the buffer. What waits
/// there then is to be flushed.
///
/// `Sink` comes only where `out` failed: it took a prefix of what waited and of the texts of the rows that were pushed, and the
/// buffer may only be dropped. After the other refusals, which are those of `Feed::step`, all texts of the rows that were
/// pushed so far were put or wait. The feed is to be ended in any case.
pub fn print_feed<'p, R: Wait, D: Disk, S: Sink>(
    rt: &R,
    feed: &mut Feed,
    hand: &mut Hand<'p, D>,
    buffer: &mut OutBuffer,
    out: &mut S,
) -> Result<(), FeedErr<Failed>>
    requires sound { (to : Kinds) × AreSoundOps feed.old.kinds feed.old.ops to }
    requires own { AreOfPool hand.old.pool feed.old.blocks }
    requires permit { feed.old.pins ≤ hand.old.permits + feed.old.pinned }
    ensures prints { Prints S.Sink feed.old hand.old out.old buffer.old result feed.new hand.new out.new buffer.new }
    ensures end { OnOk result (feed.new.left ≡ []) }
    ensures permits { OnOk result (hand.new.permits + feed.new.pinned ≡ hand.old.permits + feed.old.pinned) }

    // On every answer.
    ensures same { IsSameFeed feed.old feed.new }
    ensures own { AreOfPool hand.new.pool feed.new.blocks }
    ensures follows { Follows hand.old hand.new }
{
    let mut printer = Printer {
        buffer,
        out,
        shut: false,
        of: None,
    };
    let answer = print_into(rt, feed, hand, &mut printer);
    // The loans are taken out, so that their lenders know what they hold.
    let Printer {
        buffer: _buffer,
        out: _out,
        shut: _,
        of: _,
    } = printer;
    answer
}
