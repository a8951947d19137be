//! Boxes of several operands, merged.
ghost use Rattle.std.specs.Prelude.{◌≡◌, IfOk, length, vec_len, vec_capacity};
ghost use Rattle.std.specs.List.{AllZip};
ghost use Rattle.scatter.specs.Phases.{AllThree};
ghost use Rattle.dealing.specs.Boxes.{IsMerged};

use dia_edge::NoMemory;
use multiplexer::{Inbox, Packet};
use std::alloc::Global;

/// The packets of a box, and behind them those of another, whose senders' ranks are raised by so many. A packet of a rank that
/// is too high is left out: none is, where the net tells what it carried.
fn merge(into: Inbox, more: Inbox, by: u32) -> Result<Inbox, NoMemory>
    ensures { IfOk result (λ merged. IsMerged by into more merged) }
{
    let mut packets = into.packets;
    packets.reserve(more.packets.len())?;
    for packet in more.packets {
        let Packet { from, seq, block } = packet;
        if let Some(from) = from.checked_add(by) {
            packets.push_reserved(Packet { from, seq, block });
        }
    }
    Ok(Inbox { packets })
}

/// The boxes of each worker, merged.
pub(crate) fn merge_all(
    alloc: Global,
    into: Vec<Inbox>,
    boxes: Vec<Inbox>,
    by: u32,
) -> Result<Vec<Inbox>, NoMemory>
    requires long { vec_len boxes ≡ vec_len into }
    ensures { IfOk result (λ merged. AllThree (IsMerged by) into.items boxes.items merged.items) }
{
    let mut merged = Vec::with_capacity(alloc, into.len())?;
    let mut boxes = boxes.into_iter();
    for first in into {
        let Some(more) = boxes.next() else {
            unreachable!()
        };
        merged.push_reserved(merge(first, more, by)?);
    }
    Ok(merged)
}
