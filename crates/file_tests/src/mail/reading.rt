//! Whether the packets that came are those that were sent.

use multiplexer::Inbox;
use std::alloc::{AllocError, Global};

/// The sender's rank and the number of each packet.
pub(super) fn names(alloc: Global, inbox: &Inbox) -> Result<Vec<(u32, u64)>, AllocError> {
    let mut names = Vec::new(alloc);
    for packet in inbox.packets.iter() {
        names.push((packet.from, packet.seq))?;
    }
    Ok(names)
}

/// How many packets of each of the four senders came, where each came in its order.
pub(super) fn counts(inbox: &Inbox) -> Option<[u64; 4]> {
    let mut next = [0u64; 4];
    for packet in inbox.packets.iter() {
        let at = packet.from as usize;
        if at >= 4 || packet.seq != next[at] {
            return None;
        }
        next[at] = next[at].wrapping_add(1);
    }
    Some(next)
}
