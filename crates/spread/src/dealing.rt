//! Parts of a file that one worker sends to all.
ghost use Rattle.std.specs.Prelude.{◌≡◌, ◌<◌, ◌+◌, ◌^◌, ℕ, [], OnOk, length, vec_len, slice_index_or};
ghost use Rattle.spread.specs.Dealing.{AreSent, IsSpelled, WentTo};

use block_pool::BlockRef;
use dia_edge::NoMemory;
use dia_file::File;
use multiplexer::{Post, SendEnd};
use std::alloc::Global;
use std::sync::Wait;

/// How many packets may go to one worker.
const MOST_PACKETS: u64 = 1 << 56;

/// Sends blocks to the worker of a rank. Without memory those that weren't sent stay in the pool until that ends.
fn send_blocks<'m, R: Wait>(
    rt: &R,
    send: &mut SendEnd<'m>,
    to: u32,
    blocks: Vec<BlockRef>,
) -> Result<(), NoMemory>
    requires to { (to < length send.old.mail) × (to < length send.old.sent) }
    requires few { length (slice_index_or send.old.sent to []) + vec_len blocks < 2 ^ 56 }
    ensures { OnOk result (WentTo to blocks.items send.old send.new) }
{
    for block in blocks {
        let Ok(()) = send.send(rt, to, block) else {
            return Err(NoMemory);
        };
    }
    Ok(())
}

/// Sends the blocks of a file to the worker of a rank, to whom nothing was sent yet.
fn send_part<'m, R: Wait>(
    rt: &R,
    alloc: Global,
    send: &mut SendEnd<'m>,
    to: u32,
    part: File,
) -> Result<(), NoMemory>
    requires to { (to < length send.old.mail) × (to < length send.old.sent) }
    requires none { slice_index_or send.old.sent to [] ≡ [] }
    ensures sent { OnOk result (WentTo to part.blocks send.old send.new) }
    ensures spelled { IsSpelled part }
{
    let _kinds = part.kinds();
    let count = part.blocks();
    if count >= MOST_PACKETS {
        return Err(NoMemory);
    }
    let room = Vec::with_capacity(alloc, count as usize)?;
    send_blocks(rt, send, to, part.into_blocks(room))
}

/// Sends the blocks of each file to the worker of its rank. Nothing was sent before.
pub(crate) fn send_parts<'m, R: Wait>(
    rt: &R,
    alloc: Global,
    send: &mut SendEnd<'m>,
    parts: Vec<File>,
) -> Result<(), NoMemory>
    requires count { (vec_len parts ≡ length send.old.mail) × (vec_len parts ≡ length send.old.sent) }
    requires few { vec_len parts < 2 ^ 32 }
    requires none { (w : ℕ) → slice_index_or send.old.sent w [] ≡ [] }
    ensures { OnOk result (AreSent parts.items send.old send.new) }
{
    let mut to: u32 = 0;
    for part in parts {
        send_part(rt, alloc, send, to, part)?;
        to += 1;
    }
    Ok(())
}
