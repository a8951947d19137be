//! What goes through a mail.

use block_pool::BlockRef;

/// A block on its way: the sender's rank, and how many packets that sender had sent to this receiver before.
#[derive(Drop)]
pub struct Packet {
    pub from: u32,
    pub seq: u64,
    pub block: BlockRef,
}
