//! What a receiver gets once its mail is settled.
ghost use Rattle.std.specs.Prelude.{◌≡◌, ◌++◌, IfOk};

use crate::packet::Packet;
use dia_edge::NoMemory;

/// The packets that a receiver has, in the order in which they came.
#[derive(Drop)]
pub struct Inbox {
    pub packets: Vec<Packet>,
}

impl Inbox {
    /// The packets of both, in this order: those taken before, and those left at the end. Without memory both are dropped, and
    /// their blocks stay in the pool until that ends.
    pub fn join(front: Vec<Packet>, rest: Inbox) -> Result<Inbox, NoMemory>
        ensures { IfOk result (λ i. i.packets.items ≡ front.items ++ rest.packets.items) }
    {
        let mut packets = front;
        let mut rest = rest.packets;
        packets.append(&mut rest)?;
        Ok(Inbox { packets })
    }
}
