//! Mailboxes: one queue per receiver, to which every worker sends blocks. Nobody waits for a packet.
//!
//! The layer above may rely on this: once all ends of a mail are settled, each receiver has, in what it took and in its
//! inbox, every packet that was sent to it, once, each sender's in the order sent, with its block as it was sent, and no
//! other. `specs/Mixes.antt` says so. A block that isn't sent for want of memory comes back.
//!
//! What contracts see of the ends stands in `specs/Sending.antt` and `specs/Receiving.antt`. The rule that a receiver's
//! queue keeps stands in `specs/Delivery.antt`, and what its five kinds of step make of it in `specs/Steps.antt`.
#![tactic(auto)]

mod inbox;
mod lane;
mod mail;
mod packet;
mod post;
mod recv_end;
mod settling;
mod view;

pub use inbox::Inbox;
pub use mail::Mail;
pub use packet::Packet;
pub use post::{Post, SendEnd};
pub use recv_end::RecvEnd;
pub use settling::settle;
