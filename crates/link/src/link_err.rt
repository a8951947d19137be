//! Why an operand isn't linked.
ghost use Rattle.std.specs.Prelude.{◌≡◌};
ghost use Rattle.link.specs.Refusals.{fault_of_net, fault_of_phase};

use exchange::ScatterErr;
use scatter::{FeedErr, NetErr};

/// Why an operand isn't linked. What was sent is lost, and its blocks stay in their pools until those end.
#[derive(Clone, Copy, Debug, PartialEq, Eq)]
pub enum LinkErr {
    /// The net failed in this call; `count` is how many of its calls failed so far.
    Link { count: u64 },
    /// The bytes that came through the net aren't those of packets; `at` is how many bytes of whole packets came before them.
    LinkBytes { at: u64 },
    /// The disk failed in this call; `count` is how many of its calls failed so far.
    Disk { count: u64 },
    /// The bytes of a block aren't those that were written.
    Damaged,
    /// Memory ran out.
    NoMemory,
    /// A worker has more rows to send than it may.
    TooManyRows,
}

/// What a phase's fault is for a link.
pub(crate) fn refusal_of_phase(fault: FeedErr<ScatterErr>) -> LinkErr
    ensures { result ≡ fault_of_phase fault }
{
    match fault {
        FeedErr::Sink(ScatterErr::Disk { count }) => LinkErr::Disk { count },
        FeedErr::Sink(ScatterErr::NoMemory) => LinkErr::NoMemory,
        FeedErr::Sink(ScatterErr::TooManyRows) => LinkErr::TooManyRows,
        FeedErr::Disk { count } => LinkErr::Disk { count },
        FeedErr::Damaged => LinkErr::Damaged,
        FeedErr::NoMemory => LinkErr::NoMemory,
    }
}

/// What a net's fault is for a link.
pub(crate) fn refusal_of_net(fault: NetErr) -> LinkErr
    ensures { result ≡ fault_of_net fault }
{
    match fault {
        NetErr::Link { count } => LinkErr::Link { count },
        NetErr::LinkBytes { at } => LinkErr::LinkBytes { at },
        NetErr::Disk { count } => LinkErr::Disk { count },
        NetErr::Damaged => LinkErr::Damaged,
        NetErr::NoMemory => LinkErr::NoMemory,
    }
}
