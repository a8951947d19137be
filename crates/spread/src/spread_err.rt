//! Why a file doesn't become a line.
ghost use Rattle.std.specs.Prelude.{◌≡◌};
ghost use Rattle.spread.specs.Spreading.{fault_of_net, fault_of_receiving};

use arrival_files::ReceiveErr;
use scatter::NetErr;

/// Why a file doesn't become a line. What was on its way is lost, and its blocks stay in their pools until those end.
#[derive(Clone, Copy, Debug, PartialEq, Eq)]
pub enum SpreadErr {
    /// The net failed in this call; `count` is how many of its calls failed so far.
    Link { count: u64 },
    /// The bytes that came through the net aren't those of packets; `at` is how many bytes of whole packets came before them.
    LinkBytes { at: u64 },
    /// The disk failed in this call; `count` is how many of its calls failed so far.
    Disk { count: u64 },
    /// The bytes that came aren't those that were sent.
    Damaged,
    /// Memory ran out.
    NoMemory,
    /// The file has more rows than a line may.
    TooManyRows,
}

/// What a net's fault is for a file that is spread.
pub(crate) fn refusal_of_net(fault: NetErr) -> SpreadErr
    ensures { result ≡ fault_of_net fault }
{
    match fault {
        NetErr::Link { count } => SpreadErr::Link { count },
        NetErr::LinkBytes { at } => SpreadErr::LinkBytes { at },
        NetErr::Disk { count } => SpreadErr::Disk { count },
        NetErr::Damaged => SpreadErr::Damaged,
        NetErr::NoMemory => SpreadErr::NoMemory,
    }
}

/// What it is that nothing was received.
pub(crate) fn refusal_of_receiving(fault: ReceiveErr) -> SpreadErr
    ensures { result ≡ fault_of_receiving fault }
{
    match fault {
        ReceiveErr::Disk { count } => SpreadErr::Disk { count },
        ReceiveErr::Damaged => SpreadErr::Damaged,
        ReceiveErr::NoMemory => SpreadErr::NoMemory,
        ReceiveErr::TooManyRows => SpreadErr::TooManyRows,
    }
}
