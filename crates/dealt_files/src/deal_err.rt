//! Why rows that are dealt out aren't in files.
ghost use Rattle.std.specs.Prelude.{◌≡◌};
ghost use Rattle.dealt_files.specs.Gathered.{fault_of_count, fault_of_link, fault_of_receiving};

use arrival_files::ReceiveErr;
use feed_actions::TooManyRows;
use link::LinkErr;
use scatter::FeedErr;

/// Why rows that are dealt out aren't in files. What was written is gone; what was on its way is lost, and its blocks stay in
/// their pools until those end.
#[derive(Clone, Copy, Debug, PartialEq, Eq)]
pub enum DealErr {
    /// The net failed in this call; `count` is how many of its calls failed so far.
    Link { count: u64 },
    /// The bytes that came through the net aren't those of packets; `at` is how many bytes of whole packets came before them.
    LinkBytes { at: u64 },
    /// The disk failed in this call; `count` is how many of its calls failed so far.
    Disk { count: u64 },
    /// The bytes of a block aren't those that were written.
    Damaged,
    /// Memory ran out.
    NoMemory,
    /// More rows arrive than may.
    TooManyRows,
}

/// What a fault of the count is.
pub(crate) fn refusal_of_count(fault: FeedErr<TooManyRows>) -> DealErr
    ensures { result ≡ fault_of_count fault }
{
    match fault {
        FeedErr::Sink(TooManyRows) => DealErr::TooManyRows,
        FeedErr::Disk { count } => DealErr::Disk { count },
        FeedErr::Damaged => DealErr::Damaged,
        FeedErr::NoMemory => DealErr::NoMemory,
    }
}

/// What a link's fault is.
pub(crate) fn refusal_of_link(fault: LinkErr) -> DealErr
    ensures { result ≡ fault_of_link fault }
{
    match fault {
        LinkErr::Link { count } => DealErr::Link { count },
        LinkErr::LinkBytes { at } => DealErr::LinkBytes { at },
        LinkErr::Disk { count } => DealErr::Disk { count },
        LinkErr::Damaged => DealErr::Damaged,
        LinkErr::NoMemory => DealErr::NoMemory,
        LinkErr::TooManyRows => DealErr::TooManyRows,
    }
}

/// What it is that nothing was received.
pub(crate) fn refusal_of_receiving(fault: ReceiveErr) -> DealErr
    ensures { result ≡ fault_of_receiving fault }
{
    match fault {
        ReceiveErr::Disk { count } => DealErr::Disk { count },
        ReceiveErr::Damaged => DealErr::Damaged,
        ReceiveErr::NoMemory => DealErr::NoMemory,
        ReceiveErr::TooManyRows => DealErr::TooManyRows,
    }
}
