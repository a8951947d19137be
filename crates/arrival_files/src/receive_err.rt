//! Why what workers receive isn't in files.
ghost use Rattle.std.specs.Prelude.{◌≡◌};
ghost use Rattle.arrival_files.specs.Receiving.{fault_of_keeping, fault_of_phase};

use dia_file::PushErr;
use scatter::FeedErr;
use sink_files::KeepErr;

/// Why what workers receive isn't in files. What was written is gone, and the packets are lost.
#[derive(Clone, Copy, Debug, PartialEq, Eq)]
pub enum ReceiveErr {
    /// The disk failed in this call; `count` is how many of its calls failed so far.
    Disk { count: u64 },
    /// The bytes of the packets aren't rows of these kinds, or not those that were sent.
    Damaged,
    /// Memory ran out.
    NoMemory,
    /// More rows were sent than a line may have.
    TooManyRows,
}

/// What a phase's fault is for what is received.
pub(crate) fn refusal_of_phase(fault: FeedErr<PushErr>) -> ReceiveErr
    ensures { result ≡ fault_of_phase fault }
{
    match fault {
        FeedErr::Sink(PushErr::Disk { count }) => ReceiveErr::Disk { count },
        FeedErr::Sink(PushErr::NoMemory) => ReceiveErr::NoMemory,
        FeedErr::Sink(PushErr::TooManyRows { .. }) => ReceiveErr::TooManyRows,
        FeedErr::Disk { count } => ReceiveErr::Disk { count },
        FeedErr::Damaged => ReceiveErr::Damaged,
        FeedErr::NoMemory => ReceiveErr::NoMemory,
    }
}

/// What it is that sinks have no files.
pub(crate) fn refusal_of_keeping(refusal: KeepErr) -> ReceiveErr
    ensures { result ≡ fault_of_keeping refusal }
{
    match refusal {
        KeepErr::NoMemory => ReceiveErr::NoMemory,
        KeepErr::TooManyRows => ReceiveErr::TooManyRows,
    }
}
