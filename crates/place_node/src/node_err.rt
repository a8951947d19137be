//! Why a node has no files.
ghost use Rattle.std.specs.Prelude.{◌≡◌};
ghost use Rattle.place_node.specs.Placing.{node_refusal, keep_refusal};

use dia_file::PushErr;
use scatter::FeedErr;
use sink_files::KeepErr;

/// Why a node has no files; what it had written is gone.
#[derive(Clone, Copy, Debug, PartialEq, Eq)]
pub enum NodeErr {
    /// The disk failed in this call.
    Disk {
        /// How many of its calls failed so far.
        count: u64,
    },
    /// The bytes of a block aren't the rows that were written.
    Damaged,
    /// Memory ran out.
    NoMemory,
    /// More rows arrive than may.
    TooManyRows,
}

/// What a phase's fault is for a node.
pub(crate) fn refusal_of(fault: FeedErr<PushErr>) -> NodeErr
    ensures { result ≡ node_refusal fault }
{
    match fault {
        FeedErr::Sink(PushErr::Disk { count }) => NodeErr::Disk { count },
        FeedErr::Sink(PushErr::NoMemory) => NodeErr::NoMemory,
        FeedErr::Sink(PushErr::TooManyRows { .. }) => NodeErr::TooManyRows,
        FeedErr::Disk { count } => NodeErr::Disk { count },
        FeedErr::Damaged => NodeErr::Damaged,
        FeedErr::NoMemory => NodeErr::NoMemory,
    }
}

/// What it is for a node that sinks have no files.
pub(crate) fn refusal_of_keeping(refusal: KeepErr) -> NodeErr
    ensures { result ≡ keep_refusal refusal }
{
    match refusal {
        KeepErr::NoMemory => NodeErr::NoMemory,
        KeepErr::TooManyRows => NodeErr::TooManyRows,
    }
}
