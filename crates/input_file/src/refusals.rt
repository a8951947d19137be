//! Why an input doesn't become a file.
ghost use Rattle.std.specs.Prelude.{◌≡◌};
ghost use Rattle.input_file.specs.Refusals.{file_refusal};

use block_pool::FrameErr;
use dia_edge::NoMemory;
use dia_lines::InputErr;

/// Why an input did not become a file.
#[derive(Clone, Copy, Debug, PartialEq, Eq)]
pub enum ReadFileErr {
    /// The shelf has no such input.
    Missing,
    /// This line, from 1, is the first within the most bytes of an input that has more bytes than a text may have.
    LineTooLong { line: u64 },
    /// There is no such line, and the input has more than 2^32 bytes.
    InputTooLong,
    /// The shelf failed; `count` is its count of faults now.
    Read { count: u64 },
    /// The disk failed in this call; `count` is how many of its calls failed so far.
    Disk { count: u64 },
    /// There was no memory.
    NoMemory,
}

impl From<InputErr<FrameErr>> for ReadFileErr {
    ghost from_gives = { λ refusal widened. widened ≡ file_refusal refusal };

    fn from(refusal: InputErr<FrameErr>) -> ReadFileErr {
        match refusal {
            InputErr::Missing => ReadFileErr::Missing,
            InputErr::LineTooLong { line } => ReadFileErr::LineTooLong { line },
            InputErr::InputTooLong => ReadFileErr::InputTooLong,
            InputErr::Refused(FrameErr::Disk { count }) => ReadFileErr::Disk { count },
            InputErr::Refused(FrameErr::NoMemory) => ReadFileErr::NoMemory,
            InputErr::Read { count } => ReadFileErr::Read { count },
            InputErr::NoMemory => ReadFileErr::NoMemory,
        }
    }
}
