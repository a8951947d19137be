//! How a call of the program ends when not everything was done.
ghost use Rattle.std.specs.Prelude.{◌≡◌, []};
ghost use Rattle.dia_edge.specs.Sinks.{Puts};
ghost use Rattle.job_words.specs.Faults.{cause_name, fault_line, fault_status};

use dia_edge::{Failed, Name, Sink};
use row_defs::Cause;
use text_out::put_pieces;

/// Why a call of the program ended before everything was done. Each has a status and a line for standard error.
#[derive(Debug, Drop)]
pub enum TopFault {
    /// The words mean nothing; status 2.
    Usage,
    /// The script is refused; status 3.
    Script {
        /// The first line with a cause, from 1.
        line: u32,
        /// Its first cause.
        cause: Cause,
    },
    /// There is no such script or input; status 4.
    Missing {
        /// Its name.
        name: Name,
    },
    /// A line of an input has more bytes than a text may have; status 5.
    LineTooLong {
        /// The input's name.
        name: Name,
        /// The line's number, from 1.
        line: u64,
    },
    /// An input has more than 2^32 bytes; status 5.
    InputTooLong {
        /// The input's name.
        name: Name,
    },
    /// The pool has too few frames for the job; status 6.
    PoolTooSmall {
        /// How many it has.
        frames: u64,
        /// How many the job needs.
        need: u64,
    },
    /// More than 2^40 rows arrive at a line or an action; status 7.
    TooManyRows {
        /// The line of the script.
        line: u32,
    },
    /// The shelf failed; status 8.
    ReadFault {
        /// Its count of faults.
        count: u64,
    },
    /// Standard output failed; status 9.
    WriteFault {
        /// Its count of faults.
        count: u64,
    },
    /// The disk of the pool failed; status 10.
    DiskFault {
        /// Its count of faults.
        count: u64,
    },
    /// A block that was read back from the disk isn't the block that was written; status 11.
    Damaged,
    /// There was no memory; status 12.
    NoMemory,
}

impl TopFault {
    /// The status that the program ends with.
    pub fn status(&self) -> u8
        ensures { result ≡ fault_status self.now }
    {
        match self {
            TopFault::Usage => 2,
            TopFault::Script { .. } => 3,
            TopFault::Missing { .. } => 4,
            TopFault::LineTooLong { .. } | TopFault::InputTooLong { .. } => 5,
            TopFault::PoolTooSmall { .. } => 6,
            TopFault::TooManyRows { .. } => 7,
            TopFault::ReadFault { .. } => 8,
            TopFault::WriteFault { .. } => 9,
            TopFault::DiskFault { .. } => 10,
            TopFault::Damaged => 11,
            TopFault::NoMemory => 12,
        }
    }
}

fn cause_name(cause: Cause) -> &'static [u8]
    ensures { result.now ≡ cause_name cause }
{
    match cause {
        Cause::ScriptLong => b"ScriptLong",
        Cause::LineLong => b"LineLong",
        Cause::BadForm => b"BadForm",
        Cause::UnknownName => b"UnknownName",
        Cause::NameTaken => b"NameTaken",
        Cause::UnknownWord => b"UnknownWord",
        Cause::BadNumber => b"BadNumber",
        Cause::BadColumn => b"BadColumn",
        Cause::BadKind => b"BadKind",
        Cause::TooManyColumns => b"TooManyColumns",
        Cause::NotCommuting => b"NotCommuting",
        Cause::NotSorted => b"NotSorted",
    }
}

/// Writes a fault's line, with its LF. It takes no memory.
///
/// After a failure the sink took some prefix of the line.
pub fn put_fault<E: Sink>(fault: &TopFault, err: &mut E) -> Result<(), Failed>
    ensures puts { Puts E.taken E.faults err.old err.new (fault_line fault.now) [] result }
{
    match fault {
        TopFault::Usage => put_pieces(err, &[b"thrill: usage\n"]),
        TopFault::Script { line, cause } => {
            let mut digits = itoa::Buffer::new();
            let number = digits.format(*line).as_bytes();
            put_pieces(
                err,
                &[
                    b"thrill: script line ",
                    number,
                    b": ",
                    cause_name(*cause),
                    b"\n",
                ],
            )
        }
        TopFault::Missing { name } => {
            put_pieces(err, &[b"thrill: missing ", name.text().as_bytes(), b"\n"])
        }
        TopFault::LineTooLong { name, line } => {
            let mut digits = itoa::Buffer::new();
            let number = digits.format(*line).as_bytes();
            put_pieces(
                err,
                &[
                    b"thrill: ",
                    name.text().as_bytes(),
                    b" line ",
                    number,
                    b" too long\n",
                ],
            )
        }
        TopFault::InputTooLong { name } => {
            put_pieces(err, &[b"thrill: ", name.text().as_bytes(), b" too long\n"])
        }
        TopFault::PoolTooSmall { frames, need } => {
            let mut frame_digits = itoa::Buffer::new();
            let frames = frame_digits.format(*frames).as_bytes();
            let mut need_digits = itoa::Buffer::new();
            let need = need_digits.format(*need).as_bytes();
            put_pieces(
                err,
                &[
                    b"thrill: pool has ",
                    frames,
                    b" frames, needs ",
                    need,
                    b"\n",
                ],
            )
        }
        TopFault::TooManyRows { line } => {
            let mut digits = itoa::Buffer::new();
            let number = digits.format(*line).as_bytes();
            put_pieces(
                err,
                &[b"thrill: script line ", number, b": too many rows\n"],
            )
        }
        TopFault::ReadFault { .. } => put_pieces(err, &[b"thrill: read failed\n"]),
        TopFault::WriteFault { .. } => put_pieces(err, &[b"thrill: write failed\n"]),
        TopFault::DiskFault { .. } => put_pieces(err, &[b"thrill: disk failed\n"]),
        TopFault::Damaged => put_pieces(err, &[b"thrill: block damaged\n"]),
        TopFault::NoMemory => put_pieces(err, &[b"thrill: no memory\n"]),
    }
}
