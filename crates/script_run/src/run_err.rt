//! Why a run ends before all stages are done.
ghost use Rattle.std.specs.Prelude.{◌≡◌, ◌⊎◌};
ghost use Rattle.script_run.specs.declared.run_err.RunErr.TheVariants as errors;
ghost use Rattle.script_run.specs.Errors.{input_error, act_error, place_error};

use actions::ActErr;
use dia_edge::{Name, NoMemory};
use input_file::ReadFileErr;
use place_node::NodeErr;

/// Why a run ended before all stages were done.
#[derive(Debug, Drop)]
pub enum RunErr {
    /// There is no such input.
    Missing { name: Name },
    /// This line of the input, from 1, has more bytes than a text may have.
    LineTooLong { name: Name, line: u64 },
    /// The input has more bytes than an input may have.
    InputTooLong { name: Name },
    /// The pool has fewer frames than the job needs, and nothing was done.
    PoolTooSmall { frames: u64, need: u64 },
    /// More rows than may arrive at the line or action on this line of the script.
    TooManyRows { line: u32 },
    /// The shelf failed; its count of faults now.
    Read { count: u64 },
    /// Standard output failed; its count of faults now.
    Write { count: u64 },
    /// The disk failed; its count of faults then.
    Disk { count: u64 },
    /// The bytes of a block aren't the rows that were written.
    Damaged,
    /// Memory ran out.
    NoMemory,
}

impl From<NoMemory> for RunErr {
    ghost use Rattle.std.specs.Prelude.{◌≡◌};
    ghost use Rattle.script_run.specs.declared.run_err.RunErr.TheVariants as errors;

    ghost from_gives = { λ _ e. e ≡ errors.NoMemory };

    fn from(_: NoMemory) -> RunErr {
        RunErr::NoMemory
    }
}

/// The error for an input that wasn't read; want of memory where there is none for its name.
pub(crate) fn input_err(name: &Name, why: ReadFileErr) -> RunErr
    ensures { (result ≡ input_error name.now why) ⊎ (result ≡ errors.NoMemory) }
{
    match (why, name.copy()) {
        (ReadFileErr::Read { count }, _) => RunErr::Read { count },
        (ReadFileErr::Disk { count }, _) => RunErr::Disk { count },
        (ReadFileErr::Missing, Ok(name)) => RunErr::Missing { name },
        (ReadFileErr::LineTooLong { line }, Ok(name)) => RunErr::LineTooLong { name, line },
        (ReadFileErr::InputTooLong, Ok(name)) => RunErr::InputTooLong { name },
        _ => RunErr::NoMemory,
    }
}

/// The error for an action that wasn't done.
pub(crate) fn act_err(line: u32, why: ActErr) -> RunErr
    ensures { result ≡ act_error line why }
{
    match why {
        ActErr::TooManyRows => RunErr::TooManyRows { line },
        ActErr::Write { count } => RunErr::Write { count },
        ActErr::Disk { count } => RunErr::Disk { count },
        ActErr::Damaged => RunErr::Damaged,
        ActErr::NoMemory => RunErr::NoMemory,
    }
}

/// The error for a line whose rows weren't placed in files.
pub(crate) fn place_err(line: u32, why: NodeErr) -> RunErr
    ensures { result ≡ place_error line why }
{
    match why {
        NodeErr::TooManyRows => RunErr::TooManyRows { line },
        NodeErr::Disk { count } => RunErr::Disk { count },
        NodeErr::Damaged => RunErr::Damaged,
        NodeErr::NoMemory => RunErr::NoMemory,
    }
}
