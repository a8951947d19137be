//! Reads the bytes of a script.
ghost use Rattle.std.specs.Prelude.{◌≡◌, ◌≤◌, ℕ, List, [], ◌∷◌, take, length, Some, OnErr, IfOk, IfErr, IfSome};
ghost use Rattle.row_defs.specs.Inputs.{Inputs};
ghost use Rattle.dia_edge.specs.Counts.{HasRisen};
ghost use Rattle.dia_lines.specs.Inputs.{Stays, Asks};
ghost use Rattle.thrill_top.specs.Ends.{IsAbsentBytes};
ghost use Rattle.thrill_top.specs.Errors.{TellsBytes};
ghost use Rattle.thrill_top.specs.Promise.{TellsInputs};

use dia_edge::{Failed, Name, NoMemory, Shelf};
use script_defs::limits::SCRIPT_LIMIT;
use std::alloc::Global;

/// Why the bytes of a script weren't read.
#[derive(Clone, Copy, Debug, PartialEq, Eq)]
pub(crate) enum BytesErr {
    /// There is no such script.
    Missing,
    /// The shelf failed.
    Read {
        /// Its count of faults now.
        count: u64,
    },
    /// Memory ran out.
    NoMemory,
}

impl From<NoMemory> for BytesErr {
    ghost use Rattle.std.specs.Prelude.{◌≡◌};
    ghost use Rattle.thrill_top.specs.declared.read.BytesErr.TheVariants as variants;

    ghost from_gives = { λ _ e. e ≡ variants.NoMemory };

    fn from(_: NoMemory) -> BytesErr {
        BytesErr::NoMemory
    }
}

// one byte more than a script may have
const ASKED: usize = SCRIPT_LIMIT + 1;

fn new_buffer(alloc: Global) -> Result<Vec<u8>, NoMemory>
    ensures { IfOk result (λ buffer. length buffer.items ≡ ASKED) }
{
    Ok(vec![in alloc; 0u8; ASKED]?)
}

/// Fills the buffer from what is left, as far as it goes, and answers how many bytes there are.
fn fill_buffer<N: Shelf>(shelf: &mut N, buffer: &mut [u8]) -> Result<usize, Failed>
    ensures within { IfOk result (λ n. n ≤ length buffer.new) }
    ensures bytes { IfOk result (λ n. IfSome (N.left shelf.old) (λ all. take n buffer.new ≡ take (length buffer.new) all)) }
    ensures rose { OnErr result (HasRisen (N.faults shelf.old) (N.faults shelf.new)) }
    ensures stays { Stays N.Shelf shelf.old shelf.new }
    ensures asked { N.asked shelf.new ≡ N.asked shelf.old }
{
    let mut total = 0;
    while total < buffer.len() {
        let (_, room) = buffer.split_at_mut(total);
        match shelf.read(room)? {
            0 => return Ok(total),
            n => total += n,
        }
    }
    Ok(total)
}

/// The first bytes of the opened input, one more than a script may have.
fn read_opened<N: Shelf>(alloc: Global, shelf: &mut N) -> Result<Vec<u8>, BytesErr>
    ensures bytes { IfOk result (λ bytes. IfSome (N.left shelf.old) (λ all. bytes.items ≡ take ASKED all)) }
    ensures told { IfErr result (λ e. TellsBytes e (N.faults shelf.old) (N.faults shelf.new)) }
    ensures late { IfErr result (λ e. (inputs : Inputs) (name : List ℕ) → IsAbsentBytes e inputs name) }
    ensures stays { Stays N.Shelf shelf.old shelf.new }
    ensures asked { N.asked shelf.new ≡ N.asked shelf.old }
{
    let mut bytes = new_buffer(alloc)?;
    match fill_buffer(shelf, bytes.as_mut_slice()) {
        Ok(total) => {
            bytes.truncate(total);
            Ok(bytes)
        }
        Err(Failed) => Err(BytesErr::Read {
            count: shelf.fault_count(),
        }),
    }
}

/// The bytes of a script: all of them, or one more than a script may have.
pub(crate) fn read_bytes<N: Shelf>(
    alloc: Global,
    shelf: &mut N,
    name: &Name,
) -> Result<Vec<u8>, BytesErr>
    ensures bytes { (inputs : Inputs) → TellsInputs (N.holds shelf.old) (N.is_fixed shelf.old) inputs
        → IfOk result (λ bytes. (all : List ℕ) × (inputs name.now ≡ Some all) × (bytes.items ≡ take ASKED all)) }
    ensures absent { (inputs : Inputs) → TellsInputs (N.holds shelf.old) (N.is_fixed shelf.old) inputs → IfErr result (λ e. IsAbsentBytes e inputs name.now) }
    ensures told { IfErr result (λ e. TellsBytes e (N.faults shelf.old) (N.faults shelf.new)) }
    ensures stays { Stays N.Shelf shelf.old shelf.new }
    ensures asked { Asks N.Shelf shelf.old shelf.new (name.now ∷ []) result }
{
    match shelf.open(name.text()) {
        Ok(true) => read_opened(alloc, shelf),
        Ok(false) => Err(BytesErr::Missing),
        Err(Failed) => Err(BytesErr::Read {
            count: shelf.fault_count(),
        }),
    }
}
