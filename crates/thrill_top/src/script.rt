//! Reads a script.
ghost use Rattle.std.specs.Prelude.{◌≡◌, ◌⊎◌, ◌∷◌, [], ℕ, List, IfOk, IfErr};
ghost use Rattle.row_defs.specs.Inputs.{Inputs};
ghost use Rattle.script_defs.specs.Reading.{nothing_known};
ghost use Rattle.script_defs.specs.Sound.{IsSound};
ghost use Rattle.dia_lines.specs.Inputs.{Stays, Asks};
ghost use Rattle.job_words.specs.declared.fault.TopFault.TheVariants as faults;
ghost use Rattle.thrill_top.specs.Asking.{IsScriptAt};
ghost use Rattle.thrill_top.specs.Ends.{IsUnread, IsReadFault};
ghost use Rattle.thrill_top.specs.Errors.{bytes_fault, script_fault, TellsRead};
ghost use Rattle.thrill_top.specs.Promise.{TellsInputs};

use crate::read::{BytesErr, read_bytes};
use dia_edge::{Name, NoMemory, Shelf};
use job_words::TopFault;
use script_read::{ReadErr, Script, read_script};
use std::alloc::Global;

/// The fault for a script whose bytes weren't read; want of memory where there is none for its name.
fn fault_of_bytes(name: &Name, e: BytesErr) -> TopFault
    ensures { (result ≡ bytes_fault name.now e) ⊎ (result ≡ faults.NoMemory) }
{
    match e {
        BytesErr::Read { count } => TopFault::ReadFault { count },
        BytesErr::NoMemory => TopFault::NoMemory,
        BytesErr::Missing => match name.copy() {
            Ok(name) => TopFault::Missing { name },
            Err(NoMemory) => TopFault::NoMemory,
        },
    }
}

fn fault_of_script(e: ReadErr) -> TopFault
    ensures { result ≡ script_fault e }
{
    match e {
        ReadErr::Bad { line, cause } => TopFault::Script { line, cause },
        ReadErr::NoMemory => TopFault::NoMemory,
    }
}

/// The accepted script with this name.
pub(crate) fn script_named<N: Shelf>(
    alloc: Global,
    shelf: &mut N,
    name: &Name,
) -> Result<Script, TopFault>
    ensures read { (inputs : Inputs) → TellsInputs (N.holds shelf.old) (N.is_fixed shelf.old) inputs → IfOk result (λ script. IsScriptAt inputs name.now script) }
    ensures sound { IfOk result (λ script. IsSound nothing_known 1 script) }
    ensures refused { (inputs : Inputs) → TellsInputs (N.holds shelf.old) (N.is_fixed shelf.old) inputs → IfErr result (λ f. IsUnread inputs name.now f) }
    ensures fault { IfErr result (λ f. IsReadFault f) }
    ensures told { IfErr result (λ f. TellsRead f (N.faults shelf.old) (N.faults shelf.new)) }
    ensures stays { Stays N.Shelf shelf.old shelf.new }
    ensures asked { Asks N.Shelf shelf.old shelf.new (name.now ∷ []) result }
{
    let bytes = match read_bytes(alloc, shelf, name) {
        Ok(bytes) => bytes,
        Err(e) => return Err(fault_of_bytes(name, e)),
    };
    match read_script(alloc, bytes.as_slice()) {
        Ok(script) => Ok(script),
        Err(e) => Err(fault_of_script(e)),
    }
}
