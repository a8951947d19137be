//! Reads an input into files, one per worker.
ghost use Rattle.std.specs.Prelude.{◌≡◌, ◌<◌, ◌≤◌, ◌∷◌, [], true, All, vec_len, IfOk, IfErr, IfSome};
ghost use Rattle.std.specs.List.{AllZip};
ghost use Rattle.row_defs.specs.declared.kind.Kind.TheVariants.{Text};
ghost use Rattle.block_pool.specs.Handles.{HandValue, Follows};
ghost use Rattle.dia_file.specs.Cuts.{rows_of_files};
ghost use Rattle.dia_file.specs.Files.{IsFileOf};
ghost use Rattle.dia_lines.specs.Inputs.{Stays, Asks, IsInput};
ghost use Rattle.input_file.specs.Refusals.{IsFileCause, IsFileFault};
ghost use Rattle.scatter.specs.Lines.{HasKinds};
ghost use Rattle.scatter.specs.Nets.{AreOfOnePool};
ghost use Rattle.scatter.specs.Phases.{pools_of};
ghost use Rattle.scatter.specs.Told.{HasPermit};
ghost use Rattle.script_run.specs.Reading.{HitsSome};

use block_pool::Hand;
use dia_edge::{Disk, Name, NoMemory, Shelf};
use dia_file::File;
use input_file::{ReadFileErr, read_file};
use std::alloc::Global;
use std::sync::Wait;
use worker_step::MOST_TASKS;

/// Reads the lines of an input, from its first byte to its end, with the first hand, and splits them over the workers: the
/// files, joined by rank, have a row of one text for each.
///
/// After every refusal no block of it is left. On every answer the hands have the permits that they had.
pub(crate) fn read_parts<R: Wait, N: Shelf, D: Disk>(
    rt: &R,
    alloc: Global,
    shelf: &mut N,
    input: &Name,
    hands: &mut Vec<Hand<'_, D>>,
) -> Result<Vec<File>, ReadFileErr>
    requires some { 0 < vec_len hands.old }
    requires few { vec_len hands.old ≤ MOST_TASKS }
    requires one { AreOfOnePool hands.old.items }
    requires permits { All HasPermit hands.old.items }
    ensures read { N.is_fixed shelf.old ≡ true → IfOk result (λ files. IfSome (N.holds shelf.old) (λ held. IsInput (rows_of_files files.items) (held input.now))) }
    ensures kinds { IfOk result (λ files. All (HasKinds (Text ∷ [])) files.items) }
    ensures count { IfOk result (λ files. vec_len files ≡ vec_len hands.old) }
    ensures own { IfOk result (λ files. AllZip IsFileOf (pools_of hands.old.items) files.items) }
    ensures refused { N.is_fixed shelf.old ≡ true → IfErr result (λ e. IfSome (N.holds shelf.old) (λ held. IsFileCause e (held input.now))) }
    ensures fault { IfErr result (λ e. IsFileFault e (N.faults shelf.old) (N.faults shelf.new)) }
    ensures disk { IfErr result (λ e. HitsSome e hands.old.items hands.new.items) }
    ensures shelf { Stays N.Shelf shelf.old shelf.new }
    ensures asked { Asks N.Shelf shelf.old shelf.new (input.now ∷ []) result }
    ensures permits { AllZip (λ (a b : HandValue). b.permits ≡ a.permits) hands.old.items hands.new.items }
    ensures follows { AllZip Follows hands.old.items hands.new.items }
{
    let workers = hands.len() as u32;
    let file = read_file(rt, alloc, shelf, input, &mut hands[0])?;
    match file.split_blocks(workers) {
        Ok(files) => Ok(files),
        Err((file, NoMemory)) => {
            file.clear(rt, &mut hands[0]);
            Err(ReadFileErr::NoMemory)
        }
    }
}
