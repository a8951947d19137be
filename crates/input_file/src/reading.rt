//! Reads an input into a file.
ghost use Rattle.std.specs.Prelude.{◌≡◌, ◌+◌, ◌<◌, ◌∷◌, [], true, false, ℕ, List, length, IfOk, IfErr, IfSome, OnErr};
ghost use Rattle.row_defs.specs.declared.kind.Kind.TheVariants.{Text};
ghost use Rattle.row_defs.specs.Pieces.{line_rows};
ghost use Rattle.block_pool.specs.Handles.{Follows};
ghost use Rattle.dia_file.specs.Files.{IsFileOf};
ghost use Rattle.dia_file.specs.Tallies.{Frees, Makes};
ghost use Rattle.dia_file.specs.Writers.{IsWriterOf, frames_of};
ghost use Rattle.dia_lines.specs.Inputs.{Stays, Asks, IsInput};
ghost use Rattle.input_file.specs.Refusals.{IsFileCause, IsFileFault, IsDiskFault};
ghost use Rattle.input_file.specs.Writing.{FreesAll};

use crate::line_writer::LineWriter;
use crate::refusals::ReadFileErr;
use block_pool::Hand;
use dia_edge::{Disk, Name, NoMemory, Shelf};
use dia_file::{File, FileWriter};
use dia_lines::read_input;
use std::alloc::Global;
use std::sync::Wait;

/// The file of what was written. Without memory for the last block what was written is freed.
fn finish_or_cancel<R: Wait, D: Disk>(
    rt: &R,
    hand: &mut Hand<'_, D>,
    writer: FileWriter,
) -> Result<File, NoMemory>
    requires unbroken { writer.is_broken ≡ false }
    requires own { IsWriterOf hand.old.pool writer }
    ensures rows { IfOk result (λ f. f.rows ≡ writer.rows) }
    ensures kinds { IfOk result (λ f. f.kinds ≡ writer.kinds) }
    ensures own { IfOk result (λ f. IsFileOf hand.old.pool f) }
    ensures permits { hand.new.permits ≡ hand.old.permits + frames_of writer }
    ensures made { IfOk result (λ f. Makes (length writer.blocks) (length f.blocks) hand.old.notes hand.new.notes) }
    ensures gone { OnErr result (Frees (length writer.blocks) 0 hand.old.notes hand.new.notes) }
    ensures follows { Follows hand.old hand.new }
{
    match writer.finish(rt, hand) {
        Ok(file) => Ok(file),
        Err((writer, refusal)) => {
            writer.cancel(rt, hand);
            Err(refusal)
        }
    }
}

/// Reads the lines of an input, from its first byte to its end, into a file of rows of one text.
///
/// After every refusal the blocks that were made are freed, and on every answer the hand has the permits that it had. `Disk`
/// comes only where the pool's disk failed in this call. After a refusal the shelf stands anywhere in the input.
pub fn read_file<R: Wait, N: Shelf, D: Disk>(
    rt: &R,
    alloc: Global,
    shelf: &mut N,
    name: &Name,
    hand: &mut Hand<'_, D>,
) -> Result<File, ReadFileErr>
    requires permit { 0 < hand.old.permits }
    ensures read { N.is_fixed shelf.old ≡ true → IfOk result (λ file. IfSome (N.holds shelf.old) (λ held. IsInput file.rows (held name.now))) }
    // Whatever the shelf tells, the rows are those of the lines of some bytes.
    ensures lines { IfOk result (λ file. (bytes : List ℕ) × (file.rows ≡ line_rows bytes)) }
    ensures kinds { IfOk result (λ file. file.kinds ≡ Text ∷ []) }
    ensures own { IfOk result (λ file. IsFileOf hand.old.pool file) }
    ensures refused { N.is_fixed shelf.old ≡ true → IfErr result (λ e. IfSome (N.holds shelf.old) (λ held. IsFileCause e (held name.now))) }
    ensures fault { IfErr result (λ e. IsFileFault e (N.faults shelf.old) (N.faults shelf.new)) }
    ensures disk { IfErr result (λ e. IsDiskFault e hand.old hand.new) }
    ensures stays { Stays N.Shelf shelf.old shelf.new }
    ensures asked { Asks N.Shelf shelf.old shelf.new (name.now ∷ []) result }
    ensures permits { hand.new.permits ≡ hand.old.permits }
    ensures made { IfOk result (λ file. Makes 0 (length file.blocks) hand.old.notes hand.new.notes) }
    // As many blocks were freed as were made.
    ensures freed { OnErr result (FreesAll hand.old.notes hand.new.notes) }
    ensures follows { Follows hand.old hand.new }
{
    let mut lines = LineWriter::new(alloc);
    let read = read_input(rt, alloc, shelf, name, &mut lines, hand);
    let written = lines.into_writer();
    match read {
        Ok(()) => match finish_or_cancel(rt, hand, written) {
            Ok(file) => Ok(file),
            Err(NoMemory) => Err(ReadFileErr::NoMemory),
        },
        Err(refusal) => {
            written.cancel(rt, hand);
            Err(ReadFileErr::from(refusal))
        }
    }
}
