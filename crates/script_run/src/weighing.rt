//! Weighs the files of a line.
ghost use Rattle.std.specs.Prelude.{◌≡◌, ◌<◌, vec_len, IfOk};
ghost use Rattle.std.specs.List.{AllZip};
ghost use Rattle.block_pool.specs.Handles.{HandValue, Follows};
ghost use Rattle.dia_file.specs.Cuts.{rows_of_files};
ghost use Rattle.dia_file.specs.Files.{IsFileOf};
ghost use Rattle.scatter.specs.Nets.{AreOfOnePool};
ghost use Rattle.scatter.specs.Phases.{pools_of};
ghost use Rattle.script_run.specs.Weighing.{IsWeighed};

use block_pool::Hand;
use dia_edge::{Disk, NoMemory};
use dia_file::File;
use std::sync::Wait;

/// Bounds the writes of the disk from below by the bytes of these files, with the first hand; the same files come back.
///
/// After want of memory their blocks stay in the pool until it ends.
pub(crate) fn weigh<R: Wait, D: Disk>(
    rt: &R,
    files: Vec<File>,
    hands: &mut Vec<Hand<'_, D>>,
) -> Result<Vec<File>, NoMemory>
    requires some { 0 < vec_len hands.old }
    requires one { AreOfOnePool hands.old.items }
    requires own { AllZip IsFileOf (pools_of hands.old.items) files.items }
    ensures files { IfOk result (λ back. back.items ≡ files.items) }
    ensures weighed { IfOk result (λ _. IsWeighed hands.new.items (rows_of_files files.items)) }
    ensures permits { AllZip (λ (a b : HandValue). b.permits ≡ a.permits) hands.old.items hands.new.items }
    ensures follows { AllZip Follows hands.old.items hands.new.items }
{
    File::weigh(files, rt, &mut hands[0])
}
