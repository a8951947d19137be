//! Bytes that are copied for a row that spans blocks.
ghost use Rattle.std.specs.Prelude.{◌≡◌, ◌+◌, ◌≤◌, ◌++◌, length, take, OnOk, OnErr};
ghost use Rattle.dia_item.specs.Sizes.{longest_row};

use dia_edge::NoMemory;
use dia_item::LONGEST_ROW;

/// Puts bytes behind the first `kept` of the buffer. Room for the longest row is taken once; without memory those that are
/// kept stay.
pub(crate) fn copy_behind(buffer: &mut Vec<u8>, kept: usize, bytes: &[u8]) -> Result<(), NoMemory>
    requires within { kept ≤ length buffer.old.items }
    requires short { kept + length bytes.now ≤ longest_row }
    ensures items { OnOk result (buffer.new.items ≡ take kept buffer.old.items ++ bytes.now) }
    ensures refused { OnErr result (buffer.new.items ≡ take kept buffer.old.items) }
{
    buffer.truncate(kept);
    buffer.reserve(LONGEST_ROW - kept)?;
    buffer.extend_from_slice(bytes)?;
    Ok(())
}
