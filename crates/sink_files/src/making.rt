//! Sinks for all workers, and room for their end.
ghost use Rattle.std.specs.Prelude.{◌≡◌, ◌≤◌, IfOk, length, vec_len};
ghost use Rattle.std.specs.List.{AllZip};
ghost use Rattle.dia_item.specs.KindList.{kind_list};
ghost use Rattle.sink_files.specs.Ending.{IsFreshSink};
ghost use Rattle.sink_files.specs.Rooms.{IsRoomFor};

use crate::keeping::Room;
use block_pool::Hand;
use dia_edge::{Disk, NoMemory};
use dia_item::Kinds;
use file_sink::FileSink;
use row_defs::limits::MOST_ROWS;
use std::alloc::Global;

/// A sink for each hand, of rows of these kinds.
fn sinks_for<'p, D: Disk>(
    alloc: Global,
    kinds: Kinds,
    hands: &[Hand<'p, D>],
) -> Result<Vec<FileSink<'p, D>>, NoMemory>
    ensures fresh { IfOk result (λ sinks. AllZip (IsFreshSink (kind_list kinds)) sinks.items hands.now) }
{
    let mut sinks = Vec::with_capacity(alloc, hands.len())?;
    for hand in hands {
        sinks.push_reserved(FileSink::new(alloc, kinds, MOST_ROWS, hand));
    }
    Ok(sinks)
}

/// A sink for each hand, of rows of these kinds, and room for what all of them write.
pub fn made_ready<'p, D: Disk>(
    alloc: Global,
    kinds: Kinds,
    hands: &[Hand<'p, D>],
) -> Result<(Room<'p, D>, Vec<FileSink<'p, D>>), NoMemory>
    ensures room { IfOk result (λ ready. IsRoomFor (vec_len ready.1) ready.0) }
    ensures fresh { IfOk result (λ ready. AllZip (IsFreshSink (kind_list kinds)) ready.1.items hands.now) }
{
    let sinks = sinks_for(alloc, kinds, hands)?;
    Ok((Room::new(alloc, sinks.len())?, sinks))
}
