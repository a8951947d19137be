//! The files of a phase's sinks, where all are there and their rows aren't too many.
ghost use Rattle.std.specs.Prelude.{◌≡◌, ◌+◌, ◌<◌, ◌≤◌, ◌⊎◌, Some, IsSome, All, map, IfOk, OnOk, IfErr, OnErr, vec_len, vec_capacity};
ghost use Rattle.std.specs.List.{AllZip, sum_by};
ghost use Rattle.row_defs.specs.Limits.{most_rows};
ghost use Rattle.block_pool.specs.Handles.{Follows};
ghost use Rattle.scatter.specs.Phases.{AllThree};
ghost use Rattle.sink_files.specs.Ending.{CanFinish, IsSinkOf, IsBack, IsFileFrom, rows_taken, part_rows};
ghost use Rattle.sink_files.specs.Rooms.{IsRoomFor};
ghost use Rattle.sink_files.specs.Keeping.{KeepRefused};
ghost use Rattle.sink_files.specs.declared.keep_err.KeepErr.TheVariants as errs;

use crate::ending::{End, Ended, end_all};
use crate::keep_err::KeepErr;
use block_pool::Hand;
use dia_edge::{Disk, NoMemory};
use dia_file::File;
use file_sink::FileSink;
use row_defs::limits::MOST_ROWS;
use scatter::clear_parts;
use std::alloc::Global;
use std::mem;
use std::sync::Wait;

/// Room for the files of so many sinks, and for the hands that end them.
#[derive(Drop)]
pub struct Room<'p, D: Disk> {
    ended: Ended<'p, D>,
    cleared: Vec<Hand<'p, D>>,
    files: Vec<File>,
}

impl<'p, D: Disk> Room<'p, D> {
    /// Room for so many.
    pub(crate) fn new(alloc: Global, count: usize) -> Result<Room<'p, D>, NoMemory>
        ensures { IfOk result (λ room. IsRoomFor count room) }
    {
        Ok(Room {
            ended: Ended::new(alloc, count)?,
            cleared: Vec::with_capacity(alloc, count)?,
            files: Vec::with_capacity(alloc, count)?,
        })
    }
}

/// How many rows there may be beside those of a file.
fn room_beside(room: u64, part: &Option<File>) -> Result<u64, KeepErr>
    ensures ok { IfOk result (λ left. IsSome part.now × (left + part_rows part.now ≡ room)) }
    ensures refused { IfErr result (λ e. (e ≡ errs.NoMemory) ⊎ ((e ≡ errs.TooManyRows) × (room < part_rows part.now))) }
{
    match part {
        None => Err(KeepErr::NoMemory),
        Some(file) => {
            let rows = file.rows();
            if rows > room {
                return Err(KeepErr::TooManyRows);
            }
            Ok(room - rows)
        }
    }
}

/// Whether all files are there and have no more rows together than may arrive.
fn whole(parts: &[Option<File>]) -> Result<(), KeepErr>
    ensures there { OnOk result (All IsSome parts.now) }
    ensures few { OnOk result (sum_by part_rows parts.now ≤ most_rows) }
    ensures refused { IfErr result (λ e. (e ≡ errs.NoMemory) ⊎ ((e ≡ errs.TooManyRows) × (most_rows < sum_by part_rows parts.now))) }
{
    let mut room = MOST_ROWS;
    for part in parts {
        room = room_beside(room, part)?;
    }
    Ok(())
}

/// The files, which are all there.
fn files_in(parts: Vec<Option<File>>, mut files: Vec<File>) -> Vec<File>
    requires there { All IsSome parts.items }
    requires room { (vec_len files ≡ 0) × (vec_len parts ≤ vec_capacity files) }
    ensures { map (λ file. Some file) result.items ≡ parts.items }
{
    for part in parts {
        let Some(file) = part else { unreachable!() };
        files.push_reserved(file);
    }
    files
}

/// Ends all sinks, each with the hand of its rank: what was written is freed. It takes no memory.
pub fn cancel_all<'p, R: Wait, D: Disk>(
    rt: &R,
    alloc: Global,
    hands: &mut Vec<Hand<'p, D>>,
    sinks: Vec<FileSink<'p, D>>,
    room: Room<'p, D>,
)
    requires own { AllZip IsSinkOf sinks.items hands.old.items }
    requires room { IsRoomFor (vec_len sinks) room }
    ensures { AllZip Follows hands.old.items hands.new.items }
{
    let moved = mem::replace(hands, Vec::new(alloc));
    let Ended { hands: ended, .. } = end_all(rt, End::Cancel, moved, sinks, room.ended);
    *hands = ended;
}

/// The files of all sinks, by rank, each made with the hand of its rank; else what was written is gone.
///
/// `NoMemory` comes where there was none for the last block of a file, and `TooManyRows` just where the sinks took more rows
/// together than a line may have.
pub fn keep_all<'p, R: Wait, D: Disk>(
    rt: &R,
    alloc: Global,
    hands: &mut Vec<Hand<'p, D>>,
    sinks: Vec<FileSink<'p, D>>,
    room: Room<'p, D>,
) -> Result<Vec<File>, KeepErr>
    requires own { AllZip CanFinish sinks.items hands.old.items }
    requires room { IsRoomFor (vec_len sinks) room }
    ensures files { IfOk result (λ files. AllThree IsFileFrom sinks.entry.items hands.new.items files.items) }
    ensures few { OnOk result (sum_by rows_taken sinks.entry.items ≤ most_rows) }
    ensures permits { OnOk result (AllThree IsBack sinks.entry.items hands.old.items hands.new.items) }
    ensures refused { IfErr result (KeepRefused sinks.entry.items) }
    ensures follows { AllZip Follows hands.old.items hands.new.items }
{
    let Room {
        ended: room,
        cleared,
        files,
    } = room;
    let moved = mem::replace(hands, Vec::new(alloc));
    let Ended {
        hands: ended,
        parts,
    } = end_all(rt, End::Finish, moved, sinks, room);
    match whole(parts.as_slice()) {
        Ok(()) => {
            *hands = ended;
            Ok(files_in(parts, files))
        }
        Err(refusal) => {
            *hands = clear_parts(rt, ended, parts, cleared);
            Err(refusal)
        }
    }
}
