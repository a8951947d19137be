//! The end of sinks, each by its worker's hand.
ghost use Rattle.std.specs.Prelude.{◌≡◌, ◌≤◌, IfOk, vec_len, vec_capacity};
ghost use Rattle.std.specs.List.{AllZip};
ghost use Rattle.scatter.specs.Phases.{AllThree};
ghost use Rattle.sink_files.specs.Ending.{CanEnd, IsBack, IsPartFrom, HasRoomFor};

use block_pool::Hand;
use dia_edge::{Disk, NoMemory};
use dia_file::File;
use file_sink::FileSink;
use std::alloc::Global;
use std::sync::Wait;

/// How a sink is ended.
#[derive(Clone, Copy)]
pub(crate) enum End {
    /// Its rows are in a file.
    Finish,
    /// Its blocks are freed.
    Cancel,
}

/// What comes back from sinks that are ended, by rank.
#[derive(Drop)]
pub(crate) struct Ended<'p, D: Disk> {
    pub(crate) hands: Vec<Hand<'p, D>>,
    /// The files; none where there was no memory for it, or where the sink was cancelled.
    pub(crate) parts: Vec<Option<File>>,
}

impl<'p, D: Disk> Ended<'p, D> {
    /// Room for so many.
    pub(crate) fn new(alloc: Global, count: usize) -> Result<Ended<'p, D>, NoMemory>
        ensures { IfOk result (λ room. HasRoomFor count room) }
    {
        Ok(Ended {
            hands: Vec::with_capacity(alloc, count)?,
            parts: Vec::with_capacity(alloc, count)?,
        })
    }
}

/// Ends a sink.
fn end_one<'p, R: Wait, D: Disk>(
    rt: &R,
    end: End,
    hand: &mut Hand<'p, D>,
    sink: FileSink<'p, D>,
) -> Option<File>
    requires { CanEnd end sink hand.old }
    ensures hand { IsBack sink.entry hand.old hand.new }
    ensures part { IsPartFrom sink.entry hand.new result }
{
    match end {
        End::Finish => match sink.finish(rt, hand) {
            Ok(file) => Some(file),
            Err(NoMemory) => None,
        },
        End::Cancel => {
            sink.cancel(rt, hand);
            None
        }
    }
}

/// Ends each sink with its worker's hand. It takes no memory.
pub(crate) fn end_all<'p, R: Wait, D: Disk>(
    rt: &R,
    end: End,
    hands: Vec<Hand<'p, D>>,
    sinks: Vec<FileSink<'p, D>>,
    room: Ended<'p, D>,
) -> Ended<'p, D>
    requires own { AllZip (CanEnd end) sinks.items hands.items }
    requires room { HasRoomFor (vec_len sinks) room }
    ensures hands { AllThree IsBack sinks.entry.items hands.entry.items result.hands.items }
    ensures parts { AllThree IsPartFrom sinks.entry.items result.hands.items result.parts.items }
{
    let Ended {
        hands: mut ended,
        mut parts,
    } = room;
    let mut hands = hands.into_iter();
    for sink in sinks {
        let Some(mut hand) = hands.next() else {
            unreachable!()
        };
        parts.push_reserved(end_one(rt, end, &mut hand, sink));
        ended.push_reserved(hand);
    }
    Ended {
        hands: ended,
        parts,
    }
}
