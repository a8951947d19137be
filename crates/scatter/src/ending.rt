//! The end of a phase: what each feed gives back, and its sink.
ghost use Rattle.std.specs.Prelude.{◌≡◌, ◌≤◌, IfOk, map, vec_len, vec_capacity};
ghost use Rattle.std.specs.List.{AllZip};
ghost use Rattle.block_pool.specs.Handles.{HandValue, AreOfPool};
ghost use Rattle.scatter.specs.Phases.{HasRoomFor, AllThree, IsEnded, file_kept, sink_in, IsOwn};

use crate::sending::Sending;
use block_pool::Hand;
use dia_edge::{Disk, NoMemory};
use dia_file::File;
use std::alloc::Global;
use std::sync::Wait;

/// What comes back from the works of a phase, by rank.
#[derive(Drop)]
pub(crate) struct Back<'p, D: Disk, S> {
    pub(crate) hands: Vec<Hand<'p, D>>,
    /// The files of feeds that were to give them back.
    pub(crate) parts: Vec<Option<File>>,
    pub(crate) sinks: Vec<S>,
}

impl<'p, D: Disk, S: Drop> Back<'p, D, S> {
    /// Room for so many.
    pub(crate) fn new(alloc: Global, count: usize) -> Result<Back<'p, D, S>, NoMemory>
        ensures { IfOk result (λ back. HasRoomFor count back) }
    {
        Ok(Back {
            hands: Vec::with_capacity(alloc, count)?,
            parts: Vec::with_capacity(alloc, count)?,
            sinks: Vec::with_capacity(alloc, count)?,
        })
    }
}

/// Ends the feed of each work with its worker's hand. It takes no memory.
pub(crate) fn end_all<'p, R: Wait, D: Disk, S: Drop>(
    rt: &R,
    hands: Vec<Hand<'p, D>>,
    sends: Vec<Sending<'p, D, S>>,
    back: Back<'p, D, S>,
) -> Back<'p, D, S>
    requires long { vec_len hands ≡ vec_len sends }
    requires own { AllZip IsOwn sends.items hands.items }
    requires room { HasRoomFor (vec_len sends) back }
    ensures hands { AllThree IsEnded sends.entry.items hands.entry.items result.hands.items }
    ensures parts { result.parts.items ≡ map file_kept sends.entry.items }
    ensures sinks { result.sinks.items ≡ map sink_in sends.entry.items }
{
    let Back {
        hands: mut ended,
        mut parts,
        mut sinks,
    } = back;
    let mut hands = hands.into_iter();
    for send in sends {
        let Some(mut hand) = hands.next() else {
            unreachable!()
        };
        let Sending { feed, sink, .. } = send;
        parts.push_reserved(feed.end(rt, &mut hand));
        sinks.push_reserved(sink);
        ended.push_reserved(hand);
    }
    Back {
        hands: ended,
        parts,
        sinks,
    }
}
