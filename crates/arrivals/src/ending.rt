//! The end of a phase: what each reader leaves, and its sink.
ghost use Rattle.std.specs.Prelude.{◌≡◌, ◌≤◌, IfOk, map, vec_len, vec_capacity};
ghost use Rattle.std.specs.List.{AllZip};
ghost use Rattle.scatter.specs.Phases.{AllThree};
ghost use Rattle.arrivals.specs.Phases.{HasRoomFor, IsEnded, IsOwn, sink_in};

use crate::receiving::Receiving;
use block_pool::Hand;
use dia_edge::{Disk, NoMemory};
use std::alloc::Global;
use std::sync::Wait;

/// What comes back from the works of a phase, by rank.
#[derive(Drop)]
pub(crate) struct Back<'p, D: Disk, S> {
    pub(crate) hands: Vec<Hand<'p, D>>,
    pub(crate) sinks: Vec<S>,
}

impl<'p, D: Disk, S: Drop> Back<'p, D, S> {
    /// Room for so many.
    pub(crate) fn new(alloc: Global, count: usize) -> Result<Back<'p, D, S>, NoMemory>
        ensures { IfOk result (λ back. HasRoomFor count back) }
    {
        Ok(Back {
            hands: Vec::with_capacity(alloc, count)?,
            sinks: Vec::with_capacity(alloc, count)?,
        })
    }
}

/// Ends the reader of each work with its worker's hand: the blocks that are left are freed. It takes no memory.
pub(crate) fn end_all<'p, R: Wait, D: Disk, S: Drop>(
    rt: &R,
    hands: Vec<Hand<'p, D>>,
    works: Vec<Receiving<'p, D, S>>,
    back: Back<'p, D, S>,
) -> Back<'p, D, S>
    requires long { vec_len hands ≡ vec_len works }
    requires own { AllZip IsOwn works.items hands.items }
    requires room { HasRoomFor (vec_len works) back }
    ensures hands { AllThree IsEnded works.entry.items hands.entry.items result.hands.items }
    ensures sinks { result.sinks.items ≡ map sink_in works.entry.items }
{
    let Back {
        hands: mut ended,
        mut sinks,
    } = back;
    let mut hands = hands.into_iter();
    for work in works {
        let Some(mut hand) = hands.next() else {
            unreachable!()
        };
        let Receiving { reader, sink, .. } = work;
        reader.end(rt, &mut hand);
        sinks.push_reserved(sink);
        ended.push_reserved(hand);
    }
    Back {
        hands: ended,
        sinks,
    }
}
