//! The end of scatters, each by its worker's hand.
ghost use Rattle.std.specs.Prelude.{◌≡◌, ◌<◌, ◌⊎◌, IfOk, OnOk, vec_len, vec_capacity};
ghost use Rattle.std.specs.List.{AllZip};
ghost use Rattle.block_pool.specs.Handles.{Follows};
ghost use Rattle.exchange.specs.Serving.{IsServed};
ghost use Rattle.scatter.specs.Phases.{AllThree};
ghost use Rattle.link.specs.Scattering.{HasRoomFor, IsEnd, IsFreed, IsSentOff};

use crate::dealer::Dealer;
use block_pool::Hand;
use dia_edge::{Disk, NoMemory};
use dia_item::RowRef;
use multiplexer::{Post, SendEnd};
use std::alloc::Global;
use std::mem;
use std::sync::Wait;

/// What comes back from scatters that are finished, by rank.
#[derive(Drop)]
pub(crate) struct Ended<'p, D: Disk, P> {
    pub(crate) hands: Vec<Hand<'p, D>>,
    /// The posts of those for which there was memory.
    pub(crate) posts: Vec<P>,
}

impl<'p, D: Disk, P> Ended<'p, D, P> {
    /// Room for so many.
    pub(crate) fn new(alloc: Global, count: usize) -> Result<Ended<'p, D, P>, NoMemory>
        ensures { IfOk result (λ room. HasRoomFor count room) }
    {
        Ok(Ended {
            hands: Vec::with_capacity(alloc, count)?,
            posts: Vec::with_capacity(alloc, count)?,
        })
    }
}

/// Finishes a scatter, and puts its post behind the others, where there is memory.
fn end_one<'p, 'm, R: Wait, D: Disk, F: Fn(RowRef<'_>, u64) -> u32 + Drop + 'p>(
    rt: &R,
    hand: &mut Hand<'p, D>,
    dealer: Dealer<'p, D, F, SendEnd<'m>>,
    posts: &mut Vec<SendEnd<'m>>,
)
    requires own { IsServed ⟦<SendEnd<'m> as Post>⟧ dealer hand.old }
    requires room { vec_len posts.old < vec_capacity posts.old }
    ensures end { IsEnd ⟦<SendEnd<'m> as Post>⟧ dealer.entry hand.old posts.old.items posts.new.items hand.new }
    ensures room { vec_capacity posts.new ≡ vec_capacity posts.old }
    ensures follows { Follows hand.old hand.new }
{
    let Dealer { scatter } = dealer;
    if let Ok(post) = scatter.finish(rt, hand) {
        posts.push_reserved(post);
    }
}

/// Finishes each scatter with its worker's hand. It takes no memory beyond what the scatters ask for.
fn end_all<'p, 'm, R: Wait, D: Disk, F: Fn(RowRef<'_>, u64) -> u32 + Drop + 'p>(
    rt: &R,
    hands: Vec<Hand<'p, D>>,
    dealers: Vec<Dealer<'p, D, F, SendEnd<'m>>>,
    room: Ended<'p, D, SendEnd<'m>>,
) -> Ended<'p, D, SendEnd<'m>>
    requires own { AllZip (IsServed ⟦<SendEnd<'m> as Post>⟧) dealers.items hands.items }
    requires room { HasRoomFor (vec_len dealers) room }
    ensures follows { AllZip Follows hands.entry.items result.hands.items }
    ensures sent { vec_len result.posts ≡ vec_len result.hands
        → AllThree (IsSentOff ⟦<SendEnd<'m> as Post>⟧) dealers.entry.items hands.entry.items result.posts.items }
    ensures freed { vec_len result.posts ≡ vec_len result.hands
        → AllThree IsFreed dealers.entry.items hands.entry.items result.hands.items }
{
    let Ended {
        hands: mut ended,
        mut posts,
    } = room;
    let mut hands = hands.into_iter();
    for dealer in dealers {
        let Some(mut hand) = hands.next() else {
            unreachable!()
        };
        end_one(rt, &mut hand, dealer, &mut posts);
        ended.push_reserved(hand);
    }
    Ended {
        hands: ended,
        posts,
    }
}

/// Sends what the scatters have left, each with its worker's hand, and answers their posts where there is memory for all.
pub(crate) fn finish_all<'p, 'm, R: Wait, D: Disk, F: Fn(RowRef<'_>, u64) -> u32 + Drop + 'p>(
    rt: &R,
    alloc: Global,
    hands: &mut Vec<Hand<'p, D>>,
    dealers: Vec<Dealer<'p, D, F, SendEnd<'m>>>,
    room: Ended<'p, D, SendEnd<'m>>,
) -> Result<Vec<SendEnd<'m>>, NoMemory>
    requires own { AllZip (IsServed ⟦<SendEnd<'m> as Post>⟧) dealers.items hands.old.items }
    requires room { HasRoomFor (vec_len dealers) room }
    ensures sent { IfOk result (λ posts. AllThree (IsSentOff ⟦<SendEnd<'m> as Post>⟧) dealers.entry.items hands.old.items posts.items) }
    ensures freed { OnOk result (AllThree IsFreed dealers.entry.items hands.old.items hands.new.items) }
    ensures follows { AllZip Follows hands.old.items hands.new.items }
{
    let moved = mem::replace(hands, Vec::new(alloc));
    let Ended {
        hands: ended,
        posts,
    } = end_all(rt, moved, dealers, room);
    *hands = ended;
    if posts.len() == hands.len() {
        Ok(posts)
    } else {
        Err(NoMemory)
    }
}
