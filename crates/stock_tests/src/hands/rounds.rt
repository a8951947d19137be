//! A work whose steps each seal, pin and free a block.
ghost use Rattle.std.specs.Prelude.{◌≡◌};
ghost use Rattle.std.proofs.Common.{◌∙◌, refl};
ghost use Rattle.block_pool.specs.Handles.{Follows};
ghost use Rattle.block_pool.specs.Follows.{follows_refl, follows_trans};
ghost use Rattle.stock_tests.specs.Rounds.{IsAble};

use block_pool::{Hand, Pool};
use dia_edge::Disk;
use hand_phase::HandTask;
use lent_step::LentTask;
use std::marker::PhantomData;
use std::sync::Wait;
use worker_step::Progress;

/// The number of rounds left at which no work faults.
pub(super) const NEVER: u32 = u32::MAX;

/// Does one round with a block each step, and faults at a number of its own.
#[derive(Drop)]
pub(super) struct Rounds<'p, D: Disk> {
    pub(super) left: u32,
    /// How many pins showed what was sealed.
    pub(super) shown: u32,
    faults_at: u32,
    of: PhantomData<&'p Pool<D>>,
}

impl<'p, D: Disk> Rounds<'p, D> {
    pub(super) fn new(left: u32, faults_at: u32) -> Rounds<'p, D> {
        Rounds {
            left,
            shown: 0,
            faults_at,
            of: PhantomData,
        }
    }
}

/// Whether a pin of a new block shows the number that was put there. The block is gone.
fn shows_number<R: Wait, D: Disk>(rt: &R, hand: &mut Hand<'_, D>, number: u32) -> bool
    requires able { IsAble hand.old }
    ensures follows { Follows hand.old hand.new }
    ensures permits { hand.new.permits ≡ hand.old.permits }
{
    let Ok(mut frame) = hand.frame(rt) else {
        return false;
    };
    frame.put(&number.to_le_bytes());
    let block = match hand.seal(rt, frame) {
        Ok(block) => block,
        Err((frame, _)) => {
            hand.give_back(rt, frame);
            return false;
        }
    };
    match hand.pin(rt, block) {
        Ok(pinned) => {
            let shows = pinned.bytes() == number.to_le_bytes().as_slice();
            let block = hand.unpin(rt, pinned);
            hand.free(rt, block);
            shows
        }
        Err((block, _)) => {
            hand.free(rt, block);
            false
        }
    }
}

impl<'p, D: Disk> LentTask for Rounds<'p, D> {
    type Desk = Hand<'p, D>;

    type Fault = u32;

    ghost ready = { λ t a. IsAble a };

    ghost follows = { λ t a u b. Follows a b × (b.permits ≡ a.permits) };

    ghost keeps = { λ a b. Follows a b };

    ghost done = { λ t a. t.left ≡ 0 };

    ghost faulted = { λ a fault t b. fault ≡ t.left };

    ghost left = { λ t. t.left };

    fn step<R: Wait>(&mut self, rt: &R, hand: &mut Hand<'p, D>) -> Result<Progress, u32> {
        if self.left == self.faults_at {
            return Err(self.left);
        }
        if self.left == 0 {
            return Ok(Progress::Done);
        }
        self.left -= 1;
        if shows_number(rt, hand, self.left) {
            self.shown = self.shown.saturating_add(1);
        }
        Ok(Progress::More)
    }

    ghost follows_refl = { λ t a. (follows_refl a, refl) };

    ghost follows_trans = { λ t u v a b c p q. (follows_trans a b c p.0 q.0, q.1 ∙ p.1) };

    ghost follows_keeps = { λ t u a b p. p.0 };

    ghost keeps_refl = { λ a. follows_refl a };

    ghost keeps_trans = { λ a b c p q. follows_trans a b c p q };

    ghost faulted_from = { λ t a b c e p q. q };
}

impl<'p, D: Disk> HandTask<Hand<'p, D>> for Rounds<'p, D> {
    ghost keeps_follows = { λ a b p. p };
}
