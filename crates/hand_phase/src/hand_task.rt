//! What a worker does in a phase with its hand.
ghost use Rattle.block_pool.specs.Handles.{HandValue, Follows};

use block_pool::Hand;
use dia_edge::Disk;
use lent_step::LentTask;

/// A hand, whatever the disk of its pool is.
pub trait AnyHand {
    /// What contracts see of it.
    ghost hand: { Self → HandValue };
}

impl<'p, D: Disk> AnyHand for Hand<'p, D> {
    ghost hand = { λ it. it };
}

/// A piece of work that is done in steps, and is lent a hand at each.
///
/// It calls the hand as it likes, and leaves that hand there: not another pool's, nor an earlier one.
pub trait HandTask<H: AnyHand>: LentTask<Desk = H> {
    /// What it keeps of a hand is at least that the hand follows the one that was lent.
    ghost keeps_follows: { (a b : H) → Self.keeps a b → Follows (H.hand a) (H.hand b) };
}
