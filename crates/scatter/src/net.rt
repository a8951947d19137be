//! How blocks come to the pool of the hand that reads them.
ghost use Rattle.std.specs.Prelude.{◌≡◌, ◌≤◌, ◌↔◌, ℕ, List, Bool, true, ⊤, All, Result, Vec, IfOk, IfErr, OnOk, vec_len};
ghost use Rattle.std.specs.List.{AllZip};
ghost use Rattle.std.specs.declared.alloc.Global.{Global};
ghost use Rattle.block_pool.specs.Handles.{HandValue, Follows};
ghost use Rattle.multiplexer.specs.declared.inbox.Inbox.{Inbox};
ghost use Rattle.scatter.specs.declared.net_err.NetErr.{NetErr};
ghost use Rattle.scatter.specs.Nets.{AreOfOnePool, IsAsGood, still_of_one_pool};
ghost use Rattle.scatter.specs.Carrying.{AreFromHands, AreForHand, IsCarried, NotCarried, AnswersAll};

use crate::net_err::NetErr;
use block_pool::Hand;
use dia_edge::Disk;
use multiplexer::Inbox;
use std::alloc::Global;
use std::sync::Wait;

/// What brings blocks from a hand's pool to another's.
pub trait Net {
    /// The lists of hands that it serves: one hand per worker.
    ghost fits: { Self → List HandValue → Type 0 };

    /// How many faults it had so far.
    ghost faults: { Self → ℕ };

    /// Whether it tells what it carried.
    ghost tells: { Self → Bool };

    /// What a later net keeps of an earlier one.
    ghost stays: { Self → Self → Type 0 };

    /// What it answers of the boxes that it is given, beyond what `carry` says of every net.
    ghost answers: { List Inbox → Result (Vec Inbox Global) NetErr → Type 0 };

    /// Brings the packets of each Inbox to the pool of the hand of its rank: of each sender, packets with the same numbers in
    /// the same order, with the same bytes. It waits, for the pools and for whatever it is connected with.
    ///
    /// `Link` comes only where the net failed in this call, `LinkBytes` never where it tells, `Disk` only where a hand's disk
    /// failed in this call, `Damaged` never where the disks tell.
    fn carry<R: Wait, D: Disk>(
        &mut self,
        rt: &R,
        alloc: Global,
        hands: &mut Vec<Hand<'_, D>>,
        boxes: Vec<Inbox>,
    ) -> Result<Vec<Inbox>, NetErr>
        requires fits { fits self.old hands.old.items }
        requires count { vec_len boxes ≡ vec_len hands.old }
        requires own { All (AreFromHands hands.old.items) boxes.items }

        ensures pools { IfOk result (λ now. AllZip AreForHand hands.new.items now.items) }
        ensures carried { IfOk result (λ now. tells self.old ≡ true → AllZip (IsCarried hands.old.items) boxes.items now.items) }
        ensures tells { OnOk result (tells self.old ≡ true → tells self.new ≡ true) }
        ensures permits { OnOk result (AllZip (λ (a b : HandValue). b.permits ≡ a.permits) hands.old.items hands.new.items) }
        ensures refused { IfErr result (λ e. NotCarried (tells self.old) (faults self.old) (faults self.new) hands.old.items hands.new.items e) }
        ensures answers { answers boxes.items result }

        // On every answer.
        ensures follows { AllZip Follows hands.old.items hands.new.items }
        ensures fits { (list : List HandValue) → fits self.new list ↔ fits self.old list }
        ensures counts { faults self.old ≤ faults self.new }
        ensures stays { stays self.old self.new };

    ghost stays_refl: { (x : Self) → stays x x };

    ghost stays_trans: { (x y z : Self) → stays x y → stays y z → stays x z };

    /// What it fits rests on the number of the hands, their pools and their permits alone, and more permits do too.
    ghost fits_more: { (x : Self) (before after : List HandValue) → AllZip IsAsGood before after → fits x before → fits x after };
}

/// The net of one pool: nothing needs to be carried.
#[derive(Debug, PartialEq, Eq, Drop)]
pub struct Home;

impl Net for Home {
    ghost fits = { λ x hands. AreOfOnePool hands };

    ghost faults = { λ x. 0 };

    ghost tells = { λ x. true };

    ghost stays = { λ x y. ⊤ };

    ghost answers = { AnswersAll };

    fn carry<R: Wait, D: Disk>(
        &mut self,
        _rt: &R,
        _alloc: Global,
        _hands: &mut Vec<Hand<'_, D>>,
        boxes: Vec<Inbox>,
    ) -> Result<Vec<Inbox>, NetErr> {
        Ok(boxes)
    }

    ghost stays_refl = { λ x. tt };

    ghost stays_trans = { λ x y z p q. tt };

    ghost fits_more = { λ x before after h k. still_of_one_pool before after h k };
}
