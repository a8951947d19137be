//! Two workers, of whom one takes before the other sends.
ghost use Rattle.std.specs.Prelude.{◌≡◌, ◌<◌, ◌≤◌, ◌∷◌, [], false, length, IfSome};
ghost use Rattle.multiplexer.specs.Settling.{AreAllEnds};
ghost use Rattle.file_tests.specs.Workers.{AreNewEnds};

use super::working::send_number;
use block_pool::Hand;
use dia_edge::MemDisk;
use multiplexer::{Inbox, Mail, RecvEnd, SendEnd, settle};
use std::alloc::Global;
use std::sync::Wait;

/// The ends of a mail of two workers.
#[derive(Drop)]
struct Ends<'m> {
    send_zero: SendEnd<'m>,
    send_one: SendEnd<'m>,
    recv_zero: RecvEnd<'m>,
    recv_one: RecvEnd<'m>,
}

/// New ends.
fn open_ends<'m>(alloc: Global, mail: &'m mut Mail) -> Option<Ends<'m>>
    requires two { length mail.old.mail ≡ 2 }
    requires new { mail.old.is_given ≡ false }
    ensures { IfSome result (λ e. AreNewEnds mail.old.mail e.send_zero e.send_one e.recv_zero e.recv_one) }
{
    let (mut sends, mut recvs) = mail.ends(alloc).ok()?;
    let send_one = sends.pop()?;
    let send_zero = sends.pop()?;
    let recv_one = recvs.pop()?;
    let recv_zero = recvs.pop()?;
    Some(Ends {
        send_zero,
        send_one,
        recv_zero,
        recv_one,
    })
}

/// The inboxes of both, once all ends are settled.
fn settle_two<R: Wait>(rt: &R, alloc: Global, ends: Ends<'_>) -> Option<(Inbox, Inbox)>
    requires { AreAllEnds (ends.send_zero ∷ ends.send_one ∷ []) (ends.recv_zero ∷ ends.recv_one ∷ []) }
{
    let Ends {
        send_zero,
        send_one,
        recv_zero,
        recv_one,
    } = ends;
    let sends = vec![in alloc; send_zero, send_one].ok()?;
    let recvs = vec![in alloc; recv_zero, recv_one].ok()?;
    let mut boxes = settle(rt, alloc, sends, recvs).ok()?;
    let one = boxes.pop()?;
    let zero = boxes.pop()?;
    Some((zero, one))
}

/// Sender 1 sends 3 to receiver 1, and then sender 0 sends 1 and 2 to it. What receiver 0 has, and what receiver 1 takes
/// before the ends are settled, with its rest.
pub(super) fn exchange_three<R: Wait>(
    rt: &R,
    alloc: Global,
    hand: &mut Hand<'_, MemDisk>,
) -> Option<(Inbox, Inbox)>
    requires permit { 0 < hand.old.permits }
    requires block { 4096 ≤ hand.old.pool.opening.block }
    ensures same { (hand.new.pool ≡ hand.old.pool) × (hand.new.permits ≡ hand.old.permits) }
{
    let mut mail = Mail::open(alloc, 2).ok()?;
    let Ends {
        mut send_zero,
        mut send_one,
        recv_zero,
        mut recv_one,
    } = open_ends(alloc, &mut mail)?;
    send_number(rt, hand, &mut send_one, 1, 3)?;
    send_number(rt, hand, &mut send_zero, 1, 1)?;
    send_number(rt, hand, &mut send_zero, 1, 2)?;
    let mut front = Vec::new(alloc);
    front.push(recv_one.take(rt)?).ok()?;
    let ends = Ends {
        send_zero,
        send_one,
        recv_zero,
        recv_one,
    };
    let (zero, rest) = settle_two(rt, alloc, ends)?;
    Some((zero, Inbox::join(front, rest).ok()?))
}
