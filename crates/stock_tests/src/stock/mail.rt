//! A mail of two workers over one pool, settled by a stock.
ghost use Rattle.std.specs.Prelude.{◌≡◌, ◌+◌, ◌<◌, ◌≤◌, ◌∷◌, [], ℕ, List, true, false, IfSome, IfOk, OnOk, length, slice_index_or, vec_capacity};
ghost use Rattle.std.specs.declared.alloc.Global.{Global};
ghost use Rattle.crossbeam_queue.specs.SegTies.{SegId};
ghost use Rattle.block_pool.specs.Handles.{PoolName};
ghost use Rattle.block_pool.specs.Workers.{new_pool};
ghost use Rattle.scatter.specs.Carrying.{AreBlocksOf};
ghost use Rattle.stock_tests.specs.Posted.{AreTwoEnds, AreTwoHands, IsPosted, IsSender};

use super::{end, open_two};
use block_pool::{BlockRef, Hand};
use dia_edge::MemDisk;
use multiplexer::{Inbox, Mail, Packet, Post, RecvEnd, SendEnd};
use scatter::{Home, Stock};
use std::alloc::Global;
use std::sync::Wait;
use std::test::Fail;

/// The ends of a mail of two workers.
#[derive(Drop)]
struct Ends<'m> {
    send_zero: SendEnd<'m>,
    send_one: SendEnd<'m>,
    recv_zero: RecvEnd<'m>,
    recv_one: RecvEnd<'m>,
}

/// New ends.
fn open_ends<'m>(alloc: Global, mail: &'m mut Mail) -> Option<Ends<'m>>
    requires two { length mail.old.mail ≡ 2 }
    requires new { mail.old.is_given ≡ false }
    ensures { IfSome result (λ e. (pool : PoolName) → AreTwoEnds pool 0 [] e.send_zero e.send_one e.recv_zero e.recv_one) }
{
    let Ok((mut sends, mut recvs)) = mail.ends(alloc) else {
        return None;
    };
    let (Some(send_one), Some(send_zero)) = (sends.pop(), sends.pop()) else {
        return None;
    };
    let (Some(recv_one), Some(recv_zero)) = (recvs.pop(), recvs.pop()) else {
        return None;
    };
    Some(Ends {
        send_zero,
        send_one,
        recv_zero,
        recv_one,
    })
}

/// A new block of one byte.
fn seal_byte<R: Wait>(rt: &R, hand: &mut Hand<'_, MemDisk>, byte: u8) -> Option<BlockRef>
    requires permit { 0 < hand.old.permits }
    requires block { 4096 ≤ hand.old.pool.opening.block }
    ensures same { (hand.new.pool ≡ hand.old.pool) × (hand.new.permits ≡ hand.old.permits) }
    ensures block { IfSome result (λ block. (block.pool ≡ hand.old.pool) × (0 < length block.bytes)) }
{
    let Ok(mut frame) = hand.frame(rt) else {
        return None;
    };
    frame.put(&[byte]);
    match hand.seal(rt, frame) {
        Ok(block) => Some(block),
        Err((frame, _)) => {
            hand.give_back(rt, frame);
            None
        }
    }
}

/// Sends a block of one byte to worker 1, and answers whether it is sent.
fn send_byte<R: Wait>(
    rt: &R,
    hand: &mut Hand<'_, MemDisk>,
    send: &mut SendEnd<'_>,
    byte: u8,
) -> bool
    requires permit { 0 < hand.old.permits }
    requires block { 4096 ≤ hand.old.pool.opening.block }
    requires to { 1 < length send.old.mail }
    requires few { length (slice_index_or send.old.sent 1 []) < 9 }
    ensures same { (hand.new.pool ≡ hand.old.pool) × (hand.new.permits ≡ hand.old.permits) }
    ensures sender { (mail : List (SegId Global)) (rank most : ℕ) → IsSender mail rank hand.old.pool most send.old
        → IsSender mail rank hand.old.pool (most + 1) send.new }
{
    let Some(block) = seal_byte(rt, hand, byte) else {
        return false;
    };
    send.send(rt, 1, block).is_ok()
}

/// Worker 0 sends `x` and `y` to worker 1, and worker 1 sends `z` to it; answers whether all are sent.
fn send_three<R: Wait>(
    rt: &R,
    one: &mut Hand<'_, MemDisk>,
    two: &mut Hand<'_, MemDisk>,
    send_zero: &mut SendEnd<'_>,
    send_one: &mut SendEnd<'_>,
) -> bool
    requires permits { (0 < one.old.permits) × (0 < two.old.permits) }
    requires block { 4096 ≤ one.old.pool.opening.block }
    requires pool { two.old.pool ≡ one.old.pool }
    requires zero { (mail : List (SegId Global)) × (length mail ≡ 2) × IsSender mail 0 one.old.pool 0 send_zero.old }
    requires one { (mail : List (SegId Global)) × (length mail ≡ 2) × IsSender mail 1 one.old.pool 0 send_one.old }
    ensures same { (one.new.pool ≡ one.old.pool) × (two.new.pool ≡ two.old.pool) }
    ensures zero { (mail : List (SegId Global)) → IsSender mail 0 one.old.pool 0 send_zero.old → IsSender mail 0 one.old.pool 2 send_zero.new }
    ensures one { (mail : List (SegId Global)) → IsSender mail 1 one.old.pool 0 send_one.old → IsSender mail 1 one.old.pool 2 send_one.new }
{
    let first = send_byte(rt, one, send_zero, b'x');
    let second = send_byte(rt, one, send_zero, b'y');
    let third = send_byte(rt, two, send_one, b'z');
    first & second & third
}

/// What worker 1 takes before the mail is settled: where it is early, the first packet.
fn take_front<R: Wait>(
    rt: &R,
    alloc: Global,
    recv: &mut RecvEnd<'_>,
    early: bool,
) -> Option<Vec<Packet>>
    requires none { recv.old.taken ≡ [] }
    ensures same { (recv.new.mail ≡ recv.old.mail) × (recv.new.rank ≡ recv.old.rank) }
    ensures front { IfSome result (λ front. front.items ≡ recv.new.taken) }
{
    let Ok(mut front) = Vec::with_capacity(alloc, 1) else {
        return None;
    };
    if early {
        let Some(packet) = recv.take(rt) else {
            return None;
        };
        front.push_reserved(packet);
    }
    Some(front)
}

/// The ends once all is sent, and what worker 1 took by then.
fn post_three<'m, R: Wait>(
    rt: &R,
    alloc: Global,
    mail: &'m mut Mail,
    one: &mut Hand<'_, MemDisk>,
    two: &mut Hand<'_, MemDisk>,
    early: bool,
) -> Option<(Ends<'m>, Vec<Packet>)>
    requires mail { (length mail.old.mail ≡ 2) × (mail.old.is_given ≡ false) }
    requires permits { (0 < one.old.permits) × (0 < two.old.permits) }
    requires block { 4096 ≤ one.old.pool.opening.block }
    requires pool { two.old.pool ≡ one.old.pool }
    ensures same { (one.new.pool ≡ one.old.pool) × (two.new.pool ≡ two.old.pool) }
    ensures ends { IfSome result (λ posted. AreTwoEnds one.old.pool 2 posted.1.items posted.0.send_zero posted.0.send_one posted.0.recv_zero posted.0.recv_one) }
{
    let Some(ends) = open_ends(alloc, mail) else {
        return None;
    };
    let Ends {
        mut send_zero,
        mut send_one,
        recv_zero,
        mut recv_one,
    } = ends;
    if !send_three(rt, one, two, &mut send_zero, &mut send_one) {
        return None;
    }
    let Some(front) = take_front(rt, alloc, &mut recv_one, early) else {
        return None;
    };
    let ends = Ends {
        send_zero,
        send_one,
        recv_zero,
        recv_one,
    };
    Some((ends, front))
}

/// What both workers have once the mail is settled.
fn settle_two<'p, R: Wait>(
    rt: &R,
    alloc: Global,
    hands: &mut Vec<Hand<'p, MemDisk>>,
    ends: Ends<'_>,
    front: Vec<Packet>,
) -> Option<(Inbox, Inbox)>
    requires { IsPosted front.items ends.send_zero ends.send_one ends.recv_zero ends.recv_one hands.old.items }
    ensures hands { (pool : PoolName) → AreTwoHands pool hands.old.items → AreTwoHands pool hands.new.items }
    ensures own { IfSome result (λ boxes. (pool : PoolName) → AreTwoHands pool hands.old.items → AreBlocksOf pool boxes.1) }
{
    let Ends {
        send_zero,
        send_one,
        recv_zero,
        recv_one,
    } = ends;
    let Ok(mut stock) = Stock::new(alloc, Home, 2) else {
        return None;
    };
    let Ok(sends) = vec![in alloc; send_zero, send_one] else {
        return None;
    };
    let Ok(recvs) = vec![in alloc; recv_zero, recv_one] else {
        return None;
    };
    let Ok(fronts) = vec![in alloc; Vec::new(alloc), front] else {
        return None;
    };
    let Ok(mut boxes) = stock.settle(rt, alloc, hands, fronts, sends, recvs) else {
        return None;
    };
    let (Some(one), Some(zero)) = (boxes.pop(), boxes.pop()) else {
        return None;
    };
    Some((zero, one))
}

/// The sender, the number and the first byte of each packet.
fn read_all<R: Wait>(
    rt: &R,
    alloc: Global,
    hand: &mut Hand<'_, MemDisk>,
    inbox: Inbox,
) -> Option<Vec<(u32, u64, u8)>>
    requires own { AreBlocksOf hand.old.pool inbox }
    requires permit { 0 < hand.old.permits }
    ensures pool { hand.new.pool ≡ hand.old.pool }
{
    let mut names = Vec::new(alloc);
    for packet in inbox.packets {
        let Packet { from, seq, block } = packet;
        let Ok(pinned) = hand.pin(rt, block) else {
            return None;
        };
        let byte = pinned.bytes().first().copied();
        let _block = hand.unpin(rt, pinned);
        let Some(byte) = byte else {
            return None;
        };
        if names.push((from, seq, byte)).is_err() {
            return None;
        }
    }
    Some(names)
}

/// How many packets worker 0 has, and those of worker 1.
#[derive(Drop)]
struct Come {
    none: usize,
    names: Vec<(u32, u64, u8)>,
}

/// What came to both workers, and their hands.
fn settle_posted<'p, R: Wait>(
    rt: &R,
    alloc: Global,
    hands: &mut Vec<Hand<'p, MemDisk>>,
    posted: Option<(Ends<'_>, Vec<Packet>)>,
) -> Option<(Inbox, Inbox)>
    requires { IfSome posted (λ p. IsPosted p.1.items p.0.send_zero p.0.send_one p.0.recv_zero p.0.recv_one hands.old.items) }
    ensures hands { (pool : PoolName) → AreTwoHands pool hands.old.items → AreTwoHands pool hands.new.items }
    ensures own { IfSome result (λ boxes. (pool : PoolName) → AreTwoHands pool hands.old.items → AreBlocksOf pool boxes.1) }
{
    let Some((ends, front)) = posted else {
        return None;
    };
    settle_two(rt, alloc, hands, ends, front)
}

/// The two hands.
fn pop_two<'p>(hands: Vec<Hand<'p, MemDisk>>) -> (Hand<'p, MemDisk>, Hand<'p, MemDisk>)
    requires { (pool : PoolName) × AreTwoHands pool hands.items }
    ensures { (pool : PoolName) → AreTwoHands pool hands.entry.items → (result.0.pool ≡ pool) × (result.1.pool ≡ pool) }
{
    let mut hands = hands;
    let Some(two) = hands.pop() else {
        unreachable!()
    };
    let Some(one) = hands.pop() else {
        unreachable!()
    };
    (one, two)
}

/// What came to both workers, with their hands.
fn exchange<'p, R: Wait>(
    rt: &R,
    alloc: Global,
    mail: &mut Mail,
    one: Hand<'p, MemDisk>,
    two: Hand<'p, MemDisk>,
    room: Vec<Hand<'p, MemDisk>>,
    early: bool,
) -> (Option<Come>, Hand<'p, MemDisk>, Hand<'p, MemDisk>)
    requires mail { (length mail.old.mail ≡ 2) × (mail.old.is_given ≡ false) }
    requires permits { (0 < one.permits) × (0 < two.permits) }
    requires block { 4096 ≤ one.pool.opening.block }
    requires pool { two.pool ≡ one.pool }
    requires room { (room.items ≡ []) × (2 ≤ vec_capacity room) }
    ensures pools { (result.1.pool ≡ one.entry.pool) × (result.2.pool ≡ one.entry.pool) }
{
    let mut one = one;
    let mut two = two;
    let posted = post_three(rt, alloc, mail, &mut one, &mut two, early);
    let mut hands = room;
    hands.push_reserved(one);
    hands.push_reserved(two);
    let boxes = settle_posted(rt, alloc, &mut hands, posted);
    let (one, mut two) = pop_two(hands);
    let come = come_of(rt, alloc, &mut two, boxes);
    (come, one, two)
}

/// What is in both boxes.
fn come_of<R: Wait>(
    rt: &R,
    alloc: Global,
    hand: &mut Hand<'_, MemDisk>,
    boxes: Option<(Inbox, Inbox)>,
) -> Option<Come>
    requires own { IfSome boxes (λ b. AreBlocksOf hand.old.pool b.1) }
    ensures pool { hand.new.pool ≡ hand.old.pool }
{
    let Some((zero, one)) = boxes else {
        return None;
    };
    if hand.permits() == 0 {
        return None;
    }
    let Some(names) = read_all(rt, alloc, hand, one) else {
        return None;
    };
    Some(Come {
        none: zero.packets.len(),
        names,
    })
}

/// The same in a pool of their own.
fn exchange_three<R: Wait>(rt: &R, alloc: Global, early: bool) -> Option<Come> {
    let Ok(passes) = Vec::with_capacity(alloc, 2) else {
        return None;
    };
    let Ok(room) = Vec::with_capacity(alloc, 2) else {
        return None;
    };
    let Ok(mut mail) = Mail::open(alloc, 2) else {
        return None;
    };
    let Ok((pool, (pass, permits), (other, more))) = open_two(alloc) else {
        return None;
    };
    let one = Hand::new(&pool, pass, permits);
    let two = Hand::new(&pool, other, more);
    let (come, one, two) = exchange(rt, alloc, &mut mail, one, two, room, early);
    let (pass, _) = one.end();
    let (other, _) = two.end();
    end(rt, pool, pass, other, passes);
    come
}

/// Where a packet was taken before, it stands in front.
#[test]
fn a_receiver_has_what_was_sent_to_it(rt: HostRuntime) -> Result<(), Fail> {
    for early in [false, true] {
        let come = exchange_three(&rt, rt.alloc(), early).ok_or("refused")?;
        assert_eq!(rt; come.none, 0);
        assert_eq!(rt;
            come.names.as_slice(),
            [(0, 0, b'x'), (0, 1, b'y'), (1, 0, b'z')].as_slice()
        );
    }
    Ok(())
}
