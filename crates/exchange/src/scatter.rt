//! Deals rows out by a route.
ghost use Rattle.std.specs.Prelude.{◌≡◌, ◌≢◌, ◌+◌, ◌*◌, ◌<◌, ◌≤◌, ◌^◌, ◌++◌, ◌∷◌, [], ℕ, length, None, slice_index_or, false, true, refl, OnOk, OnErr, IfOk, IfErr, vec_len};
ghost use Rattle.std.proofs.Common.{◌∙◌, subst, arith};
ghost use lib.ListN.{replicate};
ghost use Rattle.row_defs.specs.Rows.{Row, kinds_of};
ghost use Rattle.dia_item.specs.declared.row_ref.RowRef.{RowRef};
ghost use Rattle.dia_item.specs.KindList.{kind_list};
ghost use Rattle.dia_item.specs.Lent.{row_in_ref};
ghost use Rattle.dia_item.specs.Sizes.{longest_row};
ghost use Rattle.block_pool.specs.Handles.{HandValue, Follows};
ghost use Rattle.block_pool.specs.Follows.{follows_refl, follows_trans};
ghost use Rattle.dia_file.specs.Frames.{frame_bytes, frames};
ghost use Rattle.exchange.specs.Limits.{most_packets, most_begun};
ghost use Rattle.exchange.specs.Dealing.{sent_to, with_frame, open_frames, AreOpenIn, IsOpenIn, IsDealt, bytes_to, joined, RefusesDeal, SamePost, SentMore, IsFinished};
ghost use Rattle.exchange.specs.Serving.{Took, Accepts, IsServed, Stays, RefusesRow, took_none, took_more, stays_same, stays_too, refuses_from};

use crate::dealing::{put_row, send_frame};
use crate::scatter_err::ScatterErr;
use block_pool::{Frame, Hand, LEAST_BLOCK, Pool};
use dia_edge::{Disk, NoMemory};
use dia_item::{Kinds, RowRef};
use lop_chain::RowSink;
use multiplexer::Post;
use std::alloc::Global;
use std::marker::Model;
use std::snapshot::Snapshot;
use std::sync::Wait;

/// How many rows a scatter takes at most.
const MOST_ROWS: u64 = 1 << 41;

/// Deals rows out to workers: each goes to the one that the route answers for it and for how many rows were taken before it. A frame
/// is written for each worker, and sent when the next row doesn't fit. Contracts see the kinds, the route, the post now and
/// as it was at first, the frames, how many rows were taken, and whether it is shut.
///
/// It doesn't end by being dropped, but after a refusal: the rows in its frames are sent by `finish`.
#[derive(Drop)]
pub struct Scatter<'p, D: Disk, F, P> {
    kinds: Kinds,
    route: F,
    post: P,
    began: Snapshot<P>,
    frames: Vec<Option<Frame>>,
    taken: u64,
    shut: bool,
    // It names the hand that the scatter is lent, and is never there.
    pool: Option<&'p Pool<D>>,
}

impl<'p, D: Disk, F, P> Model for Scatter<'p, D, F, P> {
    ghost use Rattle.std.specs.Coded.{codes};
    ghost use Rattle.dia_item.specs.KindList.{kind_list};
    ghost use Rattle.exchange.specs.Serving.{ScatterValue};

    ghost Value = { ScatterValue F P };

    ghost coded = { Prim.hlevel (codes, F.code, P.code) };

    ghost view = { λ s. record { kinds = kind_list s.kinds; route = s.route; post = s.post; began = s.began.value; frames = s.frames.items; taken = s.taken; is_shut = s.shut } };
}

/// Puts the bytes of a row on their way to a worker.
fn deal<R: Wait, D: Disk, P: Post>(
    rt: &R,
    hand: &mut Hand<'_, D>,
    post: &mut P,
    frames: &mut Vec<Option<Frame>>,
    to: u32,
    bytes: &[u8],
) -> Result<(), ScatterErr>
    requires own { AreOpenIn hand.old.pool frames.old.items }
    requires within { to < vec_len frames.old }
    requires to { to < P.workers post.old }
    requires lanes { length (P.sent post.old) ≡ P.workers post.old }
    requires sent { length (sent_to (P.sent post.old) to) + most_packets < 2 ^ 56 }
    requires permit { vec_len frames.old ≤ hand.old.permits + open_frames frames.old.items }
    requires some { 0 < length bytes.now }
    requires longest { length bytes.now ≤ longest_row }
    requires block { LEAST_BLOCK ≤ hand.old.pool.opening.block }
    ensures ok { OnOk result (IsDealt hand.old.pool (P.sent post.old) to (slice_index_or frames.old.items to None) bytes.now (P.sent post.new) (slice_index_or frames.new.items to None)) }
    ensures others { (w : ℕ) → w ≢ to → slice_index_or frames.new.items w None ≡ slice_index_or frames.old.items w None }
    ensures len { vec_len frames.new ≡ vec_len frames.old }
    ensures same { SamePost P.Post post.old post.new }
    ensures own { AreOpenIn hand.old.pool frames.new.items }
    ensures permits { hand.new.permits + open_frames frames.new.items ≡ hand.old.permits + open_frames frames.old.items }
    ensures refused { IfErr result (λ e. RefusesDeal e hand.old.notes hand.new.notes) }
    ensures follows { Follows hand.old hand.new }
{
    put_row(rt, hand, post, to, &mut frames[to as usize], bytes)
}

impl<'p, D: Disk, F: Fn(RowRef<'_>, u64) -> u32, P: Post> RowSink for Scatter<'p, D, F, P> {
    type Desk = Hand<'p, D>;

    type Refusal = ScatterErr;

    ghost took = { Took F.post P.Post };

    ghost accepts = { Accepts F.pre F.post P.Post };

    ghost serves = { IsServed P.Post };

    ghost is_shut = { λ s. s.is_shut };

    ghost held = { λ s d. d.permits + open_frames s.frames };

    ghost follows = { Follows };

    ghost refused = { λ s a row e t b. RefusesRow e s.taken a b };

    ghost stays = { Stays P.Post };

    fn take<R: Wait>(
        &mut self,
        rt: &R,
        desk: &mut Hand<'p, D>,
        row: RowRef<'_>,
    ) -> Result<(), ScatterErr> {
        if self.taken == MOST_ROWS {
            self.shut = true;
            return Err(ScatterErr::TooManyRows);
        }
        let to = (self.route)(row, self.taken);
        let _columns = row.columns();
        let bytes = row.bytes();
        match deal(rt, desk, &mut self.post, &mut self.frames, to, bytes) {
            Ok(()) => {
                self.taken += 1;
                Ok(())
            }
            Err(refusal) => {
                self.shut = true;
                Err(refusal)
            }
        }
    }

    ghost took_none = { took_none F.post P.Post };

    ghost took_more = { took_more F.post P.Post };

    ghost follows_refl = { follows_refl };

    ghost follows_trans = { follows_trans };

    ghost stays_refl = { stays_same P.Post };

    ghost stays_trans = { stays_too P.Post };

    ghost refused_from = { λ s t a b c row e p q. refuses_from e s.taken a b c p q };
}

/// Sends what is written for a worker.
fn send_slot<R: Wait, D: Disk, P: Post>(
    rt: &R,
    hand: &mut Hand<'_, D>,
    post: &mut P,
    frames: &mut Vec<Option<Frame>>,
    to: u32,
) -> Result<(), NoMemory>
    requires own { AreOpenIn hand.old.pool frames.old.items }
    requires within { to < vec_len frames.old }
    requires to { to < P.workers post.old }
    requires room { length (sent_to (P.sent post.old) to) < 2 ^ 56 }
    ensures sent { OnOk result (P.sent post.new ≡ with_frame (P.sent post.old) to (slice_index_or frames.old.items to None)) }
    ensures none { OnOk result (slice_index_or frames.new.items to None ≡ None) }
    ensures others { (w : ℕ) → w ≢ to → slice_index_or frames.new.items w None ≡ slice_index_or frames.old.items w None }
    ensures len { vec_len frames.new ≡ vec_len frames.old }
    ensures same { SamePost P.Post post.old post.new }
    ensures own { AreOpenIn hand.old.pool frames.new.items }
    ensures permits { hand.new.permits + open_frames frames.new.items ≡ hand.old.permits + open_frames frames.old.items }
    ensures follows { Follows hand.old hand.new }
{
    send_frame(rt, hand, post, to, &mut frames[to as usize])
}

/// Sends what is written for the workers.
fn send_all<R: Wait, D: Disk, P: Post>(
    rt: &R,
    hand: &mut Hand<'_, D>,
    post: &mut P,
    frames: &mut Vec<Option<Frame>>,
    workers: u32,
) -> Result<(), NoMemory>
    requires own { AreOpenIn hand.old.pool frames.old.items }
    requires len { vec_len frames.old ≡ workers }
    requires to { P.workers post.old ≡ workers }
    requires lanes { length (P.sent post.old) ≡ workers }
    requires room { (w : ℕ) → length (sent_to (P.sent post.old) w) < 2 ^ 56 }
    ensures sent { OnOk result ((w : ℕ) → IsFinished hand.old.pool (sent_to (P.sent post.old) w) (slice_index_or frames.old.items w None) (sent_to (P.sent post.new) w)) }
    ensures same { SamePost P.Post post.old post.new }
    ensures permits { OnOk result (hand.new.permits ≡ hand.old.permits + open_frames frames.old.items) }
    ensures follows { Follows hand.old hand.new }
{
    for to in 0..workers {
        send_slot(rt, hand, post, frames, to)?;
    }
    Ok(())
}

/// No frame for any worker.
fn no_frames(alloc: Global, workers: u32) -> Result<Vec<Option<Frame>>, NoMemory>
    ensures none { IfOk result (λ frames. frames.items ≡ replicate workers None) }
{
    let mut frames: Vec<Option<Frame>> = Vec::with_capacity(alloc, workers as usize)?;
    for _worker in 0..workers {
        frames.push_reserved(None);
    }
    Ok(frames)
}

impl<'p, D: Disk, F: Fn(RowRef<'_>, u64) -> u32 + Drop, P: Post + Drop> Scatter<'p, D, F, P> {
    ghost use Rattle.std.specs.Prelude.{◌≡◌, ◌<◌, ◌≤◌, ◌+◌, ◌++◌, ◌^◌, ℕ, length, None, false, IfOk, IfErr, OnOk, slice_index_or};
    ghost use lib.ListN.{replicate};

    /// A scatter that took no rows yet, of rows of these kinds, for so many workers.
    ///
    /// Through the post fewer than 2^55 packets were sent to each of them.
    pub fn new(
        alloc: Global,
        kinds: Kinds,
        workers: u32,
        route: F,
        post: P,
    ) -> Result<Scatter<'p, D, F, P>, NoMemory>
        requires workers { P.workers post ≡ workers }
        requires lanes { length (P.sent post) ≡ workers }
        requires few { (w : ℕ) → length (sent_to (P.sent post) w) < most_begun }
        ensures kinds { IfOk result (λ s. s.kinds ≡ kind_list kinds) }
        ensures route { IfOk result (λ s. s.route ≡ route) }
        ensures post { IfOk result (λ s. (s.post ≡ post) × (s.began ≡ post)) }
        ensures taken { IfOk result (λ s. s.taken ≡ 0) }
        ensures frames { IfOk result (λ s. s.frames ≡ replicate workers None) }
        ensures is_open { IfOk result (λ s. s.is_shut ≡ false) }
        ensures serves { IfOk result (λ s. (d : HandValue) → workers ≤ d.permits → LEAST_BLOCK ≤ d.pool.opening.block → IsServed P.Post s d) }
    {
        let frames = no_frames(alloc, workers)?;
        let began = Snapshot::of(&post);
        Ok(Scatter {
            kinds,
            route,
            post,
            began,
            frames,
            taken: 0,
            shut: false,
            pool: None,
        })
    }

    /// Sends the rest, and answers the post: what was sent to each worker since the scatter was made is the bytes that were on
    /// their way to it, in blocks of the hand's pool, none of them empty and few of them.
    ///
    /// `NoMemory` is the one refusal. What isn't sent by then is lost.
    pub fn finish<R: Wait>(self, rt: &R, hand: &mut Hand<'p, D>) -> Result<P, NoMemory>
        requires { IsServed P.Post self hand.old }
        ensures sent { IfOk result (λ post. (w : ℕ) → joined (sent_to (P.sent post) w) ≡ bytes_to (P.sent self.entry.post) self.entry.frames w) }
        ensures since { IfOk result (λ post. (w : ℕ) → SentMore hand.old.pool (sent_to (P.sent self.entry.began) w) (sent_to (P.sent post) w)) }
        ensures few { IfOk result (λ post. (w : ℕ) → length (sent_to (P.sent post) w) ≤ length (sent_to (P.sent self.entry.began) w) + 2 ^ 48) }
        ensures same { IfOk result (λ post. SamePost P.Post self.entry.post post) }
        ensures permits { OnOk result (hand.new.permits ≡ hand.old.permits + open_frames self.entry.frames) }
        ensures follows { Follows hand.old hand.new }
    {
        let Scatter {
            kinds: _,
            route: _,
            post,
            began: _,
            frames,
            taken: _,
            shut: _,
            pool: _,
        } = self;
        let mut post = post;
        let mut frames = frames;
        let workers = frames.len() as u32;
        send_all(rt, hand, &mut post, &mut frames, workers)?;
        Ok(post)
    }
}
