//! The mail of all workers, settled.
ghost use Rattle.std.specs.Prelude.{◌≡◌, IfOk, vec_len};
ghost use Rattle.std.specs.List.{AllZip};
ghost use Rattle.multiplexer.specs.Settling.{AreAllEnds};
ghost use Rattle.scatter.specs.Carrying.{IsFrontOf, IsJoined, AreMixes};
ghost use Rattle.scatter.specs.Phases.{AllThree};

use dia_edge::NoMemory;
use multiplexer::{Inbox, Packet, RecvEnd, SendEnd, settle};
use std::alloc::Global;
use std::sync::Wait;

/// Each Inbox behind the packets that its receiver took before. Without memory all are dropped.
fn join_all(
    alloc: Global,
    fronts: Vec<Vec<Packet>>,
    boxes: Vec<Inbox>,
) -> Result<Vec<Inbox>, NoMemory>
    requires { vec_len fronts ≡ vec_len boxes }
    ensures { IfOk result (λ whole. AllThree IsJoined fronts.items boxes.items whole.items) }
{
    let mut whole = Vec::with_capacity(alloc, boxes.len())?;
    let mut boxes = boxes.into_iter();
    for front in fronts {
        let Some(rest) = boxes.next() else {
            unreachable!()
        };
        whole.push_reserved(Inbox::join(front, rest)?);
    }
    Ok(whole)
}

/// For each receiver all packets that were sent to it: those that it took, which are in front, and those that it didn't.
pub(crate) fn settle_all<'m, R: Wait>(
    rt: &R,
    alloc: Global,
    fronts: Vec<Vec<Packet>>,
    sends: Vec<SendEnd<'m>>,
    recvs: Vec<RecvEnd<'m>>,
) -> Result<Vec<Inbox>, NoMemory>
    requires ends { AreAllEnds sends.items recvs.items }
    requires fronts { AllZip IsFrontOf fronts.items recvs.items }
    ensures { IfOk result (λ boxes. AreMixes sends.entry.items boxes.items) }
{
    let boxes = settle(rt, alloc, sends, recvs)?;
    join_all(alloc, fronts, boxes)
}
