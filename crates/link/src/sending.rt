//! The phase in which all workers send.
ghost use Rattle.std.specs.Prelude.{◌≡◌, ◌≤◌, ◌⊎◌, All, OnOk, IfErr, OnErr, vec_len};
ghost use Rattle.std.specs.List.{AllZip};
ghost use Rattle.row_defs.specs.LocalOps.{AreSoundOps};
ghost use Rattle.dia_item.specs.KindList.{kind_list};
ghost use Rattle.block_pool.specs.Handles.{Follows};
ghost use Rattle.lop_chain.specs.Ops.{ops_in};
ghost use Rattle.lop_chain.specs.Operands.{root_in};
ghost use Rattle.exchange.specs.Serving.{Stays};
ghost use Rattle.scatter.specs.Lines.{HasRoot, root_kinds, root_feeds};
ghost use Rattle.scatter.specs.Stocks.{lines_of, AreInPools};
ghost use Rattle.scatter.specs.Phases.{pools_of, IsUsed, HasSent, HasStopped};
ghost use Rattle.link.specs.Linking.{HasFrames};
ghost use Rattle.link.specs.Scattering.{IsReadyScatter};

use crate::dealer::Dealer;
use block_pool::Hand;
use dia_edge::{Disk, Gate, NoMemory};
use dia_item::RowRef;
use exchange::ScatterErr;
use hand_phase::run_hands;
use lop_chain::{Operand, RowSink};
use multiplexer::{Post, SendEnd};
use scatter::{FeedErr, Net, Phase, Stock};
use std::alloc::Global;
use std::sync::Wait;
use std::thread::Threads;
use worker_step::{MOST_TASKS, Way};

/// One phase: each worker deals out what is made of the rows of its feed.
pub(crate) fn send_phase<
    'p,
    'm,
    R: Threads + Wait + Sync,
    G: Gate + Sync,
    D: Disk + Send + Sync,
    X: Net,
    F: Fn(RowRef<'_>, u64) -> u32 + Send + Drop + 'p,
>(
    rt: &R,
    alloc: Global,
    way: &mut Way<'_, G>,
    stock: &mut Stock<X>,
    operand: &Operand,
    last: bool,
    hands: &mut Vec<Hand<'p, D>>,
    dealers: &mut Vec<Dealer<'p, D, F, SendEnd<'m>>>,
) -> Result<(), FeedErr<ScatterErr>>
    requires few { vec_len hands.old ≤ MOST_TASKS }
    requires long { (vec_len hands.old ≡ stock.old.workers) × (vec_len dealers.old ≡ stock.old.workers) }
    requires root { HasRoot (lines_of stock.old) (root_in operand.now.root) }
    requires own { AreInPools (pools_of hands.old.items) (lines_of stock.old) }
    requires sound { AreSoundOps (root_kinds (lines_of stock.old) (root_in operand.now.root)) (ops_in operand.now.chain.items) (kind_list operand.now.kinds) }
    requires permits { All (HasFrames stock.old.workers) hands.old.items }
    requires ready { All (IsReadyScatter ⟦<SendEnd<'m> as Post>⟧ F.pre F.post (kind_list operand.now.kinds) stock.old.workers) dealers.old.items }

    ensures sent { OnOk result (HasSent ⟦<Dealer<'p, D, F, SendEnd<'m>> as RowSink>⟧
        (root_feeds (lines_of stock.old) stock.old.workers (root_in operand.now.root) last (ops_in operand.now.chain.items))
        dealers.old.items hands.old.items dealers.new.items hands.new.items) }
    ensures stopped { IfErr result (λ e. (e ≡ FeedErr.NoMemory) ⊎ HasStopped ⟦<Dealer<'p, D, F, SendEnd<'m>> as RowSink>⟧
        (root_feeds (lines_of stock.old) stock.old.workers (root_in operand.now.root) last (ops_in operand.now.chain.items))
        dealers.old.items hands.old.items dealers.new.items hands.new.items e) }
    ensures lines { OnOk result (IsUsed (lines_of stock.old) (root_in operand.now.root) last (lines_of stock.new)) }
    ensures left { OnErr result (IsUsed (lines_of stock.old) (root_in operand.now.root) last (lines_of stock.new) ⊎ (stock.new ≡ stock.old)) }

    // On every answer.
    ensures stays { AllZip (Stays ⟦<SendEnd<'m> as Post>⟧) dealers.old.items dealers.new.items }
    ensures follows { AllZip Follows hands.old.items hands.new.items }
    ensures net { stock.new.net ≡ stock.old.net }
    ensures workers { stock.new.workers ≡ stock.old.workers }
{
    let mut phase: Phase<'p, D, X, Dealer<'p, D, F, SendEnd<'m>>> = match Phase::begin(
        alloc, stock, operand, last, hands, dealers,
    ) {
        Ok(phase) => phase,
        Err(NoMemory) => return Err(FeedErr::NoMemory),
    };
    let answer = run_hands(rt, alloc, way, hands, &mut phase.sends);
    phase.finish(rt, alloc, stock, hands, dealers, answer)
}
