//! An operand, linked.
ghost use Rattle.std.specs.Prelude.{◌≡◌, ◌≤◌, ◌⊎◌, ◌↔◌, true, false, List, All, length, IfOk, IfErr, OnOk, OnErr, vec_len};
ghost use Rattle.std.specs.List.{AllZip, flat_map};
ghost use Rattle.row_defs.specs.Rows.{Row};
ghost use Rattle.row_defs.specs.LocalOps.{AreSoundOps};
ghost use Rattle.dia_item.specs.KindList.{kind_list};
ghost use Rattle.block_pool.specs.Handles.{HandValue, Follows};
ghost use Rattle.lop_chain.specs.Ops.{ops_in};
ghost use Rattle.lop_chain.specs.Operands.{root_in};
ghost use Rattle.scatter.specs.Carrying.{AreForHand};
ghost use Rattle.scatter.specs.Lines.{HasRoot, root_kinds};
ghost use Rattle.scatter.specs.Stocks.{lines_of, AreInPools};
ghost use Rattle.scatter.specs.Phases.{pools_of, IsUsed};
ghost use Rattle.scatter.specs.Told.{AreTold, arriving};
ghost use Rattle.link.specs.Linking.{CanRoute, HasFrames, IsLinked, rows_sent};
ghost use Rattle.link.specs.Making.{IsMadeReady};
ghost use Rattle.link.specs.Refusals.{LinkRefused};

use crate::ending::finish_all;
use crate::link_err::{LinkErr, refusal_of_net, refusal_of_phase};
use crate::making::{Ready, made_ready};
use crate::sending::send_phase;
use block_pool::Hand;
use dia_edge::{Disk, Gate, NoMemory};
use dia_item::RowRef;
use lop_chain::Operand;
use multiplexer::{Inbox, Mail, Post, SendEnd};
use scatter::{Net, Stock};
use sent_mail::{net_fits, net_stays, settle_sent};
use std::alloc::Global;
use std::snapshot::Snapshot;
use std::sync::Wait;
use std::thread::Threads;
use worker_step::{MOST_TASKS, Way};

/// Links an operand through scatters that took no rows yet.
fn link_ready<
    'p,
    'm,
    R: Threads + Wait + Sync,
    G: Gate + Sync,
    D: Disk + Send + Sync,
    X: Net,
    F: Fn(RowRef<'_>, u64) -> u32 + Send + Drop + 'p,
>(
    rt: &R,
    alloc: Global,
    way: &mut Way<'_, G>,
    stock: &mut Stock<X>,
    operand: &Operand,
    last: bool,
    hands: &mut Vec<Hand<'p, D>>,
    ready: Ready<'p, 'm, D, F>,
    routes: Snapshot<Vec<F>>,
    mail: Snapshot<Mail>,
) -> Result<Vec<Inbox>, LinkErr>
    requires mail { length mail.value.mail ≡ vec_len hands.old }
    requires ready { IsMadeReady ⟦<SendEnd<'m> as Post>⟧ (kind_list operand.now.kinds) mail.value.mail routes.value.items ready.dealers.items ready.recvs.items ready.room }
    requires few { vec_len hands.old ≤ MOST_TASKS }
    requires long { (vec_len hands.old ≡ stock.old.workers) × (vec_len routes.value ≡ stock.old.workers) }
    requires root { HasRoot (lines_of stock.old) (root_in operand.now.root) }
    requires own { AreInPools (pools_of hands.old.items) (lines_of stock.old) }
    requires sound { AreSoundOps (root_kinds (lines_of stock.old) (root_in operand.now.root)) (ops_in operand.now.chain.items) (kind_list operand.now.kinds) }
    requires permits { All (HasFrames stock.old.workers) hands.old.items }
    requires routes { All (CanRoute F.pre F.post (kind_list operand.now.kinds) stock.old.workers) routes.value.items }
    requires fits { X.fits stock.old.net hands.old.items }

    ensures pools { IfOk result (λ boxes. AllZip AreForHand hands.new.items boxes.items) }
    ensures linked { IfOk result (λ boxes. IsLinked F.post (kind_list operand.now.kinds) routes.value.items
        (rows_sent (lines_of stock.old) stock.old.workers (root_in operand.now.root) (ops_in operand.now.chain.items))
        (AreTold (root_in operand.now.root) hands.old.items) (X.tells stock.old.net) hands.old.items boxes.items) }
    ensures permits { OnOk result (AllZip (λ (a b : HandValue). b.permits ≡ a.permits) hands.old.items hands.new.items) }
    ensures tells { OnOk result (X.tells stock.old.net ≡ true → X.tells stock.new.net ≡ true) }
    ensures refused { IfErr result (LinkRefused
        (rows_sent (lines_of stock.old) stock.old.workers (root_in operand.now.root) (ops_in operand.now.chain.items))
        (AreTold (root_in operand.now.root) hands.old.items) (X.tells stock.old.net)
        (X.faults stock.old.net) (X.faults stock.new.net) hands.old.items hands.new.items) }
    ensures lines { OnOk result (IsUsed (lines_of stock.old) (root_in operand.now.root) last (lines_of stock.new)) }
    ensures left { OnErr result (IsUsed (lines_of stock.old) (root_in operand.now.root) last (lines_of stock.new) ⊎ (lines_of stock.new ≡ lines_of stock.old)) }

    // On every answer.
    ensures joined { flat_map (λ (rows : List Row). rows)
        (rows_sent (lines_of stock.old) stock.old.workers (root_in operand.now.root) (ops_in operand.now.chain.items))
        ≡ arriving (lines_of stock.old) (root_in operand.now.root) (ops_in operand.now.chain.items) }
    ensures follows { AllZip Follows hands.old.items hands.new.items }
    ensures fits { (list : List HandValue) → X.fits stock.new.net list ↔ X.fits stock.old.net list }
    ensures counts { X.faults stock.old.net ≤ X.faults stock.new.net }
    ensures stays { X.stays stock.old.net stock.new.net }
    ensures workers { stock.new.workers ≡ stock.old.workers }
{
    stock.joined(operand, last);
    net_stays(stock);
    let began = Snapshot::of(&*hands);
    let _ = routes;
    let _ = mail;
    let Ready {
        mut dealers,
        recvs,
        room,
    } = ready;
    if let Err(fault) = send_phase(rt, alloc, way, stock, operand, last, hands, &mut dealers) {
        return Err(refusal_of_phase(fault));
    }
    let Ok(sends) = finish_all(rt, alloc, hands, dealers, room) else {
        return Err(LinkErr::NoMemory);
    };
    net_fits(stock, began, hands);
    match settle_sent(rt, alloc, stock, hands, sends, recvs) {
        Ok(boxes) => Ok(boxes),
        Err(fault) => Err(refusal_of_net(fault)),
    }
}

/// Links an operand through a mail whose ends weren't given out.
fn link_mail<
    'p,
    R: Threads + Wait + Sync,
    G: Gate + Sync,
    D: Disk + Send + Sync,
    X: Net,
    F: Fn(RowRef<'_>, u64) -> u32 + Send + Drop + 'p,
>(
    rt: &R,
    alloc: Global,
    way: &mut Way<'_, G>,
    stock: &mut Stock<X>,
    operand: &Operand,
    last: bool,
    routes: Vec<F>,
    hands: &mut Vec<Hand<'p, D>>,
    mail: &mut Mail,
) -> Result<Vec<Inbox>, LinkErr>
    requires new { mail.old.is_given ≡ false }
    requires mail { length mail.old.mail ≡ vec_len hands.old }
    requires few { vec_len hands.old ≤ MOST_TASKS }
    requires long { (vec_len hands.old ≡ stock.old.workers) × (vec_len routes ≡ stock.old.workers) }
    requires root { HasRoot (lines_of stock.old) (root_in operand.now.root) }
    requires own { AreInPools (pools_of hands.old.items) (lines_of stock.old) }
    requires sound { AreSoundOps (root_kinds (lines_of stock.old) (root_in operand.now.root)) (ops_in operand.now.chain.items) (kind_list operand.now.kinds) }
    requires permits { All (HasFrames stock.old.workers) hands.old.items }
    requires routes { All (CanRoute F.pre F.post (kind_list operand.now.kinds) stock.old.workers) routes.items }
    requires fits { X.fits stock.old.net hands.old.items }

    ensures pools { IfOk result (λ boxes. AllZip AreForHand hands.new.items boxes.items) }
    ensures linked { IfOk result (λ boxes. IsLinked F.post (kind_list operand.now.kinds) routes.items
        (rows_sent (lines_of stock.old) stock.old.workers (root_in operand.now.root) (ops_in operand.now.chain.items))
        (AreTold (root_in operand.now.root) hands.old.items) (X.tells stock.old.net) hands.old.items boxes.items) }
    ensures permits { OnOk result (AllZip (λ (a b : HandValue). b.permits ≡ a.permits) hands.old.items hands.new.items) }
    ensures tells { OnOk result (X.tells stock.old.net ≡ true → X.tells stock.new.net ≡ true) }
    ensures refused { IfErr result (LinkRefused
        (rows_sent (lines_of stock.old) stock.old.workers (root_in operand.now.root) (ops_in operand.now.chain.items))
        (AreTold (root_in operand.now.root) hands.old.items) (X.tells stock.old.net)
        (X.faults stock.old.net) (X.faults stock.new.net) hands.old.items hands.new.items) }
    ensures lines { OnOk result (IsUsed (lines_of stock.old) (root_in operand.now.root) last (lines_of stock.new)) }
    ensures left { OnErr result (IsUsed (lines_of stock.old) (root_in operand.now.root) last (lines_of stock.new) ⊎ (lines_of stock.new ≡ lines_of stock.old)) }

    // On every answer.
    ensures joined { flat_map (λ (rows : List Row). rows)
        (rows_sent (lines_of stock.old) stock.old.workers (root_in operand.now.root) (ops_in operand.now.chain.items))
        ≡ arriving (lines_of stock.old) (root_in operand.now.root) (ops_in operand.now.chain.items) }
    ensures follows { AllZip Follows hands.old.items hands.new.items }
    ensures fits { (list : List HandValue) → X.fits stock.new.net list ↔ X.fits stock.old.net list }
    ensures counts { X.faults stock.old.net ≤ X.faults stock.new.net }
    ensures stays { X.stays stock.old.net stock.new.net }
    ensures workers { stock.new.workers ≡ stock.old.workers }
{
    stock.joined(operand, last);
    net_stays(stock);
    let routes_were = Snapshot::of(&routes);
    let mail_was = Snapshot::of(&*mail);
    let ready: Ready<'p, '_, D, F> = match made_ready(alloc, mail, operand.kinds, routes) {
        Ok(ready) => ready,
        Err(NoMemory) => return Err(LinkErr::NoMemory),
    };
    link_ready(
        rt,
        alloc,
        way,
        stock,
        operand,
        last,
        hands,
        ready,
        routes_were,
        mail_was,
    )
}

/// How an operand is linked.
#[derive(Drop)]
pub struct Link<F> {
    /// Whether this is the last use of the operand's root.
    pub last: bool,
    /// By rank, what answers the worker to whom a row goes, of the row and of how many rows its sender sent before it.
    pub routes: Vec<F>,
}

impl<F: Fn(RowRef<'_>, u64) -> u32 + Send + Drop> Link<F> {
    /// Each worker pushes the rows of its part of the root through the chain, and sends each row that is made to the worker
    /// that its route answers. For each worker the packets that were sent to it, in blocks of its own pool.
    ///
    /// `TooManyRows` comes where a worker has more than 2^41 rows to send, `Disk` only where a hand's disk failed in this
    /// call, `Damaged` never where the disks and the net tell, `Link` only where the net failed in this call, and `LinkBytes`
    /// never where it tells.
    pub fn run<'p, R: Threads + Wait + Sync, G: Gate + Sync, D: Disk + Send + Sync, X: Net>(
        self,
        rt: &R,
        alloc: Global,
        way: &mut Way<'_, G>,
        stock: &mut Stock<X>,
        operand: &Operand,
        hands: &mut Vec<Hand<'p, D>>,
    ) -> Result<Vec<Inbox>, LinkErr>
    where
        F: 'p,
        requires few { vec_len hands.old ≤ MOST_TASKS }
        requires long { (vec_len hands.old ≡ stock.old.workers) × (vec_len self.routes ≡ stock.old.workers) }
        requires root { HasRoot (lines_of stock.old) (root_in operand.now.root) }
        requires own { AreInPools (pools_of hands.old.items) (lines_of stock.old) }
        requires sound { AreSoundOps (root_kinds (lines_of stock.old) (root_in operand.now.root)) (ops_in operand.now.chain.items) (kind_list operand.now.kinds) }
        requires permits { All (HasFrames stock.old.workers) hands.old.items }
        requires routes { All (CanRoute F.pre F.post (kind_list operand.now.kinds) stock.old.workers) self.routes.items }
        requires fits { X.fits stock.old.net hands.old.items }

        ensures pools { IfOk result (λ boxes. AllZip AreForHand hands.new.items boxes.items) }
        ensures linked { IfOk result (λ boxes. IsLinked F.post (kind_list operand.now.kinds) self.routes.items
            (rows_sent (lines_of stock.old) stock.old.workers (root_in operand.now.root) (ops_in operand.now.chain.items))
            (AreTold (root_in operand.now.root) hands.old.items) (X.tells stock.old.net) hands.old.items boxes.items) }
        ensures permits { OnOk result (AllZip (λ (a b : HandValue). b.permits ≡ a.permits) hands.old.items hands.new.items) }
        ensures tells { OnOk result (X.tells stock.old.net ≡ true → X.tells stock.new.net ≡ true) }
        ensures refused { IfErr result (LinkRefused
            (rows_sent (lines_of stock.old) stock.old.workers (root_in operand.now.root) (ops_in operand.now.chain.items))
            (AreTold (root_in operand.now.root) hands.old.items) (X.tells stock.old.net)
            (X.faults stock.old.net) (X.faults stock.new.net) hands.old.items hands.new.items) }
        ensures lines { OnOk result (IsUsed (lines_of stock.old) (root_in operand.now.root) self.last (lines_of stock.new)) }
        ensures left { OnErr result (IsUsed (lines_of stock.old) (root_in operand.now.root) self.last (lines_of stock.new) ⊎ (lines_of stock.new ≡ lines_of stock.old)) }

        // On every answer.
        ensures joined { flat_map (λ (rows : List Row). rows)
            (rows_sent (lines_of stock.old) stock.old.workers (root_in operand.now.root) (ops_in operand.now.chain.items))
            ≡ arriving (lines_of stock.old) (root_in operand.now.root) (ops_in operand.now.chain.items) }
        ensures follows { AllZip Follows hands.old.items hands.new.items }
        ensures fits { (list : List HandValue) → X.fits stock.new.net list ↔ X.fits stock.old.net list }
        ensures counts { X.faults stock.old.net ≤ X.faults stock.new.net }
        ensures stays { X.stays stock.old.net stock.new.net }
        ensures workers { stock.new.workers ≡ stock.old.workers }
    {
        stock.joined(operand, self.last);
        net_stays(stock);
        let Ok(mut mail) = Mail::open(alloc, hands.len() as u32) else {
            return Err(LinkErr::NoMemory);
        };
        let Link { last, routes } = self;
        link_mail(
            rt, alloc, way, stock, operand, last, routes, hands, &mut mail,
        )
    }
}
