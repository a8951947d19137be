//! What was sent, settled.
ghost use Rattle.std.specs.Prelude.{◌≡◌, ◌≤◌, ◌↔◌, true, List, All, [], IfOk, IfErr, OnOk, vec_len};
ghost use Rattle.std.specs.List.{AllZip};
ghost use Rattle.block_pool.specs.Handles.{HandValue, Follows};
ghost use Rattle.multiplexer.specs.Receiving.{RecvValue};
ghost use Rattle.multiplexer.specs.Settling.{AreAllEnds};
ghost use Rattle.scatter.specs.Carrying.{AreForHand, AreMixesOnBytes, IsFrontOf, NotCarried, SendsOwn};
ghost use Rattle.scatter.specs.Nets.{IsAsGood};
ghost use Rattle.scatter.specs.Stocks.{lines_of};

use block_pool::Hand;
use dia_edge::{Disk, NoMemory};
use multiplexer::{Inbox, Packet, RecvEnd, SendEnd};
use scatter::{Net, NetErr, Stock};
use std::alloc::Global;
use std::snapshot::Snapshot;
use std::sync::Wait;

/// Says that a stock's net stays what it is.
pub fn net_stays<X: Net>(stock: &Stock<X>)
    ensures { X.stays stock.now.net stock.now.net }
{
    let _ = stock;
}

/// Says that a net that serves hands serves them later, with as many permits.
pub fn net_fits<'p, D: Disk, X: Net>(
    stock: &Stock<X>,
    began: Snapshot<Vec<Hand<'p, D>>>,
    hands: &Vec<Hand<'p, D>>,
)
    requires fits { X.fits stock.now.net began.value.items }
    requires good { AllZip IsAsGood began.value.items hands.now.items }
    ensures { X.fits stock.now.net hands.now.items }
{
    let _ = stock;
    let _ = began;
    let _ = hands;
}

/// No packets, for each of these ends, of which none took any.
fn no_fronts<'m>(alloc: Global, recvs: &[RecvEnd<'m>]) -> Result<Vec<Vec<Packet>>, NoMemory>
    requires { All (λ (r : RecvValue). r.taken ≡ []) recvs.now }
    ensures { IfOk result (λ fronts. AllZip IsFrontOf fronts.items recvs.entry.now) }
{
    let mut fronts = Vec::with_capacity(alloc, recvs.len())?;
    for _recv in recvs {
        fronts.push_reserved(Vec::new(alloc));
    }
    Ok(fronts)
}

/// Settles the mail of all workers, of which no receiver took a packet yet, and brings what was sent to the pools of those who
/// are to read it. It waits.
///
/// The refusals are those of the net, and want of memory; what was sent is lost then.
pub fn settle_sent<'m, R: Wait, D: Disk, X: Net>(
    rt: &R,
    alloc: Global,
    stock: &mut Stock<X>,
    hands: &mut Vec<Hand<'_, D>>,
    sends: Vec<SendEnd<'m>>,
    recvs: Vec<RecvEnd<'m>>,
) -> Result<Vec<Inbox>, NetErr>
    requires ends { AreAllEnds sends.items recvs.items }
    requires count { (vec_len recvs ≡ stock.old.workers) × (vec_len hands.old ≡ stock.old.workers) }
    requires none { All (λ (r : RecvValue). r.taken ≡ []) recvs.items }
    requires own { AllZip SendsOwn hands.old.items sends.items }
    requires fits { X.fits stock.old.net hands.old.items }

    ensures pools { IfOk result (λ boxes. AllZip AreForHand hands.new.items boxes.items) }
    ensures mixes { IfOk result (λ boxes. X.tells stock.old.net ≡ true → AreMixesOnBytes hands.old.items sends.entry.items boxes.items) }
    ensures tells { OnOk result (X.tells stock.old.net ≡ true → X.tells stock.new.net ≡ true) }
    ensures permits { OnOk result (AllZip (λ (a b : HandValue). b.permits ≡ a.permits) hands.old.items hands.new.items) }
    ensures refused { IfErr result (λ e. NotCarried (X.tells stock.old.net) (X.faults stock.old.net) (X.faults stock.new.net) hands.old.items hands.new.items e) }

    // On every answer.
    ensures follows { AllZip Follows hands.old.items hands.new.items }
    ensures fits { (list : List HandValue) → X.fits stock.new.net list ↔ X.fits stock.old.net list }
    ensures counts { X.faults stock.old.net ≤ X.faults stock.new.net }
    ensures stays { X.stays stock.old.net stock.new.net }
    ensures lines { lines_of stock.new ≡ lines_of stock.old }
    ensures workers { stock.new.workers ≡ stock.old.workers }
{
    net_stays(stock);
    let Ok(fronts) = no_fronts(alloc, recvs.as_slice()) else {
        return Err(NetErr::NoMemory);
    };
    stock.settle(rt, alloc, hands, fronts, sends, recvs)
}
