//! What no clause says: that a phase has memory where there is enough, and does the works.
ghost use Rattle.std.specs.Prelude.{◌≡◌, ◌≤◌, refl, ⊤};
ghost use Rattle.std.proofs.Common.{arith};

use crate::{LentTask, Stopped, run_lent};
use dia_edge::OpenGate;
use std::alloc::{AllocError, Global};
use std::process::Abort;
use std::sync::Wait;
use std::test::Fail;
use std::thread::Threads;
use worker_step::{Progress, Way};

/// What a worker keeps: how many sheets were stamped there.
#[derive(Debug, PartialEq, Eq, Drop)]
struct Desk {
    stamped: u64,
}

/// Stamps some sheets, and faults at a stamp of its own.
#[derive(Debug, PartialEq, Eq, Drop)]
struct Stamping {
    sheets: u32,
    faults_at: Option<u32>,
}

impl LentTask for Stamping {
    type Desk = Desk;

    type Fault = u32;

    ghost ready = { λ t a. ⊤ };

    ghost follows = { λ t a u b. a.stamped ≤ b.stamped };

    ghost keeps = { λ a b. a.stamped ≤ b.stamped };

    ghost done = { λ t a. t.sheets ≡ 0 };

    ghost faulted = { λ a e t b. e ≡ t.sheets };

    ghost left = { λ t. t.sheets };

    fn step<R: Wait>(&mut self, _rt: &R, desk: &mut Desk) -> Result<Progress, u32> {
        if self.faults_at == Some(self.sheets) {
            return Err(self.sheets);
        }
        if self.sheets == 0 {
            return Ok(Progress::Done);
        }
        self.sheets -= 1;
        desk.stamped = desk.stamped.saturating_add(1);
        Ok(Progress::More)
    }

    ghost follows_refl = { λ t a. Prim.omega arith };

    ghost follows_trans = { λ t u v a b c p q. Prim.omega (arith, p, q) };

    ghost follows_keeps = { λ t u a b p. p };

    ghost keeps_refl = { λ a. Prim.omega arith };

    ghost keeps_trans = { λ a b c p q. Prim.omega (arith, p, q) };

    ghost faulted_from = { λ t a b c e p q. q };
}

fn desks(alloc: Global) -> Result<Vec<Desk>, AllocError> {
    let [one, two, three] = [0, 10, 20].map(|stamped| Desk { stamped });
    Ok(vec![in alloc; one, two, three]?)
}

fn works(alloc: Global, faults_at: Option<u32>) -> Result<Vec<Stamping>, AllocError> {
    let [one, two, three] = [(3, None), (5, faults_at), (0, None)].map(|(
        sheets,
        faults_at,
    )| Stamping { sheets, faults_at });
    Ok(vec![in alloc; one, two, three]?)
}

/// Runs a phase of three works, of which the second may fault, and looks at what came back.
fn stamps<R: Threads + Wait + Abort + Sync>(
    rt: &R,
    alloc: Global,
    faults_at: Option<u32>,
    answer: Result<(), Stopped<u32>>,
    (stamped, sheets): (u64, u32),
) -> Result<(), AllocError> {
    let mut threads = Way::Threads {
        gate: &OpenGate,
        phase: 0,
    };
    let mut desks = desks(alloc)?;
    let mut works = works(alloc, faults_at)?;
    assert_eq!(rt; desks.len(), 3);
    assert_eq!(rt; works.len(), 3);
    assert_eq!(rt;
        run_lent(rt, alloc, &mut threads, &mut desks, &mut works),
        answer
    );
    assert_eq!(rt; desks.len(), 3);
    assert_eq!(rt; works.len(), 3);
    assert_eq!(rt;
        (desks[0].stamped, desks[1].stamped, desks[2].stamped),
        (3, stamped, 20)
    );
    assert_eq!(rt;
        (works[0].sheets, works[1].sheets, works[2].sheets),
        (0, sheets, 0)
    );
    Ok(())
}

#[test]
fn desks_and_works_come_back_to_their_ranks(rt: HostRuntime) -> Result<(), Fail> {
    stamps(&rt, rt.alloc(), None, Ok(()), (15, 0))?;
    stamps(&rt, rt.alloc(), Some(2), Err(Stopped::Fault(2)), (13, 2))?;
    Ok(())
}
