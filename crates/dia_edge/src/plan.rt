//! The calls of an object in memory that are to fail.
ghost use Rattle.std.specs.Prelude.{◌≡◌, ◌≤◌, is_ok, not};
ghost use Rattle.dia_edge.specs.Plans.{fresh, is_next_planned, faulted, called};

use crate::count::Count;
use crate::refusals::Failed;
use std::marker::Model;

/// Which calls are to fail, by their numbers from 1, and how many calls and faults there were.
#[derive(Debug, Drop)]
pub(crate) struct FaultPlan {
    fail: Vec<u64>,
    calls: Count,
    faults: Count,
}

impl Model for FaultPlan {
    ghost use Rattle.dia_edge.specs.Plans.{Plan};

    ghost Value = { Plan };

    ghost view = { λ plan. record { fail = plan.fail.items; calls = plan.calls.number; faults = plan.faults.number } };
}

impl FaultPlan {
    pub(crate) fn new(fail: Vec<u64>) -> FaultPlan
        ensures { result ≡ fresh fail.items }
    {
        FaultPlan {
            fail,
            calls: Count::zero(),
            faults: Count::zero(),
        }
    }

    /// Counts one more call, and a fault where it is to fail.
    pub(crate) fn next_call(&mut self) -> Result<(), Failed>
        ensures answer { is_ok result ≡ not (is_next_planned self.old) }
        ensures after { self.new ≡ called self.old (is_ok result) }
        ensures counts { self.old.faults ≤ self.new.faults }
    {
        self.calls.raise();
        if self.fail.contains(&self.calls.get()) {
            return Err(self.faults.fault());
        }
        Ok(())
    }

    /// Counts a fault that no plan foresaw, as a want of memory, and answers it.
    pub(crate) fn fault(&mut self) -> Failed
        ensures after { self.new ≡ faulted self.old }
        ensures counts { self.old.faults ≤ self.new.faults }
    {
        self.faults.fault()
    }

    pub(crate) fn fault_count(&self) -> u64
        ensures { result ≡ self.now.faults }
    {
        self.faults.get()
    }
}
