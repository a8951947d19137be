//! A sink in memory.
ghost use Rattle.std.specs.Prelude.{◌≡◌, ◌≤◌, Some, [], false, is_ok, OnOk, OnErr};
ghost use Rattle.dia_edge.specs.Counts.{HasRisen};
ghost use Rattle.dia_edge.specs.Memory.{collected};
ghost use Rattle.dia_edge.specs.Plans.{fresh, is_next_planned};
ghost use Rattle.dia_edge.specs.Sinks.{TookAll, TookPrefix};

use crate::plan::FaultPlan;
use crate::refusals::Failed;
use crate::sink::Sink;
use std::alloc::Global;
use std::marker::Model;

/// A sink that keeps what it takes, and tells it.
#[derive(Debug, Drop)]
pub struct MemSink {
    bytes: Vec<u8>,
    plan: FaultPlan,
}

impl Model for MemSink {
    ghost use Rattle.dia_edge.specs.Memory.{Collected};

    ghost Value = { Collected };

    ghost view = { λ sink. record { taken = sink.bytes.items; plan = sink.plan } };
}

impl MemSink {
    /// An empty sink. The calls of `put` that are numbered in `fail`, from 1, take nothing and fail; so does one
    /// for which there is no memory.
    pub fn new(alloc: Global, fail: Vec<u64>) -> MemSink
        ensures whole { result ≡ record { taken = []; plan = fresh fail.items } }
        ensures taken { ⟦<MemSink as Sink>⟧.taken result ≡ Some [] }
        ensures faults { ⟦<MemSink as Sink>⟧.faults result ≡ 0 }
    {
        MemSink {
            bytes: Vec::new(alloc),
            plan: FaultPlan::new(fail),
        }
    }

    /// The bytes taken so far.
    pub fn bytes(&self) -> &[u8]
        ensures bytes { result.now ≡ self.now.taken }
        ensures taken { ⟦<MemSink as Sink>⟧.taken self.now ≡ Some result.now }
    {
        &self.bytes
    }
}

impl Sink for MemSink {
    ghost taken = { λ sink. Some sink.taken };

    ghost faults = { λ sink. sink.plan.faults };

    fn put(&mut self, bytes: &[u8]) -> Result<(), Failed>
        ensures ok { OnOk result (TookAll (Some self.old.taken) bytes.now (Some self.new.taken)) }
        ensures failed { OnErr result (TookPrefix (Some self.old.taken) bytes.now (Some self.new.taken)) }
        ensures rose { OnErr result (HasRisen self.old.plan.faults self.new.plan.faults) }
        ensures counts { self.old.plan.faults ≤ self.new.plan.faults }
        ensures planned { OnOk result (is_next_planned self.old.plan ≡ false) }
        ensures after { self.new ≡ collected self.old bytes.now (is_ok result) }
    {
        self.plan.next_call()?;
        if self.bytes.extend_from_slice(bytes).is_err() {
            return Err(self.plan.fault());
        }
        Ok(())
    }

    fn fault_count(&self) -> u64 {
        self.plan.fault_count()
    }
}
