//! The standard streams as sinks.
ghost use Rattle.std.specs.Prelude.{◌≡◌, None};

use crate::count::Count;
use crate::refusals::Failed;
use crate::sink::Sink;
use std::io::Print;
use std::rt::{Stderr, Stdout};

/// A standard stream. What `put` answered Ok is written, and nothing is held back.
///
/// A write that takes nothing of a piece that isn't empty is a fault. It doesn't tell what it took: that the bytes
/// reach the stream is not proved, but rests on the system.
#[derive(Drop)]
pub struct StdSink<P: Print> {
    stream: P,
    faults: Count,
}

impl StdSink<Stdout> {
    /// Standard output.
    pub fn out(rt: HostRuntime) -> StdSink<Stdout>
        ensures { ⟦<StdSink<Stdout> as Sink>⟧.faults result ≡ 0 }
    {
        StdSink {
            stream: rt.stdout(),
            faults: Count::zero(),
        }
    }
}

impl StdSink<Stderr> {
    /// Standard error.
    pub fn err(rt: HostRuntime) -> StdSink<Stderr>
        ensures { ⟦<StdSink<Stderr> as Sink>⟧.faults result ≡ 0 }
    {
        StdSink {
            stream: rt.stderr(),
            faults: Count::zero(),
        }
    }
}

impl<P: Print> Sink for StdSink<P> {
    ghost taken = { λ _. None };

    ghost faults = { λ sink. sink.faults.number };

    fn put(&mut self, bytes: &[u8]) -> Result<(), Failed> {
        match self.stream.write_all(bytes) {
            Ok(()) => Ok(()),
            Err(_) => Err(self.faults.fault()),
        }
    }

    fn fault_count(&self) -> u64 {
        self.faults.get()
    }
}
