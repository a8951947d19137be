//! Sinks: where texts go.
ghost use Rattle.std.specs.Prelude.{◌≡◌, ℕ, ◌≤◌, [], List, Option, is_some, OnOk, OnErr};
ghost use Rattle.dia_edge.specs.Counts.{HasRisen};
ghost use Rattle.dia_edge.specs.Sinks.{TookAll, TookPrefix, Puts};

use crate::refusals::Failed;

/// Takes bytes, one piece after the other.
pub trait Sink {
    // The bytes taken, where the sink tells.
    ghost taken: { Self → Option (List ℕ) };
    // How many calls failed; it stands still at 2^64 - 1.
    ghost faults: { Self → ℕ };

    /// Takes the whole piece. After a failure it took some prefix of the piece, which may be nothing or all of it.
    fn put(&mut self, bytes: &[u8]) -> Result<(), Failed>
        ensures ok { OnOk result (TookAll (taken self.old) bytes.now (taken self.new)) }
        ensures failed { OnErr result (TookPrefix (taken self.old) bytes.now (taken self.new)) }
        ensures rose { OnErr result (HasRisen (faults self.old) (faults self.new)) }
        ensures counts { faults self.old ≤ faults self.new }
        ensures tells { is_some (taken self.new) ≡ is_some (taken self.old) }
        // All this as one word.
        ensures puts { Puts taken faults self.old self.new bytes.now [] result };

    /// How many calls failed so far; it stands still at `u64::MAX`.
    fn fault_count(&self) -> u64
        ensures { result ≡ faults self.now };
}
