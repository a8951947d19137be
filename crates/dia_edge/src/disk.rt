//! Disks: where blocks are spilled.
ghost use Rattle.std.specs.Prelude.{◌≡◌, ℕ, ◌≤◌, List, Option, is_some, length, OnOk, OnErr};
ghost use Rattle.dia_edge.specs.Counts.{HasRisen, raised};
ghost use Rattle.dia_edge.specs.Disks.{Slots, CanFill, IsFilled, IsWritten, OthersStay};

use crate::refusals::Failed;

/// Keeps the bytes of numbered slots.
pub trait Disk: Drop {
    // The bytes of each slot, where the disk tells; a slot that was never written has none.
    ghost slots: { Self → Option Slots };
    // How many calls failed; it stands still at 2^64 - 1.
    ghost faults: { Self → ℕ };
    // How many writes answered Ok; it stands still at 2^64 - 1.
    ghost writes: { Self → ℕ };

    /// Sets one slot to these bytes. A failure may leave anything in that one slot; all others stay.
    fn write(&mut self, slot: u64, bytes: &[u8]) -> Result<(), Failed>
        ensures ok { OnOk result (IsWritten (slots self.new) slot bytes.now) }
        ensures others { OthersStay (slots self.old) slot (slots self.new) }
        ensures written { OnOk result (writes self.new ≡ raised (writes self.old)) }
        ensures unwritten { OnErr result (writes self.new ≡ writes self.old) }
        ensures rose { OnErr result (HasRisen (faults self.old) (faults self.new)) }
        ensures counts { faults self.old ≤ faults self.new }
        ensures tells { is_some (slots self.new) ≡ is_some (slots self.old) };

    /// Fills `into` with a prefix of the slot's bytes. It changes no slot, whatever it answers.
    fn read(&mut self, slot: u64, into: &mut [u8]) -> Result<(), Failed>
        requires within { CanFill (slots self.old) slot (length into.old) }
        ensures ok { OnOk result (IsFilled (slots self.old) slot into.new) }
        ensures slots { slots self.new ≡ slots self.old }
        ensures writes { writes self.new ≡ writes self.old }
        ensures rose { OnErr result (HasRisen (faults self.old) (faults self.new)) }
        ensures counts { faults self.old ≤ faults self.new };

    /// How many calls failed so far; it stands still at `u64::MAX`.
    fn fault_count(&self) -> u64
        ensures { result ≡ faults self.now };

    /// How many writes answered Ok so far; it stands still at `u64::MAX`.
    fn write_count(&self) -> u64
        ensures { result ≡ writes self.now };
}
