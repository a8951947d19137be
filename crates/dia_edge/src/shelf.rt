//! Shelves: inputs by name.
ghost use Rattle.std.specs.Prelude.{◌≡◌, ℕ, ◌<◌, ◌≤◌, [], ◌∷◌, Bool, true, List, Option, None, length, take, is_some, OnOk, OnErr, IfOk, MatchBool};
ghost use Rattle.dia_edge.specs.Counts.{HasRisen};
ghost use Rattle.dia_edge.specs.Shelves.{Holdings, IsOpened, IsAbsent, IsShut, GivesPrefix, IsAtEnd, and_asked, KeepsHoldings, ShelfStays, Reads};

use crate::refusals::Failed;

/// Inputs by name, read from beginning to end, one at a time.
pub trait Shelf {
    // What each name holds, where the shelf tells.
    ghost holds: { Self → Option Holdings };
    // What is left of the opened name, where the shelf tells.
    ghost left: { Self → Option (List ℕ) };
    // The names that `open` answered so far, in order, where the shelf tells.
    ghost asked: { Self → Option (List (List ℕ)) } = { λ _. None };
    // No call changes what a name of a fixed shelf holds.
    ghost is_fixed: { Self → Bool };
    // How many calls failed; it stands still at 2^64 - 1.
    ghost faults: { Self → ℕ };

    /// Goes to the first byte of the input with this name, and answers whether there is one.
    ///
    /// After `false` and after a failure nothing is left to read. What is answered, `true` or `false`, adds the name
    /// to those that were asked for; a failure doesn't.
    fn open(&mut self, name: &str) -> Result<bool, Failed>
        ensures answer { IfOk result (λ there. MatchBool there (IsOpened (holds self.new) name.now (left self.new)) (IsAbsent (holds self.new) name.now (left self.new))) }
        ensures failed { OnErr result (IsShut (left self.new)) }
        ensures rose { OnErr result (HasRisen (faults self.old) (faults self.new)) }
        ensures counts { faults self.old ≤ faults self.new }
        ensures tells { (is_some (holds self.new) ≡ is_some (holds self.old)) × (is_some (left self.new) ≡ is_some (left self.old)) }
        ensures fixed { KeepsHoldings is_fixed holds self.old self.new }
        // The last three as one word.
        ensures stays { ShelfStays holds left asked is_fixed faults self.old self.new }
        ensures asked { OnOk result (asked self.new ≡ and_asked (asked self.old) (name.now ∷ [])) }
        ensures unasked { OnErr result (asked self.new ≡ asked self.old) };

    /// Puts the next bytes of the opened input at the beginning of `into`, and answers how many; 0 is the end.
    ///
    /// A failure changes nothing of what is left.
    fn read(&mut self, into: &mut [u8]) -> Result<usize, Failed>
        requires room { 0 < length into.old }
        ensures count { IfOk result (λ n. n ≤ length into.new) }
        ensures prefix { IfOk result (λ n. GivesPrefix (left self.old) (take n into.new) (left self.new)) }
        ensures end { IfOk result (λ n. n ≡ 0 → IsAtEnd (left self.old)) }
        ensures failed { OnErr result (left self.new ≡ left self.old) }
        ensures rose { OnErr result (HasRisen (faults self.old) (faults self.new)) }
        ensures counts { faults self.old ≤ faults self.new }
        ensures tells { (is_some (holds self.new) ≡ is_some (holds self.old)) × (is_some (left self.new) ≡ is_some (left self.old)) }
        ensures fixed { KeepsHoldings is_fixed holds self.old self.new }
        // The last three as one word.
        ensures stays { ShelfStays holds left asked is_fixed faults self.old self.new }
        // What was given, a failure, and that no name was asked for, as one word.
        ensures reads { Reads left asked faults self.old self.new (λ n. take n into.new) result };

    /// How many calls failed so far; it stands still at `u64::MAX`.
    fn fault_count(&self) -> u64
        ensures { result ≡ faults self.now };
}
