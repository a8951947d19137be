//! Why blocks weren't brought to other pools.

use dia_edge::NoMemory;

/// Why blocks didn't come to the pools of the hands that are to read them. What was on its way is lost, and blocks of it stay
/// in their pools until those end.
#[derive(Clone, Copy, Debug, PartialEq, Eq)]
pub enum NetErr {
    /// The net failed in this call; `count` is how many of its calls failed so far.
    Link { count: u64 },
    /// The bytes that came through the net aren't those of packets; `at` is how many bytes of whole packets came before them.
    LinkBytes { at: u64 },
    /// The disk failed in this call; `count` is how many of its calls failed so far.
    Disk { count: u64 },
    /// The bytes of a block aren't those that were written.
    Damaged,
    /// Memory ran out.
    NoMemory,
}

impl From<NoMemory> for NetErr {
    ghost use Rattle.std.specs.Prelude.{◌≡◌};
    ghost use Rattle.scatter.specs.declared.net_err.NetErr.TheVariants as variants;

    ghost from_gives = { λ _ e. e ≡ variants.NoMemory };

    fn from(_: NoMemory) -> NetErr {
        NetErr::NoMemory
    }
}
