//! The outside of the engine: where inputs come from, where texts go, where blocks are spilled, and where workers
//! may be held.
//!
//! The layers above rely on the clauses of the four traits alone. An object may tell what it holds or takes, as
//! those in memory do, or tell nothing, as real files and streams do; clauses on contents hold where it tells. The
//! objects in memory are what tests hand in, with calls that are to fail; the adapters are thin, since what lies
//! behind them can't be proved. The words that the clauses use stand in `specs/`: Counts, Shelves, Sinks, Disks,
//! and for the objects Files, Slots, Plans, Memory.
#![tactic(auto)]

mod count;
mod dir_shelf;
mod disk;
mod file_disk;
mod gate;
mod mem_disk;
mod mem_shelf;
mod mem_sink;
mod name;
mod open_gate;
mod plan;
mod refusals;
mod shelf;
mod sink;
mod std_sink;

pub use dir_shelf::DirShelf;
pub use disk::Disk;
pub use file_disk::FileDisk;
pub use gate::Gate;
pub use mem_disk::{Held, MemDisk};
pub use mem_shelf::MemShelf;
pub use mem_sink::MemSink;
pub use name::Name;
pub use open_gate::OpenGate;
pub use refusals::{Failed, NoMemory};
pub use shelf::Shelf;
pub use sink::Sink;
pub use std_sink::StdSink;
