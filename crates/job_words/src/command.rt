//! What a command line asks for.

use dia_edge::Name;

/// A run of a script.
#[derive(Drop)]
pub struct Job {
    /// The script's name.
    pub script: Name,
    /// How many workers there are.
    pub workers: u32,
    /// How many bytes the pool has.
    pub limit: u64,
    /// How many bytes a block has.
    pub block: u32,
    /// The number from which the schedule of the workers is made.
    pub schedule: u64,
}

/// What the words of a command line ask for.
#[derive(Drop)]
pub enum Command {
    /// To run a script.
    Run(Job),
}
