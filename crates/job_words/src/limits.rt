//! The ranges and the defaults of the options of `run`.

/// How many workers a job has at least.
pub const LEAST_WORKERS: u64 = 1;

/// How many workers a job has at most.
pub const MOST_WORKERS: u64 = 16;

/// How many workers a job has where no option says.
pub const DEFAULT_WORKERS: u64 = 4;

/// How many bytes the pool has at least.
pub const LEAST_POOL: u64 = 0;

/// How many bytes the pool has at most.
pub const MOST_POOL: u64 = 1 << 40;

/// How many bytes the pool has where no option says.
pub const DEFAULT_POOL: u64 = 67_108_864;

/// How many bytes a block has at least.
pub const LEAST_BLOCK: u64 = 4_096;

/// How many bytes a block has at most.
pub const MOST_BLOCK: u64 = 1_048_576;

/// How many bytes a block has where no option says.
pub const DEFAULT_BLOCK: u64 = 65_536;

/// The least number of a schedule.
pub const LEAST_SCHEDULE: u64 = 0;

/// The largest number of a schedule.
pub const MOST_SCHEDULE: u64 = u64::MAX;

/// The schedule's number where no option says.
pub const DEFAULT_SCHEDULE: u64 = 0;
