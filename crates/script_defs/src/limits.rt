//! The limits of scripts.

/// How many bytes a script has at most.
pub const SCRIPT_LIMIT: usize = 131_328;

/// How many lines a script has at most.
pub const SCRIPT_LINES_LIMIT: u32 = 256;

/// How many bytes a line of a script has at most.
pub const LINE_LIMIT: usize = 512;

/// How many numbers a `generate` makes at most.
pub const MOST_NUMBERS: u64 = 1 << 32;
