//! The limits of rows and inputs.

/// How many bytes a text has at most, and so a line of an input.
pub const LONGEST_TEXT: usize = 65_536;

/// How many columns a row has at most.
pub const MOST_COLUMNS: usize = 6;

/// How many bytes an input has at most.
pub const LONGEST_INPUT: u64 = 1 << 32;

/// How many rows may arrive at an action.
pub const MOST_ROWS: u64 = 1 << 40;
