//! What an operand of a stage stands on.

use crate::script_op::ScriptOp;
use dia_item::Kinds;

/// The rows at the bottom of an operand, by the line of the script that has them.
#[derive(Clone, Copy, Debug, PartialEq, Eq)]
pub enum Root {
    /// The rows that are kept of this line.
    Stored(u32),
    /// The numbers of a `generate`, which are made anew at each use.
    Count {
        /// Its line.
        line: u32,
        /// How many numbers it makes.
        rows: u64,
    },
}

/// An operand: the rows at the bottom, and the local lines over them. Contracts see it through `operand_in`.
#[derive(Drop)]
pub struct Operand {
    /// The rows at the bottom.
    pub root: Root,
    /// Whether the root is stored and no later operand has it.
    pub last: bool,
    /// The kinds of the rows that the local lines make.
    pub kinds: Kinds,
    /// The local lines, from the root up.
    pub chain: Vec<ScriptOp>,
}
