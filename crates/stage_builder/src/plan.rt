//! Plans.

use dia_edge::Name;
use lop_chain::Operand;
use script_defs::Word;
use script_read::Action;

/// What a stage does.
#[derive(Drop)]
pub enum Task<'s> {
    /// Reads the lines of an input, which are kept.
    Read {
        /// The name that the script gives the line.
        name: &'s Name,
        /// The input's name.
        input: &'s Name,
    },
    /// Keeps the rows of an earlier line.
    Cache {
        /// The name that the script gives the line.
        name: &'s Name,
        /// The earlier line.
        of: u32,
        /// The rows that arrive.
        operand: Operand,
    },
    /// Does an action.
    Act {
        /// The action.
        action: &'s Action,
        /// The rows that arrive.
        operand: Operand,
    },
}

/// A stage: an action, or a needed line whose rows are kept.
#[derive(Drop)]
pub struct Stage<'s> {
    /// Its line in the script, from 1.
    pub line: u32,
    /// The word of its statement.
    pub word: Word,
    /// How many operands of the plan read the rows that are kept of it; 0 for an action.
    pub readers: u32,
    /// What it does.
    pub task: Task<'s>,
}

/// The stages of a script in the order of work.
#[derive(Drop)]
pub struct Plan<'s> {
    /// The stages.
    pub stages: Vec<Stage<'s>>,
}
