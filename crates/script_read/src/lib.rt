//! Reads scripts.
//!
//! The layers above rely on `read_script`: it answers the script that the bytes read as, or the line and the cause of
//! the first refusal, exactly as `Reading` of the definitions says. Contracts see a `Script` as the script of the
//! definitions, and its statements through the words of `specs/Statements`.
#![tactic(auto)]

mod causes;
mod exprs;
mod known;
mod line;
mod line_kinds;
mod names;
mod numbers;
mod places;
mod reader;
mod script;
mod sentence;
mod statement;

pub use line_kinds::kinds_of_exprs;
pub use reader::{ReadErr, read_script};
pub use row_defs::Cause;
pub use script::Script;
pub use script_defs::Word;
pub use statement::{Action, Form, Numbered, Statement};
