//! What rows, inputs and expressions are.
//!
//! The definitions stand in `specs/`, in reading order: Limits, Rows, Pieces, Texts, Values, Coding, Expressions,
//! LocalOps, Operands, Inputs, Printed. They speak of whole lists and know of no piece, block, buffer, worker or thread,
//! and of no script. The Rust types are plain enums without fields, which code and definitions
//! share; `limits` has the limits for the code.
#![tactic(auto)]

mod cause;
mod kind;
pub mod limits;

pub use cause::Cause;
pub use kind::Kind;
