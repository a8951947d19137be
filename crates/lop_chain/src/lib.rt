//! Local lines, fused: a row is pushed through all of them into a sink, and no array stands between.
//!
//! The layers above rely on two traits. A `RowSink` takes rows one after the other until it refuses one; what that means
//! is its own, by the laws of the trait. A `LocalOp` makes rows of one row: when `push` answers Ok, the sink took exactly
//! the rows made, in order, and a refusal is the sink's own, at the row that it refused. `Then` is one op after another;
//! a `Chain` is a list of `ScriptOp`s, of which `op_in` of `specs/Ops.antt` is the line of the definitions and `chain_ops`
//! of `specs/Chains.antt` the list: its rows are `rows_through`, its kinds `AreSoundOps`. What a push did to the sink is
//! said in `specs/Calls.antt`. A chain takes its memory when it is made, where its lines are made ready as `Step`s, which
//! stand for the same lines, and a push takes none.
#![tactic(auto)]

mod chain;
mod columns;
mod local_op;
mod make;
mod number_column;
mod operand;
mod push;
mod script_op;
mod sink;
mod step;
mod then;
mod through;

pub use chain::Chain;
pub use local_op::LocalOp;
pub use operand::{Operand, Root};
pub use script_op::{ScriptOp, copy_exprs, copy_ops};
pub use sink::RowSink;
pub use then::Then;
