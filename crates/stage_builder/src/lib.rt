//! The plan of a run: which stages there are, in which order, and what each stands on.
//!
//! The layer above relies on `build`: the plan of an accepted script is the one that `IsPlan` of the definitions pins. It
//! sees a plan through `plan_in` of `specs/Views.antt`.
#![tactic(auto)]

mod building;
mod drafts;
mod line_set;
mod lines;
mod marks;
mod needed;
mod operands;
mod plan;
mod readers;
mod statements;
mod work;

pub use building::build;
pub use plan::{Plan, Stage, Task};
