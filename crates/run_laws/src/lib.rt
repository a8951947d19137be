//! The laws of work and of runs: each is the contract of a function that does nothing.
//!
//! The work of an accepted script can be done from its beginning, and a run goes on item by item. The layers above show of
//! each step that they do which item it is. The words stand in `specs/`: Order, Laws; the definitions are `script_defs`'.
#![tactic(auto)]

mod laws;

pub use laws::{
    action_goes_on, chains_make, line_goes_on, roots_are_done, runs_are_runs, work_begins,
    work_goes_on,
};
