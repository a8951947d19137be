//! What the work of a script is, said without its recursion: each law is the contract of a function that does nothing.
//!
//! The work of an accepted script holds exactly the items that are needed, each once, and each behind what it stands on. The
//! layers above may rely on both in place of unfolding `work_of`. The words stand in `specs/`: Needed, Ordered; the definitions
//! of scripts and of their work are `script_defs`'.
#![tactic(auto)]

mod laws;

pub use laws::{work_has_order, work_is_needed};
