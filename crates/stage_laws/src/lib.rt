//! The laws of stages: each is the contract of a function that does nothing.
//!
//! A run of an accepted script goes through the stages of its plan. Where each of them prints and keeps what it has to,
//! the whole work is done behind the last; where one stops, what was printed by then is what the items before it print.
//! What stands between two stages, lines of which nothing is kept, takes care of itself. The layer above shows of each
//! stage alone what it prints and keeps. What it knows of the rows of a cache when that is done holds of them at the
//! run's end, unless that is cut off, where what it knows only grows. The words stand in `specs/`: Standing, Laws.
#![tactic(auto)]

mod laws;

pub use laws::{
    action_has_too_many, action_is_cut_off, action_is_done, action_keeps, cache_has_rows,
    cache_has_too_many, cache_is_kept, cache_keeps, input_fails, item_is_cut_off, line_is_kept,
    line_keeps, nothing_is_done, plan_begins, plan_ends, plan_reads_what_is_needed,
    stage_can_be_done, stage_goes_on, stage_stops,
};
