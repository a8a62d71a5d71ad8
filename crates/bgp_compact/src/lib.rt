//! The compact tracker: a judge of sessions of any length that holds one table of routes, and a
//! fixed number of words beside it.
#![tactic(auto)]

mod applying;
mod base;
mod beginning;
mod changing;
mod compact;
mod disabled;
mod ending;
mod falls;
mod laws;
mod paying;
mod taking;
mod words;

pub use compact::CompactTracker;
pub use laws::{
    each_run_ends_with_the_table, memory_is_lacked_at_no_impossible_record, records_make_one_table,
    trackers_have_a_fixed_size, trackers_hold_their_parts_alone,
};
