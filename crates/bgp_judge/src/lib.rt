//! The judge: whether a session's records are those of a run of the session machine
//! (RFC 4271, 8.2.2), exactly: yes, with every possible end; no; or unfinished.
//!
//! ```text
//! match judge::<A, PlainTracker<A>, _>(alloc, &config, &mut source)? {
//!     Verdict::Yes(ends) => print(ends),
//!     Verdict::No(count) => print(count + 1), // the first impossible record
//!     Verdict::Unfinished => print("unfinished"),
//! }
//! ```
#![tactic(auto)]

mod capture;
mod end;
mod ending;
mod judging;
mod laws;
mod member;
mod members;
mod opening;
mod plain;
mod tracker;
mod unshown;
mod verdict;

pub use capture::{judge, judge_with};
pub use end::End;
pub use judging::{advance, judge_records, verdict_of};
pub use laws::{
    a_member_is_reached, each_message_has_a_step, impossible_only_where_owed,
    memory_is_lacked_behind_no_impossible_record, one_end_for_each_disabled_set,
    records_have_just_one_verdict, records_tell_the_state, routes_decide_nothing,
};
pub use member::PlainMember;
pub use members::next_members;
pub use mrt::Record;
pub use opening::{OpenedSteps, list_openings, openings};
pub use plain::PlainTracker;
pub use tracker::Tracker;
pub use unshown::{Unshown, pay};
pub use verdict::Verdict;
