//! The verdict on a session's records.

use crate::end::End;
use std::alloc::{Allocator, Global};

/// The verdict on a session's records. For each list of records exactly one of the three holds
/// ([law](crate::records_have_just_one_verdict)).
#[derive(Drop)]
pub enum Verdict<A: Allocator = Global> {
    /// Some run of the session machine shows just the records. These are all the ends of such
    /// runs, in the order of their disabled families: none, IPv4, IPv6, both. There is at most one
    /// for each ([law](crate::one_end_for_each_disabled_set)), so the order is strict.
    Yes(Vec<End<A>, A>),
    /// So many records begin a run, and with the next one they don't.
    No(u64),
    /// The records begin a run, and none shows just them: they stop within a step.
    Unfinished,
}
