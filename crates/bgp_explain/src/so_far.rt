//! What is kept of a session's records while they are judged.

ghost use Rattle.std.specs.Prelude.{◌≤◌};

use crate::explained::Impossible;
use crate::moments::Moments;
use crate::sending::Sending;
use crate::tally::Tally;
use bgp_reason::{Possible, Told};
use bgp_tool::Seen;
use std::alloc::{Allocator, Global};

/// The first impossible record, and what was possible in its place.
#[derive(Drop)]
pub(crate) struct Found<A: Allocator = Global> {
    pub(crate) impossible: Impossible<A>,
    pub(crate) possible: Possible,
}

/// The records stop being those of a run at the first impossible one.
#[derive(Drop)]
pub(crate) struct Stop<A: Allocator = Global> {
    /// None where memory was refused for it.
    pub(crate) found: Option<Found<A>>,
}

/// What is kept of the records so far, up to the first impossible one: beside a few words two
/// messages at the most.
#[derive(Drop)]
pub(crate) struct Progress<A: Allocator = Global> {
    /// How many records begin a run.
    pub(crate) count: u64,
    pub(crate) told: Told,
    pub(crate) moments: Moments,
    pub(crate) sending: Sending,
    pub(crate) tally: Tally,
    pub(crate) seen: Seen,
    /// The message that was received last, empty where none was; none where memory was refused for
    /// it.
    pub(crate) last_message: Option<Vec<u8, A>>,
    pub(crate) stop: Option<Stop<A>>,
    ghost few: { (tally.received ≤ count) × (tally.sent ≤ count) × (tally.changes ≤ count)
        × (tally.ignored ≤ count) },
}
