//! What both trackers answer where memory is refused, and what the compact one holds. The verdicts
//! of both on sessions are asked for by `real_captures`. Messages have the names of
//! `bgp_wire::vectors`.

mod memory;

use crate::judge::{Expected, are_ends, router_a};
use bgp_compact::CompactTracker;
use bgp_judge::{PlainTracker, Tracker, Verdict, judge_records};
use mrt::Record;
use std::alloc::{AllocError, Allocator, Global};

/// Whether records are judged, with enough memory for it, and the verdict is yes with just these
/// ends: `None` where it is another.
fn is_judged<A: Allocator + Copy, T: Tracker<A>>(
    alloc: A,
    records: &[Record<'_>],
    expected: &[Expected<'_>],
) -> Option<bool> {
    match judge_records::<A, T>(alloc, &router_a()?, records) {
        Ok(Verdict::Yes(ends)) => are_ends(ends.as_slice(), expected).then_some(true),
        Ok(_) => None,
        Err(_) => Some(false),
    }
}
