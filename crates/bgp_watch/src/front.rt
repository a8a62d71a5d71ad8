//! A front of a session's records that has an end in Established.

use bgp_judge::End;
use std::alloc::{Allocator, Global};

/// A front of a session's records that has an end in Established.
#[derive(Drop)]
pub struct Front<A: Allocator = Global> {
    /// How many records it has.
    pub count: usize,
    /// All its possible ends.
    pub ends: Vec<End<A>, A>,
}
