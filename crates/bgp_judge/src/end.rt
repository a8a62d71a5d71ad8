//! Where a session's records may have left it.

use bgp_machine::{Fsm, RibIn};
use std::alloc::{Allocator, Global};

/// A possible end: what a run leaves that shows just the records.
#[derive(Drop)]
pub struct End<A: Allocator = Global> {
    /// The state's name.
    pub fsm: Fsm,
    /// The routes that the peer announced, and the families that are disabled.
    pub rib: RibIn<A>,
}
