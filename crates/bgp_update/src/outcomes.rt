//! What may become of an UPDATE (RFC 7606, 2).

use crate::destination::Destination;
use crate::subcodes::Subcodes;
use bgp_attr::Path;
use bgp_open::Families;
use std::alloc::{Allocator, Global};

/// Destinations that become reachable by one path, which they share.
#[derive(Drop)]
#[derive_where(Debug)]
pub struct Put<A: Allocator = Global> {
    /// The path.
    pub path: Path<A>,
    /// The destinations, in the order in which they stood.
    pub destinations: Vec<Destination, A>,
}

/// What an UPDATE changes if it is applied: first destinations are removed, and then routes put, so
/// that one that is withdrawn and announced is there afterwards.
#[derive(Drop)]
#[derive_where(Debug)]
pub struct Changes<A: Allocator = Global> {
    /// The destinations to remove.
    pub remove: Vec<Destination, A>,
    /// The routes of the NLRI field to put: none if it announces no destination.
    pub nlri: Option<Put<A>>,
    /// The routes of MP_REACH_NLRI to put. If the form in which they were received has IPv6 next
    /// hops of IPv4 routes, IPv4 prefixes may have an IPv6 next hop (RFC 8950, 3).
    pub mp_reach_nlri: Option<Put<A>>,
}

/// The outcomes that are allowed of an UPDATE: to apply its changes, with some families disabled
/// then, or to reset the session. At least one is allowed.
#[derive(Drop)]
#[derive_where(Debug)]
pub struct Outcomes<A: Allocator = Global> {
    /// What it changes if it is applied; `None` if the session has to be reset.
    pub changes: Option<Changes<A>>,
    /// The families that are disabled whenever it is applied; none if it isn't.
    pub certain: Families,
    /// The other families that may be disabled, or not, when it is applied.
    pub optional: Families,
    /// The subcodes of UPDATE Message Error by which the session may be reset, instead or because
    /// it has to.
    pub reset: Subcodes,
}
