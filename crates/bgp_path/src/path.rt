//! The value of a route: what its path attributes say (RFC 4271, 1.1 and 5).

ghost use Rattle.std.specs.Prelude.{◌≡◌, IfOk};

use crate::as_path::AsPath;
use crate::items::Items;
use crate::large_community::LargeCommunity;
use crate::numbers::Numbers;
use std::alloc::{AllocError, Allocator, Global};
use std::marker::Model;
use std::rc::Rc;

/// ORIGIN (RFC 4271, 5.1.1).
#[derive(Clone, Copy, Debug, PartialEq, Eq)]
pub enum Origin {
    /// The prefix is interior to the AS that began the path.
    Igp = 0,
    /// It was learned by EGP.
    Egp = 1,
    /// It was learned otherwise.
    Incomplete = 2,
}

/// The next hop: NEXT_HOP (RFC 4271, 5.1.3), or that of MP_REACH_NLRI (RFC 4760, 3).
#[derive(Clone, Copy, Debug, PartialEq, Eq)]
pub enum NextHop {
    /// An IPv4 address, of 4 octets.
    V4(u32),
    /// An IPv6 address, of 16 octets.
    V6(u128),
    /// An IPv6 address and the link-local one of the same router, 32 octets (RFC 2545, 3).
    V6WithLinkLocal(u128, u128),
}

/// AGGREGATOR (RFC 4271, 5.1.7): who formed the aggregate.
#[derive(Clone, Copy, Debug, PartialEq, Eq)]
pub struct Aggregator {
    /// Its AS number.
    pub as_number: u32,
    /// Its IPv4 address.
    pub address: u32,
}

/// What the path attributes of a route say.
#[derive(Drop)]
#[derive_where(Debug)]
pub struct PathParts<A: Allocator = Global> {
    /// ORIGIN.
    pub origin: Origin,
    /// AS_PATH, with AS4_PATH merged into it.
    pub as_path: AsPath<A>,
    /// The next hop.
    pub next_hop: NextHop,
    /// MULTI_EXIT_DISC (RFC 4271, 5.1.4).
    pub multi_exit_disc: Option<u32>,
    /// LOCAL_PREF (RFC 4271, 5.1.5).
    pub local_pref: Option<u32>,
    /// Whether ATOMIC_AGGREGATE is there (RFC 4271, 5.1.6).
    pub atomic_aggregate: bool,
    /// AGGREGATOR, or AS4_AGGREGATOR in its place.
    pub aggregator: Option<Aggregator>,
    /// COMMUNITIES (RFC 1997).
    pub communities: Numbers<A>,
    /// ORIGINATOR_ID (RFC 4456, 8).
    pub originator_id: Option<u32>,
    /// CLUSTER_LIST (RFC 4456, 8).
    pub cluster_list: Items<u32, A>,
    /// EXTENDED COMMUNITIES (RFC 4360), each as the number that its eight octets spell.
    pub extended_communities: Items<u64, A>,
    /// LARGE_COMMUNITY (RFC 8092).
    pub large_communities: Items<LargeCommunity, A>,
}

impl<A: Allocator> PathParts<A> {
    ghost use Rattle.bgp_path.specs.Path.{value_of};
    ghost use Rattle.bgp_path.specs.SamePath.{same_mandatory, same_optional, same_lists};

    /// Whether the attributes that each route has are the same.
    fn same_mandatory(&self, other: &PathParts<A>) -> bool
        ensures same { result ≡ same_mandatory (value_of self.now) (value_of other.now) }
    {
        self.origin == other.origin
            && self.next_hop == other.next_hop
            && self.as_path == other.as_path
    }

    /// Whether the attributes that a route may have are the same, but for lists.
    fn same_optional(&self, other: &PathParts<A>) -> bool
        ensures same { result ≡ same_optional (value_of self.now) (value_of other.now) }
    {
        self.multi_exit_disc == other.multi_exit_disc
            && self.local_pref == other.local_pref
            && self.atomic_aggregate == other.atomic_aggregate
            && self.aggregator == other.aggregator
            && self.originator_id == other.originator_id
    }

    /// Whether the lists are the same.
    fn same_lists(&self, other: &PathParts<A>) -> bool
        ensures same { result ≡ same_lists (value_of self.now) (value_of other.now) }
    {
        self.communities == other.communities
            && self.cluster_list == other.cluster_list
            && self.extended_communities == other.extended_communities
            && self.large_communities == other.large_communities
    }
}

/// The path attributes of a route, which all prefixes of an UPDATE share: a `Path` is a counted
/// reference to its parts, and a copy takes no memory. It is `Err` only where the count is full.
#[derive(Drop)]
#[derive_where(Debug)]
pub struct Path<A: Allocator = Global> {
    parts: Rc<PathParts<A>, A>,
}

// What a route's entry holds of its path, and what all routes with that path share.
const _: () = prove!(size_of::<Path>() == 8);

const _: () = prove!(size_of::<PathParts>() == 240);

impl<A: Allocator> Model for Path<A> {
    ghost use Rattle.bgp_path.specs.Path.{PathValue};

    ghost Value = { PathValue };

    ghost use Rattle.bgp_path.specs.Path.{value_of};

    ghost view = { λ p. value_of p.parts.value };
}

impl<A: Allocator> Path<A> {
    ghost use Rattle.bgp_path.specs.Path.{value_of};

    /// The path of these parts.
    pub fn new(alloc: A, parts: PathParts<A>) -> Result<Path<A>, AllocError>
        ensures value { IfOk result (λ path. path ≡ value_of parts) }
    {
        let parts = Rc::new(alloc, parts)?;
        Ok(Path { parts })
    }

    /// Its parts.
    pub fn parts(&self) -> &PathParts<A>
        ensures value { value_of result.now ≡ self.now }
    {
        self.parts.as_ref()
    }
}

impl<A: Allocator> Clone for Path<A> {
    ghost is_clone = { λ p copy. copy ≡ p };

    fn clone(&self) -> Result<Path<A>, AllocError> {
        let parts = self.parts.clone()?;
        Ok(Path { parts })
    }
}

impl<A: Allocator> PartialEq for Path<A> {
    ghost use Rattle.bgp_path.specs.SamePath.{same_value};
    ghost use Rattle.bgp_path.specs.SamePathLaws.{same_value_per};

    ghost eq = { same_value };

    ghost laws = { same_value_per };

    fn eq(&self, other: &Path<A>) -> bool {
        let (one, other) = (self.parts(), other.parts());
        one.same_mandatory(other) && one.same_optional(other) && one.same_lists(other)
    }
}

impl<A: Allocator> Eq for Path<A> {
    ghost use Rattle.bgp_path.specs.SamePathLaws.{same_value_equiv};

    ghost laws = { same_value_equiv };
}
