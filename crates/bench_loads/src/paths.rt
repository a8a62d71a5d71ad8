//! Paths that are made up.

use bgp_path::{AsPath, Items, NextHop, Numbers, Origin, Path, PathParts, Segment, SegmentKind};
use std::alloc::{AllocError, Global};

/// The attributes that a made-up path has.
#[derive(Drop)]
pub(crate) struct Attributes {
    pub(crate) origin: Origin,
    /// The AS numbers of AS_PATH, one sequence.
    pub(crate) numbers: Vec<u32>,
    /// The address of NEXT_HOP.
    pub(crate) next_hop: u32,
    pub(crate) communities: Vec<u32>,
}

/// An AS_PATH of one sequence.
fn as_path_of(alloc: Global, numbers: Vec<u32>) -> Result<AsPath, AllocError> {
    let mut as_path = AsPath::new(alloc);
    if let Some(segment) = Segment::new(SegmentKind::Sequence, numbers) {
        as_path.push(segment)?;
    }
    Ok(as_path)
}

/// The path of these attributes.
pub(crate) fn path_of(alloc: Global, attributes: Attributes) -> Result<Path, AllocError> {
    Path::new(
        alloc,
        PathParts {
            origin: attributes.origin,
            as_path: as_path_of(alloc, attributes.numbers)?,
            next_hop: NextHop::V4(attributes.next_hop),
            multi_exit_disc: None,
            local_pref: None,
            atomic_aggregate: false,
            aggregator: None,
            communities: Numbers::from(attributes.communities),
            originator_id: None,
            cluster_list: Items::new(alloc),
            extended_communities: Items::new(alloc),
            large_communities: Items::new(alloc),
        },
    )
}
