//! Paths as plain data, which takes no memory: segments and lists are slices.

use bgp_path::SegmentKind::{Sequence, Set};
use bgp_path::{
    Aggregator, AsPath, Items, LargeCommunity, NextHop, Numbers, Origin, Path, PathParts, Segment,
    SegmentKind,
};
use std::alloc::{AllocError, Allocator};

/// Segments of 1 to 255 numbers.
pub type Segments<'a> = &'a [(SegmentKind, &'a [u32])];

/// The parts of a path.
#[derive(Drop)]
pub struct Parts<'a> {
    pub origin: Origin,
    pub as_path: Segments<'a>,
    pub next_hop: NextHop,
    pub multi_exit_disc: Option<u32>,
    pub local_pref: Option<u32>,
    pub atomic_aggregate: bool,
    pub aggregator: Option<Aggregator>,
    pub communities: &'a [u32],
    pub originator_id: Option<u32>,
    pub cluster_list: &'a [u32],
    pub extended_communities: &'a [u64],
    pub large_communities: &'a [LargeCommunity],
}

/// 192.0.2.2
pub const HOP: NextHop = NextHop::V4(0xc000_0202);

/// The least path: IGP, no segments, a next hop of four octets.
pub const LEAST: Parts<'static> = Parts {
    origin: Origin::Igp,
    as_path: &[],
    next_hop: HOP,
    multi_exit_disc: None,
    local_pref: None,
    atomic_aggregate: false,
    aggregator: None,
    communities: &[],
    originator_id: None,
    cluster_list: &[],
    extended_communities: &[],
    large_communities: &[],
};

/// 65002:1:2
pub const LARGE: LargeCommunity = LargeCommunity {
    global_administrator: 65002,
    local_data_part_1: 1,
    local_data_part_2: 2,
};

/// 65002:1:3
pub const LATER: LargeCommunity = LargeCommunity {
    local_data_part_2: 3,
    ..LARGE
};

/// A path that takes memory for each of its parts.
pub const OF_ALL_PARTS: Parts<'static> = Parts {
    origin: Origin::Egp,
    as_path: &[(Sequence, &[65001, 70000]), (Set, &[1, 2])],
    multi_exit_disc: Some(7),
    atomic_aggregate: true,
    aggregator: Some(Aggregator {
        as_number: 70000,
        address: 1,
    }),
    communities: &[1, 2],
    cluster_list: &[3],
    extended_communities: &[4],
    large_communities: &[LARGE],
    ..LEAST
};

/// The same where it is named, and not written out.
pub static WHOLE: Parts<'static> = OF_ALL_PARTS;

/// A segment of 1 to 255 numbers.
pub fn segment_of<A: Allocator>(
    alloc: A,
    kind: SegmentKind,
    numbers: &[u32],
) -> Result<Segment<A>, AllocError> {
    Segment::new(kind, Vec::from_slice(alloc, numbers)?).ok_or(AllocError)
}

/// The AS path of these segments.
pub fn as_path_of<A: Allocator + Copy>(
    alloc: A,
    segments: Segments<'_>,
) -> Result<AsPath<A>, AllocError> {
    let mut path = AsPath::new(alloc);
    for (kind, numbers) in segments {
        path.push(segment_of(alloc, *kind, numbers)?)?;
    }
    Ok(path)
}

/// A path's parts, but with these communities.
pub fn parts_with<A: Allocator + Copy>(
    alloc: A,
    parts: &Parts<'_>,
    communities: Vec<u32, A>,
) -> Result<PathParts<A>, AllocError> {
    let cluster_list = Vec::from_slice(alloc, parts.cluster_list)?;
    let extended_communities = Vec::from_slice(alloc, parts.extended_communities)?;
    let large_communities = Vec::from_slice(alloc, parts.large_communities)?;
    let as_path = as_path_of(alloc, parts.as_path)?;
    Ok(PathParts {
        origin: parts.origin,
        as_path,
        next_hop: parts.next_hop,
        multi_exit_disc: parts.multi_exit_disc,
        local_pref: parts.local_pref,
        atomic_aggregate: parts.atomic_aggregate,
        aggregator: parts.aggregator,
        communities: Numbers::from(communities),
        originator_id: parts.originator_id,
        cluster_list: Items::from(cluster_list),
        extended_communities: Items::from(extended_communities),
        large_communities: Items::from(large_communities),
    })
}

/// The path of these parts, but with these communities, in which there may be room for more.
pub fn path_with<A: Allocator + Copy>(
    alloc: A,
    parts: &Parts<'_>,
    communities: Vec<u32, A>,
) -> Result<Path<A>, AllocError> {
    Path::new(alloc, parts_with(alloc, parts, communities)?)
}

/// The path of these parts.
pub fn path_of<A: Allocator + Copy>(alloc: A, parts: &Parts<'_>) -> Result<Path<A>, AllocError> {
    path_with(alloc, parts, Vec::from_slice(alloc, parts.communities)?)
}

/// Whether a segment is the wanted one.
pub fn is_segment_of<A: Allocator>(
    segment: &Segment<A>,
    wanted: Option<&(SegmentKind, &[u32])>,
) -> bool {
    match wanted {
        Some((kind, numbers)) => segment.kind() == *kind && segment.numbers() == *numbers,
        None => false,
    }
}

/// Whether a path is of these segments.
pub fn is_of<A: Allocator>(path: &AsPath<A>, wanted: Segments<'_>) -> bool {
    let mut wanted = wanted.iter();
    let mut are_same = true;
    for segment in path.segments() {
        are_same = is_segment_of(segment, wanted.next()) && are_same;
    }
    are_same && wanted.next().is_none()
}
