//! The attributes that a path is written as.

use super::SegmentKind::Sequence;
use super::*;
use std::alloc::Allocator;

/// What the path that takes memory for each of its parts is written as in two octets.
pub(super) const ALL_PARTS: &[u8] = &[
    0x40, 1, 1, 1, // ORIGIN: EGP
    0x40, 2, 12, 2, 2, 0xfd, 0xe9, 0x5b, 0xa0, 1, 2, 0, 1, 0, 2, // AS_PATH: 65001 23456 {1,2}
    0x40, 3, 4, 192, 0, 2, 2, // NEXT_HOP: 192.0.2.2
    0x80, 4, 4, 0, 0, 0, 7, // MULTI_EXIT_DISC: 7
    0x40, 6, 0, // ATOMIC_AGGREGATE
    0xc0, 7, 6, 0x5b, 0xa0, 0, 0, 0, 1, // AGGREGATOR: 23456, 0.0.0.1
    0xc0, 8, 8, 0, 0, 0, 1, 0, 0, 0, 2, // COMMUNITIES: 0:1 0:2
    0x80, 10, 4, 0, 0, 0, 3, // CLUSTER_LIST: 0.0.0.3
    0xc0, 16, 8, 0, 0, 0, 0, 0, 0, 0, 4, // EXTENDED COMMUNITIES: 4
    0xc0, 17, 20, 2, 2, 0, 0, 0xfd, 0xe9, 0, 1, 0x11, 0x70, // AS4_PATH: 65001 70000
    1, 2, 0, 0, 0, 1, 0, 0, 0, 2, // {1,2}
    0xc0, 18, 8, 0, 1, 0x11, 0x70, 0, 0, 0, 1, // AS4_AGGREGATOR: 70000, 0.0.0.1
    0xc0, 32, 12, 0, 0, 0xfd, 0xea, 0, 0, 0, 1, 0, 0, 0, 2, // LARGE_COMMUNITY: 65002:1:2
];

/// Of AS 65002 alone.
static BY_65002: Parts<'static> = OF_65002;

/// What that path is written as: 4, 9 and 7 octets.
const BY_65002_OCTETS: &[u8] = &[
    0x40, 1, 1, 0, // ORIGIN: IGP
    0x40, 2, 6, 2, 1, 0, 0, 0xfd, 0xea, // AS_PATH: 65002
    0x40, 3, 4, 192, 0, 2, 2, // NEXT_HOP: 192.0.2.2
];

/// A path, and the octets that it is written as on a session.
struct Row {
    side: Side,
    path: Parts<'static>,
    octets: &'static [u8],
}

static ROWS: [Row; 8] = [
    // The least path is three attributes.
    Row {
        side: WIDE,
        path: OF_65002,
        octets: BY_65002_OCTETS,
    },
    // A large number is said twice in two octets.
    Row {
        side: NARROW,
        path: Parts {
            as_path: &[(Sequence, &[70000])],
            ..LEAST
        },
        octets: &[
            0x40, 1, 1, 0, // ORIGIN: IGP
            0x40, 2, 4, 2, 1, 0x5b, 0xa0, // AS_PATH: 23456, AS_TRANS
            0x40, 3, 4, 192, 0, 2, 2, // NEXT_HOP: 192.0.2.2
            0xc0, 17, 6, 2, 1, 0, 1, 0x11, 0x70, // AS4_PATH: 70000
        ],
    },
    // A path without segments has an AS_PATH too, and a next hop of IPv6 stands in MP_REACH_NLRI
    // alone.
    Row {
        side: WIDE,
        path: Parts {
            next_hop: NextHop::V6(1),
            ..LEAST
        },
        octets: &[0x40, 1, 1, 0, 0x40, 2, 0], // ORIGIN: IGP, AS_PATH
    },
    Row {
        side: WIDE,
        path: Parts {
            next_hop: NextHop::V6WithLinkLocal(1, 2),
            ..LEAST
        },
        octets: &[0x40, 1, 1, 0, 0x40, 2, 0], // ORIGIN: IGP, AS_PATH
    },
    // Two octets say what a real router says: it used Extended Length for its two paths, and had
    // LARGE_COMMUNITY before AS4_PATH.
    Row {
        side: NARROW,
        path: MERGED,
        octets: &[
            0x40, 1, 1, 0, // ORIGIN: IGP
            0x40, 2, 8, 2, 3, 0xfd, 0xea, 0x5b, 0xa0, 0x5b, 0xa0, // AS_PATH
            0x40, 3, 4, 192, 0, 2, 2, // NEXT_HOP: 192.0.2.2
            0x80, 4, 4, 0, 0, 0, 7, // MULTI_EXIT_DISC: 7
            0x40, 6, 0, // ATOMIC_AGGREGATE
            0xc0, 7, 6, 0x5b, 0xa0, 192, 0, 2, 2, // AGGREGATOR: 23456, 192.0.2.2
            0xc0, 8, 8, 0xfd, 0xea, 0, 100, 0xff, 0xff, 0xff, 1, // COMMUNITIES
            0xc0, 17, 14, 2, 3, 0, 0, 0xfd, 0xea, 0, 1, 0x11, 0x70, 0, 1, 0x11, 0x71, // AS4_PATH
            0xc0, 18, 8, 0, 1, 0x11, 0x70, 192, 0, 2, 2, // AS4_AGGREGATOR
            0xc0, 32, 12, 0, 0, 0xfd, 0xea, 0, 0, 0, 1, 0, 0, 0, 2, // LARGE_COMMUNITY
        ],
    },
    // To an external peer, though it may not say them.
    Row {
        side: WIDE,
        path: REFLECTED,
        octets: &[
            0x40, 1, 1, 0, // ORIGIN: IGP
            0x40, 2, 10, 1, 2, 0, 0, 0, 1, 0, 0, 0, 2, // AS_PATH: {1,2}
            0x40, 3, 4, 192, 0, 2, 2, // NEXT_HOP: 192.0.2.2
            0x40, 5, 4, 0, 0, 0, 100, // LOCAL_PREF: 100
            0x80, 9, 4, 192, 0, 2, 1, // ORIGINATOR_ID: 192.0.2.1
            0x80, 10, 8, 0, 0, 0, 1, 0, 0, 0, 2, // CLUSTER_LIST: 0.0.0.1 0.0.0.2
        ],
    },
    Row {
        side: NARROW,
        path: OF_ALL_PARTS,
        octets: ALL_PARTS,
    },
    // A real announcement is written as it came.
    Row {
        side: WIDE,
        path: ANNOUNCED,
        octets: FOUR_OCTET_FIELD,
    },
];

/// Whether the path is writable, and was written.
pub(super) fn is_written<A: Allocator>(side: Side, path: &Path, out: &mut Vec<u8, A>) -> bool {
    is_writable(side, path) && write_path(side, path, out).is_ok()
}

/// Whether the row's octets stand after an octet of 9.
fn stands_in(out: &[u8], row: &Row) -> bool {
    out.split_first() == Some((&9, row.octets))
}

/// Whether the octets are written for the path behind an octet of 9.
fn writes(alloc: Global, row: &Row) -> bool {
    let Ok(path) = path_of(alloc, &row.path) else {
        return false;
    };
    match Vec::from_slice(alloc, &[9]) {
        Ok(mut out) => is_written(row.side, &path, &mut out) && stands_in(&out, row),
        Err(_) => false,
    }
}

#[test]
fn a_path_is_written_as_attributes(rt: HostRuntime) {
    for row in &ROWS {
        assert!(rt; writes(rt.alloc(), row));
    }
}

/// The path of these parts, but with so many communities.
pub(super) fn path_with_many(
    alloc: Global,
    parts: &Parts<'_>,
    count: usize,
) -> Result<Path, AllocError> {
    let communities = vec![in alloc; 1u32; count]?;
    path_with(alloc, parts, communities)
}

/// Whether these octets stand behind the first 14, which are of other attributes.
fn is_fourth(out: &[u8], header: &[u8]) -> bool {
    match out.get(14..) {
        Some(communities) => communities.starts_with(header),
        None => false,
    }
}

/// Whether so many communities are written with this header, or aren't writable.
fn have_header(alloc: Global, count: usize, header: Option<&[u8]>) -> bool {
    let Ok(path) = path_with_many(alloc, &OF_NONE, count) else {
        return false;
    };
    let mut out = Vec::new(alloc);
    match header {
        Some(header) => is_written(WIDE, &path, &mut out) && is_fourth(&out, header),
        None => !is_writable(WIDE, &path),
    }
}

/// How many communities, and the header that they are written with: a value has at most 65535
/// octets.
static HEADERS: [(usize, Option<&[u8]>); 4] = [
    (63, Some(&[0xc0, 8, 252])),
    (64, Some(&[0xd0, 8, 1, 0])),
    (16383, Some(&[0xd0, 8, 0xff, 0xfc])),
    (16384, None),
];

#[test]
fn extended_length_is_for_more_than_255_octets(rt: HostRuntime) {
    for (count, header) in &HEADERS {
        assert!(rt; have_header(rt.alloc(), *count, *header));
    }
}

/// A path, and whether an external peer and an internal one may be sent it.
static FOR_PEERS: [(Parts<'static>, bool, bool); 6] = [
    (
        Parts {
            cluster_list: &[1],
            ..LEAST
        },
        false,
        true,
    ),
    (
        Parts {
            local_pref: Some(100),
            ..LEAST
        },
        false,
        true,
    ),
    (
        Parts {
            originator_id: Some(1),
            ..LEAST
        },
        false,
        true,
    ),
    (ANNOUNCED, true, true),
    // A large community is sent once.
    (
        Parts {
            large_communities: &[LARGE, LATER, LARGE],
            ..LEAST
        },
        false,
        false,
    ),
    (
        Parts {
            large_communities: &[LARGE, LATER],
            ..LEAST
        },
        true,
        true,
    ),
];

/// Whether an external peer and an internal one may be sent the path just where that is wanted.
fn is_for(alloc: Global, parts: &Parts<'_>, is_external: bool, is_internal: bool) -> bool {
    match path_of(alloc, parts) {
        Ok(path) => {
            is_for_peer(WIDE, &path) == is_external && is_for_peer(INTERNAL, &path) == is_internal
        }
        Err(_) => false,
    }
}

#[test]
fn preference_and_reflection_are_for_an_internal_peer(rt: HostRuntime) {
    for (parts, is_external, is_internal) in &FOR_PEERS {
        assert!(rt; is_for(rt.alloc(), parts, *is_external, *is_internal));
    }
}

/// Whether the path is put as these octets where there is room for no more.
fn is_put(alloc: Global, path: &Path, octets: &[u8]) -> bool {
    let Some(len) = path_len(WIDE, path, 65535) else {
        return false;
    };
    match Vec::with_capacity(alloc, usize::from(len)) {
        Ok(mut out) if is_writable(WIDE, path) => {
            put_path(&mut out, WIDE, path);
            out.as_slice() == octets
        }
        _ => false,
    }
}

/// Whether a path of 20 octets is measured, where there is room.
fn is_measured(path: &Path) -> bool {
    path_len(WIDE, path, 20) == Some(20)
        && path_len(WIDE, path, 65535) == Some(20)
        && path_len(WIDE, path, 19).is_none()
        && path_len(WIDE, path, 0).is_none()
}

/// Whether the path of AS 65002 is measured, and put.
fn is_measured_and_put(alloc: Global) -> bool {
    match path_of(alloc, &BY_65002) {
        Ok(path) => is_measured(&path) && is_put(alloc, &path, BY_65002_OCTETS),
        Err(_) => false,
    }
}

#[test]
fn a_path_is_measured_and_put_where_there_is_room(rt: HostRuntime) {
    assert!(rt; is_measured_and_put(rt.alloc()));
}

/// Whether a header of this length is put as these octets.
fn is_header(alloc: Global, len: u16, octets: &[u8]) -> bool {
    match Vec::with_capacity(alloc, 4) {
        Ok(mut out) => {
            put_attribute_header(&mut out, AttrType::MpReachNlri, len);
            out.as_slice() == octets
        }
        Err(_) => false,
    }
}

#[test]
fn a_header_says_a_length_of_one_octet_or_two(rt: HostRuntime) {
    let alloc = rt.alloc();
    assert!(rt;
        is_header(alloc, 0, &[0x80, 14, 0])
            && is_header(alloc, 255, &[0x80, 14, 255])
            && is_header(alloc, 256, &[0x90, 14, 1, 0])
            && is_header(alloc, 65535, &[0x90, 14, 255, 255])
    );
}
