//! Rows of the standards, octets of real routers, and octets written down by hand from the layouts,
//! annotated field by field.

mod fields;
mod memory;
mod reading;
mod types;
mod writing;

use crate::parts::*;
use bgp_attr::*;
use bgp_path::{Aggregator, LargeCommunity, NextHop, Origin, Path, PathParts, SegmentKind};
use std::alloc::{AllocError, Global};

/// An external peer, and AS numbers of four octets.
const WIDE: Side = Side {
    as4: true,
    internal: false,
};

/// An external peer, and AS numbers of two octets.
const NARROW: Side = Side {
    as4: false,
    internal: false,
};

/// An internal peer, and AS numbers of four octets.
const INTERNAL: Side = Side {
    as4: true,
    internal: true,
};

/// From a session whose AS numbers have two octets: FRR 8.4.4 prepends and aggregates as AS 70000.
const TWO_OCTET_FIELD: &[u8] = &[
    0x40, 1, 1, 0, // ORIGIN: IGP
    0x50, 2, 0, 8, 2, 3, 0xfd, 0xea, 0x5b, 0xa0, 0x5b, 0xa0, // AS_PATH: 65002 23456 23456
    0x40, 3, 4, 192, 0, 2, 2, // NEXT_HOP: 192.0.2.2
    0x80, 4, 4, 0, 0, 0, 7, // MULTI_EXIT_DISC: 7
    0x40, 6, 0, // ATOMIC_AGGREGATE
    0xc0, 7, 6, 0x5b, 0xa0, 192, 0, 2, 2, // AGGREGATOR: 23456, 192.0.2.2
    0xc0, 8, 8, 0xfd, 0xea, 0, 100, 0xff, 0xff, 0xff, 1, // COMMUNITIES: 65002:100, no-export
    0xc0, 32, 12, 0, 0, 0xfd, 0xea, 0, 0, 0, 1, 0, 0, 0, 2, // LARGE_COMMUNITY: 65002:1:2
    0xd0, 17, 0, 14, 2, 3, 0, 0, 0xfd, 0xea, 0, 1, 0x11, 0x70, 0, 1, 0x11, 0x71, // AS4_PATH
    0xc0, 18, 8, 0, 1, 0x11, 0x70, 192, 0, 2, 2, // AS4_AGGREGATOR: 70000, 192.0.2.2
];

/// From a session whose AS numbers have four octets: GoBGP 3.10.0 announces 10.2.0.0/16.
const FOUR_OCTET_FIELD: &[u8] = &[
    0x40, 1, 1, 2, // ORIGIN: INCOMPLETE
    0x40, 2, 6, 2, 1, 0, 0, 0xfd, 0xea, // AS_PATH: 65002
    0x40, 3, 4, 192, 0, 2, 2, // NEXT_HOP: 192.0.2.2
    0x80, 4, 4, 0, 0, 0, 7, // MULTI_EXIT_DISC: 7
    0xc0, 7, 8, 0, 0, 0xfd, 0xea, 192, 0, 2, 2, // AGGREGATOR: 65002, 192.0.2.2
    0xc0, 8, 8, 0xfd, 0xea, 0, 100, 0xff, 0xff, 0xff, 1, // COMMUNITIES: 65002:100, no-export
    0xc0, 16, 8, 0, 2, 0xfd, 0xea, 0, 0, 0, 5, // EXTENDED COMMUNITIES: target 65002:5
    0xc0, 32, 12, 0, 0, 0xfd, 0xea, 0, 0, 0, 1, 0, 0, 0, 2, // LARGE_COMMUNITY: 65002:1:2
];

/// The least path, where it is named and not written out.
static OF_NONE: Parts<'static> = LEAST;

/// Of AS 65002 alone.
const OF_65002: Parts<'static> = Parts {
    as_path: &[(SegmentKind::Sequence, &[65002])],
    ..LEAST
};

/// What FRR said in two octets, as a path.
const MERGED: Parts<'static> = Parts {
    as_path: &[(SegmentKind::Sequence, &[65002, 70000, 70001])],
    multi_exit_disc: Some(7),
    atomic_aggregate: true,
    aggregator: Some(Aggregator {
        as_number: 70000,
        address: 0xc000_0202,
    }),
    communities: &[0xfdea_0064, 0xffff_ff01],
    large_communities: &[LARGE],
    ..LEAST
};

/// A path that an internal peer alone may say.
const REFLECTED: Parts<'static> = Parts {
    as_path: &[(SegmentKind::Set, &[1, 2])],
    local_pref: Some(100),
    originator_id: Some(0xc000_0201),
    cluster_list: &[1, 2],
    ..LEAST
};

/// What GoBGP announced, as a path.
const ANNOUNCED: Parts<'static> = Parts {
    origin: Origin::Incomplete,
    multi_exit_disc: Some(7),
    aggregator: Some(Aggregator {
        as_number: 65002,
        address: 0xc000_0202,
    }),
    communities: &[0xfdea_0064, 0xffff_ff01],
    extended_communities: &[0x0002_fdea_0000_0005],
    large_communities: &[LARGE],
    ..OF_65002
};
