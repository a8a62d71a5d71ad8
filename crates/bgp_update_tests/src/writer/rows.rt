//! What is written, octet for octet.

use super::*;
use bgp_wire::vectors::ANNOUNCES_10;

/// The announcement of 2001:db8::/32 by AS 65002 and 2001:db8::2.
const ANNOUNCES_2001_DB8: [u8; 65] = [
    255, 255, 255, 255, 255, 255, 255, 255, 255, 255, 255, 255, 255, 255, 255, 255, // marker
    0x00, 0x41, 2, // Length 65, UPDATE
    0x00, 0x00, // no withdrawn routes
    0x00, 0x2a, // 42 octets of attributes
    0x80, 14, 26, // MP_REACH_NLRI
    0, 2, 1, 16, // IPv6 unicast, a next hop of 16 octets
    0x20, 1, 0x0d, 0xb8, 0, 0, 0, 0, 0, 0, 0, 0, 0, 0, 0, 2, // 2001:db8::2
    0, 32, 0x20, 1, 0x0d, 0xb8, // reserved, 2001:db8::/32
    0x40, 1, 1, 0, // ORIGIN: IGP
    0x40, 2, 6, 2, 1, 0, 0, 0xfd, 0xea, // AS_PATH: 65002
];

/// The withdrawal of 10.0.0.0/8.
const WITHDRAWS_10: [u8; 25] = [
    255, 255, 255, 255, 255, 255, 255, 255, 255, 255, 255, 255, 255, 255, 255, 255, // marker
    0x00, 0x19, 2, // Length 25, UPDATE
    0x00, 0x02, 8, 10, // 10.0.0.0/8
    0x00, 0x00, // no attributes
];

/// The withdrawal of 2001:db8::/32.
const WITHDRAWS_2001_DB8: [u8; 34] = [
    255, 255, 255, 255, 255, 255, 255, 255, 255, 255, 255, 255, 255, 255, 255, 255, // marker
    0x00, 0x22, 2, // Length 34, UPDATE
    0x00, 0x00, // no withdrawn routes
    0x00, 0x0b, // 11 octets of attributes
    0x80, 15, 8, 0, 2, 1, // MP_UNREACH_NLRI: IPv6 unicast
    32, 0x20, 1, 0x0d, 0xb8, // 2001:db8::/32
];

/// The announcement of 10.0.0.0/8 by AS 70000 where AS numbers have two octets.
const ANNOUNCES_10_BY_70000: [u8; 52] = [
    255, 255, 255, 255, 255, 255, 255, 255, 255, 255, 255, 255, 255, 255, 255, 255, // marker
    0x00, 0x34, 2, // Length 52, UPDATE
    0x00, 0x00, // no withdrawn routes
    0x00, 0x1b, // 27 octets of attributes
    0x40, 1, 1, 0, // ORIGIN: IGP
    0x40, 2, 4, 2, 1, 0x5b, 0xa0, // AS_PATH: 23456
    0x40, 3, 4, 192, 0, 2, 2, // NEXT_HOP: 192.0.2.2
    0xc0, 17, 6, 2, 1, 0, 1, 0x11, 0x70, // AS4_PATH: 70000
    8, 10, // 10.0.0.0/8
];

/// The announcement of 10.0.0.0/8 by AS 65002, with a large community.
const ANNOUNCES_10_WITH_LARGE: [u8; 60] = [
    255, 255, 255, 255, 255, 255, 255, 255, 255, 255, 255, 255, 255, 255, 255, 255, // marker
    0x00, 0x3c, 2, // Length 60, UPDATE
    0x00, 0x00, // no withdrawn routes
    0x00, 0x23, // 35 octets of attributes
    0x40, 1, 1, 0, // ORIGIN: IGP
    0x40, 2, 6, 2, 1, 0, 0, 0xfd, 0xea, // AS_PATH: 65002
    0x40, 3, 4, 192, 0, 2, 2, // NEXT_HOP: 192.0.2.2
    0xc0, 32, 12, 0, 0, 0xfd, 0xea, 0, 0, 0, 1, 0, 0, 0, 2, // LARGE_COMMUNITY: 65002:1:2
    8, 10, // 10.0.0.0/8
];

/// An UPDATE of empty fields (RFC 4724, 2: the End-of-RIB marker of IPv4).
const SAYS_NOTHING: [u8; 23] = [
    255, 255, 255, 255, 255, 255, 255, 255, 255, 255, 255, 255, 255, 255, 255, 255, // marker
    0x00, 0x17, 2, // Length 23, UPDATE
    0x00, 0x00, 0x00, 0x00, // nothing is withdrawn, no attributes
];

/// The announcement of 2001:db8::/32 by AS 65002, 2001:db8::2 and fe80::1.
const ANNOUNCES_BY_LINK_LOCAL: [u8; 81] = [
    255, 255, 255, 255, 255, 255, 255, 255, 255, 255, 255, 255, 255, 255, 255, 255, // marker
    0x00, 0x51, 2, // Length 81, UPDATE
    0x00, 0x00, // no withdrawn routes
    0x00, 0x3a, // 58 octets of attributes
    0x80, 14, 42, // MP_REACH_NLRI
    0, 2, 1, 32, // IPv6 unicast, a next hop of 32 octets
    0x20, 1, 0x0d, 0xb8, 0, 0, 0, 0, 0, 0, 0, 0, 0, 0, 0, 2, // 2001:db8::2
    0xfe, 0x80, 0, 0, 0, 0, 0, 0, 0, 0, 0, 0, 0, 0, 0, 1, // fe80::1
    0, 32, 0x20, 1, 0x0d, 0xb8, // reserved, 2001:db8::/32
    0x40, 1, 1, 0, // ORIGIN: IGP
    0x40, 2, 6, 2, 1, 0, 0, 0xfd, 0xea, // AS_PATH: 65002
];

/// The announcement of no prefix at all by AS 65002 and 192.0.2.2.
const ANNOUNCES_NOTHING: [u8; 43] = [
    255, 255, 255, 255, 255, 255, 255, 255, 255, 255, 255, 255, 255, 255, 255, 255, // marker
    0x00, 0x2b, 2, // Length 43, UPDATE
    0x00, 0x00, // no withdrawn routes
    0x00, 0x14, // 20 octets of attributes
    0x40, 1, 1, 0, // ORIGIN: IGP
    0x40, 2, 6, 2, 1, 0, 0, 0xfd, 0xea, // AS_PATH: 65002
    0x40, 3, 4, 192, 0, 2, 2, // NEXT_HOP: 192.0.2.2
];

static ROWS: [Row<'static>; 9] = [
    Row {
        lesson: "10.0.0.0/8 is announced in the base fields",
        wanted: Wanted::Octets(&ANNOUNCES_10),
        ..ANNOUNCE
    },
    Row {
        lesson: "10.0.0.0/8 is withdrawn in the base fields",
        wanted: Wanted::Octets(&WITHDRAWS_10),
        ..WITHDRAW
    },
    Row {
        lesson: "2001:db8::/32 is announced in an MP attribute, which comes first",
        path: Some(BY_V6),
        family: Family::V6,
        prefixes: &[(1, "2001:db8::/32")],
        wanted: Wanted::Octets(&ANNOUNCES_2001_DB8),
        ..ANNOUNCE
    },
    Row {
        lesson: "2001:db8::/32 is withdrawn in an MP attribute",
        family: Family::V6,
        prefixes: &[(1, "2001:db8::/32")],
        wanted: Wanted::Octets(&WITHDRAWS_2001_DB8),
        ..WITHDRAW
    },
    Row {
        lesson: "no prefix at all is withdrawn, which is allowed",
        prefixes: &[],
        wanted: Wanted::Octets(&SAYS_NOTHING),
        ..WITHDRAW
    },
    Row {
        lesson: "without a prefix the attributes are the same",
        prefixes: &[],
        wanted: Wanted::Octets(&ANNOUNCES_NOTHING),
        ..ANNOUNCE
    },
    Row {
        lesson: "in two octets AS4_PATH has the large numbers",
        as4: false,
        path: Some(Said {
            number: 70000,
            ..BY_V4
        }),
        wanted: Wanted::Octets(&ANNOUNCES_10_BY_70000),
        ..ANNOUNCE
    },
    Row {
        lesson: "large communities come last",
        path: Some(Said {
            large_communities: &[LARGE],
            ..BY_V4
        }),
        wanted: Wanted::Octets(&ANNOUNCES_10_WITH_LARGE),
        ..ANNOUNCE
    },
    Row {
        lesson: "a next hop of 32 octets has a link-local address",
        path: Some(Said {
            next_hop: NextHop::V6WithLinkLocal(0x2001_0db8 << 96 | 2, 0xfe80 << 112 | 1),
            ..BY_V4
        }),
        family: Family::V6,
        prefixes: &[(1, "2001:db8::/32")],
        wanted: Wanted::Octets(&ANNOUNCES_BY_LINK_LOCAL),
        ..ANNOUNCE
    },
];

#[test]
fn updates_are_written(rt: HostRuntime) {
    for row in &ROWS {
        assert!(rt; is_told(rt.alloc(), row), "{}", row.lesson);
    }
}
