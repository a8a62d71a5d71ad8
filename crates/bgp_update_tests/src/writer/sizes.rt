//! A message has at most 4096 octets (RFC 4271, 4.1), an extended one 65535 (RFC 8654, 4).

use super::*;

/// Which is too large.
const TOO_LARGE: Wanted<'static> = Wanted::Fault(UpdateFault::TooLarge);

static ROWS: [Row<'static>; 13] = [
    // 23 octets, 814 prefixes of 5, and one of 3 or of 4
    Row {
        lesson: "withdrawals of IPv4 fill a message",
        prefixes: &[(814, "192.0.2.1/32"), (1, "10.1.0.0/16")],
        wanted: Wanted::Length(4096),
        ..WITHDRAW
    },
    Row {
        lesson: "withdrawals of IPv4 are too large",
        prefixes: &[(814, "192.0.2.1/32"), (1, "10.1.2.0/24")],
        wanted: TOO_LARGE,
        ..WITHDRAW
    },
    // 23 octets, an attribute header of 4 and 3 of AFI and SAFI, 239 prefixes of 17, and one
    Row {
        lesson: "withdrawals of IPv6 fill a message",
        family: Family::V6,
        prefixes: &[(239, "2001:db8::1/128"), (1, "2001::/16")],
        wanted: Wanted::Length(4096),
        ..WITHDRAW
    },
    Row {
        lesson: "withdrawals of IPv6 are too large",
        family: Family::V6,
        prefixes: &[(239, "2001:db8::1/128"), (1, "2001:d00::/24")],
        wanted: TOO_LARGE,
        ..WITHDRAW
    },
    // 23 octets, ORIGIN 4, AS_PATH 9, NEXT_HOP 7, 810 prefixes of 5, and one of 3 or of 4
    Row {
        lesson: "announcements of IPv4 fill a message",
        prefixes: &[(810, "192.0.2.1/32"), (1, "10.1.0.0/16")],
        wanted: Wanted::Length(4096),
        ..ANNOUNCE
    },
    Row {
        lesson: "announcements of IPv4 are too large",
        prefixes: &[(810, "192.0.2.1/32"), (1, "10.1.2.0/24")],
        wanted: TOO_LARGE,
        ..ANNOUNCE
    },
    // 23 octets, ORIGIN 4, AS_PATH 9, an attribute header of 4, 21 octets of fields, 237 prefixes
    // of 17, and one of 6 or of 7
    Row {
        lesson: "announcements of IPv6 fill a message",
        path: Some(BY_V6),
        family: Family::V6,
        prefixes: &[(237, "2001:db8::1/128"), (1, "2001:db8::/40")],
        wanted: Wanted::Length(4096),
        ..ANNOUNCE
    },
    Row {
        lesson: "announcements of IPv6 are too large",
        path: Some(BY_V6),
        family: Family::V6,
        prefixes: &[(237, "2001:db8::1/128"), (1, "2001:db8::/48")],
        wanted: TOO_LARGE,
        ..ANNOUNCE
    },
    // 23 octets, ORIGIN 4, AS_PATH 9, NEXT_HOP 7, COMMUNITIES 4 and 4044, and a prefix of 5
    Row {
        lesson: "1011 communities fill a message",
        path: Some(Said {
            communities: 1011,
            ..BY_V4
        }),
        prefixes: &[(1, "192.0.2.1/32")],
        wanted: Wanted::Length(4096),
        ..ANNOUNCE
    },
    Row {
        lesson: "1012 communities are too large",
        path: Some(Said {
            communities: 1012,
            ..BY_V4
        }),
        prefixes: &[(1, "192.0.2.0/24")],
        wanted: TOO_LARGE,
        ..ANNOUNCE
    },
    // A value of 65532 octets, of 65536, which no length can say, and more.
    Row {
        lesson: "16383 communities are too large",
        path: Some(Said {
            communities: 16383,
            ..BY_V4
        }),
        prefixes: &[],
        wanted: TOO_LARGE,
        ..ANNOUNCE
    },
    Row {
        lesson: "16384 communities are too large",
        path: Some(Said {
            communities: 16384,
            ..BY_V4
        }),
        prefixes: &[],
        wanted: TOO_LARGE,
        ..ANNOUNCE
    },
    Row {
        lesson: "100000 communities are too large",
        path: Some(Said {
            communities: 100_000,
            ..BY_V4
        }),
        prefixes: &[],
        wanted: TOO_LARGE,
        ..ANNOUNCE
    },
];

/// Where the peer offers extended messages.
static EXTENDED: [Row<'static>; 13] = [
    // 23 octets, 814 prefixes of 5, and one of 4
    Row {
        lesson: "an octet more than in a plain message",
        extended: true,
        prefixes: &[(814, "192.0.2.1/32"), (1, "10.1.2.0/24")],
        wanted: Wanted::Length(4097),
        ..WITHDRAW
    },
    // 23 octets, 13102 prefixes of 5, and one of 2 or of 3
    Row {
        lesson: "withdrawals of IPv4 fill an extended message",
        extended: true,
        prefixes: &[(13102, "192.0.2.1/32"), (1, "10.0.0.0/8")],
        wanted: Wanted::Length(65535),
        ..WITHDRAW
    },
    Row {
        lesson: "withdrawals of IPv4 are too large for one",
        extended: true,
        prefixes: &[(13102, "192.0.2.1/32"), (1, "10.1.0.0/16")],
        wanted: TOO_LARGE,
        ..WITHDRAW
    },
    // 23 octets, 4 and 3, 3853 prefixes of 17, and one of 4 or of 5
    Row {
        lesson: "withdrawals of IPv6 fill an extended message",
        extended: true,
        family: Family::V6,
        prefixes: &[(3853, "2001:db8::1/128"), (1, "2001:d00::/24")],
        wanted: Wanted::Length(65535),
        ..WITHDRAW
    },
    Row {
        lesson: "withdrawals of IPv6 are too large for one",
        extended: true,
        family: Family::V6,
        prefixes: &[(3853, "2001:db8::1/128"), (1, "2001:db8::/32")],
        wanted: TOO_LARGE,
        ..WITHDRAW
    },
    // 23 octets, 20 of attributes, 13098 prefixes of 5, and one of 2 or of 3
    Row {
        lesson: "announcements of IPv4 fill an extended message",
        extended: true,
        prefixes: &[(13098, "192.0.2.1/32"), (1, "10.0.0.0/8")],
        wanted: Wanted::Length(65535),
        ..ANNOUNCE
    },
    Row {
        lesson: "announcements of IPv4 are too large for one",
        extended: true,
        prefixes: &[(13098, "192.0.2.1/32"), (1, "10.1.0.0/16")],
        wanted: TOO_LARGE,
        ..ANNOUNCE
    },
    // 23 octets, 13 of attributes, 4 and 21, 3851 prefixes of 17, and one of 7 or of 8
    Row {
        lesson: "announcements of IPv6 fill an extended message",
        extended: true,
        path: Some(BY_V6),
        family: Family::V6,
        prefixes: &[(3851, "2001:db8::1/128"), (1, "2001:db8::/48")],
        wanted: Wanted::Length(65535),
        ..ANNOUNCE
    },
    Row {
        lesson: "announcements of IPv6 are too large for one",
        extended: true,
        path: Some(BY_V6),
        family: Family::V6,
        prefixes: &[(3851, "2001:db8::1/128"), (1, "2001:db8::/56")],
        wanted: TOO_LARGE,
        ..ANNOUNCE
    },
    // A value of 37 octets, 3852 prefixes of 17 and one of 15: 65536, which no length can say.
    Row {
        lesson: "a value of 65536 octets is too large",
        extended: true,
        path: Some(BY_BOTH_V6),
        family: Family::V6,
        prefixes: &[(3852, "2001:db8::1/128"), (1, "2001:db8::/112")],
        wanted: TOO_LARGE,
        ..ANNOUNCE
    },
    // 23 octets, 20 of attributes, COMMUNITIES 4 and 65480 or 65484, and prefixes of 8 or of 5
    Row {
        lesson: "16370 communities fill an extended message",
        extended: true,
        path: Some(Said {
            communities: 16370,
            ..BY_V4
        }),
        prefixes: &[(1, "192.0.2.1/32"), (1, "10.1.0.0/16")],
        wanted: Wanted::Length(65535),
        ..ANNOUNCE
    },
    Row {
        lesson: "16371 communities are too large for one",
        extended: true,
        path: Some(Said {
            communities: 16371,
            ..BY_V4
        }),
        prefixes: &[(1, "192.0.2.1/32")],
        wanted: TOO_LARGE,
        ..ANNOUNCE
    },
    Row {
        lesson: "16384 communities are too large for an extended message",
        extended: true,
        path: Some(Said {
            communities: 16384,
            ..BY_V4
        }),
        prefixes: &[],
        wanted: TOO_LARGE,
        ..ANNOUNCE
    },
];

#[test]
fn updates_fill_a_message_and_no_more(rt: HostRuntime) {
    for row in &ROWS {
        assert!(rt; is_told(rt.alloc(), row), "{}", row.lesson);
    }
}

#[test]
fn updates_fill_an_extended_message_and_no_more(rt: HostRuntime) {
    for row in &EXTENDED {
        assert!(rt; is_told(rt.alloc(), row), "{}", row.lesson);
    }
}
