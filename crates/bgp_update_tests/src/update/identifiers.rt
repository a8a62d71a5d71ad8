//! UPDATEs whose prefixes stand behind path identifiers, or don't: received and sent, by links whose
//! forms identify a family or don't (RFC 7911).

use super::*;
use bgp_open::{Families, RouteForm};
use bgp_update::{PathId, read_parts};
use bgp_wire::vectors::{ANNOUNCES_10, ANNOUNCES_2001_DB8};

/// No family.
const NEITHER: Families = Families {
    v4: false,
    v6: false,
};

/// IPv6 alone.
const V6: Families = Families {
    v4: false,
    v6: true,
};

/// IPv4 and IPv6.
const BOTH: Families = Families { v4: true, v6: true };

/// Announces 10.0.0.0/8 with the identifier 1.
const PATH_1: [u8; 49] = [
    255, 255, 255, 255, 255, 255, 255, 255, 255, 255, 255, 255, 255, 255, 255, 255, // marker
    0x00, 0x31, 0x02, // Length 49, UPDATE
    0x00, 0x00, // no withdrawn routes
    0x00, 0x14, // 20 octets of attributes
    0x40, 0x01, 0x01, 0x00, // ORIGIN: IGP
    0x40, 0x02, 0x06, 0x02, 0x01, 0x00, 0x00, 0xfd, 0xea, // AS_PATH: 65002
    0x40, 0x03, 0x04, 0xc0, 0x00, 0x02, 0x02, // NEXT_HOP: 192.0.2.2
    0x00, 0x00, 0x00, 0x01, 0x08, 0x0a, // identifier 1, 10.0.0.0/8
];

/// [`PATH_1`] with an ORIGIN that isn't 0 to 2.
const PATH_1_OF_ORIGIN_3: [u8; 49] = [
    255, 255, 255, 255, 255, 255, 255, 255, 255, 255, 255, 255, 255, 255, 255, 255, // marker
    0x00, 0x31, 0x02, // Length 49, UPDATE
    0x00, 0x00, // no withdrawn routes
    0x00, 0x14, // 20 octets of attributes
    0x40, 0x01, 0x01, 0x03, // ORIGIN: 3
    0x40, 0x02, 0x06, 0x02, 0x01, 0x00, 0x00, 0xfd, 0xea, // AS_PATH: 65002
    0x40, 0x03, 0x04, 0xc0, 0x00, 0x02, 0x02, // NEXT_HOP: 192.0.2.2
    0x00, 0x00, 0x00, 0x01, 0x08, 0x0a, // identifier 1, 10.0.0.0/8
];

/// [`PATH_1`] and three octets of an identifier.
const CUT_IDENTIFIER: [u8; 52] = [
    255, 255, 255, 255, 255, 255, 255, 255, 255, 255, 255, 255, 255, 255, 255, 255, // marker
    0x00, 0x34, 0x02, // Length 52, UPDATE
    0x00, 0x00, // no withdrawn routes
    0x00, 0x14, // 20 octets of attributes
    0x40, 0x01, 0x01, 0x00, // ORIGIN: IGP
    0x40, 0x02, 0x06, 0x02, 0x01, 0x00, 0x00, 0xfd, 0xea, // AS_PATH: 65002
    0x40, 0x03, 0x04, 0xc0, 0x00, 0x02, 0x02, // NEXT_HOP: 192.0.2.2
    0x00, 0x00, 0x00, 0x01, 0x08, 0x0a, // identifier 1, 10.0.0.0/8
    0x00, 0x00, 0x00, // an identifier of three octets
];

/// [`PATH_1`] and an identifier with no prefix behind it.
const IDENTIFIER_ALONE: [u8; 53] = [
    255, 255, 255, 255, 255, 255, 255, 255, 255, 255, 255, 255, 255, 255, 255, 255, // marker
    0x00, 0x35, 0x02, // Length 53, UPDATE
    0x00, 0x00, // no withdrawn routes
    0x00, 0x14, // 20 octets of attributes
    0x40, 0x01, 0x01, 0x00, // ORIGIN: IGP
    0x40, 0x02, 0x06, 0x02, 0x01, 0x00, 0x00, 0xfd, 0xea, // AS_PATH: 65002
    0x40, 0x03, 0x04, 0xc0, 0x00, 0x02, 0x02, // NEXT_HOP: 192.0.2.2
    0x00, 0x00, 0x00, 0x01, 0x08, 0x0a, // identifier 1, 10.0.0.0/8
    0x00, 0x00, 0x00, 0x02, // identifier 2
];

/// Withdraws 10.0.0.0/8 with the identifier 1.
const WITHDRAWS_PATH_1: [u8; 29] = [
    255, 255, 255, 255, 255, 255, 255, 255, 255, 255, 255, 255, 255, 255, 255, 255, // marker
    0x00, 0x1d, 0x02, // Length 29, UPDATE
    0x00, 0x06, // 6 octets of withdrawn routes
    0x00, 0x00, 0x00, 0x01, 0x08, 0x0a, // identifier 1, 10.0.0.0/8
    0x00, 0x00, // no attributes
];

/// Withdraws 10.0.0.0/8 with the identifier 1, and announces it.
const PATH_1_AGAIN: [u8; 55] = [
    255, 255, 255, 255, 255, 255, 255, 255, 255, 255, 255, 255, 255, 255, 255, 255, // marker
    0x00, 0x37, 0x02, // Length 55, UPDATE
    0x00, 0x06, // 6 octets of withdrawn routes
    0x00, 0x00, 0x00, 0x01, 0x08, 0x0a, // identifier 1, 10.0.0.0/8
    0x00, 0x14, // 20 octets of attributes
    0x40, 0x01, 0x01, 0x00, // ORIGIN: IGP
    0x40, 0x02, 0x06, 0x02, 0x01, 0x00, 0x00, 0xfd, 0xea, // AS_PATH: 65002
    0x40, 0x03, 0x04, 0xc0, 0x00, 0x02, 0x02, // NEXT_HOP: 192.0.2.2
    0x00, 0x00, 0x00, 0x01, 0x08, 0x0a, // identifier 1, 10.0.0.0/8
];

/// Announces it in MP_REACH_NLRI, whose Transitive bit is in conflict with its type.
const MP_PATH_1_TRANSITIVE: [u8; 54] = [
    255, 255, 255, 255, 255, 255, 255, 255, 255, 255, 255, 255, 255, 255, 255, 255, // marker
    0x00, 0x36, 0x02, // Length 54, UPDATE
    0x00, 0x00, // no withdrawn routes
    0x00, 0x1f, // 31 octets of attributes
    0x40, 0x01, 0x01, 0x00, // ORIGIN: IGP
    0x40, 0x02, 0x06, 0x02, 0x01, 0x00, 0x00, 0xfd, 0xea, // AS_PATH: 65002
    0xc0, 0x0e, 0x0f, // MP_REACH_NLRI, 15 octets, Transitive set
    0x00, 0x01, 0x01, // IPv4 unicast
    0x04, 0xc0, 0x00, 0x02, 0x02, // next hop 192.0.2.2
    0x00, // reserved
    0x00, 0x00, 0x00, 0x01, 0x08, 0x0a, // identifier 1, 10.0.0.0/8
];

/// Announces it in MP_REACH_NLRI, by the next hop 2001:db8::2 (RFC 8950).
const MP_PATH_1: [u8; 66] = [
    255, 255, 255, 255, 255, 255, 255, 255, 255, 255, 255, 255, 255, 255, 255, 255, // marker
    0x00, 0x42, 0x02, // Length 66, UPDATE
    0x00, 0x00, // no withdrawn routes
    0x00, 0x2b, // 43 octets of attributes
    0x40, 0x01, 0x01, 0x00, // ORIGIN: IGP
    0x40, 0x02, 0x06, 0x02, 0x01, 0x00, 0x00, 0xfd, 0xea, // AS_PATH: 65002
    0x80, 0x0e, 0x1b, // MP_REACH_NLRI, 27 octets
    0x00, 0x01, 0x01, // IPv4 unicast
    0x10, // next hop of 16 octets
    0x20, 0x01, 0x0d, 0xb8, 0, 0, 0, 0, 0, 0, 0, 0, 0, 0, 0, 2, // 2001:db8::2
    0x00, // reserved
    0x00, 0x00, 0x00, 0x01, 0x08, 0x0a, // identifier 1, 10.0.0.0/8
];

/// Announces 2001:db8::/32 with the identifier 5.
const IPV6_PATH_5: [u8; 69] = [
    255, 255, 255, 255, 255, 255, 255, 255, 255, 255, 255, 255, 255, 255, 255, 255, // marker
    0x00, 0x45, 0x02, // Length 69, UPDATE
    0x00, 0x00, // no withdrawn routes
    0x00, 0x2e, // 46 octets of attributes
    0x40, 0x01, 0x01, 0x00, // ORIGIN: IGP
    0x40, 0x02, 0x06, 0x02, 0x01, 0x00, 0x00, 0xfd, 0xea, // AS_PATH: 65002
    0x80, 0x0e, 0x1e, // MP_REACH_NLRI, 30 octets
    0x00, 0x02, 0x01, // IPv6 unicast
    0x10, // next hop of 16 octets
    0x20, 0x01, 0x0d, 0xb8, 0, 0, 0, 0, 0, 0, 0, 0, 0, 0, 0, 2, // 2001:db8::2
    0x00, // reserved
    0x00, 0x00, 0x00, 0x05, // identifier 5
    0x20, 0x20, 0x01, 0x0d, 0xb8, // 2001:db8::/32
];

/// No field holds anything: the End-of-RIB marker of IPv4 (RFC 4724, 2).
const END_OF_RIB: [u8; 23] = [
    255, 255, 255, 255, 255, 255, 255, 255, 255, 255, 255, 255, 255, 255, 255, 255, // marker
    0x00, 0x17, 0x02, // Length 23, UPDATE
    0x00, 0x00, // no withdrawn routes
    0x00, 0x00, // no attributes
];

/// Announces 10.1.0.0/16 by AS 65001, without an identifier.
const SENT: [u8; 46] = [
    255, 255, 255, 255, 255, 255, 255, 255, 255, 255, 255, 255, 255, 255, 255, 255, // marker
    0x00, 0x2e, 0x02, // Length 46, UPDATE
    0x00, 0x00, // no withdrawn routes
    0x00, 0x14, // 20 octets of attributes
    0x40, 0x01, 0x01, 0x00, // ORIGIN: IGP
    0x40, 0x02, 0x06, 0x02, 0x01, 0x00, 0x00, 0xfd, 0xe9, // AS_PATH: 65001
    0x40, 0x03, 0x04, 0xc0, 0x00, 0x02, 0x01, // NEXT_HOP: 192.0.2.1
    0x10, 0x0a, 0x01, // 10.1.0.0/16
];

/// [`SENT`] with the identifier 1.
const SENT_PATH_1: [u8; 50] = [
    255, 255, 255, 255, 255, 255, 255, 255, 255, 255, 255, 255, 255, 255, 255, 255, // marker
    0x00, 0x32, 0x02, // Length 50, UPDATE
    0x00, 0x00, // no withdrawn routes
    0x00, 0x14, // 20 octets of attributes
    0x40, 0x01, 0x01, 0x00, // ORIGIN: IGP
    0x40, 0x02, 0x06, 0x02, 0x01, 0x00, 0x00, 0xfd, 0xe9, // AS_PATH: 65001
    0x40, 0x03, 0x04, 0xc0, 0x00, 0x02, 0x01, // NEXT_HOP: 192.0.2.1
    0x00, 0x00, 0x00, 0x01, // identifier 1
    0x10, 0x0a, 0x01, // 10.1.0.0/16
];

/// A prefix and its identifier.
type Named<'a> = (&'a str, Option<u32>);

/// What an UPDATE is to change where it is applied, and what else may become of it.
struct Wanted<'a> {
    removed: &'a [Named<'a>],
    /// Put by the NLRI field.
    nlri: &'a [Named<'a>],
    /// Put by MP_REACH_NLRI.
    mp_reach_nlri: &'a [Named<'a>],
    /// The families that are disabled.
    certain: Families,
    /// The families that may be.
    optional: Families,
    /// The least subcode by which the session may be reset.
    least: Option<u8>,
}

/// It is applied, and changes nothing.
const NOTHING: Wanted<'static> = Wanted {
    removed: &[],
    nlri: &[],
    mp_reach_nlri: &[],
    certain: NEITHER,
    optional: NEITHER,
    least: None,
};

/// An UPDATE that is received.
struct Row<'a> {
    lesson: &'a str,
    /// The families whose prefixes are received with path identifiers.
    identified: Families,
    octets: &'a [u8],
    /// What is to become of it. `None`: the session is reset by subcode 10, Invalid Network Field.
    wanted: Option<Wanted<'a>>,
}

/// The families are identified, or they aren't, and nothing is tried the other way.
static RECEIVED: [Row; 23] = [
    Row {
        lesson: "an identifier of IPv4",
        identified: Families::V4,
        octets: &PATH_1,
        wanted: Some(Wanted {
            nlri: &[("10.0.0.0/8", Some(1))],
            ..NOTHING
        }),
    },
    Row {
        lesson: "an identifier where none is settled",
        identified: NEITHER,
        octets: &PATH_1,
        wanted: None,
    },
    Row {
        lesson: "an identifier of IPv4 where IPv6 alone is identified",
        identified: V6,
        octets: &PATH_1,
        wanted: None,
    },
    Row {
        lesson: "an identifier of a route that is withdrawn for its ORIGIN",
        identified: Families::V4,
        octets: &PATH_1_OF_ORIGIN_3,
        wanted: Some(Wanted {
            removed: &[("10.0.0.0/8", Some(1))],
            ..NOTHING
        }),
    },
    Row {
        lesson: "a cut identifier",
        identified: Families::V4,
        octets: &CUT_IDENTIFIER,
        wanted: None,
    },
    Row {
        lesson: "the same octets without identifiers",
        identified: NEITHER,
        octets: &CUT_IDENTIFIER,
        wanted: Some(Wanted {
            nlri: &[
                ("0.0.0.0/0", None),
                ("0.0.0.0/0", None),
                ("0.0.0.0/0", None),
                ("0.0.0.0/1", None),
                ("0.0.0.0/10", None),
                ("0.0.0.0/0", None),
            ],
            ..NOTHING
        }),
    },
    Row {
        lesson: "an identifier with nothing behind it",
        identified: Families::V4,
        octets: &IDENTIFIER_ALONE,
        wanted: None,
    },
    Row {
        lesson: "the same octets without identifiers, where a prefix is cut",
        identified: NEITHER,
        octets: &IDENTIFIER_ALONE,
        wanted: None,
    },
    Row {
        lesson: "an identifier that is withdrawn",
        identified: Families::V4,
        octets: &WITHDRAWS_PATH_1,
        wanted: Some(Wanted {
            removed: &[("10.0.0.0/8", Some(1))],
            ..NOTHING
        }),
    },
    Row {
        lesson: "an identifier that is withdrawn where none is settled",
        identified: NEITHER,
        octets: &WITHDRAWS_PATH_1,
        wanted: None,
    },
    Row {
        lesson: "an identifier that is withdrawn and announced",
        identified: Families::V4,
        octets: &PATH_1_AGAIN,
        wanted: Some(Wanted {
            removed: &[("10.0.0.0/8", Some(1))],
            nlri: &[("10.0.0.0/8", Some(1))],
            ..NOTHING
        }),
    },
    Row {
        lesson: "an identifier in MP_REACH_NLRI with bits in conflict",
        identified: Families::V4,
        octets: &MP_PATH_1_TRANSITIVE,
        wanted: Some(Wanted {
            removed: &[("10.0.0.0/8", Some(1))],
            optional: Families::V4,
            least: Some(4),
            ..NOTHING
        }),
    },
    Row {
        lesson: "the same where none is settled, so the contents are wrong",
        identified: NEITHER,
        octets: &MP_PATH_1_TRANSITIVE,
        wanted: Some(Wanted {
            certain: Families::V4,
            least: Some(4),
            ..NOTHING
        }),
    },
    Row {
        lesson: "an identifier of IPv4 in MP_REACH_NLRI",
        identified: Families::V4,
        octets: &MP_PATH_1,
        wanted: Some(Wanted {
            mp_reach_nlri: &[("10.0.0.0/8", Some(1))],
            ..NOTHING
        }),
    },
    Row {
        lesson: "the same where IPv6 alone is identified",
        identified: V6,
        octets: &MP_PATH_1,
        wanted: Some(Wanted {
            certain: Families::V4,
            least: Some(9),
            ..NOTHING
        }),
    },
    Row {
        lesson: "an identifier of IPv6",
        identified: V6,
        octets: &IPV6_PATH_5,
        wanted: Some(Wanted {
            mp_reach_nlri: &[("2001:db8::/32", Some(5))],
            ..NOTHING
        }),
    },
    Row {
        lesson: "an identifier of IPv6 where none is settled",
        identified: NEITHER,
        octets: &IPV6_PATH_5,
        wanted: Some(Wanted {
            certain: V6,
            least: Some(9),
            ..NOTHING
        }),
    },
    Row {
        lesson: "an identifier of IPv6 where IPv4 alone is identified",
        identified: Families::V4,
        octets: &IPV6_PATH_5,
        wanted: Some(Wanted {
            certain: V6,
            least: Some(9),
            ..NOTHING
        }),
    },
    Row {
        lesson: "no identifier of IPv4 where it is identified",
        identified: Families::V4,
        octets: &ANNOUNCES_10,
        wanted: None,
    },
    Row {
        lesson: "no identifier of IPv4 where IPv6 alone is identified",
        identified: V6,
        octets: &ANNOUNCES_10,
        wanted: Some(Wanted {
            nlri: &[("10.0.0.0/8", None)],
            ..NOTHING
        }),
    },
    Row {
        lesson: "no identifier of IPv6 where it is identified",
        identified: V6,
        octets: &ANNOUNCES_2001_DB8,
        wanted: Some(Wanted {
            certain: V6,
            least: Some(9),
            ..NOTHING
        }),
    },
    Row {
        lesson: "no identifier of IPv6 where IPv4 alone is identified",
        identified: Families::V4,
        octets: &ANNOUNCES_2001_DB8,
        wanted: Some(Wanted {
            mp_reach_nlri: &[("2001:db8::/32", None)],
            ..NOTHING
        }),
    },
    Row {
        lesson: "an UPDATE without destinations",
        identified: BOTH,
        octets: &END_OF_RIB,
        wanted: Some(NOTHING),
    },
];

/// Whether these are just the destinations, in this order.
fn are_named(destinations: &[Destination], wanted: &[Named<'_>]) -> bool {
    if destinations.len() != wanted.len() {
        return false;
    }
    for (destination, (text, number)) in destinations.iter().zip(wanted) {
        let path = match number {
            Some(number) => Some(PathId::new(*number)),
            None => None,
        };
        if read_prefix(text) != Some(destination.prefix) || destination.path != path {
            return false;
        }
    }
    true
}

/// Whether these are just the destinations of a group, which isn't there if it has none.
fn is_group<A: Allocator>(put: &Option<Put<A>>, wanted: &[Named<'_>]) -> bool {
    match put {
        Some(put) => !wanted.is_empty() && are_named(&put.destinations, wanted),
        None => wanted.is_empty(),
    }
}

/// Whether these are the changes.
fn are_wanted<A: Allocator>(changes: &Changes<A>, wanted: &Wanted<'_>) -> bool {
    are_named(&changes.remove, wanted.removed)
        && is_group(&changes.nlri, wanted.nlri)
        && is_group(&changes.mp_reach_nlri, wanted.mp_reach_nlri)
}

/// A form with these identified families, and with IPv6 next hops of IPv4 routes.
fn form_of(identified: Families) -> RouteForm {
    RouteForm {
        identified,
        ipv6_next_hops: true,
    }
}

/// The other families.
fn others(families: Families) -> Families {
    Families {
        v4: !families.v4,
        v6: !families.v6,
    }
}

/// Whether an UPDATE is read so.
fn is_read(alloc: Global, row: &Row<'_>) -> Option<bool> {
    let mut link = link(false)?;
    link.received = form_of(row.identified);
    link.sent = form_of(others(row.identified)); // It makes no difference.
    let outcomes = read_update(alloc, &link, row.octets).ok()?;
    Some(match (&outcomes.changes, &row.wanted) {
        (Some(changes), Some(wanted)) => {
            are_wanted(changes, wanted)
                && outcomes.certain == wanted.certain
                && outcomes.optional == wanted.optional
                && outcomes.reset.least() == wanted.least
        }
        (None, None) => outcomes.reset.least() == Some(10),
        _ => false,
    })
}

#[test]
fn identifiers_are_read_by_the_received_form(rt: HostRuntime) {
    for row in &RECEIVED {
        assert!(rt; is_read(rt.alloc(), row) == Some(true), "{}", row.lesson);
    }
}

/// The families whose prefixes are sent with path identifiers, the octets of an UPDATE, and whether
/// it is clean.
static CLEAN: [(Families, &[u8], bool); 14] = [
    (Families::V4, &SENT_PATH_1, true),
    (NEITHER, &SENT_PATH_1, false),
    (V6, &SENT_PATH_1, false),
    (Families::V4, &SENT, false),
    (NEITHER, &SENT, true),
    (V6, &SENT, true),
    (Families::V4, &CUT_IDENTIFIER, false),
    (Families::V4, &IDENTIFIER_ALONE, false),
    (Families::V4, &WITHDRAWS_PATH_1, true),
    (NEITHER, &WITHDRAWS_PATH_1, false),
    (V6, &IPV6_PATH_5, true),
    (Families::V4, &IPV6_PATH_5, false),
    (Families::V4, &MP_PATH_1, true),
    (BOTH, &END_OF_RIB, true),
];

/// Whether an UPDATE is clean if it is to be.
fn is_cleanness(sent: Families, octets: &[u8], is_wanted: bool) -> Option<bool> {
    let mut link = link(false)?;
    link.sent = form_of(sent);
    link.received = form_of(others(sent)); // It makes no difference.
    Some(is_clean(&link, octets) == is_wanted)
}

#[test]
fn identifiers_are_clean_by_the_sent_form(rt: HostRuntime) {
    for (sent, octets, is_wanted) in &CLEAN {
        assert!(rt; is_cleanness(*sent, octets, *is_wanted) == Some(true));
    }
}

/// How many destinations the NLRI field of [`CUT_IDENTIFIER`] has, and what the last one is:
/// `None` if it isn't a list of destinations.
fn count_parts(identified: Families) -> Option<(usize, Destination)> {
    let parts = read_parts(form_of(identified), &CUT_IDENTIFIER)?;
    let mut count = 0usize;
    let mut last = None;
    for destination in parts.nlri {
        count = count.saturating_add(1);
        last = Some(destination);
    }
    Some((count, last?))
}

/// Whether that field has so many destinations and the default route last: `None` as above.
fn are_parts(identified: Families, wanted: usize) -> Option<bool> {
    let (count, last) = count_parts(identified)?;
    let default = plain("0.0.0.0/0")?;
    Some(count == wanted && last.prefix == default.prefix && last.path.is_none())
}

#[test]
fn parts_are_read_by_a_form(rt: HostRuntime) {
    assert!(rt; are_parts(Families::V4, 6).is_none());
    assert!(rt; are_parts(V6, 6) == Some(true));
}
