//! UPDATEs that announce 10.0.0.0/8 in MP_REACH_NLRI, with next hops of several lengths: received
//! and sent, by links whose forms have IPv6 next hops of IPv4 routes or don't (RFC 8950).

use super::*;
use bgp_open::Families;

/// 2001:db8::2
const GLOBAL: u128 = 0x2001_0db8 << 96 | 2;

/// fe80::2
const LINK_LOCAL: u128 = 0xfe80 << 112 | 2;

/// By AS 65002 and 2001:db8::2.
const HOP_OF_16: [u8; 62] = [
    255, 255, 255, 255, 255, 255, 255, 255, 255, 255, 255, 255, 255, 255, 255, 255, // marker
    0x00, 0x3e, 0x02, // Length 62, UPDATE
    0x00, 0x00, // no withdrawn routes
    0x00, 0x27, // 39 octets of attributes
    0x40, 0x01, 0x01, 0x00, // ORIGIN: IGP
    0x40, 0x02, 0x06, 0x02, 0x01, 0x00, 0x00, 0xfd, 0xea, // AS_PATH: 65002
    0x80, 0x0e, 0x17, // MP_REACH_NLRI, 23 octets
    0x00, 0x01, 0x01, // IPv4 unicast
    0x10, // next hop of 16 octets
    0x20, 0x01, 0x0d, 0xb8, 0, 0, 0, 0, 0, 0, 0, 0, 0, 0, 0, 2, // 2001:db8::2
    0x00, // reserved
    0x08, 0x0a, // 10.0.0.0/8
];

/// By AS 65002 and 2001:db8::2 with fe80::2.
const HOP_OF_32: [u8; 78] = [
    255, 255, 255, 255, 255, 255, 255, 255, 255, 255, 255, 255, 255, 255, 255, 255, // marker
    0x00, 0x4e, 0x02, // Length 78, UPDATE
    0x00, 0x00, // no withdrawn routes
    0x00, 0x37, // 55 octets of attributes
    0x40, 0x01, 0x01, 0x00, // ORIGIN: IGP
    0x40, 0x02, 0x06, 0x02, 0x01, 0x00, 0x00, 0xfd, 0xea, // AS_PATH: 65002
    0x80, 0x0e, 0x27, // MP_REACH_NLRI, 39 octets
    0x00, 0x01, 0x01, // IPv4 unicast
    0x20, // next hop of 32 octets
    0x20, 0x01, 0x0d, 0xb8, 0, 0, 0, 0, 0, 0, 0, 0, 0, 0, 0, 2, // 2001:db8::2
    0xfe, 0x80, 0, 0, 0, 0, 0, 0, 0, 0, 0, 0, 0, 0, 0, 2, // fe80::2
    0x00, // reserved
    0x08, 0x0a, // 10.0.0.0/8
];

/// By AS 65002 and the next hop of a VPN's route: a route distinguisher and 2001:db8::2.
const HOP_OF_24: [u8; 70] = [
    255, 255, 255, 255, 255, 255, 255, 255, 255, 255, 255, 255, 255, 255, 255, 255, // marker
    0x00, 0x46, 0x02, // Length 70, UPDATE
    0x00, 0x00, // no withdrawn routes
    0x00, 0x2f, // 47 octets of attributes
    0x40, 0x01, 0x01, 0x00, // ORIGIN: IGP
    0x40, 0x02, 0x06, 0x02, 0x01, 0x00, 0x00, 0xfd, 0xea, // AS_PATH: 65002
    0x80, 0x0e, 0x1f, // MP_REACH_NLRI, 31 octets
    0x00, 0x01, 0x01, // IPv4 unicast
    0x18, // next hop of 24 octets
    0, 0, 0, 0, 0, 0, 0, 0, // route distinguisher
    0x20, 0x01, 0x0d, 0xb8, 0, 0, 0, 0, 0, 0, 0, 0, 0, 0, 0, 2, // 2001:db8::2
    0x00, // reserved
    0x08, 0x0a, // 10.0.0.0/8
];

/// By AS 65002 and 192.0.2.2.
const HOP_OF_4: [u8; 50] = [
    255, 255, 255, 255, 255, 255, 255, 255, 255, 255, 255, 255, 255, 255, 255, 255, // marker
    0x00, 0x32, 0x02, // Length 50, UPDATE
    0x00, 0x00, // no withdrawn routes
    0x00, 0x1b, // 27 octets of attributes
    0x40, 0x01, 0x01, 0x00, // ORIGIN: IGP
    0x40, 0x02, 0x06, 0x02, 0x01, 0x00, 0x00, 0xfd, 0xea, // AS_PATH: 65002
    0x80, 0x0e, 0x0b, // MP_REACH_NLRI, 11 octets
    0x00, 0x01, 0x01, // IPv4 unicast
    0x04, 0xc0, 0x00, 0x02, 0x02, // next hop 192.0.2.2
    0x00, // reserved
    0x08, 0x0a, // 10.0.0.0/8
];

/// By AS 65001 and 2001:db8::1.
const SENT_HOP_OF_16: [u8; 62] = [
    255, 255, 255, 255, 255, 255, 255, 255, 255, 255, 255, 255, 255, 255, 255, 255, // marker
    0x00, 0x3e, 0x02, // Length 62, UPDATE
    0x00, 0x00, // no withdrawn routes
    0x00, 0x27, // 39 octets of attributes
    0x40, 0x01, 0x01, 0x00, // ORIGIN: IGP
    0x40, 0x02, 0x06, 0x02, 0x01, 0x00, 0x00, 0xfd, 0xe9, // AS_PATH: 65001
    0x80, 0x0e, 0x17, // MP_REACH_NLRI, 23 octets
    0x00, 0x01, 0x01, // IPv4 unicast
    0x10, // next hop of 16 octets
    0x20, 0x01, 0x0d, 0xb8, 0, 0, 0, 0, 0, 0, 0, 0, 0, 0, 0, 1, // 2001:db8::1
    0x00, // reserved
    0x08, 0x0a, // 10.0.0.0/8
];

/// What both OPENs settle, with IPv6 next hops of IPv4 routes in these directions.
fn link_with(received: bool, sent: bool) -> Option<Link> {
    let mut link = link(false)?;
    link.received.ipv6_next_hops = received;
    link.sent.ipv6_next_hops = sent;
    Some(link)
}

/// Whether an UPDATE is received with IPv6 next hops of IPv4 routes, its octets, and the next hop
/// of the route that it puts: `None` if its contents are wrong.
static RECEIVED: [(bool, &[u8], Option<NextHop>); 8] = [
    (true, &HOP_OF_16, Some(NextHop::V6(GLOBAL))),
    (
        true,
        &HOP_OF_32,
        Some(NextHop::V6WithLinkLocal(GLOBAL, LINK_LOCAL)),
    ),
    (true, &HOP_OF_24, None),
    (true, &HOP_OF_4, Some(NextHop::V4(0xc000_0202))),
    (false, &HOP_OF_16, None),
    (false, &HOP_OF_32, None),
    (false, &HOP_OF_24, None),
    (false, &HOP_OF_4, Some(NextHop::V4(0xc000_0202))),
];

/// Whether MP_REACH_NLRI alone puts a route, to 10.0.0.0/8 and by this next hop; or nothing is put.
fn is_put_by<A: Allocator>(changes: &Changes<A>, next_hop: Option<NextHop>) -> bool {
    let is_alone = changes.remove.is_empty() && changes.nlri.is_none();
    is_alone
        && match (&changes.mp_reach_nlri, next_hop) {
            (Some(put), Some(next_hop)) => {
                put.destinations.len() == 1
                    && put.destinations.last().copied() == plain("10.0.0.0/8")
                    && put.path.parts().next_hop == next_hop
            }
            (None, None) => true,
            _ => false,
        }
}

/// Whether an UPDATE is applied so. Wrong contents disable IPv4, or reset the session by subcode 9.
fn is_read(
    alloc: Global,
    received: bool,
    octets: &[u8],
    next_hop: Option<NextHop>,
) -> Option<bool> {
    // How routes are sent makes no difference.
    let link = link_with(received, !received)?;
    let outcomes = read_update(alloc, &link, octets).ok()?;
    let changes = outcomes.changes.as_ref()?;
    let is_wrong = next_hop.is_none();
    let disabled = Families {
        v4: is_wrong,
        v6: false,
    };
    let least = is_wrong.then_some(9);
    Some(
        is_put_by(changes, next_hop)
            && outcomes.certain == disabled
            && outcomes.optional.is_empty()
            && outcomes.reset.least() == least,
    )
}

#[test]
fn next_hops_are_read_by_the_received_form(rt: HostRuntime) {
    for (received, octets, next_hop) in &RECEIVED {
        assert!(rt; is_read(rt.alloc(), *received, octets, *next_hop) == Some(true));
    }
}

/// Whether an UPDATE is sent with IPv6 next hops of IPv4 routes, its octets, and whether it is
/// clean.
static SENT: [(bool, &[u8], bool); 5] = [
    (true, &SENT_HOP_OF_16, true),
    (true, &HOP_OF_4, true),
    (true, &HOP_OF_24, false),
    (false, &SENT_HOP_OF_16, false),
    (false, &HOP_OF_4, true),
];

/// Whether an UPDATE is clean if it is to be, however routes are received.
fn is_cleanness(sent: bool, octets: &[u8], is_wanted: bool) -> Option<bool> {
    let same = is_clean(&link_with(sent, sent)?, octets) == is_wanted;
    let other = is_clean(&link_with(!sent, sent)?, octets) == is_wanted;
    Some(same && other)
}

#[test]
fn next_hops_are_clean_by_the_sent_form(rt: HostRuntime) {
    for (sent, octets, is_wanted) in &SENT {
        assert!(rt; is_cleanness(*sent, octets, *is_wanted) == Some(true));
    }
}
