//! A ROUTE-REFRESH (RFC 2918) in each direction, which is passed over in one, in both, in none.

use super::*;
use bgp_recording::Unshown;
use bgp_wire::vectors::KEEPALIVE;

/// A ROUTE-REFRESH for IPv4 unicast (RFC 2918, 3).
const REFRESH: [u8; 23] = [
    255, 255, 255, 255, 255, 255, 255, 255, 255, 255, 255, 255, 255, 255, 255, 255, // marker
    0, 23, 5, // header
    0, 1, 0, 1, // AFI, reserved, SAFI
];

/// It, and then a KEEPALIVE, by packets 4 and 5.
static RUNS: [Run; 2] = [
    Run {
        count: 23,
        packet: 4,
        second: 100,
        micro: Some(4),
    },
    Run {
        count: 19,
        packet: 5,
        second: 101,
        micro: Some(5),
    },
];

/// A connection in which both systems send these octets.
fn connection_of(octets: &[u8]) -> Connection<'_> {
    let stream = Stream {
        octets,
        runs: &RUNS,
    };
    Connection {
        number: 1,
        local_port: 179,
        peer_port: 40000,
        opened_by: Side::Peer,
        packet: 1,
        second: 100,
        micro: Some(1),
        received: stream,
        sent: stream,
        end: None,
    }
}

/// What of a stream is shown, where its ROUTE-REFRESH is passed over or not: its last message, and
/// by which packet it came or was made.
fn shown(skips_refresh: bool) -> (&'static [u8], u64) {
    if skips_refresh {
        (&KEEPALIVE, 5)
    } else {
        (&REFRESH[..19], 4)
    }
}

/// And what isn't.
fn unshown(skips_refresh: bool) -> Unshown {
    if skips_refresh {
        return Unshown {
            passed_over: 1,
            rest: Rest::Short { count: 0 },
        };
    }
    Unshown {
        passed_over: 0,
        rest: Rest::BehindFault {
            place: 0,
            count: 23,
            is_refresh: true,
        },
    }
}

/// The message that an entry shows, with its packet.
fn message_of<'a>(entry: &Entry<'a>) -> Option<(Side, &'a [u8], u64)> {
    match entry.record {
        Record::In(_, octets) => Some((Side::Peer, octets, entry.packet)),
        Record::Out(_, octets) => Some((Side::Local, octets, entry.packet)),
        Record::Change(..) => None,
    }
}

/// Whether each message of a direction is this one.
fn is_shown(entries: &[Entry<'_>], from: Side, skips_refresh: bool) -> bool {
    let (octets, packet) = shown(skips_refresh);
    let mut all = true;
    let mut count = 0u64;
    for entry in entries {
        if let Some((side, message, by)) = message_of(entry) {
            if side == from {
                all &= message == octets && by == packet;
                count = count.saturating_add(1);
            }
        }
    }
    all && count == 1
}

/// At the plain limit, and passing a ROUTE-REFRESH over or not.
fn framing(skips_refresh: bool) -> Framing {
    Framing {
        limit: Limit::Plain,
        skips_refresh,
    }
}

/// Whether each direction is framed by its own rules.
fn is_framed(alloc: Global, connection: &Connection<'_>, received: bool, sent: bool) -> bool {
    if !is_covered(&connection.received) || !is_covered(&connection.sent) {
        return false;
    }
    let framings = Framings {
        received: framing(received),
        sent: framing(sent),
    };
    let Ok(made) = make_records(alloc, connection, framings, 10) else {
        return false;
    };
    is_shown(&made.entries, Side::Peer, received)
        && is_shown(&made.entries, Side::Local, sent)
        && made.received == unshown(received)
        && made.sent == unshown(sent)
}

#[test]
fn each_direction_passes_over_by_its_own_rules(rt: HostRuntime) {
    let mut octets = [0; 42];
    octets[..23].copy_from_slice(&REFRESH);
    octets[23..].copy_from_slice(&KEEPALIVE);
    let connection = connection_of(&octets);
    for (received, sent) in [(false, false), (false, true), (true, false), (true, true)] {
        assert!(rt; is_framed(rt.alloc(), &connection, received, sent));
    }
}
