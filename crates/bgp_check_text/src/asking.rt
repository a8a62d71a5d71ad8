//! Which connection of a recording `bgp judge` is asked for, where the end of one is meant.

ghost use Rattle.std.specs.Prelude.{◌≡◌, List, take};
ghost use Rattle.streams.specs.Connections.{numbered};
ghost use Rattle.streams.specs.Held.{HoldsConnections};
ghost use Rattle.streams.specs.Passed.{Segment};
ghost use Rattle.bgp_check_text.specs.Asked.{asked_of, count_to, named_among, place_among, unless};

use crate::options::Asked;
use bgp_import::end_of;
use bgp_prefix::Session;
use std::alloc::Allocator;
use streams::{Connections, Opening, Side};

/// The port at which `bgp judge` awaits BGP where none is given (RFC 4271, 2).
const PORT: u16 = 179;

/// How many seconds it lets a message wait where none are given.
const WITHIN: u16 = 10;

/// A value, where it isn't the one that is taken where none is given.
fn unless(usual: u16, value: u16) -> Option<u16>
    ensures { result ≡ unless usual value }
{
    if value == usual { None } else { Some(value) }
}

/// How many of the first so many connections go to this port of the peer.
fn count_to<A: Allocator + Copy>(connections: &Connections<A>, port: u16, many: usize) -> usize
    ensures { (segments : List Segment) → HoldsConnections segments connections.now
        → result ≡ count_to port (take many (numbered segments)) }
{
    let mut count = 0;
    for index in 0..many {
        if let Some(opening) = connections.opening(index + 1) {
            if opening.peer_port == port {
                count += 1;
            }
        }
    }
    count
}

/// The number of a connection among those that `bgp judge` finds, and how many these are.
fn place_among<A: Allocator + Copy>(
    session: &Session,
    side: Side,
    opening: Opening,
    connections: &Connections<A>,
) -> (usize, usize)
    ensures { (segments : List Segment) → HoldsConnections segments connections.now
        → result ≡ place_among session.now side opening (numbered segments) }
{
    match side {
        Side::Peer if session.local == session.peer => (
            count_to(connections, opening.peer_port, opening.number),
            count_to(connections, opening.peer_port, connections.count()),
        ),
        _ => (opening.number, connections.count()),
    }
}

/// The number, where there are several.
fn named_among(place: (usize, usize)) -> Option<usize>
    ensures { result ≡ named_among place }
{
    if 1 < place.1 { Some(place.0) } else { None }
}

/// How `bgp judge` is asked for this end of the connection between two addresses that was opened
/// so: of these connections at a port, with this many seconds for a message to wait.
pub fn asked_of<A: Allocator + Copy>(
    port: u16,
    within: u16,
    session: &Session,
    connections: &Connections<A>,
    opening: Opening,
    side: Side,
) -> Asked
    ensures { (segments : List Segment) → HoldsConnections segments connections.now
        → result ≡ asked_of port within session.now (numbered segments) opening side }
{
    let local_port = end_of(side, session, opening).port;
    Asked {
        port: unless(PORT, port),
        local_port: (session.local == session.peer).then_some(local_port),
        connection: named_among(place_among(session, side, opening, connections)),
        within: unless(WITHIN, within),
    }
}
