//! Growths that are refused while records are made, and the rules of framing of each direction.
//! (Connections and the records that are made of them are compared by the program
//! `real_recordings`.)

mod refresh;

ghost use Rattle.std.specs.Prelude.{◌≡◌, IfSome, IsTrue};
ghost use Rattle.std.specs.List.{AllByRecursion};
ghost use Rattle.bgp_recording.specs.Givers.{given_by, IsNotEmpty};
ghost use Rattle.bgp_recording.specs.Gathered.{IsCovered};

use bgp_recording::{Entry, Framing, Framings, Rest, make_records};
use bgp_wire::Limit;
use bgp_wire::vectors::{ANNOUNCES_10, KEEPALIVE, OPEN_A, OPEN_B};
use linked_list_allocator::LocalHeap;
use mrt::Record;
use std::alloc::{AllocError, Allocator, Global};
use streams::{Connection, Run, Side, Stream};

/// An OPEN, a KEEPALIVE and an UPDATE of 45 octets that came. Each packet has as many microseconds
/// as its number.
static RECEIVED: [Run; 3] = [
    Run {
        count: 49,
        packet: 4,
        second: 100,
        micro: Some(4),
    },
    Run {
        count: 19,
        packet: 7,
        second: 101,
        micro: Some(7),
    },
    Run {
        count: 45,
        packet: 8,
        second: 102,
        micro: Some(8),
    },
];

/// An OPEN and a KEEPALIVE that were sent, in two packets of one second.
static SENT: [Run; 2] = [
    Run {
        count: 49,
        packet: 5,
        second: 100,
        micro: Some(5),
    },
    Run {
        count: 19,
        packet: 6,
        second: 100,
        micro: Some(6),
    },
];

/// A session that comes up, and announces a route: each record with its packet.
static RECORDS: [(u64, Record<'static>); 9] = [
    (1, Record::Change(100, 1, 3)),
    (5, Record::Out(100, &OPEN_A)),
    (5, Record::Change(100, 3, 4)),
    (4, Record::In(100, &OPEN_B)),
    (6, Record::Out(100, &KEEPALIVE)),
    (6, Record::Change(100, 4, 5)),
    (7, Record::In(101, &KEEPALIVE)),
    (7, Record::Change(101, 5, 6)),
    (8, Record::In(102, &ANNOUNCES_10)),
];

/// The octets of pieces, one after another.
fn joined(alloc: Global, pieces: &[&[u8]]) -> Result<Vec<u8>, AllocError> {
    let mut octets = Vec::new(alloc);
    for piece in pieces {
        octets.extend_from_slice(piece)?;
    }
    Ok(octets)
}

/// How many octets the runs have, where none is empty.
fn count_of(runs: &[Run]) -> Option<usize>
    ensures count { IfSome result (λ count. count ≡ given_by runs.now) }
    ensures some { IfSome result (λ count. AllByRecursion IsNotEmpty runs.now) }
{
    let Some((run, later)) = runs.split_first() else {
        return Some(0);
    };
    if run.count == 0 {
        return None;
    }
    run.count.checked_add(count_of(later)?)
}

/// Whether the runs have the stream's octets.
fn is_covered(stream: &Stream<'_>) -> bool
    ensures { IsTrue result → IsCovered stream.now }
{
    match count_of(stream.runs) {
        Some(count) => count == stream.octets.len(),
        None => false,
    }
}

/// Whether an entry has as many microseconds as the number of its packet.
fn has_fraction(entry: &Entry<'_>) -> bool {
    match entry.micro {
        Some(micro) => u64::from(micro) == entry.packet,
        None => false,
    }
}

/// Whether the records are those, in their order, each with its packet and the fraction of that.
fn are_records(entries: &[Entry<'_>]) -> bool {
    if entries.len() != RECORDS.len() {
        return false;
    }
    for (entry, (packet, record)) in entries.iter().zip(&RECORDS) {
        if entry.packet != *packet || !has_fraction(entry) || entry.record != *record {
            return false;
        }
    }
    true
}

/// The connection, whose streams have these octets.
fn connection_of<'a>(received: &'a [u8], sent: &'a [u8]) -> Connection<'a> {
    Connection {
        number: 1,
        local_port: 179,
        peer_port: 40000,
        opened_by: Side::Peer,
        packet: 1,
        second: 100,
        micro: Some(1),
        received: Stream {
            octets: received,
            runs: &RECEIVED,
        },
        sent: Stream {
            octets: sent,
            runs: &SENT,
        },
        end: None,
    }
}

/// Whether what is made of a connection is those records, and nothing is left: no answer where
/// memory was refused.
fn is_made<A: Allocator + Copy>(alloc: A, connection: &Connection<'_>) -> Option<bool> {
    if !is_covered(&connection.received) || !is_covered(&connection.sent) {
        return Some(false);
    }
    let framings = Framings::alike(Framing {
        limit: Limit::Plain,
        skips_refresh: false,
    });
    let made = make_records(alloc, connection, framings, 10).ok()?;
    let nothing = Rest::Short { count: 0 };
    Some(are_records(&made.entries) && made.received.rest == nothing && made.sent.rest == nothing)
}

/// Whether memory is refused by small heaps, and larger ones make the records.
fn is_refused_by_some(alloc: Global, connection: &Connection<'_>) -> bool {
    let (mut refused, mut done) = (false, false);
    for step in 1..256 {
        let Ok(heap) = LocalHeap::new(alloc, 16 * step) else {
            return false;
        };
        match is_made(&heap, connection) {
            Some(true) => done = true,
            Some(false) => return false,
            None => refused = true,
        }
    }
    refused && done
}

/// Whether the records are made, and growths are refused.
fn is_made_or_refused(alloc: Global) -> Result<bool, AllocError> {
    let received = joined(alloc, &[&OPEN_B, &KEEPALIVE, &ANNOUNCES_10])?;
    let sent = joined(alloc, &[&OPEN_A, &KEEPALIVE])?;
    let connection = connection_of(&received, &sent);
    Ok(is_made(alloc, &connection) == Some(true) && is_refused_by_some(alloc, &connection))
}

#[test]
fn records_are_made_and_growths_may_be_refused(rt: HostRuntime) {
    assert!(rt; is_made_or_refused(rt.alloc()) == Ok(true));
}
