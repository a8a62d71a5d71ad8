//! A whole way of a connection.

use crate::explained::{REJECTED, REJECTS, router_a};
use bgp_orders::record_whole_way;
use bgp_recording::{Entry, Framings};
use mrt::Record;
use std::alloc::Global;
use streams::{Closing, Connection, End, Run, Side, Stream};

/// The local system opens it, sends a NOTIFICATION before its OPEN, and ends it.
const REJECTING: Connection<'static> = Connection {
    number: 1,
    local_port: 50001,
    peer_port: 179,
    opened_by: Side::Local,
    packet: 1,
    second: 100,
    micro: Some(7),
    received: Stream {
        octets: &[],
        runs: &[],
    },
    sent: Stream {
        octets: &REJECTED,
        runs: &[Run {
            count: 21,
            packet: 4,
            second: 101,
            micro: Some(999_999),
        }],
    },
    end: Some(End {
        packet: 5,
        second: 101,
        micro: Some(999_999),
        side: Side::Local,
        closing: Closing::Fin,
    }),
};

/// Whether these are the records of the entries.
fn are_records_of(records: &[Record<'_>], entries: &[Entry<'_>]) -> bool {
    if records.len() != entries.len() {
        return false;
    }
    for (record, entry) in records.iter().zip(entries) {
        if *record != entry.record {
            return false;
        }
    }
    true
}

/// Whether a whole way of the connection has these entries, and the records are theirs; or none is
/// whole, if there are no entries.
fn is_recorded(alloc: Global, delays: bool, entries: &[Entry<'_>]) -> Option<bool> {
    let config = router_a(delays)?;
    let framings = Framings::of_session(&config.parts.session);
    let made = record_whole_way(alloc, &config, &REJECTING, framings, 10).ok()?;
    let Some(made) = made else {
        return Some(entries.is_empty());
    };
    Some(made.entries.as_slice() == entries && are_records_of(&made.records, entries))
}

#[test]
fn a_whole_way_of_a_connection_is_recorded(rt: HostRuntime) {
    assert!(rt; is_recorded(rt.alloc(), true, &REJECTS) == Some(true));
    assert!(rt; is_recorded(rt.alloc(), false, &[]) == Some(true));
}
