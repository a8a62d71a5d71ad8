//! What no clause says: connections worked out by hand, and refused memory. Which connections are
//! refused, and why, is in the tables of `real_recordings`.

mod cases;
mod rows;

use cases::{CASES, Case, SEVERAL, STARTS};
use linked_list_allocator::LocalHeap;
use rows::{ROWS, STREAM};
use std::alloc::{AllocError, Allocator, Global};
use streams::*;

/// The cases: each function that names a table itself is proved with all of it.
fn all_cases() -> &'static [Case] {
    &CASES
}

/// The connections of some segments, by their places in the table.
fn gather<A: Allocator + Copy>(
    alloc: A,
    rows: &[usize],
    starts: (u32, u32),
) -> Result<Connections<A>, AllocError> {
    let mut connections = Connections::new(alloc);
    for (i, index) in rows.iter().enumerate() {
        if let Some(row) = ROWS.get(*index) {
            connections.take(&row.passed(starts, i as u64 + 1))?;
        }
    }
    Ok(connections)
}

/// Whether a connection's streams count up from 0, and were given by the case's packets.
fn is_told(connection: &Connection<'_>, case: &Case) -> bool {
    let received = Stream {
        octets: &STREAM,
        runs: case.received,
    };
    let sent = Stream {
        octets: &STREAM[..68],
        runs: case.sent,
    };
    connection.received == received && connection.sent == sent && connection.end == case.end
}

/// Whether a case is answered as it should be; `None` where memory is refused.
fn is_answered<A: Allocator + Copy>(alloc: A, case: &Case) -> Option<bool> {
    let Ok(connections) = gather(alloc, case.rows, case.starts) else {
        return None;
    };
    match connections.choose(case.number, case.rows.len() as u64) {
        Ok(connection) => Some(is_told(&connection, case)),
        Err(_) => Some(false),
    }
}

#[test]
fn connections_are_told_as_worked_out(rt: HostRuntime) {
    for (count, case) in all_cases().iter().enumerate() {
        assert!(rt; is_answered(rt.alloc(), case) == Some(true), "{count}");
    }
}

/// The same with a heap of this size.
fn is_answered_over(alloc: Global, size: usize, case: &Case) -> Option<bool> {
    match LocalHeap::new(alloc, size) {
        Ok(heap) => is_answered(&heap, case),
        Err(_) => None,
    }
}

/// Whether memory is refused by the smallest of some heaps, and the largest has enough; of those
/// that have enough each answers as it should.
fn is_answered_or_refused(alloc: Global, case: &Case) -> bool {
    for steps in 1..100 {
        if is_answered_over(alloc, 64 * steps, case) == Some(false) {
            return false;
        }
    }
    is_answered_over(alloc, 64, case).is_none() && is_answered_over(alloc, 6336, case).is_some()
}

#[test]
fn refused_memory_is_told(rt: HostRuntime) {
    for (count, case) in all_cases().iter().enumerate() {
        assert!(rt; is_answered_or_refused(rt.alloc(), case), "{count}");
    }
}

/// Whether what is known of the second of two connections is told, and of no third.
fn are_opened(alloc: Global) -> bool {
    let Ok(connections) = gather(alloc, SEVERAL, STARTS) else {
        return false;
    };
    let second = Opening {
        number: 2,
        local_port: 179,
        peer_port: 40001,
        opened_by: Side::Peer,
        packet: 10,
        second: 110,
        micro: Some(10000),
    };
    connections.count() == 2
        && connections.opening(2) == Some(second)
        && connections.opening(3).is_none()
        && connections.opening(0).is_none()
}

#[test]
fn openings_are_told_without_streams(rt: HostRuntime) {
    assert!(rt; are_opened(rt.alloc()));
}

/// Whether there is no connection 0, of segments of nine packets; no command line asks for it.
fn is_none_numbered_0(alloc: Global) -> bool {
    let Ok(connections) = gather(alloc, SEVERAL, STARTS) else {
        return false;
    };
    match connections.choose(Some(0), 9) {
        Ok(_) => false,
        Err(fault) => fault == Fault::NoConnection { packet: 9 },
    }
}

#[test]
fn connections_are_numbered_from_1(rt: HostRuntime) {
    assert!(rt; is_none_numbered_0(rt.alloc()));
}
