//! Of `mrt_sessions`: whether a file is read, too, where the local system offers no extended
//! messages, and whether a session has just some records.

use super::captures::{CHANGE, KEPT_ALIVE, RECEIVED, SESSION};
use super::extended::record;
use super::refreshes::session_with;
use super::*;
use bgp_prefix::{Address, Session};
use bgp_wire::vectors::KEEPALIVE;
use mrt_sessions::{reads_as, records_in};

/// A record: its type and subtype, the last octet of its peer's address, and how many octets its
/// body has.
type Body = (u8, u8, u8, u32);

/// A change of the session of 192.0.2.1 with 192.0.2.2, and then this record of one with 192.0.2.x.
fn file_with(alloc: Global, (kind, subtype, peer, count): Body) -> Option<Vec<u8>> {
    let header = [0x00, 0x00, 0x00, 0x65, 0x00, kind, 0x00, subtype];
    let numbers = [
        0x00, 0x00, 0xfd, 0xea, 0x00, 0x00, 0xfd, 0xe9, // AS numbers
        0x00, 0x00, 0x00, 0x01, // interface index, AFI
        0xc0, 0x00, 0x02, peer, 0xc0, 0x00, 0x02, 0x01, // peer and local address
    ];
    let mut octets = joined(alloc, &[&CHANGE, &header, &count.to_be_bytes(), &numbers])?;
    octets.resize(48 + count as usize, 0).ok()?;
    Some(octets)
}

/// A record, and whether the file is plain that has it: one of the session, of another session, of
/// an unknown subtype, of type BGP4MP_ET with such a subtype, of another type.
static BODIES: [(Body, bool); 6] = [
    ((16, 4, 2, 8192), true),
    ((16, 4, 2, 8193), false),
    ((16, 4, 9, 8193), false),
    ((16, 2, 2, 8193), false),
    ((17, 2, 2, 8193), false),
    ((13, 4, 2, 8193), true),
];

/// Whether these octets are read to their end, as a plain file or another.
fn is_plain_read(alloc: Global, octets: &[u8], is_plain: bool) -> bool {
    match records_in(alloc, octets) {
        Ok(file) => file.refusal.is_none() && file.is_plain == is_plain,
        Err(AllocError) => false,
    }
}

/// Whether a file with such a body is plain or not, as its row says.
fn is_plain_told(alloc: Global, (body, is_plain): &(Body, bool)) -> Option<bool> {
    Some(is_plain_read(alloc, &file_with(alloc, *body)?, *is_plain))
}

#[test]
fn a_plain_file_has_no_body_of_8193_octets(rt: HostRuntime) {
    for (row, body) in BODIES.iter().enumerate() {
        assert!(rt; is_plain_told(rt.alloc(), body) == Some(true), "row {row}");
    }
}

/// Whether the records of a file are read of the session as these.
fn is_read(alloc: Global, session: &Session, octets: &[u8], records: &[Record<'_>]) -> bool {
    match records_in(alloc, octets) {
        Ok(file) => reads_as(session, file.records.as_slice(), records),
        Err(AllocError) => false,
    }
}

/// The session of 192.0.2.1 with 192.0.2.9, of which the file has no record.
const OTHER: Session = Session {
    peer: Address::V4(0xc000_0209),
    ..SESSION
};

/// A change, and a KEEPALIVE that was received.
const CHANGED: Record<'static> = Record::Change(100, 1, 2);

const KEPT: Record<'static> = Record::In(101, &KEEPALIVE);

/// Whether another session is asked for, and whether the records of a file of these two are read as
/// these.
static LISTS: [(bool, &[Record<'static>], bool); 8] = [
    (false, &[CHANGED, KEPT], true),
    (false, &[CHANGED], false),
    (false, &[CHANGED, KEPT, KEPT], false),
    (false, &[KEPT, CHANGED], false),
    (false, &[CHANGED, Record::In(102, &KEEPALIVE)], false),
    (false, &[CHANGED, Record::Out(101, &KEEPALIVE)], false),
    (true, &[CHANGED, KEPT], false),
    (true, &[], false),
];

/// Whether a session has just these records of a file, or others, as a row says.
fn is_list_told(
    alloc: Global,
    (is_other, records, is_so): &(bool, &[Record<'_>], bool),
) -> Option<bool> {
    let octets = joined(alloc, &[&CHANGE, &RECEIVED])?;
    let session = if *is_other { &OTHER } else { &SESSION };
    Some(is_read(alloc, session, &octets, records) == *is_so)
}

#[test]
fn a_session_has_just_its_records(rt: HostRuntime) {
    for (row, list) in LISTS.iter().enumerate() {
        assert!(rt; is_list_told(rt.alloc(), list) == Some(true), "row {row}");
    }
}

/// A ROUTE-REFRESH of 23 octets.
static REFRESH: [u8; 23] = [
    255, 255, 255, 255, 255, 255, 255, 255, 255, 255, 255, 255, 255, 255, 255, 255, // marker
    0x00, 0x17, 0x05, // Length and type of the message
    0x00, 0x00, 0x00, 0x00,
];

/// The octets of a change, a ROUTE-REFRESH and a KEEPALIVE.
fn file_of(alloc: Global, refresh: &[u8]) -> Option<Vec<u8>> {
    let record = record(alloc, 4, 43, refresh)?;
    joined(alloc, &[&CHANGE, &record, &RECEIVED])
}

/// Whether a session reads [`REFRESH`], the first octet of whose marker is this, between a change
/// and a KEEPALIVE, as a record; and whether it passes over it.
fn is_refresh_read(alloc: Global, session: &Session, marker: u8) -> Option<(bool, bool)> {
    let mut refresh = REFRESH;
    refresh[0] = marker;
    let file = file_of(alloc, &refresh)?;
    let all = [CHANGED, Record::In(101, &refresh), KEPT_ALIVE];
    Some((
        is_read(alloc, session, &file, &all),
        is_read(alloc, session, &file, &[CHANGED, KEPT_ALIVE]),
    ))
}

/// Whether a ROUTE-REFRESH is passed over or kept or refused, each where it is to be.
fn are_refreshes_read(alloc: Global) -> bool {
    let passing = session_with(true, false);
    let without = session_with(false, false);
    is_refresh_read(alloc, &passing, 255) == Some((false, true))
        && is_refresh_read(alloc, &passing, 254) == Some((true, false))
        && is_refresh_read(alloc, &without, 255) == Some((true, false))
        && is_refresh_read(alloc, &SESSION, 255) == Some((false, false))
}

#[test]
fn a_refresh_is_passed_over_or_kept_or_refused(rt: HostRuntime) {
    assert!(rt; are_refreshes_read(rt.alloc()));
}
