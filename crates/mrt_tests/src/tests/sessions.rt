//! Of `mrt_sessions`: which sessions a file has, which records each of them has, and where both
//! stop.

use super::captures::{CHANGE, KEPT_ALIVE, RECEIVED};
use super::*;
use bgp_prefix::Address;
use mrt_sessions::*;

/// A KEEPALIVE with ADD-PATH (RFC 8050, 3) that 192.0.2.1 received of 192.0.2.9 at second 102.
static ADD_PATH: [u8; 51] = [
    0x00, 0x00, 0x00, 0x66, 0x00, 0x10, 0x00, 0x09, 0x00, 0x00, 0x00, 0x27, // header
    0x00, 0x00, 0xfd, 0xea, 0x00, 0x00, 0xfd, 0xe9, 0x00, 0x00, 0x00, 0x01, // numbers
    0xc0, 0x00, 0x02, 0x09, 0xc0, 0x00, 0x02, 0x01, // addresses
    0xff, 0xff, 0xff, 0xff, 0xff, 0xff, 0xff, 0xff, // marker
    0xff, 0xff, 0xff, 0xff, 0xff, 0xff, 0xff, 0xff, // marker
    0x00, 0x13, 0x04, // Length and type of the message
];

/// The sessions of 192.0.2.1 with 192.0.2.2 and with 192.0.2.9.
const FIRST: Addresses = Addresses {
    peer: Address::V4(0xc000_0202),
    local: Address::V4(0xc000_0201),
};

const SECOND: Addresses = Addresses {
    peer: Address::V4(0xc000_0209),
    local: Address::V4(0xc000_0201),
};

/// Messages of at most 4096 octets, in both directions.
const PLAIN: ExtendedMessages = ExtendedMessages {
    received: false,
    sent: false,
};

/// Whether a session has these records and this fault, and so many messages received and changes.
fn has(
    alloc: Global,
    sessions: &Sessions<'_>,
    addresses: Addresses,
    records: &[Record<'_>],
    fault: Option<CaptureFault>,
    received: u64,
    changes: u64,
) -> bool {
    let Some(named) = sessions.records(addresses) else {
        return false;
    };
    let counts = Counts {
        received,
        sent: 0,
        changes,
    };
    Counts::of(named) == counts
        && match read_session(alloc, addresses, PLAIN, named) {
            Ok(read) => read.records.as_slice() == records && read.fault == fault,
            Err(AllocError) => false,
        }
}

/// Whether a file has both sessions, of which the second is refused at its first record.
fn are_both_told(alloc: Global, sessions: &Sessions<'_>) -> bool {
    let both = [Record::Change(100, 1, 2), KEPT_ALIVE];
    let add_path = CaptureFault {
        kind: FaultKind::AddPath,
        offset: 36,
    };
    sessions.in_order() == [FIRST, SECOND].as_slice()
        && has(alloc, sessions, FIRST, &both, None, 1, 1)
        && has(alloc, sessions, SECOND, &[], Some(add_path), 1, 0)
}

/// Whether a file has both, and its last record is cut short.
fn are_told(alloc: Global, file: &FileRecords<'_>) -> bool {
    let cut = CaptureFault {
        kind: FaultKind::Truncated,
        offset: 138,
    };
    match Sessions::of(alloc, file.records.as_slice()) {
        Ok(sessions) => are_both_told(alloc, &sessions) && file.fault(Ending::End) == Some(cut),
        Err(AllocError) => false,
    }
}

/// Whether such a file is read so.
fn is_file_told(alloc: Global) -> Option<bool> {
    let octets = joined(alloc, &[&CHANGE, &ADD_PATH, &RECEIVED, &CHANGE[..35]])?;
    match records_in(alloc, octets.as_slice()) {
        Ok(file) => Some(are_told(alloc, &file)),
        Err(AllocError) => None,
    }
}

#[test]
fn sessions_of_a_file_are_told_apart(rt: HostRuntime) {
    assert!(rt; is_file_told(rt.alloc()) == Some(true));
}

/// Whether of a source whose call of this number is upset so these octets are held.
fn is_held(alloc: Global, call: u64, upset: SourceUpset, octets: &[u8], ending: Ending) -> bool {
    let Ok(change) = CHANGE.to_vec(alloc) else {
        return false;
    };
    let mut source = MemSource::new(change)
        .in_pieces_of(at_most(20))
        .upset_at(call, upset);
    let held = hold(alloc, &mut source);
    held.octets.as_slice() == octets && held.ending == ending
}

#[test]
fn what_was_read_before_a_failure_is_held(rt: HostRuntime) {
    let front = &CHANGE[..20];
    let is_cut = is_held(rt.alloc(), 1, SourceUpset::Fail, front, Ending::Device);
    let is_ended = is_held(rt.alloc(), 1, SourceUpset::End, front, Ending::End);
    let is_whole = is_held(rt.alloc(), 9, SourceUpset::Fail, &CHANGE, Ending::End);
    assert!(rt; is_cut && is_ended && is_whole);
}
