//! ROUTE-REFRESH messages (RFC 2918) in captures: which are passed over, and which are records; and
//! how many records are skipped. For which a capture is refused is in the tables of
//! `real_captures`.

use super::captures::{CHANGE, CHANGED, Next, SESSION, is_next};
use super::extended::{message, message_front, record};
use super::*;
use bgp_prefix::{RouteRefresh, Session};

/// A message of type 5: the subtype of its record, the first octet of its marker, its Length, and
/// how many octets it has.
type Message = (u8, u8, u16, u16);

/// Whether whole messages are passed over, or the session has no route refresh; whether it offers
/// extended messages (RFC 8654); a message, and whether it is passed over, or is a record.
type Row = (bool, bool, Message, bool);

static ROWS: [Row; 12] = [
    (true, false, (4, 255, 23, 23), true),
    (true, false, (7, 255, 23, 23), true),
    (true, false, (4, 255, 19, 19), true),
    (true, false, (4, 255, 4096, 4096), true),
    (true, true, (7, 255, 4096, 4096), true),
    (true, false, (4, 255, 4097, 4097), false),
    (true, true, (4, 255, 4097, 4097), false),
    (true, false, (4, 254, 23, 23), false),
    (true, false, (4, 255, 24, 23), false),
    (true, false, (4, 255, 22, 23), false),
    (true, false, (4, 255, 18, 19), false),
    (false, false, (4, 255, 23, 23), false),
];

/// The session, where such messages are passed over, or where it offers no route refresh.
pub(crate) fn session_with(is_passing: bool, extended: bool) -> Session {
    Session {
        refresh: if is_passing {
            RouteRefresh::PassedOver
        } else {
            RouteRefresh::NotOffered
        },
        extended,
        ..SESSION
    }
}

/// So many ROUTE-REFRESH messages received and sent, and nothing else.
fn refreshes(received: u64, sent: u64) -> SkippedRecords {
    SkippedRecords {
        other_kinds: 0,
        other_sessions: 0,
        received_refreshes: received,
        sent_refreshes: sent,
    }
}

/// Whether a reader's first answer is that, of the record at this octet, after so many that it
/// skipped.
fn is_first(
    alloc: Global,
    session: &Session,
    capture: Vec<u8>,
    wanted: &Next<'_>,
    place: u64,
    skipped: SkippedRecords,
) -> bool {
    let (mut source, mut reader) = (MemSource::new(capture), Reader::new(alloc));
    is_next(&mut reader, &mut source, session, wanted)
        && reader.place() == place
        && reader.skipped() == skipped
}

/// The octets of a message.
fn octets_of(alloc: Global, (_, marker, length, count): &Message) -> Option<Vec<u8>> {
    let mut front = message_front(*length, 5);
    front[0] = *marker;
    message(alloc, &front, usize::from(*count))
}

/// Those of its record at second 101 with a change after it, which is of second 100.
fn capture_with(alloc: Global, octets: &[u8], message: &Message) -> Option<Vec<u8>> {
    let record = record(alloc, message.0, 20 + u32::from(message.3), octets)?;
    joined(alloc, &[&record, &CHANGE])
}

/// Whether a message with these octets is passed over and counted, or is a record.
fn is_row_told(
    alloc: Global,
    (is_passing, extended, message, is_passed_over): &Row,
    octets: &[u8],
) -> Option<bool> {
    let (wanted, place, skipped) = if *is_passed_over {
        let is_sent = message.0 == 7;
        let skipped = refreshes(u64::from(!is_sent), u64::from(is_sent));
        (CHANGED, 32 + octets.len() as u64, skipped)
    } else {
        (Ok(Some(Record::In(101, octets))), 0, refreshes(0, 0))
    };
    let session = session_with(*is_passing, *extended);
    let capture = capture_with(alloc, octets, message)?;
    Some(is_first(alloc, &session, capture, &wanted, place, skipped))
}

/// Whether the message of a row is.
fn is_told(alloc: Global, row: &Row) -> Option<bool> {
    is_row_told(alloc, row, &octets_of(alloc, &row.2)?)
}

#[test]
fn whole_refreshes_are_passed_over(rt: HostRuntime) {
    for (count, row) in ROWS.iter().enumerate() {
        assert!(rt; is_told(rt.alloc(), row) == Some(true), "{count}");
    }
}

/// A record of another type, one of an unknown subtype, and one of a session between the same
/// addresses the other way round.
static OTHERS: [u8; 68] = [
    0x00, 0x00, 0x00, 0x01, 0x00, 0x0d, 0x00, 0x01, 0x00, 0x00, 0x00, 0x02, 0xaa, 0xbb, // type 13
    0x00, 0x00, 0x00, 0x64, 0x00, 0x10, 0x00, 0x02, 0x00, 0x00, 0x00, 0x06, // subtype 2
    0xff, 0xff, 0xff, 0xff, 0xff, 0xff, // its body
    0x00, 0x00, 0x00, 0x64, 0x00, 0x10, 0x00, 0x05, 0x00, 0x00, 0x00, 0x18, // STATE_CHANGE_AS4
    0x00, 0x00, 0xfd, 0xe9, 0x00, 0x00, 0xfd, 0xea, 0x00, 0x00, 0x00, 0x01, // numbers
    0xc0, 0x00, 0x02, 0x01, 0xc0, 0x00, 0x02, 0x02, // addresses
    0x00, 0x01, 0x00, 0x02, // states
];

/// Whether these are skipped and counted, where a change follows.
fn are_counted(alloc: Global) -> Option<bool> {
    let capture = joined(alloc, &[&OTHERS, &CHANGE])?;
    let skipped = SkippedRecords {
        other_kinds: 2,
        other_sessions: 1,
        ..refreshes(0, 0)
    };
    Some(is_first(alloc, &SESSION, capture, &CHANGED, 68, skipped))
}

#[test]
fn skipped_records_are_counted(rt: HostRuntime) {
    assert!(rt; are_counted(rt.alloc()) == Some(true));
}
