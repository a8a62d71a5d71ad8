//! Sessions whose messages may be extended ones (RFC 8654), beside those whose may not: how long a
//! body may be, and which messages are whole.

use super::captures::{Next, SESSION, is_next};
use super::written::{OVER_IPV6, answers};
use super::*;
use bgp_prefix::Session;

/// A session over IPv4 or IPv6, where the local system offers extended messages or not.
fn session_of(is_v6: bool, extended: bool) -> Session {
    let session = if is_v6 { OVER_IPV6 } else { SESSION };
    Session {
        extended,
        ..session
    }
}

/// What stands before the message in the body of a record of that session.
static NUMBERS: [u8; 20] = [
    0x00, 0x00, 0xfd, 0xea, 0x00, 0x00, 0xfd, 0xe9, // AS numbers
    0x00, 0x00, 0x00, 0x01, // interface index, AFI
    0xc0, 0x00, 0x02, 0x02, 0xc0, 0x00, 0x02, 0x01, // peer and local address
];

/// The first octets of a message of this Type and Length.
pub(crate) fn message_front(length: u16, code: u8) -> [u8; 19] {
    let [high, low] = length.to_be_bytes();
    [
        255, 255, 255, 255, 255, 255, 255, 255, 255, 255, 255, 255, 255, 255, 255, 255, // marker
        high, low, code,
    ]
}

/// A message with this front, of so many octets; the others are zeros. `None` where memory is
/// refused, here and below.
pub(crate) fn message(alloc: Global, front: &[u8], count: usize) -> Option<Vec<u8>> {
    let mut octets = front.to_vec(alloc).ok()?;
    octets.resize(count, 0).ok()?;
    Some(octets)
}

/// A record of second 101 and this subtype of BGP4MP, whose body is said to have so many octets and
/// has [`NUMBERS`] and this message.
pub(crate) fn record(alloc: Global, subtype: u8, count: u32, message: &[u8]) -> Option<Vec<u8>> {
    let front = [0x00, 0x00, 0x00, 0x65, 0x00, 0x10, 0x00, subtype];
    joined(alloc, &[&front, &count.to_be_bytes(), &NUMBERS, message])
}

/// Whether that is answered of a capture of one record, or this fault where there is one.
fn is_answered(
    alloc: Global,
    session: &Session,
    capture: Vec<u8>,
    shown: &Record<'_>,
    fault: Option<FaultKind>,
) -> bool {
    let (mut source, mut reader) = (MemSource::new(capture), Reader::new(alloc));
    let wanted: Next<'_> = match fault {
        Some(kind) => Err(CaptureFault { kind, offset: 0 }),
        None => Ok(Some(*shown)),
    };
    is_next(&mut reader, &mut source, session, &wanted)
}

/// Whether messages are extended, a message's Type and Length, how many octets it has, and whether
/// that is refused.
type Message = (bool, Option<(u8, u16)>, u32, bool);

/// It is where the header is sound by the session's limit. The messages without a header have
/// bodies of 8192, 8193 and 65583 octets, which aren't too long.
static MESSAGES: [Message; 13] = [
    (false, None, 8172, false),
    (true, None, 8172, false),
    (true, None, 8173, false),
    (true, None, 65563, false),
    (false, Some((2, 4096)), 4097, true),
    (false, Some((2, 4097)), 4097, false),
    (false, Some((2, 4097)), 4098, false),
    (true, Some((2, 4097)), 4097, false),
    (true, Some((2, 4097)), 4098, true),
    (true, Some((3, 4097)), 4096, true),
    (true, Some((2, 65535)), 65535, false),
    (true, Some((2, 65535)), 65534, true),
    (true, Some((1, 4097)), 4098, false),
];

/// A message's first octets: zeros where it has no header.
fn front_of(header: Option<(u8, u16)>) -> [u8; 19] {
    match header {
        Some((code, length)) => message_front(length, code),
        None => [0; 19],
    }
}

/// Whether a message that was received or sent is read or refused.
fn is_record_read(
    alloc: Global,
    is_sent: bool,
    (extended, _, count, is_refused): &Message,
    message: &[u8],
) -> Option<bool> {
    let (subtype, shown) = if is_sent {
        (7, Record::Out(101, message))
    } else {
        (4, Record::In(101, message))
    };
    let capture = record(alloc, subtype, count.saturating_add(20), message)?;
    let session = session_of(false, *extended);
    let fault = is_refused.then_some(FaultKind::NotAMessage);
    Some(is_answered(alloc, &session, capture, &shown, fault))
}

/// Whether it is, received and sent.
fn is_message_read(alloc: Global, row: &Message) -> bool {
    match message(alloc, &front_of(row.1), row.2 as usize) {
        Some(octets) => {
            is_record_read(alloc, false, row, &octets) == Some(true)
                && is_record_read(alloc, true, row, &octets) == Some(true)
        }
        None => false,
    }
}

/// And a body has 8192 octets, or 65583 where messages are extended.
#[test]
fn a_sound_length_is_the_count_of_the_octets(rt: HostRuntime) {
    for (row, message) in MESSAGES.iter().enumerate() {
        assert!(rt; is_message_read(rt.alloc(), message), "row {row}");
    }
}

/// Whether a session is over IPv6, and its messages are extended; how many octets a message has,
/// and whether a record of it can be written: the body has 20 more over IPv4, and 44 over IPv6.
static WRITABLE: [(bool, bool, usize, bool); 8] = [
    (false, false, 8172, true),
    (false, false, 8173, false),
    (true, false, 8148, true),
    (true, false, 8149, false),
    (false, true, 65563, true),
    (false, true, 65564, false),
    (true, true, 65539, true),
    (true, true, 65540, false),
];

/// Whether that is told of a message of that many octets, received and sent.
fn is_told(octets: &[u8], (is_v6, extended, count, is_so): &(bool, bool, usize, bool)) -> bool {
    let session = session_of(*is_v6, *extended);
    match octets.get(..*count) {
        Some(message) => {
            is_writable(&session, &Record::In(101, message)) == *is_so
                && is_writable(&session, &Record::Out(101, message)) == *is_so
        }
        None => false,
    }
}

/// Whether all of that is told.
fn are_told(alloc: Global) -> Option<bool> {
    let octets = vec![in alloc; 0; 65564].ok()?;
    for row in &WRITABLE {
        if !is_told(&octets, row) {
            return Some(false);
        }
    }
    Some(true)
}

/// And so is a record between two families.
#[test]
fn what_is_too_long_to_read_is_not_writable(rt: HostRuntime) {
    let mixed = Session {
        local: OVER_IPV6.local,
        ..SESSION
    };
    let is_mixed = is_writable(&mixed, &Record::Change(100, 1, 2));
    assert!(rt; are_told(rt.alloc()) == Some(true) && !is_mixed);
}

/// Whether a record of a session with extended messages is read as it was written.
fn is_read_as_written(alloc: Global, sent: &Record<'_>) -> bool {
    let session = session_of(false, true);
    let mut sink = MemSink::new(alloc);
    let is_written = answers(&mut sink, &session, sent, Ok(()));
    is_answered(alloc, &session, sink.into_octets(), sent, None) && is_written
}

/// Whether an UPDATE of 65535 octets is.
fn is_read_back(alloc: Global) -> bool {
    match message(alloc, &message_front(65535, 2), 65535) {
        Some(message) => is_read_as_written(alloc, &Record::Out(101, &message)),
        None => false,
    }
}

#[test]
fn the_longest_message_is_read_as_it_was_written(rt: HostRuntime) {
    assert!(rt; is_read_back(rt.alloc()));
}
