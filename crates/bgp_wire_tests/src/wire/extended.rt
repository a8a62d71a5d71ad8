//! Extended messages (RFC 8654, 4): UPDATE and NOTIFICATION may have 65535 octets, no other type.

use super::*;

/// A limit, a Length, and whether it is a bad one of a message of a type that isn't known.
static UNKNOWN: [(Limit, u16, bool); 6] = [
    (Limit::Plain, 4096, false),
    (Limit::Plain, 4097, true),
    (Limit::Plain, 65535, true),
    (Limit::Extended, 4096, false),
    (Limit::Extended, 4097, true),
    (Limit::Extended, 65535, true),
];

/// Whether a header of a type that isn't known has the faults of the row.
fn has_faults(code: u8, (limit, length, is_bad): &(Limit, u16, bool)) -> bool {
    let faults = HeaderFaults {
        marker: false,
        length: is_bad.then_some(*length),
        kind: Some(code),
    };
    check_header(&header(*length, code), *limit) == HeaderVerdict::Faulty(faults)
}

/// Whether each such header has.
fn have_faults(row: &(Limit, u16, bool)) -> bool {
    has_faults(0, row) && has_faults(5, row) && has_faults(6, row) && has_faults(255, row)
}

#[test]
fn messages_may_be_extended_but_those_of_a_type_that_is_not_known(rt: HostRuntime) {
    let (may, may_not) = (Limit::with_extended(true), Limit::with_extended(false));
    assert!(rt; may == Limit::Extended && may_not == Limit::Plain);
    for row in &UNKNOWN {
        assert!(rt; have_faults(row));
    }
}

/// A limit, a type, a Length, and whether that many octets are a frame.
static LONG: [(Limit, MessageType, u16, bool); 12] = [
    (Limit::Plain, MessageType::Update, 4096, true),
    (Limit::Plain, MessageType::Update, 4097, false),
    (Limit::Plain, MessageType::Update, 65535, false),
    (Limit::Plain, MessageType::Notification, 4097, false),
    (Limit::Extended, MessageType::Update, 4096, true),
    (Limit::Extended, MessageType::Update, 4097, true),
    (Limit::Extended, MessageType::Update, 65535, true),
    (Limit::Extended, MessageType::Notification, 4097, true),
    (Limit::Extended, MessageType::Notification, 65535, true),
    (Limit::Extended, MessageType::Open, 4096, true),
    (Limit::Extended, MessageType::Open, 4097, false),
    (Limit::Extended, MessageType::Keepalive, 4097, false),
];

/// A header of this type and Length, and zeros until there are so many octets.
fn message(alloc: Global, kind: MessageType, length: u16) -> Result<Vec<u8>, AllocError> {
    let mut octets = Vec::new(alloc);
    octets.extend_from_slice(&header(length, kind.code()))?;
    octets.resize(usize::from(length), 0)?;
    Ok(octets)
}

/// Whether these octets are a frame and come as one, or else their header as a fault.
fn is_framed(
    octets: &[u8],
    frames: &mut Frames,
    (limit, kind, length, is_whole): &(Limit, MessageType, u16, bool),
) -> bool {
    let front = header(*length, kind.code());
    let wanted = if *is_whole {
        Next::Frame(*kind, octets)
    } else {
        Next::Fault(bad_length(*length), &front)
    };
    frames.next() == wanted && is_frame(*limit, octets) == *is_whole
}

/// Whether those of a row are or do, fed to a splitter.
fn is_row_framed(alloc: Global, row: &(Limit, MessageType, u16, bool)) -> Option<bool> {
    let octets = message(alloc, row.1, row.2).ok()?;
    let mut frames = Frames::new(alloc, row.0);
    frames.feed(&octets).ok()?;
    Some(is_framed(&octets, &mut frames, row))
}

#[test]
fn an_extended_message_is_one_frame(rt: HostRuntime) {
    for row in &LONG {
        assert!(rt; is_row_framed(rt.alloc(), row) == Some(true));
    }
}
