//! Streams of many blocks, and single messages with little memory.

use super::*;

/// Appends copies of two digits, and the end of the line.
fn push_digits(line: &mut Vec<u8>, digits: &str, count: usize) -> Result<(), AllocError> {
    for _ in 0..count {
        line.extend_from_slice(digits.as_bytes())?;
    }
    Ok(line.push(b'\n')?)
}

/// The front of a message: its marker and a part of its Length.
const EIGHTEEN_OCTETS: [u8; 18] = [255; 18];

/// The header of a NOTIFICATION of the greatest length, and the code of Cease.
const CEASE: [u8; 20] = [
    255, 255, 255, 255, 255, 255, 255, 255, 255, 255, 255, 255, 255, 255, 255, 255, // marker
    0x10, 0x00, // Length: 4096
    0x03, // Type: NOTIFICATION
    0x06, // Error code: Cease
];

/// Appends a NOTIFICATION of the greatest length, whose subcode and data are copies of an octet.
fn push_great(number: u8, octets: &mut Vec<u8>) -> Result<(), AllocError> {
    octets.extend_from_slice(&CEASE)?;
    octets.extend_from_slice(&[number; 4076])
}

/// Appends its line.
fn push_line(alloc: Global, number: u8, text: &mut Vec<u8>) -> Result<(), AllocError> {
    let front = format!(in alloc; "notification 6/{number} ")?;
    text.extend_from_slice(front.as_bytes())?;
    let digits = format!(in alloc; "{number:02x}")?;
    push_digits(text, digits.as_str(), 4075)
}

/// Whether 100 of them have their lines. Ten times 4096 octets in a block have lines of 81,000
/// octets: more than the room.
fn are_great_told(alloc: Global) -> Result<bool, AllocError> {
    let mut octets = Vec::new(alloc);
    let mut text = Vec::new(alloc);
    for number in 0..100u8 {
        push_great(number, &mut octets)?;
        push_line(alloc, number, &mut text)?;
    }
    let (written, answer) = decoded(alloc, alloc, octets, NonZeroUsize::MAX);
    Ok(same(&written, answer, &text, 0))
}

#[test]
fn text_longer_than_the_room_comes_whole_and_in_order(rt: HostRuntime) {
    assert!(rt; are_great_told(rt.alloc()) == Ok(true));
}

/// An OPEN of another version (RFC 4271, 6.2: Unsupported Version Number).
const OPEN_OF_VERSION_3: [u8; 29] = [
    255, 255, 255, 255, 255, 255, 255, 255, 255, 255, 255, 255, 255, 255, 255, 255, // marker
    0x00, 0x1d, // Length: 29
    0x01, // Type: OPEN
    0x03, // version 3
    0xfd, 0xea, // My Autonomous System: 65002
    0x00, 0x5a, // Hold Time: 90
    0xc0, 0x00, 0x02, 0x02, // BGP Identifier: 192.0.2.2
    0x00, // Optional Parameters Length: 0
];

/// Each kind of line by itself: a message, its line and the status.
static SINGLE: [(&[u8], &str, u8); 7] = [
    (
        &OPEN_B,
        "open as 65002 hold 90 id 192.0.2.2 caps 1:00010001 1:00020001 65:0000fdea\n",
        0,
    ),
    (&OPEN_OF_VERSION_3, "open malformed 1\n", 0),
    (&ANNOUNCES_10, ANNOUNCES_10_LINE, 0),
    (&ADMINISTRATIVE_SHUTDOWN, "notification 6/2 -\n", 0),
    (&KEEPALIVE, "keepalive\n", 0),
    (&EIGHTEEN_OCTETS, "rest 18\n", 2),
    (&KEEPALIVE_OF_18, "fault at 0 1/2\n", 3),
];

/// Whether a message is told on a heap of this size, which holds if it is told so, or is refused
/// with nothing written.
fn is_told(
    alloc: Global,
    size: usize,
    octets: &[u8],
    text: &str,
    status: u8,
) -> Result<Option<bool>, AllocError> {
    let (written, answer) = decoded_on(alloc, size, &[octets], NonZeroUsize::MAX)?;
    let is_told = answer != 4;
    let is_so = if is_told {
        same(&written, answer, text.as_bytes(), status)
    } else {
        written.is_empty()
    };
    Ok(is_so.then_some(is_told))
}

/// Whether a message is refused on small heaps, and told on larger ones.
fn is_refused_and_told(
    alloc: Global,
    octets: &[u8],
    text: &str,
    status: u8,
) -> Result<bool, AllocError> {
    let (mut was_refused, mut was_told) = (false, false);
    for size in (16usize..512).step_by(16) {
        match is_told(alloc, size, octets, text, status)? {
            Some(true) => was_told = true,
            Some(false) => was_refused = true,
            None => return Ok(false),
        }
    }
    Ok(was_refused && was_told)
}

#[test]
fn a_single_message_is_told_whole_or_not_at_all(rt: HostRuntime) {
    for (octets, text, status) in &SINGLE {
        assert!(rt; is_refused_and_told(rt.alloc(), octets, text, *status) == Ok(true));
    }
}
