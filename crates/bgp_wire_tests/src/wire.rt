//! Outside vectors: the limits of RFC 4271, 4 and 6.1, and of RFC 8654, 4, and streams of the
//! shared messages.

mod again;
mod extended;
mod frames;
mod headers;
mod memory;
mod octets;

use bgp_wire::vectors::*;
use bgp_wire::*;
use std::alloc::{AllocError, Allocator, Global};

/// A header of this Length and Type code.
fn header(length: u16, code: u8) -> [u8; HEADER_LEN] {
    let [high, low] = length.to_be_bytes();
    [
        255, 255, 255, 255, 255, 255, 255, 255, 255, 255, 255, 255, 255, 255, 255, 255, // marker
        high, low, code,
    ]
}

/// The fault of a header whose Length alone is bad.
fn bad_length(length: u16) -> HeaderFaults {
    HeaderFaults {
        marker: false,
        length: Some(length),
        kind: None,
    }
}

/// Whether a splitter gives this frame next.
fn gives<A: Allocator + Copy>(frames: &mut Frames<A>, kind: MessageType, message: &[u8]) -> bool {
    frames.next() == Next::Frame(kind, message)
}

/// Whether it waits for more, and holds so many octets.
fn waits<A: Allocator + Copy>(frames: &mut Frames<A>, held: usize) -> bool {
    frames.next() == Next::More && frames.len() == held
}

/// A message of each type.
static STREAM: [(MessageType, &[u8]); 4] = [
    (MessageType::Open, &OPEN_B),
    (MessageType::Keepalive, &KEEPALIVE),
    (MessageType::Update, &ANNOUNCES_10),
    (MessageType::Notification, &ADMINISTRATIVE_SHUTDOWN),
];

/// How many octets [`longest_messages`] has.
const PIECE_LEN: usize = 65536;

/// The body of an UPDATE of the greatest Length.
static ZEROS: [u8; 4077] = [0; 4077];

/// Appends an UPDATE of the greatest Length, whose body is zeros.
fn append_longest(octets: &mut Vec<u8>) -> Result<(), AllocError> {
    octets.extend_from_slice(&header(4096, 2))?;
    octets.extend_from_slice(&ZEROS)
}

/// UPDATEs of the greatest Length, 16 of them, in one piece.
fn longest_messages(alloc: Global) -> Result<Vec<u8>, AllocError> {
    let mut octets = Vec::new(alloc);
    for _ in 0..16 {
        append_longest(&mut octets)?;
    }
    Ok(octets)
}
