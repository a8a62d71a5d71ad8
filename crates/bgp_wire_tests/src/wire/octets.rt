//! Frames, bodies and numbers as octets.

use super::*;

/// Whether a message is just a frame, and begins with a header.
fn is_just_frame(message: &[u8]) -> bool {
    let is_cut_refused = match message.get(..18) {
        Some(cut) => !is_frame(Limit::Plain, cut),
        None => false,
    };
    is_cut_refused && is_frame(Limit::Plain, message) && header_at(message) == message.first_chunk()
}

#[test]
fn a_frame_is_just_one_message_without_a_header_fault(rt: HostRuntime) {
    for (_, message) in &STREAM {
        assert!(rt; is_just_frame(message));
    }
    assert!(rt; !is_frame(Limit::Plain, &KEEPALIVE_OF_18) && header_at(&CUT).is_none());
}

/// What is put behind a header.
const NUMBERS: &[u8] = &[1, 2, 3, 4, 5, 6, 7, 8, 9, 10, 11, 12, 13, 14, 15, 16, 17];

/// Whether a header and numbers are put so.
fn are_put(alloc: Global) -> Option<bool> {
    let mut out = Vec::with_capacity(alloc, 64).ok()?;
    put_header(&mut out, MessageType::Keepalive, 19);
    put_u8(&mut out, 1);
    put_u16(&mut out, 0x0203);
    put_u32(&mut out, 0x0405_0607);
    put_u64(&mut out, 0x0809_0a0b_0c0d_0e0f);
    put(&mut out, &[16, 17]);
    let (front, rest) = out.split_first_chunk::<19>()?;
    Some(*front == KEEPALIVE && rest == NUMBERS)
}

#[test]
fn what_is_put_stands_highest_octet_first(rt: HostRuntime) {
    assert!(rt; are_put(rt.alloc()) == Some(true));
}

/// Whether a number needs four octets, if that is wanted, and what stands for it in two.
fn stands(number: u32, needs: bool, two: u16) -> bool {
    needs_four_octets(number) == needs && two_octet_as(number) == two
}

/// RFC 6793, 9: AS 23456 is AS_TRANS.
#[test]
fn as_trans_stands_for_what_needs_four_octets(rt: HostRuntime) {
    assert!(rt;
        stands(0, false, 0)
            && stands(65535, false, 65535)
            && stands(65536, true, 23456)
            && stands(u32::MAX, true, 23456)
    );
}

/// A KEEPALIVE whose marker has a bad octet.
const UNSYNCHRONIZED: [u8; 19] = [
    0, 255, 255, 255, 255, 255, 255, 255, 255, 255, 255, 255, 255, 255, 255, 255, // marker
    0, 19, 4,
];

/// A KEEPALIVE without its last octet.
const CUT: [u8; 18] = [
    255, 255, 255, 255, 255, 255, 255, 255, 255, 255, 255, 255, 255, 255, 255, 255, // marker
    0, 19,
];

/// Types, messages, and what a body of the type is there.
static BODIES: [(MessageType, &[u8], Option<&[u8]>); 5] = [
    (
        MessageType::Notification,
        &ADMINISTRATIVE_SHUTDOWN,
        Some(&[6, 2]),
    ),
    (MessageType::Open, &ADMINISTRATIVE_SHUTDOWN, None),
    (MessageType::Keepalive, &KEEPALIVE_OF_18, None),
    (MessageType::Keepalive, &CUT, None),
    (MessageType::Keepalive, &UNSYNCHRONIZED, None),
];

#[test]
fn a_body_is_that_of_a_whole_message_of_the_type(rt: HostRuntime) {
    for (kind, octets, body) in &BODIES {
        assert!(rt; message_body(*kind, octets) == *body);
    }
}
