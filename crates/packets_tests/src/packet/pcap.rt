//! The format pcap.

/// Headers of a file: link type 101, at most 262144 octets kept.
pub(super) const LITTLE: [u8; 24] = [
    0xd4, 0xc3, 0xb2, 0xa1, 2, 0, 4, 0, // magic number, version 2.4
    0, 0, 0, 0, 0, 0, 0, 0, // not used
    0, 0, 4, 0, 101, 0, 0, 0, // most kept, link type
];

pub(super) const BIG: [u8; 24] = [
    0xa1, 0xb2, 0xc3, 0xd4, 0, 2, 0, 4, 0, 0, 0, 0, 0, 0, 0, 0, 0, 4, 0, 0, 0, 0, 0, 101,
];

pub(super) const LITTLE_NANOSECONDS: [u8; 24] = [
    0x4d, 0x3c, 0xb2, 0xa1, 2, 0, 4, 0, 0, 0, 0, 0, 0, 0, 0, 0, 0, 0, 4, 0, 101, 0, 0, 0,
];

pub(super) const BIG_NANOSECONDS: [u8; 24] = [
    0xa1, 0xb2, 0x3c, 0x4d, 0, 2, 0, 4, 0, 0, 0, 0, 0, 0, 0, 0, 0, 4, 0, 0, 0, 0, 0, 101,
];

/// The link type with bits in the high half of its number, which isn't looked at.
pub(super) const MARKED_LINK: [u8; 24] = [
    0xa1, 0xb2, 0xc3, 0xd4, 0, 2, 0, 4, 0, 0, 0, 0, 0, 0, 0, 0, 0, 4, 0, 0, 0xf0, 0x10, 0, 101,
];

/// A packet of second 100 and 999999 microseconds, of whose 5 octets 3 were kept.
pub(super) const PCAP_PACKET: [u8; 19] = [
    100, 0, 0, 0, 0x3f, 0x42, 0x0f, 0, 3, 0, 0, 0, 5, 0, 0, 0, b'a', b'b', b'c',
];

pub(super) const BIG_PCAP_PACKET: [u8; 19] = [
    0, 0, 0, 100, 0, 0x0f, 0x42, 0x3f, 0, 0, 0, 3, 0, 0, 0, 5, b'a', b'b', b'c',
];
