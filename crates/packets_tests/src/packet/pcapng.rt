//! The format pcapng.

/// A Section Header, without options and with a section length that isn't told.
pub(super) const SECTION: [u8; 28] = [
    0x0a, 0x0d, 0x0d, 0x0a, 28, 0, 0, 0, // type, total length
    0x4d, 0x3c, 0x2b, 0x1a, 1, 0, 0, 0, // order of octets, version 1.0
    255, 255, 255, 255, 255, 255, 255, 255, 28, 0, 0, 0,
];

pub(super) const BIG_SECTION: [u8; 28] = [
    0x0a, 0x0d, 0x0d, 0x0a, 0, 0, 0, 28, 0x1a, 0x2b, 0x3c, 0x4d, 0, 1, 0, 0, // head, version
    255, 255, 255, 255, 255, 255, 255, 255, 0, 0, 0, 28,
];

/// An interface of link type 101, whose ticks are microseconds.
pub(super) const INTERFACE: [u8; 20] = [
    1, 0, 0, 0, 20, 0, 0, 0, 101, 0, 0, 0, 0, 0, 4, 0, 20, 0, 0, 0,
];

pub(super) const BIG_INTERFACE: [u8; 20] = [
    0, 0, 0, 1, 0, 0, 0, 20, 0, 101, 0, 0, 0, 4, 0, 0, 0, 0, 0, 20,
];

/// The same, whose ticks are seconds (option 9), and whose offset is 90 (option 14).
pub(super) const SECONDS: [u8; 40] = [
    1, 0, 0, 0, 40, 0, 0, 0, 101, 0, 0, 0, 0, 0, 4, 0, // head, most kept
    9, 0, 1, 0, 0, 0, 0, 0, // if_tsresol: 10 to the 0th
    14, 0, 8, 0, 90, 0, 0, 0, 0, 0, 0, 0, // if_tsoffset
    40, 0, 0, 0,
];

/// The same, whose ticks are halves of a second, with another option and a last one, after which
/// anything may stand.
pub(super) const HALVES: [u8; 44] = [
    1, 0, 0, 0, 44, 0, 0, 0, 101, 0, 0, 0, 0, 0, 4, 0, // head, most kept
    2, 0, 2, 0, b'e', b'0', 0, 0, // if_name
    9, 0, 1, 0, 0x81, 0, 0, 0, // if_tsresol: 2 to the 1st
    0, 0, 0, 0, 9, 0, 7, 0, // opt_endofopt
    44, 0, 0, 0,
];

/// A packet of the first interface at 100998911 ticks, of whose 5 octets 3 were kept, with an
/// option.
pub(super) const PACKET: [u8; 44] = [
    6, 0, 0, 0, 44, 0, 0, 0, 0, 0, 0, 0, // head, interface 0
    0, 0, 0, 0, 0xff, 0x1e, 0x05, 0x06, // ticks: 100998911
    3, 0, 0, 0, 5, 0, 0, 0, // kept, wire
    b'a', b'b', b'c', 0, // octets
    1, 0, 0, 0, 0, 0, 0, 0, // an empty comment, the last option
    44, 0, 0, 0,
];

pub(super) const BIG_PACKET: [u8; 36] = [
    0, 0, 0, 6, 0, 0, 0, 36, 0, 0, 0, 0, 0, 0, 0, 0, 0x06, 0x05, 0x1e, 0xff, 0, 0, 0, 3, 0, 0, 0,
    5, b'a', b'b', b'c', 0, 0, 0, 0, 36,
];

/// A packet at 10 ticks, one at 201, and one of the second interface.
pub(super) const TENTH: [u8; 36] = [
    6, 0, 0, 0, 36, 0, 0, 0, 0, 0, 0, 0, 0, 0, 0, 0, 10, 0, 0, 0, 3, 0, 0, 0, 5, 0, 0, 0, b'a',
    b'b', b'c', 0, 36, 0, 0, 0,
];

pub(super) const AT_201: [u8; 36] = [
    6, 0, 0, 0, 36, 0, 0, 0, 0, 0, 0, 0, 0, 0, 0, 0, 201, 0, 0, 0, 3, 0, 0, 0, 5, 0, 0, 0, b'a',
    b'b', b'c', 0, 36, 0, 0, 0,
];

pub(super) const SECOND_INTERFACE: [u8; 36] = [
    6, 0, 0, 0, 36, 0, 0, 0, 1, 0, 0, 0, 0, 0, 0, 0, 10, 0, 0, 0, 3, 0, 0, 0, 5, 0, 0, 0, b'a',
    b'b', b'c', 0, 36, 0, 0, 0,
];

/// Blocks of other types, of the least length, of 16 octets and of 20.
pub(super) const OTHER: [u8; 12] = [5, 0, 0, 0, 12, 0, 0, 0, 12, 0, 0, 0];

pub(super) const OTHER_16: [u8; 16] = [4, 0, 0, 0, 16, 0, 0, 0, 1, 2, 3, 4, 16, 0, 0, 0];

pub(super) const OTHER_20: [u8; 20] = [
    4, 0, 0, 0, 20, 0, 0, 0, 1, 2, 3, 4, 5, 6, 7, 8, 20, 0, 0, 0,
];

/// A Simple Packet.
pub(super) const SIMPLE: [u8; 16] = [3, 0, 0, 0, 16, 0, 0, 0, 0, 0, 0, 0, 16, 0, 0, 0];

/// An interface whose offset is -101, by which 201 ticks are second 100.
pub(super) const EARLIER: [u8; 40] = [
    1, 0, 0, 0, 40, 0, 0, 0, 101, 0, 0, 0, 0, 0, 4, 0, 9, 0, 1, 0, 0, 0, 0, 0, 14, 0, 8, 0, 155,
    255, 255, 255, 255, 255, 255, 255, 40, 0, 0, 0,
];

/// One whose second has 10 to the 20th ticks, and whose offset is 100.
pub(super) const FINE: [u8; 40] = [
    1, 0, 0, 0, 40, 0, 0, 0, 101, 0, 0, 0, 0, 0, 4, 0, 9, 0, 1, 0, 20, 0, 0, 0, 14, 0, 8, 0, 100,
    0, 0, 0, 0, 0, 0, 0, 40, 0, 0, 0,
];
