//! Segments of one session, by how far their numbers are from those of both SYNs.

use streams::{Passed, Side};

/// Both streams: their octets count up from 0.
pub static STREAM: [u8; 113] = [
    0, 1, 2, 3, 4, 5, 6, 7, 8, 9, 10, 11, 12, 13, 14, 15, 16, 17, 18, 19, 20, 21, 22, 23, 24, 25,
    26, 27, 28, 29, 30, 31, 32, 33, 34, 35, 36, 37, 38, 39, 40, 41, 42, 43, 44, 45, 46, 47, 48, 49,
    50, 51, 52, 53, 54, 55, 56, 57, 58, 59, 60, 61, 62, 63, 64, 65, 66, 67, 68, 69, 70, 71, 72, 73,
    74, 75, 76, 77, 78, 79, 80, 81, 82, 83, 84, 85, 86, 87, 88, 89, 90, 91, 92, 93, 94, 95, 96, 97,
    98, 99, 100, 101, 102, 103, 104, 105, 106, 107, 108, 109, 110, 111, 112,
];

/// The same with another octet at places 48 and 112.
static ALTERED: [u8; 113] = [
    0, 1, 2, 3, 4, 5, 6, 7, 8, 9, 10, 11, 12, 13, 14, 15, 16, 17, 18, 19, 20, 21, 22, 23, 24, 25,
    26, 27, 28, 29, 30, 31, 32, 33, 34, 35, 36, 37, 38, 39, 40, 41, 42, 43, 44, 45, 46, 47, 0, 49,
    50, 51, 52, 53, 54, 55, 56, 57, 58, 59, 60, 61, 62, 63, 64, 65, 66, 67, 68, 69, 70, 71, 72, 73,
    74, 75, 76, 77, 78, 79, 80, 81, 82, 83, 84, 85, 86, 87, 88, 89, 90, 91, 92, 93, 94, 95, 96, 97,
    98, 99, 100, 101, 102, 103, 104, 105, 106, 107, 108, 109, 110, 111, 0,
];

/// Whether it has SYN, FIN and RST, and whether its octets are those of the altered stream.
type Bits = (bool, bool, bool, bool);

const NONE_SET: Bits = (false, false, false, false);

const ALTERED_OCTETS: Bits = (false, false, false, true);

const SYN_SET: Bits = (true, false, false, false);

const FIN_SET: Bits = (false, true, false, false);

const RST_SET: Bits = (false, false, true, false);

/// A segment: its second, who sent it, its bits, how far its sequence number is from its side's
/// SYN's and its acknowledgment number from the other side's, and how many octets it has: those of
/// the stream at their place. From second 110 on it is of a later connection, of another port.
pub struct Row(u32, Side, Bits, u32, Option<u32>, usize);

/// So many octets of a stream from this place on.
fn octets_at(stream: &'static [u8], place: usize, count: usize) -> &'static [u8] {
    match stream.get(place..place.saturating_add(count)) {
        Some(octets) => octets,
        None => &[],
    }
}

impl Row {
    /// The segment, where the SYNs of the peer and of the local system have these numbers. A packet
    /// has as many milliseconds as its number.
    pub fn passed(&self, (peer_start, local_start): (u32, u32), packet: u64) -> Passed<'static> {
        let Row(second, from, (syn, fin, rst, is_altered), offset, acknowledges, count) = self;
        let (start, other) = match from {
            Side::Local => (local_start, peer_start),
            Side::Peer => (peer_start, local_start),
        };
        let stream = if *is_altered { &ALTERED } else { &STREAM };
        Passed {
            packet,
            second: *second,
            micro: Some(1000 * (packet % 1000) as u32),
            from: *from,
            local_port: 179,
            peer_port: if *second < 110 { 40000 } else { 40001 },
            sequence: start.wrapping_add(*offset),
            syn: *syn,
            fin: *fin,
            rst: *rst,
            acknowledgment: match acknowledges {
                Some(number) => Some(other.wrapping_add(*number)),
                None => None,
            },
            octets: octets_at(stream, offset.saturating_sub(1) as usize, *count),
            is_whole: true,
        }
    }
}

// Their places in the table.
pub const T1: usize = 0;

pub const T2: usize = 1;

pub const T3: usize = 2;

pub const T4: usize = 3;

pub const T5: usize = 4;

pub const T6: usize = 5;

pub const T7: usize = 6;

pub const T8: usize = 7;

pub const T9: usize = 8;

pub const T1_LATER: usize = 9;

pub const T2_LATER: usize = 10;

pub const T3_LATER: usize = 11;

pub const T4_LATER: usize = 12;

pub const T5_LATER: usize = 13;

pub const T6_LATER: usize = 14;

pub const T7_LATER: usize = 15;

pub const T8_LATER: usize = 16;

pub const T9_LATER: usize = 17;

pub const T4_FRONT: usize = 18;

pub const T4_BACK: usize = 19;

pub const T4_MIDDLE: usize = 20;

pub const T4_FIRST: usize = 21;

pub const T4_AGAIN: usize = 22;

pub const T4_OTHER: usize = 23;

pub const FIN: usize = 24;

pub const RST: usize = 25;

pub const RST_ACK: usize = 26;

pub const FIN_ACKED: usize = 27;

pub const T8_AGAIN: usize = 28;

pub const OTHER_SYN: usize = 29;

pub const T1_AGAIN: usize = 30;

pub const FIN_BEFORE: usize = 31;

pub const T6_AFTER: usize = 32;

pub const T7_BEFORE: usize = 33;

pub const KEEP_ALIVE: usize = 34;

pub const T8_FIN: usize = 35;

pub const OPENS_TOO: usize = 36;

/// The segments of the cases: nine of a session in order, the same of a later one from another
/// port, and others.
pub static ROWS: [Row; 37] = [
    Row(100, Side::Peer, SYN_SET, 0, None, 0),
    Row(100, Side::Local, SYN_SET, 0, Some(1), 0),
    Row(100, Side::Peer, NONE_SET, 1, Some(1), 0),
    Row(100, Side::Peer, NONE_SET, 1, Some(1), 49),
    Row(100, Side::Local, NONE_SET, 1, Some(50), 49),
    Row(100, Side::Local, NONE_SET, 50, Some(50), 19),
    Row(101, Side::Peer, NONE_SET, 50, Some(69), 19),
    Row(102, Side::Peer, NONE_SET, 69, Some(69), 45),
    Row(102, Side::Local, NONE_SET, 69, Some(114), 0),
    Row(110, Side::Peer, SYN_SET, 0, None, 0),
    Row(110, Side::Local, SYN_SET, 0, Some(1), 0),
    Row(110, Side::Peer, NONE_SET, 1, Some(1), 0),
    Row(110, Side::Peer, NONE_SET, 1, Some(1), 49),
    Row(110, Side::Local, NONE_SET, 1, Some(50), 49),
    Row(110, Side::Local, NONE_SET, 50, Some(50), 19),
    Row(111, Side::Peer, NONE_SET, 50, Some(69), 19),
    Row(112, Side::Peer, NONE_SET, 69, Some(69), 45),
    Row(112, Side::Local, NONE_SET, 69, Some(114), 0),
    Row(100, Side::Peer, NONE_SET, 1, Some(1), 30),
    Row(100, Side::Peer, NONE_SET, 31, Some(1), 19),
    Row(100, Side::Peer, NONE_SET, 21, Some(1), 29),
    Row(100, Side::Peer, NONE_SET, 1, Some(1), 20),
    Row(102, Side::Peer, NONE_SET, 1, Some(1), 49),
    Row(102, Side::Peer, ALTERED_OCTETS, 1, Some(1), 49),
    Row(103, Side::Peer, FIN_SET, 114, Some(69), 0),
    Row(103, Side::Peer, RST_SET, 114, None, 0),
    Row(103, Side::Peer, RST_SET, 114, Some(100), 0),
    Row(103, Side::Local, NONE_SET, 69, Some(115), 0),
    Row(103, Side::Peer, NONE_SET, 69, Some(69), 45),
    Row(103, Side::Peer, SYN_SET, 1000, None, 0),
    Row(103, Side::Peer, SYN_SET, 0, None, 0),
    Row(101, Side::Peer, FIN_SET, 114, Some(69), 0),
    Row(101, Side::Local, NONE_SET, 50, Some(50), 19),
    Row(101, Side::Peer, NONE_SET, 50, Some(50), 19),
    Row(103, Side::Peer, ALTERED_OCTETS, 113, Some(69), 1),
    Row(103, Side::Peer, FIN_SET, 69, Some(69), 45),
    Row(100, Side::Local, SYN_SET, 0, None, 0),
];
