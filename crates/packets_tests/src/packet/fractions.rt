//! The fraction of a packet's second. Where Wireshark 4.0 keeps within its 64 bits it tells the
//! same: below 10 to the 12th or 2 to the 63rd ticks a second.

use super::*;

/// An interface of link type 101 with this resolution (option 9).
fn interface_of(resolution: u8) -> [u8; 28] {
    [
        1, 0, 0, 0, 28, 0, 0, 0, 101, 0, 0, 0, 0, 0, 4, 0, // head, most kept
        9, 0, 1, 0, resolution, 0, 0, 0, // if_tsresol
        28, 0, 0, 0,
    ]
}

/// A packet at so many ticks.
fn packet_at(ticks: u64) -> [u8; 36] {
    let [a, b, c, d, e, f, g, h] = ticks.to_le_bytes();
    [
        6, 0, 0, 0, 36, 0, 0, 0, 0, 0, 0, 0, // head, interface 0
        e, f, g, h, a, b, c, d, // ticks, the high half first
        3, 0, 0, 0, 5, 0, 0, 0, b'a', b'b', b'c', 0, 36, 0, 0, 0,
    ]
}

/// A packet of pcap with this fraction.
fn packet_with(fraction: u32) -> [u8; 19] {
    let [a, b, c, d] = fraction.to_be_bytes();
    [
        0, 0, 0, 100, a, b, c, d, 0, 0, 0, 3, 0, 0, 0, 5, b'a', b'b', b'c',
    ]
}

/// Whether the only packet of a file in pieces has this second and these microseconds.
fn has_time(alloc: Global, pieces: &[&[u8]], second: u32, micro: Option<u32>) -> bool {
    let Ok(octets) = joined(alloc, pieces) else {
        return false;
    };
    let wanted = Packet {
        second,
        ..packet(1, micro)
    };
    let mut reader = Reader::new(alloc);
    let mut source = MemSource::new(octets);
    is_next(&mut reader, &mut source, &Ok(Some(wanted)))
        && is_last(&mut reader, &mut source, &Ok(None))
}

/// A resolution, ticks, the second and the microseconds.
type Row = (u8, u64, u32, u32);

static ROWS: [Row; 18] = [
    (1, 1009, 100, 900_000),
    (3, 1_700_000_000_999, 1_700_000_000, 999_000),
    (9, 1_700_000_000_123_456_789, 1_700_000_000, 123_456),
    (9, 1_700_000_000_999_999_999, 1_700_000_000, 999_999),
    (12, 100_999_999_999_999, 100, 999_999),
    (19, 9_999_999_999_999_999_999, 0, 999_999),
    (20, u64::MAX, 0, 184_467),
    (25, u64::MAX, 0, 1),
    (26, u64::MAX, 0, 0),
    (39, u64::MAX, 0, 0),
    (127, u64::MAX, 0, 0),
    (0x8a, 1025, 1, 976),
    (0x94, 105_906_175, 100, 999_999),
    (0xbf, u64::MAX, 1, 999_999),
    (0xc0, 1 << 63, 0, 500_000),
    (0xd3, u64::MAX, 0, 1),
    (0xd4, u64::MAX, 0, 0),
    (0xff, u64::MAX, 0, 0),
];

#[test]
fn ticks_above_the_second_are_its_fraction(rt: HostRuntime) {
    for (resolution, ticks, second, micro) in &ROWS {
        let (interface, block) = (interface_of(*resolution), packet_at(*ticks));
        let pieces: [&[u8]; 3] = [&SECTION, &interface, &block];
        assert!(rt;
            has_time(rt.alloc(), &pieces, *second, Some(*micro)),
            "{resolution} {ticks}"
        );
    }
}

/// The header of a file whose packets have nanoseconds, or microseconds.
fn header_of(has_nanoseconds: bool) -> [u8; 24] {
    if has_nanoseconds {
        BIG_NANOSECONDS
    } else {
        BIG
    }
}

/// Whether the file's packets have nanoseconds, a fraction and its microseconds.
type PcapRow = (bool, u32, Option<u32>);

static PCAP_ROWS: [PcapRow; 9] = [
    (false, 0, Some(0)),
    (false, 999_999, Some(999_999)),
    (false, 1_000_000, None),
    (false, u32::MAX, None),
    (true, 999, Some(0)),
    (true, 123_456_789, Some(123_456)),
    (true, 999_999_999, Some(999_999)),
    (true, 1_000_000_000, None),
    (true, u32::MAX, None),
];

#[test]
fn a_fraction_of_pcap_is_below_a_second(rt: HostRuntime) {
    for (has_nanoseconds, fraction, micro) in &PCAP_ROWS {
        let (header, packet) = (header_of(*has_nanoseconds), packet_with(*fraction));
        let pieces: [&[u8]; 2] = [&header, &packet];
        assert!(rt; has_time(rt.alloc(), &pieces, 100, *micro), "{fraction}");
    }
}
