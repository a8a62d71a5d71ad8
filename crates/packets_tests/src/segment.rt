//! Packets made by hand: all that is found in a segment, and what is left of one that was cut. Each
//! link, each header before TCP, each fragment, what is wrapped, and which packets are of a
//! conversation, are cases of the program `real_recordings`.

use bgp_prefix::Address;
use segments::*;

/// The addresses and ports of the segments here.
const FROM: Endpoint = Endpoint {
    address: Address::V4(0xc000_0202),
    port: 40000,
};

const TO: Endpoint = Endpoint {
    address: Address::V4(0xc000_0201),
    port: 179,
};

const ENDS: Ends = Ends { from: FROM, to: TO };

const ADDRESSES: Addresses = Addresses {
    from: Address::V4(0xc000_0202),
    to: Address::V4(0xc000_0201),
};

const PLAIN: Flags = Flags {
    syn: false,
    fin: false,
    rst: false,
};

const SYN: Flags = Flags { syn: true, ..PLAIN };

const FIN: Flags = Flags { fin: true, ..PLAIN };

const RST: Flags = Flags { rst: true, ..PLAIN };

/// The segment of 192.0.2.2 port 40000 with sequence number 1001, which acknowledges 5001 and has
/// three octets of data.
const DATA: Segment<'static> = Segment {
    ends: ENDS,
    sequence: 1001,
    flags: PLAIN,
    acknowledgment: Some(5001),
    octets: b"abc",
    wire_count: 3,
};

/// A header of IPv4 without options, for a packet of 43 octets; a header of TCP without options,
/// with ACK; and three octets of data.
const PACKET: [u8; 43] = [
    0x45, 0x00, 0x00, 0x2b, 0x00, 0x00, 0x40, 0x00, // version, words, total length, Don't Fragment
    0x40, 0x06, 0x00, 0x00, // TTL, protocol, checksum
    0xc0, 0x00, 0x02, 0x02, 0xc0, 0x00, 0x02, 0x01, // addresses
    0x9c, 0x40, 0x00, 0xb3, 0x00, 0x00, 0x03, 0xe9, 0x00, 0x00, 0x13, 0x89, // ports, numbers
    0x50, 0x10, 0xff, 0xff, 0x00, 0x00, 0x00, 0x00, b'a', b'b', b'c',
];

/// A change of an octet of the packet: where, and to which.
type Change = (usize, u8);

/// Changes, how many octets of the packet are kept, and what is found.
type Row = (&'static [Change], usize, Found<'static>);

/// The packet with these octets changed, of which so many are kept.
fn is_found((changes, kept, wanted): &Row) -> bool {
    let mut octets = PACKET;
    for (at, octet) in *changes {
        if *at < 43 {
            octets[*at] = *octet;
        }
    }
    read_segment(101, &octets[..(*kept).min(43)]) == *wanted
}

/// What each control bit does: a segment with RST has no data and no FIN. What is kept of the
/// packet; and lengths that say where the data is, behind which there is padding.
static ROWS: [Row; 15] = [
    (
        &[(33, 0x02)],
        43,
        Found::Segment(Segment {
            flags: SYN,
            acknowledgment: None,
            ..DATA
        }),
    ),
    (
        &[(33, 0x12)],
        43,
        Found::Segment(Segment { flags: SYN, ..DATA }),
    ),
    (
        &[(33, 0x11)],
        43,
        Found::Segment(Segment { flags: FIN, ..DATA }),
    ),
    (
        &[(33, 0x04)],
        43,
        Found::Segment(Segment {
            flags: RST,
            acknowledgment: None,
            octets: &[],
            wire_count: 0,
            ..DATA
        }),
    ),
    (
        &[(33, 0x15)],
        43,
        Found::Segment(Segment {
            flags: RST,
            octets: &[],
            wire_count: 0,
            ..DATA
        }),
    ),
    (
        &[(33, 0xe8)],
        43,
        Found::Segment(Segment {
            acknowledgment: None,
            ..DATA
        }),
    ),
    (&[], 43, Found::Segment(DATA)),
    (
        &[],
        42,
        Found::Segment(Segment {
            octets: b"ab",
            ..DATA
        }),
    ),
    (&[], 39, Found::CutHeader(ENDS)),
    (&[], 23, Found::NoPorts(ADDRESSES)),
    (&[], 19, Found::Nothing),
    (&[(6, 0x20)], 20, Found::Fragment(ADDRESSES)),
    (
        &[(3, 40)],
        43,
        Found::Segment(Segment {
            octets: &[],
            wire_count: 0,
            ..DATA
        }),
    ),
    (
        &[(3, 41)],
        43,
        Found::Segment(Segment {
            octets: b"a",
            wire_count: 1,
            ..DATA
        }),
    ),
    // A total length of 299: the rest was not kept.
    (
        &[(2, 1), (3, 43)],
        43,
        Found::Segment(Segment {
            wire_count: 259,
            ..DATA
        }),
    ),
];

#[test]
fn each_packet_has_its_segment_or_what_is_left(rt: HostRuntime) {
    for (count, row) in ROWS.iter().enumerate() {
        assert!(rt; is_found(row), "{count}");
    }
}

/// Whether a conversation has none of what is found between two addresses, and still refuses what
/// may be of any.
fn has_none(conversation: &Conversation) -> bool {
    segment_between(Found::Segment(DATA), conversation) == Ok(None)
        && segment_between(Found::CutHeader(ENDS), conversation) == Ok(None)
        && segment_between(Found::Fragment(ADDRESSES), conversation) == Ok(None)
        && segment_between(Found::NoPorts(ADDRESSES), conversation) == Ok(None)
        && segment_between(Found::Nothing, conversation) == Ok(None)
        && segment_between(Found::UnknownLink(105), conversation) == Err(PacketFault::Link(105))
}

/// No command line asks for it.
#[test]
fn an_address_has_no_conversation_with_itself(rt: HostRuntime) {
    let conversation = Conversation {
        local: TO.address,
        peer: TO.address,
        port: 179,
    };
    assert!(rt; has_none(&conversation));
}

/// 2001:db8::2 and 2001:db8::1.
const THERE: Address = Address::V6(0x2001_0db8_0000_0000_0000_0000_0000_0002);

const HERE: Address = Address::V6(0x2001_0db8_0000_0000_0000_0000_0000_0001);

/// The same segment over IPv6, and no more of its packet than is looked at where it is a fragment.
const OVER_IPV6: [u8; 63] = [
    0x60, 0x00, 0x00, 0x00, 0x00, 0x17, 0x06, 0x00, // version, payload length, next header
    0x20, 0x01, 0x0d, 0xb8, 0, 0, 0, 0, 0, 0, 0, 0, 0, 0, 0, 2, // source
    0x20, 0x01, 0x0d, 0xb8, 0, 0, 0, 0, 0, 0, 0, 0, 0, 0, 0, 1, // destination
    0x9c, 0x40, 0x00, 0xb3, 0x00, 0x00, 0x03, 0xe9, 0x00, 0x00, 0x13, 0x89, // ports, numbers
    0x50, 0x10, 0xff, 0xff, 0x00, 0x00, 0x00, 0x00, b'a', b'b', b'c',
];

const FRAGMENT_OF_IPV6: [u8; 48] = [
    0x60, 0x00, 0x00, 0x00, 0x00, 0x08, 0x2c, 0x00, // version, payload length, next header
    0x20, 0x01, 0x0d, 0xb8, 0, 0, 0, 0, 0, 0, 0, 0, 0, 0, 0, 2, // source
    0x20, 0x01, 0x0d, 0xb8, 0, 0, 0, 0, 0, 0, 0, 0, 0, 0, 0, 1, // destination
    0x06, 0x00, 0x00, 0x08, 1, 2, 3, 4, // next header, offset, identification
];

/// Whether the segment is found, the fragment, and the addresses where no ports were kept.
fn are_found_over_ipv6() -> bool {
    let addresses = Addresses {
        from: THERE,
        to: HERE,
    };
    let segment = Segment {
        ends: Ends {
            from: Endpoint {
                address: THERE,
                port: 40000,
            },
            to: Endpoint {
                address: HERE,
                port: 179,
            },
        },
        ..DATA
    };
    read_segment(101, &OVER_IPV6) == Found::Segment(segment)
        && read_segment(101, &FRAGMENT_OF_IPV6) == Found::Fragment(addresses)
        && read_segment(101, &OVER_IPV6[..43]) == Found::NoPorts(addresses)
}

/// And what is wrapped is told of no link that isn't known.
#[test]
fn a_segment_over_ipv6_is_found(rt: HostRuntime) {
    const GRE: [u8; 24] = [
        0x45, 0, 0, 24, 0, 0, 0x40, 0, 64, 47, 0, 0, 192, 0, 2, 1, 192, 0, 2, 2, 0, 0, 0x08, 0,
    ];
    assert!(rt; are_found_over_ipv6() && wrapping_of(105, &GRE).is_none());
}
