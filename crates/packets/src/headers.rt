//! The headers of packets and of a pcap file (`specs/Pcap.antt` and `specs/Pcapng.antt` draw them).

ghost use Rattle.std.specs.Prelude.{◌≡◌, ◌≤◌, length};
ghost use Rattle.packets.specs.Pcap.{magic_in, is_version_2, link_type_in, micro_in, packet_header_in};
ghost use Rattle.packets.specs.Pcapng.{enhanced_in};
ghost use Rattle.packets.specs.Recording.{begins, begins_magic};
ghost use Rattle.packets.specs.Values.{packet_value, enhanced_value};

use crate::blocks::HEAD;
use crate::order::Order;
use byteorder::{BigEndian, ByteOrder};

/// How many octets the header of a packet has in pcap.
pub(crate) const PACKET_HEADER: usize = 16;

/// The most octets that are kept of a packet.
pub(crate) const MOST_KEPT: u32 = 262144;

/// Whether four octets or fewer are the front of a magic number.
pub(crate) fn begins_magic(octets: &[u8]) -> bool
    ensures { result ≡ begins_magic octets.now }
{
    [0xa1, 0xb2, 0xc3, 0xd4].starts_with(octets)
        || [0xd4, 0xc3, 0xb2, 0xa1].starts_with(octets)
        || [0xa1, 0xb2, 0x3c, 0x4d].starts_with(octets)
        || [0x4d, 0x3c, 0xb2, 0xa1].starts_with(octets)
        || [0x0a, 0x0d, 0x0d, 0x0a].starts_with(octets)
}

/// What the fraction of a second is counted in.
#[derive(Clone, Copy)]
pub(crate) enum Precision {
    Microseconds,
    Nanoseconds,
}

/// What the magic number of a pcap file tells.
#[derive(Clone, Copy)]
pub(crate) struct Magic {
    /// The order of the file's numbers.
    pub(crate) order: Order,
    /// What the packets' fractions are.
    pub(crate) precision: Precision,
}

/// What the magic number of a file that begins so tells, if it is pcap.
pub(crate) fn magic_in(octets: &[u8]) -> Option<Magic>
    requires { 4 ≤ length octets.now }
    ensures { result ≡ magic_in octets.now }
{
    let (order, precision) = match BigEndian::read_u32(octets) {
        0xa1b2_c3d4 => (Order::Big, Precision::Microseconds),
        0xa1b2_3c4d => (Order::Big, Precision::Nanoseconds),
        0xd4c3_b2a1 => (Order::Little, Precision::Microseconds),
        0x4d3c_b2a1 => (Order::Little, Precision::Nanoseconds),
        _ => return None,
    };
    Some(Magic { order, precision })
}

/// Whether the first half of the header of a pcap file says version 2.
pub(crate) fn is_version_2(order: Order, head: &[u8; HEAD]) -> bool
    ensures { result ≡ is_version_2 order head.now }
{
    order.read_u16(&head[4..]) == 2
}

/// The type of the links of a pcap file, by the second half of its header.
#[tactic(auto, unfolding(crate::specs::Pcap::link_type_in))]
pub(crate) fn link_type_in(order: Order, rest: &[u8; HEAD]) -> u16
    ensures { result ≡ link_type_in order rest.now }
{
    (order.read_u32(&rest[8..]) % 65536) as u16
}

/// The microseconds of a packet's fraction, if it is below a second.
fn micro_in(precision: Precision, fraction: u32) -> Option<u32>
    ensures { result ≡ micro_in precision fraction }
{
    match precision {
        Precision::Microseconds => (fraction < 1_000_000).then_some(fraction),
        Precision::Nanoseconds => (fraction < 1_000_000_000).then_some(fraction / 1000),
    }
}

/// A packet's header in pcap.
#[derive(Clone, Copy)]
pub(crate) struct PacketHeader {
    pub(crate) second: u32,
    /// The microseconds of its fraction.
    pub(crate) micro: Option<u32>,
    /// How many octets were kept.
    pub(crate) kept: u32,
    /// How many the packet had.
    pub(crate) wire: u32,
}

#[tactic(auto, unfolding(crate::specs::Pcap::packet_header_in))]
pub(crate) fn packet_header_in(magic: Magic, octets: &[u8; PACKET_HEADER]) -> PacketHeader
    ensures { packet_value result ≡ packet_header_in magic octets.now }
{
    let order = magic.order;
    PacketHeader {
        second: order.read_u32(octets.as_slice()),
        micro: micro_in(magic.precision, order.read_u32(&octets[4..])),
        kept: order.read_u32(&octets[8..]),
        wire: order.read_u32(&octets[12..]),
    }
}

/// The fixed fields of an Enhanced Packet.
#[derive(Clone, Copy)]
pub(crate) struct EnhancedHeader {
    /// Which of the section's interfaces it is of.
    pub(crate) interface: u32,
    pub(crate) ticks: u64,
    /// How many octets were kept.
    pub(crate) kept: u32,
    /// How many the packet had.
    pub(crate) wire: u32,
}

#[tactic(auto, unfolding(crate::specs::Pcapng::enhanced_in))]
pub(crate) fn enhanced_in(order: Order, head: &[u8; HEAD], rest: &[u8]) -> EnhancedHeader
    requires { 16 ≤ length rest.now }
    ensures { enhanced_value result ≡ enhanced_in order head.now rest.now }
{
    let high = u64::from(order.read_u32(rest));
    let low = u64::from(order.read_u32(&rest[4..]));
    EnhancedHeader {
        interface: order.read_u32(&head[8..]),
        ticks: high * 4294967296 + low,
        kept: order.read_u32(&rest[8..]),
        wire: order.read_u32(&rest[12..]),
    }
}
