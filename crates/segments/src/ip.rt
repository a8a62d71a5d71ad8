//! What a packet of IP carries (`specs/Ip.antt` draws the headers).

ghost use Rattle.std.specs.Prelude.{◌≡◌, ◌≤◌, suc, length, take};
ghost use Rattle.segments.specs.Ip.{is_ipv4_fragment, ipv4_header_in, ipv4_payload};
ghost use Rattle.segments.specs.Ip.{ipv6_header_in, has_length, is_ipv6_fragment};
ghost use Rattle.segments.specs.Ip.{fragment_before, fragment_at, passed_within, extension_at};
ghost use Rattle.segments.specs.Ip.{payload_behind, ipv6_payload, payload_in};
ghost use Rattle.segments.specs.Values.{payload_value, ipv4_value, ipv6_value};
ghost use Rattle.segments.specs.Values.{extension_value, IsWithin};

use crate::found::Addresses;
use bgp_prefix::Address;
use byteorder::{BigEndian, ByteOrder};

/// The octets of a segment.
#[derive(Clone, Copy)]
pub(crate) struct TcpOctets<'a> {
    pub(crate) addresses: Addresses,
    /// Those that were kept.
    pub(crate) octets: &'a [u8],
    /// How many there were on the wire.
    pub(crate) wire_count: usize,
}

/// What a packet carries.
#[derive(Clone, Copy)]
pub(crate) enum Payload<'a> {
    /// Something else than TCP, or too little to tell.
    Other,
    /// A fragment of which a segment may be part.
    Fragment(Addresses),
    Tcp(TcpOctets<'a>),
}

/// How many octets an IPv4 header has without its options.
pub(crate) const IPV4_HEADER: usize = 20;

/// How many octets an IPv6 header has.
pub(crate) const IPV6_HEADER: usize = 40;

/// The protocol number of TCP.
const TCP: u8 = 6;

/// The numbers of the headers that stand between an IPv6 header and TCP.
const HOP_BY_HOP: u8 = 0;

const ROUTING: u8 = 43;

const FRAGMENT: u8 = 44;

const DESTINATION: u8 = 60;

/// The fewest octets that such a header has.
const EXTENSION: usize = 8;

/// A header of IPv4 (RFC 791, 3.1), without its options.
#[derive(Clone, Copy)]
pub(crate) struct Ipv4Header {
    /// How many octets it has with its options.
    pub(crate) header_len: usize,
    /// How many the packet has.
    pub(crate) total_len: usize,
    pub(crate) is_fragment: bool,
    pub(crate) protocol: u8,
    pub(crate) addresses: Addresses,
}

/// Whether More Fragments is set, or there is an offset.
fn is_ipv4_fragment(fragment: u16) -> bool
    ensures { result ≡ is_ipv4_fragment fragment }
{
    fragment % 0x4000 != 0
}

/// Reads a header of IPv4.
#[tactic(auto, unfolding(crate::specs::Ip::ipv4_header_in))]
pub(crate) fn read_ipv4_header(octets: &[u8]) -> Ipv4Header
    requires { 20 ≤ length octets.now }
    ensures { ipv4_value result ≡ ipv4_header_in octets.now }
{
    Ipv4Header {
        header_len: 4 * usize::from(octets[0] % 16),
        total_len: usize::from(BigEndian::read_u16(&octets[2..])),
        is_fragment: is_ipv4_fragment(BigEndian::read_u16(&octets[6..])),
        protocol: octets[9],
        addresses: Addresses {
            from: Address::V4(BigEndian::read_u32(&octets[12..])),
            to: Address::V4(BigEndian::read_u32(&octets[16..])),
        },
    }
}

/// The octets of a packet without the padding of its frame.
pub(crate) fn without_padding(octets: &[u8], len: usize) -> &[u8]
    ensures { result.now ≡ take len octets.now }
{
    &octets[..len.min(octets.len())]
}

/// What a packet of IPv4 carries.
fn ipv4_payload(octets: &[u8]) -> Payload<'_>
    ensures { payload_value result ≡ ipv4_payload octets.now }
{
    if octets.len() < IPV4_HEADER {
        return Payload::Other;
    }
    let header = read_ipv4_header(octets);
    let packet = without_padding(octets, header.total_len);
    if header.header_len < IPV4_HEADER
        || packet.len() < header.header_len
        || header.protocol != TCP
    {
        return Payload::Other;
    }
    if header.is_fragment {
        return Payload::Fragment(header.addresses);
    }
    Payload::Tcp(TcpOctets {
        addresses: header.addresses,
        octets: &packet[header.header_len..],
        wire_count: header.total_len - header.header_len,
    })
}

/// A header of IPv6 (RFC 8200, 3).
#[derive(Clone, Copy)]
pub(crate) struct Ipv6Header {
    /// How many octets stand behind it.
    pub(crate) payload_len: usize,
    pub(crate) next_header: u8,
    pub(crate) addresses: Addresses,
}

/// Reads a header of IPv6.
#[tactic(auto, unfolding(crate::specs::Ip::ipv6_header_in))]
pub(crate) fn read_ipv6_header(octets: &[u8]) -> Ipv6Header
    requires { 40 ≤ length octets.now }
    ensures { ipv6_value result ≡ ipv6_header_in octets.now }
{
    Ipv6Header {
        payload_len: usize::from(BigEndian::read_u16(&octets[4..])),
        next_header: octets[6],
        addresses: Addresses {
            from: Address::V6(BigEndian::read_u128(&octets[8..])),
            to: Address::V6(BigEndian::read_u128(&octets[24..])),
        },
    }
}

/// What a header of IPv6 behind the first one is (RFC 8200, 4).
#[derive(Clone, Copy)]
pub(crate) enum Extension {
    /// That of TCP.
    Transport,
    /// That of a fragment of which a segment may be part.
    Fragmented,
    /// One that is passed over, of so many octets.
    Passed(usize),
    /// Another one, or too little of one to tell.
    Unknown,
}

/// Whether a header of this type tells its length.
fn has_length(next_header: u8) -> bool
    ensures { result ≡ has_length next_header }
{
    next_header == HOP_BY_HOP || next_header == ROUTING || next_header == DESTINATION
}

/// Whether more fragments come, or there is an offset (RFC 8200, 4.5).
fn is_ipv6_fragment(fragment: u16) -> bool
    ensures { result ≡ is_ipv6_fragment fragment }
{
    fragment % 2 == 1 || fragment / 8 != 0
}

/// What a fragment of a packet with this next header is.
fn fragment_before(next_header: u8) -> Extension
    ensures { extension_value result ≡ fragment_before next_header }
{
    if next_header == TCP || has_length(next_header) {
        Extension::Fragmented
    } else {
        Extension::Unknown
    }
}

/// A header that is passed over, if all of it is there.
fn passed_within(len: usize, octets: &[u8]) -> Extension
    ensures { extension_value result ≡ passed_within len octets.now }
{
    if octets.len() < len {
        return Extension::Unknown;
    }
    Extension::Passed(len)
}

/// What a header of a fragment is.
fn fragment_at(octets: &[u8]) -> Extension
    requires { 8 ≤ length octets.now }
    ensures { extension_value result ≡ fragment_at octets.now }
{
    if is_ipv6_fragment(BigEndian::read_u16(&octets[2..])) {
        return fragment_before(octets[0]);
    }
    Extension::Passed(EXTENSION)
}

/// What a header of this type is that begins with these octets.
#[tactic(auto, unfolding(crate::specs::Ip::extension_at))]
fn extension_at(next_header: u8, octets: &[u8]) -> Extension
    ensures value { extension_value result ≡ extension_at next_header octets.now }
    ensures within { IsWithin (extension_value result) octets.now }
{
    if next_header == TCP {
        return Extension::Transport;
    }
    if octets.len() < EXTENSION {
        return Extension::Unknown;
    }
    if has_length(next_header) {
        return passed_within(8 + 8 * usize::from(octets[1]), octets);
    }
    if next_header == FRAGMENT {
        return fragment_at(octets);
    }
    Extension::Unknown
}

/// What stands behind the headers of IPv6, the first of which is of this type.
fn payload_behind<'a>(next_header: u8, octets: &'a [u8], header: &Ipv6Header) -> Payload<'a>
    requires { length octets.now ≤ header.now.payload_len }
    ensures { payload_value result ≡ payload_behind (suc (length octets.now))
        header.now.addresses next_header octets.now header.now.payload_len }
{
    let mut kind = next_header;
    let mut rest = octets;
    let mut wire_count = header.payload_len;
    loop {
        match extension_at(kind, rest) {
            Extension::Transport => {
                return Payload::Tcp(TcpOctets {
                    addresses: header.addresses,
                    octets: rest,
                    wire_count,
                });
            }
            Extension::Fragmented => return Payload::Fragment(header.addresses),
            Extension::Unknown => return Payload::Other,
            Extension::Passed(len) => {
                kind = rest[0];
                rest = rest.split_at(len).1;
                wire_count -= len;
            }
        }
    }
}

/// What a packet of IPv6 carries.
fn ipv6_payload(octets: &[u8]) -> Payload<'_>
    ensures { payload_value result ≡ ipv6_payload octets.now }
{
    if octets.len() < IPV6_HEADER {
        return Payload::Other;
    }
    let header = read_ipv6_header(octets);
    let rest = without_padding(octets.split_at(IPV6_HEADER).1, header.payload_len);
    payload_behind(header.next_header, rest, &header)
}

/// What a packet of IP carries.
pub(crate) fn payload_in(octets: &[u8]) -> Payload<'_>
    ensures { payload_value result ≡ payload_in octets.now }
{
    let Some(first) = octets.first() else {
        return Payload::Other;
    };
    match *first / 16 {
        4 => ipv4_payload(octets),
        6 => ipv6_payload(octets),
        _ => Payload::Other,
    }
}
