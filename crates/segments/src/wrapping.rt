//! What a packet of segments may be wrapped in, that isn't looked into (`specs/Wrapping.antt`).

ghost use Rattle.std.specs.Prelude.{◌≡◌};
ghost use Rattle.segments.specs.Wrapping.{gre_in, vxlan_in, wrapping_by, wrapping_in};
ghost use Rattle.segments.specs.Wrapping.{wrapping_in_ip, wrapping_in_ipv4, wrapping_in_ipv6};

use crate::ip::{IPV4_HEADER, IPV6_HEADER, read_ipv4_header, read_ipv6_header, without_padding};
use crate::link::{carried_in, is_ip, link_layer};
use byteorder::{BigEndian, ByteOrder};
use std::fmt;

/// What a packet may be wrapped in.
#[derive(Clone, Copy, Debug, PartialEq, Eq)]
pub enum Wrapping {
    /// Generic Routing Encapsulation (RFC 2784).
    Gre,
    /// What a switch mirrors over GRE.
    Erspan,
    /// A virtual network over UDP (RFC 7348).
    Vxlan,
    /// Labels (RFC 3032; over IP RFC 4023).
    Mpls,
    /// A session of PPP over Ethernet (RFC 2516).
    Pppoe,
}

impl fmt::Display for Wrapping {
    fn fmt<W: fmt::Write>(&self, f: &mut fmt::Formatter<W>) -> fmt::Result {
        f.write_str(match self {
            Wrapping::Gre => "GRE",
            Wrapping::Erspan => "ERSPAN",
            Wrapping::Vxlan => "VXLAN",
            Wrapping::Mpls => "MPLS",
            Wrapping::Pppoe => "PPPoE",
        })
    }
}

/// The protocol numbers of GRE, of MPLS and of UDP.
const GRE: u8 = 47;

const MPLS: u8 = 137;

const UDP: u8 = 17;

/// GRE, or ERSPAN in it.
fn gre_in(octets: &[u8]) -> Wrapping
    ensures { result ≡ gre_in octets.now }
{
    if octets.len() < 4 {
        return Wrapping::Gre;
    }
    let kind = BigEndian::read_u16(octets.split_at(2).1);
    if kind == 0x88be || kind == 0x22eb {
        Wrapping::Erspan
    } else {
        Wrapping::Gre
    }
}

/// VXLAN, by the port that a datagram goes to.
fn vxlan_in(octets: &[u8]) -> Option<Wrapping>
    ensures { result ≡ vxlan_in octets.now }
{
    if octets.len() < 4 {
        return None;
    }
    let port = BigEndian::read_u16(octets.split_at(2).1);
    if port == 4789 || port == 8472 {
        Some(Wrapping::Vxlan)
    } else {
        None
    }
}

/// What stands behind a header of IP, by its protocol.
fn wrapping_by(protocol: u8, octets: &[u8]) -> Option<Wrapping>
    ensures { result ≡ wrapping_by protocol octets.now }
{
    match protocol {
        GRE => Some(gre_in(octets)),
        MPLS => Some(Wrapping::Mpls),
        UDP => vxlan_in(octets),
        _ => None,
    }
}

/// What a packet of IPv4 carries.
fn wrapping_in_ipv4(octets: &[u8]) -> Option<Wrapping>
    ensures { result ≡ wrapping_in_ipv4 octets.now }
{
    if octets.len() < IPV4_HEADER {
        return None;
    }
    let header = read_ipv4_header(octets);
    let packet = without_padding(octets, header.total_len);
    if header.header_len < IPV4_HEADER || packet.len() < header.header_len {
        return None;
    }
    wrapping_by(header.protocol, packet.split_at(header.header_len).1)
}

/// What a packet of IPv6 carries.
fn wrapping_in_ipv6(octets: &[u8]) -> Option<Wrapping>
    ensures { result ≡ wrapping_in_ipv6 octets.now }
{
    if octets.len() < IPV6_HEADER {
        return None;
    }
    let header = read_ipv6_header(octets);
    let rest = without_padding(octets.split_at(IPV6_HEADER).1, header.payload_len);
    wrapping_by(header.next_header, rest)
}

/// What a packet of IP carries.
fn wrapping_in_ip(octets: &[u8]) -> Option<Wrapping>
    ensures { result ≡ wrapping_in_ip octets.now }
{
    let Some(first) = octets.first() else {
        return None;
    };
    match *first / 16 {
        4 => wrapping_in_ipv4(octets),
        6 => wrapping_in_ipv6(octets),
        _ => None,
    }
}

/// What a packet is wrapped in that was recorded on a link of this type, by the octets that were
/// kept, if it is wrapped. The type is one of the registry `LINKTYPE_`.
pub fn wrapping_of(link_type: u16, octets: &[u8]) -> Option<Wrapping>
    ensures { result ≡ wrapping_in link_type octets.now }
{
    let carried = carried_in(link_layer(link_type)?, octets)?;
    match carried.ether_type {
        0x8847 | 0x8848 => Some(Wrapping::Mpls),
        0x8864 => Some(Wrapping::Pppoe),
        ether_type if is_ip(ether_type) => wrapping_in_ip(carried.octets),
        _ => None,
    }
}
