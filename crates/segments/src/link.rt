//! The link below IP (`specs/Link.antt` draws the frames).

ghost use Rattle.std.specs.Prelude.{◌≡◌, ◌≤◌, ◌+◌, Some};
ghost use Rattle.std.specs.Option.{option_map};
ghost use Rattle.segments.specs.Link.{link_layer, is_tag, is_ip, carried, carried_behind};
ghost use Rattle.segments.specs.Link.{carried_at, carried_in, packet_in};
ghost use Rattle.segments.specs.Values.{carried_value};

use byteorder::{BigEndian, ByteOrder};

/// What stands before IP in a frame.
#[derive(Clone, Copy)]
pub(crate) enum LinkLayer {
    Ethernet,
    /// Linux cooked capture, as version 1 has it.
    LinuxCooked,
    /// Linux cooked capture, as version 2 has it.
    LinuxCooked2,
    Loopback,
    RawIp,
}

/// What stands in a frame behind its tags.
#[derive(Clone, Copy)]
pub(crate) struct Carried<'a> {
    pub(crate) ether_type: u16,
    pub(crate) octets: &'a [u8],
}

/// The link of this type, if it is a known one.
pub(crate) fn link_layer(link_type: u16) -> Option<LinkLayer>
    ensures { result ≡ link_layer link_type }
{
    match link_type {
        1 => Some(LinkLayer::Ethernet),
        113 => Some(LinkLayer::LinuxCooked),
        276 => Some(LinkLayer::LinuxCooked2),
        0 | 108 => Some(LinkLayer::Loopback),
        12 | 14 | 101 | 228 | 229 => Some(LinkLayer::RawIp),
        _ => None,
    }
}

fn is_tag(ether_type: u16) -> bool
    ensures { result ≡ is_tag ether_type }
{
    ether_type == 0x8100 || ether_type == 0x88a8 || ether_type == 0x9100
}

pub(crate) fn is_ip(ether_type: u16) -> bool
    ensures { result ≡ is_ip ether_type }
{
    ether_type == 0x0800 || ether_type == 0x86dd
}

/// What stands behind an EtherType, and behind the tags that follow on it.
fn carried_behind(ether_type: u16, octets: &[u8]) -> Option<Carried<'_>>
    ensures { option_map carried_value result ≡ carried_behind ether_type octets.now }
{
    let mut kind = ether_type;
    let mut rest = octets;
    while is_tag(kind) {
        if rest.len() < 4 {
            return None;
        }
        kind = BigEndian::read_u16(rest.split_at(2).1);
        rest = rest.split_at(4).1;
    }
    Some(Carried {
        ether_type: kind,
        octets: rest,
    })
}

/// What a frame carries whose EtherType stands at a place in a header of so many octets.
fn carried_at(place: usize, header_len: usize, octets: &[u8]) -> Option<Carried<'_>>
    requires { place + 2 ≤ header_len }
    ensures { option_map carried_value result ≡ carried_at place header_len octets.now }
{
    if octets.len() < header_len {
        return None;
    }
    carried_behind(
        BigEndian::read_u16(octets.split_at(place).1),
        octets.split_at(header_len).1,
    )
}

/// What a frame carries that has no EtherType: a packet of IP.
fn carried_ip(octets: &[u8]) -> Carried<'_>
    ensures { Some (carried_value result) ≡ carried 0x0800 octets.now }
{
    Carried {
        ether_type: 0x0800,
        octets,
    }
}

/// What a frame carries.
pub(crate) fn carried_in(layer: LinkLayer, octets: &[u8]) -> Option<Carried<'_>>
    ensures { option_map carried_value result ≡ carried_in layer octets.now }
{
    match layer {
        LinkLayer::Ethernet => carried_at(12, 14, octets),
        LinkLayer::LinuxCooked => carried_at(14, 16, octets),
        LinkLayer::LinuxCooked2 => carried_at(0, 20, octets),
        LinkLayer::Loopback => {
            if octets.len() < 4 {
                return None;
            }
            Some(carried_ip(octets.split_at(4).1))
        }
        LinkLayer::RawIp => Some(carried_ip(octets)),
    }
}

/// The packet of IP in a frame, if it has one.
pub(crate) fn packet_in(layer: LinkLayer, octets: &[u8]) -> Option<&[u8]>
    ensures { option_map (λ packet. packet.now) result ≡ packet_in layer octets.now }
{
    let carried = carried_in(layer, octets)?;
    is_ip(carried.ether_type).then_some(carried.octets)
}
