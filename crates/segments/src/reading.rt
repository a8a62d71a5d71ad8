//! The segment of a packet.

ghost use Rattle.std.specs.Prelude.{◌≡◌};
ghost use Rattle.segments.specs.Segment.{finding_of};
ghost use Rattle.segments.specs.Found.{found_in};

use crate::found::Found;
use crate::ip::{Payload, payload_in};
use crate::link::{link_layer, packet_in};
use crate::tcp::found_of;

/// What is found in a packet that was recorded on a link of this type, by the octets that were
/// kept, from the first on. The type is one of the registry `LINKTYPE_`: 1 is Ethernet.
pub fn read_segment(link_type: u16, octets: &[u8]) -> Found<'_>
    ensures { finding_of result ≡ found_in link_type octets.now }
{
    let Some(layer) = link_layer(link_type) else {
        return Found::UnknownLink(link_type);
    };
    let Some(packet) = packet_in(layer, octets) else {
        return Found::Nothing;
    };
    match payload_in(packet) {
        Payload::Other => Found::Nothing,
        Payload::Fragment(addresses) => Found::Fragment(addresses),
        Payload::Tcp(tcp) => found_of(tcp),
    }
}
