//! ROUTE-REFRESH messages (RFC 2918), which are no event of the machine.

ghost use Rattle.std.specs.Prelude.{◌≡◌, ◌↔◌, IsTrue};
ghost use Rattle.bgp_wire.specs.Header.{IsSynchronized, length_of};
ghost use Rattle.mrt.specs.Rules.{IsRouteRefresh, IsWholeRefresh};

use bgp_wire::{HEADER_LEN, header_at, read_type};
use byteorder::{BigEndian, ByteOrder};

/// The type of a ROUTE-REFRESH (RFC 2918, 3).
const ROUTE_REFRESH: u8 = 5;

/// The most octets of a message whose type is unknown, also where messages may be extended ones
/// (RFC 4271, 4.1; RFC 8654, 4).
const LONGEST: usize = 4096;

/// Whether the message is a ROUTE-REFRESH: its type is 5, whatever else is wrong in its header.
pub fn is_route_refresh(message: &[u8]) -> bool
    ensures { IsTrue result ↔ IsRouteRefresh message.now }
{
    match header_at(message) {
        Some(header) => read_type(header) == ROUTE_REFRESH,
        None => false,
    }
}

/// The Length of a header, whether it is faulty or not.
#[tactic(auto, unfolding(bgp_wire::specs::Header::length_of))]
fn read_length(header: &[u8; HEADER_LEN]) -> usize
    ensures { result ≡ length_of header.now }
{
    usize::from(BigEndian::read_u16(&header[16..]))
}

/// Whether all octets of a header's marker are 255.
fn is_synchronized(header: &[u8; HEADER_LEN]) -> bool
    ensures { IsTrue result ↔ IsSynchronized header.now }
{
    header[..16].iter().all(|octet| *octet == 255)
}

/// Whether the message is a whole ROUTE-REFRESH, whose type is the one fault of its header: such
/// are passed over where the session says so.
pub fn is_whole_refresh(message: &[u8]) -> bool
    ensures { IsTrue result ↔ IsWholeRefresh message.now }
{
    let Some(header) = header_at(message) else {
        return false;
    };
    message.len() <= LONGEST
        && read_type(header) == ROUTE_REFRESH
        && read_length(header) == message.len()
        && is_synchronized(header)
}
