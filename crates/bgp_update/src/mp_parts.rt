//! The values of MP_REACH_NLRI and MP_UNREACH_NLRI part by part, whatever their family is (RFC
//! 4760, 3 and 4).
//!
//! ```text
//! MP_REACH_NLRI    AFI 2 | SAFI 1 | next-hop length 1 | next hop | reserved 1 | NLRI
//! MP_UNREACH_NLRI  AFI 2 | SAFI 1 | withdrawn destinations
//! ```

ghost use Rattle.std.specs.Prelude.{◌≡◌};
ghost use Rattle.std.specs.Option.{option_map};
ghost use Rattle.bgp_update.specs.MpParts.{reach_fields, reach_of, unreach_fields, unreach_of};
ghost use Rattle.bgp_update.specs.MpValue.{family_with};

use bgp_open::Family;
use byteorder::{BigEndian, ByteOrder};

/// The Subsequent Address Family Identifier of unicast.
const UNICAST: u8 = 1;

/// The parts of the value of MP_REACH_NLRI.
#[derive(Clone, Copy, Debug, PartialEq, Eq)]
pub struct ReachParts<'a> {
    /// The Address Family Identifier.
    pub afi: u16,
    /// The Subsequent Address Family Identifier.
    pub safi: u8,
    /// The octets of the next hop, at most 255.
    pub next_hop: &'a [u8],
    /// The octet behind the next hop: 0 is sent, and any is received.
    pub reserved: u8,
    /// The octets of the destinations that are announced.
    pub nlri: &'a [u8],
}

/// The parts of the value of MP_UNREACH_NLRI.
#[derive(Clone, Copy, Debug, PartialEq, Eq)]
pub struct UnreachParts<'a> {
    /// The Address Family Identifier.
    pub afi: u16,
    /// The Subsequent Address Family Identifier.
    pub safi: u8,
    /// The octets of the destinations that are withdrawn.
    pub withdrawn: &'a [u8],
}

/// Splits the value of MP_REACH_NLRI, of whatever family, into its parts. Returns none if it is too
/// short for them (RFC 4760, 3).
pub fn split_reach(value: &[u8]) -> Option<ReachParts<'_>>
    ensures { option_map reach_of result ≡ reach_fields value.entry.now }
{
    if value.len() < 5 {
        return None;
    }
    let hop_len = usize::from(value[3]);
    let rest = value.split_at(4).1;
    if rest.len() < hop_len + 1 {
        return None;
    }
    let (next_hop, rest) = rest.split_at(hop_len);
    Some(ReachParts {
        afi: BigEndian::read_u16(value),
        safi: value[2],
        next_hop,
        reserved: rest[0],
        nlri: rest.split_at(1).1,
    })
}

/// Splits the value of MP_UNREACH_NLRI, of whatever family, into its parts. Returns none if it has
/// fewer than 3 octets (RFC 4760, 4).
pub fn split_unreach(value: &[u8]) -> Option<UnreachParts<'_>>
    ensures { option_map unreach_of result ≡ unreach_fields value.entry.now }
{
    if value.len() < 3 {
        return None;
    }
    Some(UnreachParts {
        afi: BigEndian::read_u16(value),
        safi: value[2],
        withdrawn: value.split_at(3).1,
    })
}

/// Returns the family that AFI and SAFI name, or none if it is neither IPv4 nor IPv6 unicast (RFC
/// 4760, 6).
pub fn family_with(afi: u16, safi: u8) -> Option<Family>
    ensures { result ≡ family_with afi safi }
{
    if safi != UNICAST {
        return None;
    }
    match afi {
        1 => Some(Family::V4),
        2 => Some(Family::V6),
        _ => None,
    }
}
