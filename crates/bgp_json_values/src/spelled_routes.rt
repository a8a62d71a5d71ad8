//! Whether routes of MP_REACH_NLRI and MP_UNREACH_NLRI spell their octets. They don't if the
//! reserved octet or a bit behind a prefix isn't 0.

ghost use Rattle.std.specs.Prelude.{◌≡◌, ◌++◌, ◌∷◌, bytes_eq, length};
ghost use Rattle.bgp_open.specs.Offer.{afi_of};
ghost use Rattle.byteorder.specs.Endian.{big_bytes};
ghost use Rattle.bgp_json_values.specs.Fronts.{IsAfter};
ghost use Rattle.bgp_json_values.specs.RoutesJson.{spelled_hop, spelled_next_hop, spelled_numbers};
ghost use Rattle.bgp_json_values.specs.RoutesJson.{spelled_other, spelled_unicast};

use crate::destinations::are_spelled;
use crate::fronts::after;
use crate::routes::afi_of;
use bgp_path::NextHop;
use bgp_prefix::Family;
use bgp_values::Destination;

/// Returns what is left of octets after an AFI of two octets and a SAFI of one, if they begin with
/// these.
fn after_numbers(afi: u16, safi: u8, octets: &[u8]) -> Option<&[u8]>
    ensures { IsAfter (spelled_numbers afi safi) octets.entry.now result }
{
    let rest = after(&afi.to_be_bytes(), octets)?;
    after(&[safi], rest)
}

/// Returns what is left of octets after two IPv6 addresses, if they begin with these.
fn after_pair(first: u128, second: u128, octets: &[u8]) -> Option<&[u8]>
    ensures { IsAfter (big_bytes 16 first ++ big_bytes 16 second) octets.entry.now result }
{
    let rest = after(&first.to_be_bytes(), octets)?;
    after(&second.to_be_bytes(), rest)
}

/// Returns what is left of octets after a next hop, if they begin with it.
fn after_hop(hop: NextHop, octets: &[u8]) -> Option<&[u8]>
    ensures { IsAfter (spelled_hop hop) octets.entry.now result }
{
    match hop {
        NextHop::V4(address) => after(&address.to_be_bytes(), octets),
        NextHop::V6(address) => after(&address.to_be_bytes(), octets),
        NextHop::V6WithLinkLocal(address, link_local) => after_pair(address, link_local, octets),
    }
}

/// Returns how many octets a next hop has.
fn hop_len(hop: NextHop) -> u8
    ensures { result ≡ length (spelled_hop hop) }
{
    match hop {
        NextHop::V4(_) => 4,
        NextHop::V6(_) => 16,
        NextHop::V6WithLinkLocal(..) => 32,
    }
}

/// Returns what is left of octets after the length of a next hop and the next hop, if they begin
/// with these.
fn after_counted_hop(hop: NextHop, octets: &[u8]) -> Option<&[u8]>
    ensures { IsAfter (length (spelled_hop hop) ∷ spelled_hop hop) octets.entry.now result }
{
    let rest = after(&[hop_len(hop)], octets)?;
    after_hop(hop, rest)
}

/// Returns what is left of octets after the length of a next hop, the next hop, and the reserved
/// octet, if there is one and they begin with these.
fn after_next_hop(hop: Option<NextHop>, octets: &[u8]) -> Option<&[u8]>
    ensures { IsAfter (spelled_next_hop hop) octets.entry.now result }
{
    match hop {
        None => Some(octets),
        Some(hop) => {
            let rest = after_counted_hop(hop, octets)?;
            after(&[0], rest)
        }
    }
}

/// Returns what is left of octets after the family and the next hop of unicast routes, if they
/// begin with these.
pub(crate) fn after_head(family: Family, hop: Option<NextHop>, octets: &[u8]) -> Option<&[u8]>
    ensures { IsAfter (spelled_numbers (afi_of family) 1 ++ spelled_next_hop hop)
        octets.entry.now result }
{
    let rest = after_numbers(afi_of(family), 1, octets)?;
    after_next_hop(hop, rest)
}

/// Checks whether octets are those that unicast routes spell.
pub(crate) fn is_spelled_unicast(
    octets: &[u8],
    family: Family,
    hop: Option<NextHop>,
    destinations: &[Destination],
) -> bool
    ensures { result ≡ bytes_eq (spelled_unicast family hop destinations.now) octets.now }
{
    match after_head(family, hop, octets) {
        None => false,
        Some(rest) => are_spelled(destinations, rest),
    }
}

/// Checks whether octets are those of another family: AFI, SAFI and the rest.
pub(crate) fn is_spelled_other(octets: &[u8], afi: u16, safi: u8, rest: &[u8]) -> bool
    ensures { result ≡ bytes_eq (spelled_other afi safi rest.now) octets.now }
{
    match after_numbers(afi, safi, octets) {
        None => false,
        Some(others) => rest == others,
    }
}
