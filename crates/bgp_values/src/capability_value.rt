//! What the values of capabilities say (RFC 5492, 4).

ghost use Rattle.std.specs.Prelude.{◌≡◌, ◌≤◌, length, option_map};
ghost use Rattle.std.specs.List.{list_all};
ghost use Rattle.bgp_values.specs.Items.{items_of};
ghost use Rattle.bgp_values.specs.CapabilityValue.{as_number_value, capability_value};
ghost use Rattle.bgp_values.specs.CapabilityValue.{capability_value_of, family_value, has_way};
ghost use Rattle.bgp_values.specs.CapabilityValue.{long_lived_value, names_value, next_hops_value};
ghost use Rattle.bgp_values.specs.CapabilityValue.{offered_value, paths_value, restart_value};
ghost use Rattle.bgp_values.specs.CapabilityValue.{role_value};

use crate::counted::counted_in;
use crate::items::{Item, has_bits};
use crate::pieces::{are_pieces, are_some_pieces, first_piece};
use byteorder::{BigEndian, ByteOrder};

/// What the value of a capability says.
#[derive(Clone, Copy, Debug)]
pub enum CapabilityValue<'a> {
    /// A family (RFC 4760, 8).
    Family {
        /// The Address Family Identifier.
        afi: u16,
        /// The Subsequent Address Family Identifier.
        safi: u8,
    },
    /// Nothing but that it is there.
    Offered,
    /// Families with the AFI of their next hops (RFC 8950, 4): items [`Item::HopFamily`].
    NextHops(&'a [u8]),
    /// The number of a role (RFC 9234, 4.1).
    Role(u8),
    /// Graceful Restart (RFC 4724, 3).
    Restart {
        /// The system has restarted.
        restarted: bool,
        /// It offers Graceful NOTIFICATION (RFC 8538, 2).
        notification: bool,
        /// In how many seconds it is back.
        seconds: u16,
        /// The families: items [`Item::RestartFamily`].
        families: &'a [u8],
    },
    /// An AS number (RFC 6793, 3).
    AsNumber(u32),
    /// Families with what is done with their path identifiers (RFC 7911, 4): items
    /// [`Item::PathFamily`].
    Paths(&'a [u8]),
    /// The families of Long-Lived Graceful Restart (RFC 9494, 3): items [`Item::LongLivedFamily`].
    LongLived(&'a [u8]),
    /// The name of a host, and that of its domain.
    Names {
        /// The host's name.
        host: &'a str,
        /// The domain's.
        domain: &'a str,
    },
}

/// Reads a family.
fn read_family(octets: &[u8]) -> Option<CapabilityValue<'_>>
    ensures { option_map capability_value_of result ≡ family_value octets.entry.now }
{
    if octets.len() != 4 {
        return None;
    }
    Some(CapabilityValue::Family {
        afi: BigEndian::read_u16(octets),
        safi: octets[3],
    })
}

/// Reads a value that has no octets.
fn read_offered(octets: &[u8]) -> Option<CapabilityValue<'_>>
    ensures { option_map capability_value_of result ≡ offered_value octets.entry.now }
{
    if octets.is_empty() {
        Some(CapabilityValue::Offered)
    } else {
        None
    }
}

/// Reads families with the AFI of their next hops.
fn read_next_hops(octets: &[u8]) -> Option<CapabilityValue<'_>>
    ensures { option_map capability_value_of result ≡ next_hops_value octets.entry.now }
{
    if are_some_pieces(Item::HopFamily.size(), octets) {
        Some(CapabilityValue::NextHops(octets))
    } else {
        None
    }
}

/// Reads the number of a role.
fn read_role(octets: &[u8]) -> Option<CapabilityValue<'_>>
    ensures { option_map capability_value_of result ≡ role_value octets.entry.now }
{
    if octets.len() == 1 && octets[0] <= 4 {
        Some(CapabilityValue::Role(octets[0]))
    } else {
        None
    }
}

/// Reads the value of Graceful Restart.
fn read_restart(octets: &[u8]) -> Option<CapabilityValue<'_>>
    ensures { option_map capability_value_of result ≡ restart_value octets.entry.now }
{
    if octets.len() < 2 {
        return None;
    }
    let (head, families) = octets.split_at(2);
    if !are_pieces(Item::RestartFamily.size(), families) {
        return None;
    }
    Some(CapabilityValue::Restart {
        restarted: has_bits(octets[0], 128),
        notification: has_bits(octets[0], 64),
        seconds: BigEndian::read_u16(octets) % 4096,
        families,
    })
}

/// Reads an AS number.
fn read_as_number(octets: &[u8]) -> Option<CapabilityValue<'_>>
    ensures { option_map capability_value_of result ≡ as_number_value octets.entry.now }
{
    if octets.len() == 4 {
        Some(CapabilityValue::AsNumber(BigEndian::read_u32(octets)))
    } else {
        None
    }
}

/// Checks whether Send/Receive of the item is known.
fn has_way(octets: &[u8]) -> bool
    requires { length octets.now ≡ 4 }
    ensures { result ≡ has_way octets.now }
{
    1 <= octets[3] && octets[3] <= 3
}

/// Checks whether Send/Receive of each item is known.
fn have_ways(octets: &[u8]) -> bool
    ensures { result ≡ list_all has_way (items_of Item.PathFamily octets.now) }
{
    let mut rest = octets;
    while let Some((piece, others)) = first_piece(4, rest) {
        if !has_way(piece) {
            return false;
        }
        rest = others;
    }
    true
}

/// Reads families with what is done with their path identifiers.
fn read_paths(octets: &[u8]) -> Option<CapabilityValue<'_>>
    ensures { option_map capability_value_of result ≡ paths_value octets.entry.now }
{
    if are_some_pieces(Item::PathFamily.size(), octets) && have_ways(octets) {
        Some(CapabilityValue::Paths(octets))
    } else {
        None
    }
}

/// Reads the families of Long-Lived Graceful Restart.
fn read_long_lived(octets: &[u8]) -> Option<CapabilityValue<'_>>
    ensures { option_map capability_value_of result ≡ long_lived_value octets.entry.now }
{
    if are_pieces(Item::LongLivedFamily.size(), octets) {
        Some(CapabilityValue::LongLived(octets))
    } else {
        None
    }
}

/// Reads the names of a host and of its domain.
fn read_names(octets: &[u8]) -> Option<CapabilityValue<'_>>
    ensures { option_map capability_value_of result ≡ names_value octets.entry.now }
{
    let Some(host) = counted_in(octets) else {
        return None;
    };
    let Some(domain) = counted_in(host.rest) else {
        return None;
    };
    if !domain.rest.is_empty() {
        return None;
    }
    Some(CapabilityValue::Names {
        host: host.text,
        domain: domain.text,
    })
}

impl<'a> CapabilityValue<'a> {
    /// Returns what the octets of a capability with this code say, if they say something.
    pub fn of(code: u8, octets: &'a [u8]) -> Option<CapabilityValue<'a>>
        ensures { option_map capability_value_of result ≡ capability_value code octets.entry.now }
    {
        match code {
            1 => read_family(octets),
            2 | 6 | 70 | 128 => read_offered(octets),
            5 => read_next_hops(octets),
            9 => read_role(octets),
            64 => read_restart(octets),
            65 => read_as_number(octets),
            69 => read_paths(octets),
            71 => read_long_lived(octets),
            73 => read_names(octets),
            _ => None,
        }
    }
}
