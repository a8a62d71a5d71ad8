//! Which OPENs offer IPv6 next hops of IPv4 routes (RFC 8950, 4).
//!
//! ```text
//! the value of capability 5: an entry for each family
//!  0     2      4              6
//! +-----+------+--------------+
//! | AFI | SAFI | Next hop AFI |
//! +-----+------+--------------+
//! ```

ghost use Rattle.std.specs.Prelude.{◌≡◌, ◌<◌, ◌∷◌, [], IfSome, IfNone, length};
ghost use Rattle.std.specs.List.{list_any};
ghost use Rattle.bgp_open.specs.Capability.{capability_of};
ghost use Rattle.bgp_open.specs.RouteOffer.{hop_entries, is_ipv6_for_ipv4, is_next_hops};
ghost use Rattle.bgp_open.specs.RouteOffer.{offers_next_hops};

use crate::capability::Capability;
use crate::entries::are_entries;
use crate::open::Open;
use byteorder::{BigEndian, ByteOrder};
use std::marker::Model;

/// The Capability Code of extended next hop encoding (RFC 8950, 4).
pub(crate) const EXTENDED_NEXT_HOP: u8 = 5;

/// An entry of the capability's value.
#[derive(Clone, Copy)]
pub(crate) struct HopEntry {
    pub(crate) afi: u16,
    pub(crate) safi: u16,
    pub(crate) hop_afi: u16,
}

/// Reads the entry at the front of the octets, and what stands behind it.
fn first_hop_entry(octets: &[u8]) -> Option<(HopEntry, &[u8])>
    ensures some { IfSome result (λ r.
        hop_entries octets.entry.now ≡ r.0 ∷ hop_entries r.1.now) }
    ensures shorter { IfSome result (λ r. length r.1.now < length octets.entry.now) }
    ensures none { IfNone result (hop_entries octets.entry.now ≡ []) }
{
    let (entry, others) = octets.split_first_chunk::<6>()?;
    Some((
        HopEntry {
            afi: BigEndian::read_u16(entry),
            safi: BigEndian::read_u16(&entry[2..]),
            hop_afi: BigEndian::read_u16(&entry[4..]),
        },
        others,
    ))
}

/// The entries of a value. Contracts see it as the list of what is left.
#[derive(Drop)]
struct HopEntries<'a> {
    octets: &'a [u8],
}

impl<'a> Model for HopEntries<'a> {
    ghost use Rattle.std.specs.Prelude.{List};
    ghost use Rattle.bgp_open.specs.RouteOffer.{hop_entries};
    ghost use Rattle.bgp_open.specs.declared.next_hops.HopEntry.{HopEntry};

    ghost Value = { List HopEntry };

    ghost view = { λ s. hop_entries s.octets.now };
}

impl<'a> HopEntries<'a> {
    fn new(octets: &'a [u8]) -> HopEntries<'a>
        ensures { result ≡ hop_entries octets.entry.now }
    {
        HopEntries { octets }
    }
}

impl<'a> Iterator for HopEntries<'a> {
    ghost use Rattle.std.specs.Prelude.{length};
    ghost use Rattle.std.specs.Iterator.{YieldsFirst, at_most};

    type Item = HopEntry;

    ghost next_gives = { YieldsFirst (λ s. s) };

    ghost remaining = { λ s. at_most (length s) };

    fn next(&mut self) -> Option<HopEntry> {
        let (entry, others) = first_hop_entry(self.octets)?;
        self.octets = others;
        Some(entry)
    }
}

/// Whether the entry is IPv4 unicast, AFI 1 and SAFI 1, with IPv6 next hops, AFI 2.
fn is_ipv6_for_ipv4(entry: HopEntry) -> bool
    ensures { result ≡ is_ipv6_for_ipv4 entry }
{
    entry.afi == 1 && entry.safi == 1 && entry.hop_afi == 2
}

/// Whether an entry of the value is.
fn has_ipv6_for_ipv4(value: &[u8]) -> bool
    ensures { result ≡ list_any is_ipv6_for_ipv4 (hop_entries value.now) }
{
    HopEntries::new(value).any(is_ipv6_for_ipv4)
}

/// Whether the capability offers IPv6 next hops of IPv4 routes. Entries fill it, or none counts.
fn is_next_hops(capability: Capability<'_>) -> bool
    ensures { result ≡ is_next_hops (capability_of capability.entry) }
{
    capability.code == EXTENDED_NEXT_HOP
        && are_entries(capability.value, 6)
        && has_ipv6_for_ipv4(capability.value)
}

/// Whether a capability of the OPEN does.
pub(crate) fn offers_next_hops(message: &Open<'_>) -> bool
    ensures { result ≡ offers_next_hops message.now.capabilities }
{
    message.caps().any(is_next_hops)
}
