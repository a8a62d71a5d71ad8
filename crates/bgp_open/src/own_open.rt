//! The local system's own OPEN (RFC 4271, 4.2; RFC 4760, 8; RFC 6793, 4.1; RFC 8654, 4; RFC 7911,
//! 4; RFC 8950, 4).

ghost use Rattle.std.specs.Prelude.{◌≡◌, ◌<◌, ◌≤◌, ◌+◌, ◌++◌, ◌∷◌, [], ◌↔◌, ◌⊎◌, IsTrue};
ghost use Rattle.std.specs.Prelude.{if◌then◌else◌, Some, None};
ghost use Rattle.std.specs.Prelude.{OnOk, OnErr, length, map, vec_len, vec_capacity};
ghost use Rattle.byteorder.specs.Endian.{big_bytes};
ghost use Rattle.bgp_open.specs.Capability.{capability_of};
ghost use Rattle.bgp_open.specs.OwnOpen.{IsOwnOpen, own_capabilities, own_fields};
ghost use Rattle.bgp_open.specs.OwnOpen.{session_capabilities, paths_with, next_hops_for};
ghost use Rattle.bgp_open.specs.OwnOpen.{mode_for, path_entries_for, path_entry_for};
ghost use Rattle.bgp_open.specs.RouteOffer.{nothing, route_offer_in};
ghost use Rattle.bgp_open.specs.Written.{open_octets};

use crate::capability::Capability;
use crate::config::Config;
use crate::next_hops::EXTENDED_NEXT_HOP;
use crate::offer::{
    EXTENDED_MESSAGE, FOUR_OCTET_AS, MULTIPROTOCOL, UNICAST, afi, offered_as_number,
    offered_families, offers_extended,
};
use crate::open::{Open, read_open};
use crate::paths::{ADD_PATH, RECEIVE, SEND};
use crate::route_offer::RouteOffer;
use crate::written_open::{OpenWriteFault, write_open};
use arrayvec::ArrayVec;
use bgp_prefix::Family;
use bgp_wire::two_octet_as;
use byteorder::{BigEndian, ByteOrder};
use std::alloc::{AllocError, Allocator};

/// The value of the capability that names IPv4 unicast: AFI 1, a reserved octet, SAFI 1.
const IPV4_UNICAST: [u8; 4] = [0, 1, 0, 1];

/// That of IPv6 unicast, whose AFI is 2.
const IPV6_UNICAST: [u8; 4] = [0, 2, 0, 1];

/// The value of the capability that offers IPv6 next hops of IPv4 routes: AFI 1, SAFI 1, and AFI 2
/// of the next hops.
const IPV6_FOR_IPV4: [u8; 6] = [0, 1, 0, 1, 0, 2];

/// The AS number in the capability of four-octet AS numbers, where it is sent.
fn own_as_number(config: &Config) -> Option<u32>
    ensures { result ≡ (if config.now.parts.as4 then Some config.now.parts.local_as else None) }
{
    config.parts.as4.then_some(config.parts.local_as)
}

/// Whether both offers are the same.
fn is_same(offer: RouteOffer, other: RouteOffer) -> bool
    ensures { IsTrue result ↔ (offer ≡ other) }
{
    offer == other
}

/// Whether the OPEN offers about routes what is configured, if anything is.
fn offers_as_configured(config: &Config, message: &Open<'_>) -> bool
    ensures { IsTrue result ↔ ((config.now.parts.offers ≡ nothing)
        ⊎ (route_offer_in message.now ≡ config.now.parts.offers)) }
{
    config.parts.offers.is_nothing() || is_same(RouteOffer::in_open(message), config.parts.offers)
}

/// Checks whether the octets are an OPEN that the local system may send. It is well-formed, and its
/// AS number (or 23456), Hold Time, BGP Identifier and families are the configured ones. It has the
/// four-octet AS number exactly if that is configured, and offers extended messages exactly if that
/// is. If the configuration offers something about routes, the OPEN offers exactly that. Its other
/// capabilities are free.
pub fn is_own_open(config: &Config, octets: &[u8]) -> bool
    ensures { IsTrue result ↔ IsOwnOpen config.now octets.now }
{
    let Ok(message) = read_open(octets) else {
        return false;
    };
    message.my_as() == two_octet_as(config.parts.local_as)
        && message.hold() == config.parts.hold
        && message.id() == config.parts.local_id
        && offered_families(&message) == config.parts.families
        && offered_as_number(&message) == own_as_number(config)
        && offers_extended(&message) == config.parts.session.extended
        && offers_as_configured(config, &message)
}

/// Appends the entry for a family to the value of the capability of several paths, if it has one.
fn push_path_entry(entries: &mut ArrayVec<u8, 8>, family: Family, receives: bool, sends: bool)
    requires { length entries.old.items ≤ 4 }
    ensures { entries.new.items ≡ entries.old.items ++ path_entry_for family receives sends }
{
    let mode = path_mode(receives, sends);
    if mode == 0 {
        return;
    }
    let mut afi_octets = [0; 2];
    BigEndian::write_u16(&mut afi_octets, afi(family));
    entries.push(afi_octets[0]);
    entries.push(afi_octets[1]);
    entries.push(UNICAST);
    entries.push(mode);
}

/// The Send/Receive of an entry; 0 is none.
fn path_mode(receives: bool, sends: bool) -> u8
    ensures { result ≡ mode_for receives sends }
{
    (if receives { RECEIVE } else { 0 }) + (if sends { SEND } else { 0 })
}

/// The value of the capability of several paths.
fn path_entries(offers: RouteOffer) -> ArrayVec<u8, 8>
    ensures { result.items ≡ path_entries_for offers }
{
    let mut entries = ArrayVec::new();
    push_path_entry(
        &mut entries,
        Family::V4,
        offers.receives.v4,
        offers.sends.v4,
    );
    push_path_entry(
        &mut entries,
        Family::V6,
        offers.receives.v6,
        offers.sends.v6,
    );
    entries
}

/// The capabilities that say the families, the AS number, which `as_number` has in four octets, and
/// that extended messages can be received.
fn session_capabilities<'a>(config: &Config, as_number: &'a [u8; 4]) -> ArrayVec<Capability<'a>, 6>
    requires { as_number.now ≡ big_bytes 4 config.now.parts.local_as }
    ensures capabilities { map capability_of result.items ≡ session_capabilities config.now }
    ensures few { length result.items ≤ 4 }
{
    let mut capabilities = ArrayVec::new();
    if config.parts.families.v4 {
        capabilities.push(Capability {
            code: MULTIPROTOCOL,
            value: &IPV4_UNICAST,
        });
    }
    if config.parts.families.v6 {
        capabilities.push(Capability {
            code: MULTIPROTOCOL,
            value: &IPV6_UNICAST,
        });
    }
    if config.parts.as4 {
        capabilities.push(Capability {
            code: FOUR_OCTET_AS,
            value: as_number,
        });
    }
    if config.parts.session.extended {
        capabilities.push(Capability {
            code: EXTENDED_MESSAGE,
            value: &[],
        });
    }
    capabilities
}

/// Appends the capability of several paths, if it has entries.
fn push_paths<'a>(capabilities: &mut ArrayVec<Capability<'a>, 6>, path_entries: &'a [u8])
    requires { length capabilities.old.items ≤ 4 }
    ensures pushed { map capability_of capabilities.new.items
        ≡ map capability_of capabilities.old.items ++ paths_with path_entries.entry.now }
    ensures few { length capabilities.new.items ≤ 5 }
{
    if path_entries.is_empty() {
        return;
    }
    capabilities.push(Capability {
        code: ADD_PATH,
        value: path_entries,
    });
}

/// Appends that of IPv6 next hops of IPv4 routes, if they are offered.
fn push_next_hops<'a>(capabilities: &mut ArrayVec<Capability<'a>, 6>, next_hops: bool)
    requires { length capabilities.old.items ≤ 5 }
    ensures { map capability_of capabilities.new.items
        ≡ map capability_of capabilities.old.items
        ++ (if next_hops then next_hops_for ∷ [] else []) }
{
    if next_hops {
        capabilities.push(Capability {
            code: EXTENDED_NEXT_HOP,
            value: &IPV6_FOR_IPV4,
        });
    }
}

/// The capabilities that say what is configured and no more; `as_number` is the local AS number in
/// four octets, and `path_entries` the entries of the capability of several paths.
fn configured_capabilities<'a>(
    config: &Config,
    as_number: &'a [u8; 4],
    path_entries: &'a [u8],
) -> ArrayVec<Capability<'a>, 6>
    requires as_number { as_number.now ≡ big_bytes 4 config.now.parts.local_as }
    requires path_entries { path_entries.now ≡ path_entries_for config.now.parts.offers }
    ensures { map capability_of result.items ≡ own_capabilities config.now }
{
    let mut capabilities = session_capabilities(config, as_number);
    push_paths(&mut capabilities, path_entries);
    push_next_hops(&mut capabilities, config.parts.offers.next_hops);
    capabilities
}

/// Appends the OPEN that says what is configured and no more. The local system may send it. If
/// memory runs out, the vector is unchanged.
pub fn write_own_open<A: Allocator>(config: &Config, out: &mut Vec<u8, A>) -> Result<(), AllocError>
    ensures ok { OnOk result (out.new.items
        ≡ out.old.items ++ open_octets (own_fields config.now)) }
    ensures err { OnErr result (out.new.items ≡ out.old.items) }
    ensures memory { OnErr result (vec_capacity out.old
        < vec_len out.old + length (open_octets (own_fields config.now))) }
{
    let parts = &config.parts;
    let mut as_number = [0; 4];
    BigEndian::write_u32(&mut as_number, parts.local_as);
    let path_entries = path_entries(parts.offers);
    let capabilities = configured_capabilities(config, &as_number, &path_entries);
    let my_as = two_octet_as(parts.local_as);
    match write_open(my_as, parts.hold, parts.local_id, &capabilities, out) {
        Ok(()) => Ok(()),
        Err(OpenWriteFault::Memory) => Err(AllocError),
        // Six capabilities of at most eight octets fit.
        Err(OpenWriteFault::TooMany) => unreachable!(),
    }
}
