//! The MP attributes of an UPDATE (RFC 4760, 3 and 4; RFC 8950, 3), and what is wrong with them
//! (RFC 7606, 5.3, 7.11 and 7.12).
//!
//! ```text
//! MP_REACH_NLRI    AFI 2 | SAFI 1 | next-hop length 1 | next hop | reserved 1 | NLRI
//! MP_UNREACH_NLRI  AFI 2 | SAFI 1 | withdrawn prefixes
//! ```

ghost use Rattle.std.specs.Prelude.{◌≡◌, ◌≤◌, length, option_map, IsTrue};
ghost use Rattle.bgp_attr.specs.Field.{attribute_of};
ghost use Rattle.bgp_update.specs.Mp.{has_other_bits, mp_state};
ghost use Rattle.bgp_update.specs.MpShown.{contents_of, contents_read, state_of, type_of_mp};
ghost use Rattle.bgp_update.specs.MpValue.{family_in, ipv6_hop_in, next_hop_in};
ghost use Rattle.bgp_update.specs.MpValue.{reach_contents, unreach_contents};
ghost use Rattle.bgp_update.specs.Destinations.{destinations_of, is_identified};
ghost use Rattle.bgp_update.specs.Field.{field_destinations};
ghost use Rattle.bgp_update.specs.Listed.{listed};

use crate::destinations::DestinationField;
use crate::mp_parts::{family_with, split_reach};
use bgp_attr::{Attr, AttrType, NextHop};
use bgp_open::{Families, Family, RouteForm};
use byteorder::{BigEndian, ByteOrder};

/// One of the two types.
#[derive(Clone, Copy)]
pub(crate) enum MpType {
    /// MP_REACH_NLRI.
    Reach,
    /// MP_UNREACH_NLRI.
    Unreach,
}

/// What an MP attribute of IPv4 or IPv6 unicast holds.
#[derive(Clone, Copy, Debug)]
pub struct MpContents<'a> {
    /// The next hop of MP_REACH_NLRI: none in MP_UNREACH_NLRI.
    pub next_hop: Option<NextHop>,
    /// The destinations: the field is correct.
    pub destinations: DestinationField<'a>,
}

/// What state an MP attribute is in.
#[derive(Clone, Copy)]
pub(crate) enum MpState<'a> {
    /// It isn't there.
    Absent,
    /// Its value has fewer than 3 octets.
    Cut,
    /// Its family is neither IPv4 nor IPv6 unicast.
    Other,
    /// Its family isn't in use.
    Unused(Family),
    /// Its family is in use, and its contents are wrong.
    Broken(Family),
    /// Its family is in use, and these are its contents.
    Sound(Family, MpContents<'a>),
}

impl MpType {
    /// Returns the attribute type.
    pub(crate) fn attr_type(self) -> AttrType
        ensures { result ≡ type_of_mp self }
    {
        match self {
            MpType::Reach => AttrType::MpReachNlri,
            MpType::Unreach => AttrType::MpUnreachNlri,
        }
    }
}

/// Returns the state of the first attribute of a type, if those families are in use and routes are
/// spelled in this form.
pub(crate) fn mp_state<'a>(
    used: Families,
    form: RouteForm,
    mp_type: MpType,
    attr: Option<Attr<'a>>,
) -> MpState<'a>
    ensures { state_of result
        ≡ mp_state used (contents_read form mp_type) (option_map attribute_of attr.entry) }
{
    let Some(attr) = attr else {
        return MpState::Absent;
    };
    if attr.value.len() < 3 {
        return MpState::Cut;
    }
    let Some(family) = family_in(attr.value) else {
        return MpState::Other;
    };
    if !used.contains(family) {
        return MpState::Unused(family);
    }
    match contents(form, mp_type, family, attr.value) {
        Some(contents) => MpState::Sound(family, contents),
        None => MpState::Broken(family),
    }
}

/// Checks whether its Optional and Transitive bits are in conflict with its type (RFC 7606, 3 c).
pub(crate) fn has_other_bits(mp_type: MpType, attr: Option<Attr<'_>>) -> bool
    ensures { result ≡ has_other_bits (type_of_mp mp_type) (option_map attribute_of attr.entry) }
{
    match attr {
        Some(attr) => !attr.has_bits_of(mp_type.attr_type()),
        None => false,
    }
}

/// Returns the family that the value of an MP attribute names, or none if it is neither IPv4 nor
/// IPv6 unicast (RFC 4760, 6).
pub fn family_in(value: &[u8]) -> Option<Family>
    requires { 3 ≤ length value.now }
    ensures { result ≡ family_in value.now }
{
    family_with(BigEndian::read_u16(value), value[2])
}

/// Reads the contents of an attribute of this family, or returns none if they are wrong.
fn contents<'a>(
    form: RouteForm,
    mp_type: MpType,
    family: Family,
    value: &'a [u8],
) -> Option<MpContents<'a>>
    requires { 3 ≤ length value.now }
    ensures { option_map contents_of result
        ≡ contents_read form mp_type family value.entry.now }
{
    match mp_type {
        MpType::Reach => reach_contents(form, family, value),
        MpType::Unreach => unreach_contents(form, family, value),
    }
}

/// Reads the contents of MP_REACH_NLRI of this family, if routes are spelled in this form. Returns
/// none if they are wrong: the value is too short for its fields, the next hop's length isn't one of
/// the family, or the destinations are incorrect (RFC 7606, 5.3 and 7.11).
pub fn reach_contents(form: RouteForm, family: Family, value: &[u8]) -> Option<MpContents<'_>>
    ensures { option_map contents_of result
        ≡ reach_contents form family value.entry.now }
{
    let parts = split_reach(value)?;
    let next_hop = next_hop_in(form, family, parts.next_hop)?;
    let destinations = destinations_in(form, family, parts.nlri)?;
    Some(MpContents {
        next_hop: Some(next_hop),
        destinations,
    })
}

/// Reads the contents of MP_UNREACH_NLRI of this family, if routes are spelled in this form.
/// Returns none if the destinations are incorrect (RFC 7606, 5.3 and 7.12).
pub fn unreach_contents(form: RouteForm, family: Family, value: &[u8]) -> Option<MpContents<'_>>
    requires { 3 ≤ length value.now }
    ensures { option_map contents_of result ≡ unreach_contents form family value.entry.now }
{
    let destinations = destinations_in(form, family, value.split_at(3).1)?;
    Some(MpContents {
        next_hop: None,
        destinations,
    })
}

/// Returns the field of destinations that these octets are in this form, or none if it is
/// incorrect.
fn destinations_in(form: RouteForm, family: Family, octets: &[u8]) -> Option<DestinationField<'_>>
    ensures { option_map (λ field. listed (field_destinations field)) result
        ≡ destinations_of (is_identified form family) family octets.entry.now }
{
    let field = DestinationField::new(form, family, octets);
    if field.count().is_none() {
        return None;
    }
    Some(field)
}

/// Reads the next hop of a route of this family, if routes are spelled in this form (RFC 4760, 3;
/// RFC 2545, 3; RFC 8950, 3). Returns none if it has another number of octets than the family's
/// next hops have.
pub fn next_hop_in(form: RouteForm, family: Family, octets: &[u8]) -> Option<NextHop>
    ensures { result ≡ next_hop_in form.ipv6_next_hops family octets.now }
{
    match family {
        Family::V4 if octets.len() == 4 => Some(NextHop::V4(BigEndian::read_u32(octets))),
        Family::V4 if !form.ipv6_next_hops => None,
        _ => ipv6_hop_in(octets),
    }
}

/// Reads an IPv6 next hop: 16 octets, or 32 with a link-local address (RFC 2545, 3).
fn ipv6_hop_in(octets: &[u8]) -> Option<NextHop>
    ensures { result ≡ ipv6_hop_in octets.now }
{
    match octets.len() {
        16 => Some(NextHop::V6(BigEndian::read_u128(octets))),
        32 => {
            let (address, link_local) = octets.split_at(16);
            Some(NextHop::V6WithLinkLocal(
                BigEndian::read_u128(address),
                BigEndian::read_u128(link_local),
            ))
        }
        _ => None,
    }
}
