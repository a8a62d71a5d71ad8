//! What is wrong with one path attribute, the first of its type (RFC 4271, 6.3; RFC 7606, 3).

ghost use Rattle.std.specs.Prelude.{◌≡◌};
ghost use Rattle.bgp_attr.specs.Field.{attribute_of};
ghost use Rattle.bgp_parts.specs.AttributeFaults.{class_fault, is_for_internal_peers};
ghost use Rattle.bgp_parts.specs.AttributeFaults.{is_for_two_octets, state_fault, state_in};
ghost use Rattle.bgp_parts.specs.AttributeFaults.{value_fault};

use crate::multiprotocol::has_contents;
use bgp_attr::{Attr, AttrType, AttrVerdict};
use bgp_open::{Families, Link, RouteForm};
use bgp_prefix::Family;
use bgp_update::family_in;

/// What is wrong with a path attribute.
#[derive(Clone, Copy, Debug, PartialEq, Eq)]
pub enum AttributeFault {
    /// Its type isn't known, and it isn't optional (RFC 4271, 6.3).
    Unknown,
    /// Its Optional and Transitive bits are in conflict with its type (RFC 7606, 3 c).
    Flags,
    /// It is AS4_PATH or AS4_AGGREGATOR, and AS numbers have four octets (RFC 6793, 4.1).
    FourOctetAsNumbers,
    /// It is LOCAL_PREF, ORIGINATOR_ID or CLUSTER_LIST, and the peer is external (RFC 7606, 7.5,
    /// 7.9 and 7.10).
    FromExternalPeer,
    /// Its value: the UPDATE's routes are withdrawn for it (RFC 7606, 7).
    Value,
    /// Its value, and the attribute alone is discarded (RFC 7606, 7).
    DiscardedValue,
    /// It is an MP attribute whose value has fewer than 3 octets, so that it names no family.
    BelowThreeOctets,
    /// It is an MP attribute of a family that isn't in use.
    NotInUse(Family),
    /// It is an MP attribute of a family that is in use, and its contents are wrong (RFC 7606, 5.3,
    /// 7.11 and 7.12).
    Contents(Family),
    /// Another of its type stands before it (RFC 7606, 3 g).
    Repeated,
}

/// Whether it is AS4_PATH or AS4_AGGREGATOR, for speakers with AS numbers of two octets.
fn is_for_two_octets(attr_type: AttrType) -> bool
    ensures { result ≡ is_for_two_octets attr_type }
{
    let number = attr_type.row().number;
    number == 17 || number == 18
}

/// Whether it is LOCAL_PREF, ORIGINATOR_ID or CLUSTER_LIST, for internal peers.
fn is_for_internal_peers(attr_type: AttrType) -> bool
    ensures { result ≡ is_for_internal_peers attr_type }
{
    let number = attr_type.row().number;
    number == 5 || number == 9 || number == 10
}

/// The value, where nothing else is told.
fn value_fault(verdict: AttrVerdict) -> AttributeFault
    ensures { result ≡ value_fault verdict }
{
    match verdict {
        AttrVerdict::Discard => AttributeFault::DiscardedValue,
        AttrVerdict::Good | AttrVerdict::Withdraw | AttrVerdict::Reset => AttributeFault::Value,
    }
}

/// The fault of an attribute whose class isn't Good, by its type.
pub(crate) fn class_fault(
    link: &Link,
    attr_type: Option<AttrType>,
    attr: &Attr<'_>,
    verdict: AttrVerdict,
) -> AttributeFault
    ensures { result ≡ class_fault link.now attr_type attr.now.flags verdict }
{
    let Some(attr_type) = attr_type else {
        return AttributeFault::Unknown;
    };
    if !attr.has_bits_of(attr_type) {
        return AttributeFault::Flags;
    }
    if link.as4 && is_for_two_octets(attr_type) {
        return AttributeFault::FourOctetAsNumbers;
    }
    if !link.internal && is_for_internal_peers(attr_type) {
        return AttributeFault::FromExternalPeer;
    }
    value_fault(verdict)
}

/// The fault of an MP attribute of this type, its flags aside, where those families are in use and
/// routes are spelled in this form.
pub(crate) fn state_fault(
    used: Families,
    form: RouteForm,
    attr_type: AttrType,
    attr: &Attr<'_>,
) -> Option<AttributeFault>
    ensures { result ≡ state_fault (state_in used form attr_type (attribute_of attr.now)) }
{
    if attr.value.len() < 3 {
        return Some(AttributeFault::BelowThreeOctets);
    }
    let Some(family) = family_in(attr.value) else {
        return None;
    };
    if !used.contains(family) {
        return Some(AttributeFault::NotInUse(family));
    }
    if has_contents(form, attr_type, family, attr.value) {
        return None;
    }
    Some(AttributeFault::Contents(family))
}
