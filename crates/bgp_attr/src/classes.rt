//! The class of one path attribute: which error handling of RFC 7606, 2 its faults ask for.

ghost use Rattle.std.specs.Prelude.{◌≡◌, ◌==◌, ◌&&◌, ◌<◌, if◌then◌else◌, Some};
ghost use Rattle.bgp_attr.specs.Field.{attribute_of};
ghost use Rattle.bgp_attr.specs.Class.{is_origin, are_items, is_as4_path, value_rows};
ghost use Rattle.bgp_attr.specs.Class.{strongest, stronger, class_by, class_of, as_width};
ghost use Rattle.bgp_attr.specs.declared.classes.AttrVerdict.TheVariants.{Good};

use crate::field::Attr;
use crate::flags::OPTIONAL;
use crate::segments::{AS_CONFED_SET, AS_SEQUENCE, are_segments};
use crate::types::AttrType;
use AttrVerdict::{Discard, Good, Reset, Withdraw};

/// What of the session's state decides how an attribute is read.
#[derive(Clone, Copy, Debug, PartialEq, Eq)]
pub struct Side {
    /// AS numbers have four octets, since both sides sent the four-octet AS capability
    /// (RFC 6793, 4.1); else two.
    pub as4: bool,
    /// The peer is internal: it has the local system's AS number.
    pub internal: bool,
}

impl Side {
    /// How many octets an AS number takes.
    pub fn as_width(self) -> usize
        ensures width { result ≡ as_width self }
    {
        if self.as4 { 4 } else { 2 }
    }
}

/// What an attribute's faults ask for (RFC 7606, 2), the strongest last.
#[derive(Clone, Copy, Debug, PartialEq, Eq, PartialOrd, Ord)]
pub enum AttrVerdict {
    /// There is no fault.
    Good,
    /// The attribute is discarded: "attribute discard".
    Discard,
    /// The UPDATE's routes are withdrawn: "treat-as-withdraw".
    Withdraw,
    /// The session is reset.
    Reset,
}

/// The class of an attribute: of the rows that hold in the table of classes the strongest, Good
/// where none does.
///
/// It is none for MP_REACH_NLRI and MP_UNREACH_NLRI: what their faults ask for depends on the
/// families in use and on their prefixes too, and whoever reads the UPDATE judges them (RFC 7606,
/// 5.3, 7.11 and 7.12).
pub fn class(side: Side, attr: &Attr<'_>) -> Option<AttrVerdict>
    ensures class { result ≡ class_of side (attribute_of attr.now) }
{
    let Some(attr_type) = AttrType::of(attr.kind) else {
        // An attribute that isn't recognised has to be optional (RFC 4271, 6.3).
        return Some(good_if(attr.flags & OPTIONAL == OPTIONAL, Reset));
    };
    class_as(side, attr_type, attr)
}

/// The class of an attribute of this type. Where the type is fixed, the rows of the others go.
#[inline(always)]
pub(crate) fn class_as(side: Side, attr_type: AttrType, attr: &Attr<'_>) -> Option<AttrVerdict>
    ensures class { result ≡ class_by side (attribute_of attr.now) (Some attr_type) }
{
    if attr_type.is_multiprotocol() {
        return None;
    }
    // The bits are in conflict with the type (RFC 7606, 3 c).
    let by_bits = good_if(attr.has_bits_of(attr_type), Withdraw);
    // The strongest of the faults decides (RFC 7606, 3 h).
    Some(stronger(by_bits, value_class(side, attr_type, attr.value)))
}

/// Of two classes the one that asks for more.
fn stronger(one: AttrVerdict, other: AttrVerdict) -> AttrVerdict
    ensures { result ≡ stronger one other }
{
    one.max(other)
}

/// Good where that holds.
fn good_if(holds: bool, otherwise: AttrVerdict) -> AttrVerdict
    ensures { result ≡ (if holds then Good else otherwise) }
{
    if holds { Good } else { otherwise }
}

/// The class by the value.
#[inline(always)]
fn value_class(side: Side, attr_type: AttrType, value: &[u8]) -> AttrVerdict
    ensures value { result ≡ strongest (value_rows side attr_type value.now) }
{
    match attr_type {
        // RFC 7606, 7.1
        AttrType::Origin => good_if(is_origin(value), Withdraw),
        // RFC 7606, 7.2
        AttrType::AsPath => good_if(are_segments(AS_SEQUENCE, side.as_width(), value), Withdraw),
        // RFC 7606, 7.3 and 7.4
        AttrType::NextHop | AttrType::MultiExitDisc => good_if(value.len() == 4, Withdraw),
        // RFC 7606, 7.5, 7.9 and 7.10: an external peer's are discarded
        AttrType::LocalPref | AttrType::OriginatorId | AttrType::ClusterList if !side.internal => {
            Discard
        }
        AttrType::LocalPref | AttrType::OriginatorId => good_if(value.len() == 4, Withdraw),
        AttrType::ClusterList => good_if(are_items(4, value), Withdraw),
        // RFC 7606, 7.6
        AttrType::AtomicAggregate => good_if(value.is_empty(), Discard),
        // RFC 7606, 7.7
        AttrType::Aggregator => good_if(value.len() == side.as_width() + 4, Discard),
        // RFC 7606, 7.8
        AttrType::Communities => good_if(are_items(4, value), Withdraw),
        // RFC 7606, 7.14
        AttrType::ExtendedCommunities => good_if(are_items(8, value), Withdraw),
        // RFC 6793, 4.1 and 6
        AttrType::As4Path => good_if(!side.as4 && is_as4_path(value), Discard),
        AttrType::As4Aggregator => good_if(!side.as4 && value.len() == 8, Discard),
        // RFC 8092, 6
        AttrType::LargeCommunities => good_if(are_items(12, value), Withdraw),
        // These have no class of their own.
        AttrType::MpReachNlri | AttrType::MpUnreachNlri => Good,
    }
}

/// One octet: IGP, EGP or INCOMPLETE.
fn is_origin(value: &[u8]) -> bool
    ensures { result ≡ is_origin value.now }
{
    matches!(value, [0..=2])
}

/// At least one item, all of `size` octets.
fn are_items(size: usize, value: &[u8]) -> bool
    requires { 0 < size }
    ensures { result ≡ are_items size value.now }
{
    !value.is_empty() && value.len() % size == 0
}

/// At least one segment, all of the four types that are defined (RFC 6793, 6).
fn is_as4_path(value: &[u8]) -> bool
    ensures { result ≡ is_as4_path value.now }
{
    !value.is_empty() && are_segments(AS_CONFED_SET, 4, value)
}
