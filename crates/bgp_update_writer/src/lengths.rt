//! How many octets the fields of an UPDATE have, measured before anything of it is written.

ghost use Rattle.std.specs.Prelude.{◌≡◌, ◌+◌, ◌≤◌, ◌<◌, ℕ, List, All, length};
ghost use Rattle.std.specs.Prelude.{IfSome, IfNone};
ghost use Rattle.bgp_prefix.specs.declared.family.Family.TheVariants.{V4, V6};
ghost use Rattle.bgp_prefix.specs.Prefix.{IsPrefix};
ghost use Rattle.bgp_attr.specs.Field.{attribute_octets};
ghost use Rattle.bgp_attr.specs.Writing.{attribute_with};
ghost use Rattle.bgp_attr.specs.declared.types.AttrType.{AttrType};
ghost use Rattle.bgp_update.specs.Clean.{most_octets};
ghost use Rattle.bgp_update_writer.specs.Update.{Announces, Withdraws, update_value};
ghost use Rattle.bgp_update_writer.specs.Written.{hop_octets, nlri_octets};
ghost use Rattle.bgp_update_writer.specs.Refusals.{IsTooLarge};
ghost use Rattle.bgp_update_writer.specs.Lengths.{AreLengths};

use crate::update::Update;
use bgp_attr::path_len;
use bgp_open::Link;
use bgp_path::{NextHop, Path, path_is_fit};
use bgp_prefix::{Family, Prefix};
use bgp_update::{most_octets, side};
use std::alloc::Allocator;

/// The octets of an UPDATE besides its three fields: header 19, lengths of two fields 2 each.
const FIXED: u16 = 23;

/// The octets before the prefixes in the value of MP_UNREACH_NLRI: AFI and SAFI (RFC 4760, 4).
const UNREACH_FIXED: u16 = 3;

/// The octets in the value of MP_REACH_NLRI besides the next hop and the prefixes: AFI, SAFI, the
/// length of the next hop, and a reserved octet (RFC 4760, 3).
const REACH_FIXED: u16 = 5;

/// How many octets the fields have.
#[derive(Clone, Copy)]
pub(crate) struct Lengths {
    /// Withdrawn Routes.
    pub(crate) withdrawn: u16,
    /// The value of the MP attribute, 0 where there is none.
    pub(crate) mp_value: u16,
    /// Path Attributes.
    pub(crate) attributes: u16,
    /// Network Layer Reachability Information.
    pub(crate) nlri: u16,
}

impl Lengths {
    /// How many octets the message has: the header and the lengths of two fields take 23.
    pub(crate) fn message(self) -> u16
        requires { self.withdrawn + self.attributes + self.nlri ≤ 65512 }
        ensures { result ≡ 23 + self.withdrawn + self.attributes + self.nlri }
    {
        let fields = self.withdrawn + self.attributes + self.nlri;
        FIXED + fields
    }
}

/// How many octets an attribute has, and how many its value.
#[derive(Clone, Copy)]
struct MpLength {
    value: u16,
    attribute: u16,
}

/// The most octets that the three fields may have together in a message on the link.
fn field_room(link: &Link) -> u16
    ensures { FIXED + result ≡ most_octets link.now }
{
    most_octets(link) - FIXED
}

/// How many octets the fields have, if a message on the link may have so many.
pub(crate) fn measured<A: Allocator>(link: &Link, update: &Update<'_, A>) -> Option<Lengths>
    ensures some { IfSome result (AreLengths link.now (update_value update.now)) }
    ensures none { IfNone result (IsTooLarge link.now (update_value update.now)) }
{
    match update {
        Update::Announce {
            family: Family::V4,
            prefixes,
            path,
        } => announced_v4(link, prefixes, path),
        Update::Announce {
            family: Family::V6,
            prefixes,
            path,
        } => announced_v6(link, prefixes, path),
        Update::Withdraw {
            family: Family::V4,
            prefixes,
        } => withdrawn_v4(link, prefixes),
        Update::Withdraw {
            family: Family::V6,
            prefixes,
        } => withdrawn_v6(link, prefixes),
    }
}

/// The lengths where prefixes of IPv4 are withdrawn.
#[tactic(auto, using(crate::proofs::Measured::too_large))]
fn withdrawn_v4(link: &Link, prefixes: &[Prefix]) -> Option<Lengths>
    ensures some { IfSome result (AreLengths link.now (Withdraws V4 prefixes.now)) }
    ensures none { IfNone result (IsTooLarge link.now (Withdraws V4 prefixes.now)) }
{
    let Some(withdrawn) = prefixes_len(prefixes, field_room(link)) else {
        return None;
    };
    Some(Lengths {
        withdrawn,
        mp_value: 0,
        attributes: 0,
        nlri: 0,
    })
}

/// The lengths where prefixes of IPv6 are withdrawn.
#[tactic(auto, using(crate::proofs::Measured::too_large))]
fn withdrawn_v6(link: &Link, prefixes: &[Prefix]) -> Option<Lengths>
    ensures some { IfSome result (AreLengths link.now (Withdraws V6 prefixes.now)) }
    ensures none { IfNone result (IsTooLarge link.now (Withdraws V6 prefixes.now)) }
{
    let Some(mp) = mp_length(UNREACH_FIXED, prefixes, field_room(link)) else {
        return None;
    };
    Some(Lengths {
        withdrawn: 0,
        mp_value: mp.value,
        attributes: mp.attribute,
        nlri: 0,
    })
}

/// The lengths where prefixes of IPv4 are announced.
#[tactic(auto, using(crate::proofs::Measured::too_large))]
fn announced_v4<A: Allocator>(link: &Link, prefixes: &[Prefix], path: &Path<A>) -> Option<Lengths>
    ensures some { IfSome result (AreLengths link.now (Announces V4 prefixes.now path.now)) }
    ensures none { IfNone result (IsTooLarge link.now (Announces V4 prefixes.now path.now)) }
{
    path_is_fit(path);
    let most = field_room(link);
    let Some(attributes) = path_len(side(link), path, most) else {
        return None;
    };
    let Some(nlri) = prefixes_len(prefixes, most - attributes) else {
        return None;
    };
    Some(Lengths {
        withdrawn: 0,
        mp_value: 0,
        attributes,
        nlri,
    })
}

/// The lengths where prefixes of IPv6 are announced.
#[tactic(auto, using(crate::proofs::Measured::too_large))]
fn announced_v6<A: Allocator>(link: &Link, prefixes: &[Prefix], path: &Path<A>) -> Option<Lengths>
    ensures some { IfSome result (AreLengths link.now (Announces V6 prefixes.now path.now)) }
    ensures none { IfNone result (IsTooLarge link.now (Announces V6 prefixes.now path.now)) }
{
    path_is_fit(path);
    let most = field_room(link);
    let Some(own) = path_len(side(link), path, most) else {
        return None;
    };
    let fixed = REACH_FIXED + u16::from(hop_len(path.parts().next_hop));
    let Some(mp) = mp_length(fixed, prefixes, most - own) else {
        return None;
    };
    Some(Lengths {
        withdrawn: 0,
        mp_value: mp.value,
        attributes: mp.attribute + own,
        nlri: 0,
    })
}

/// How many octets a next hop has.
pub(crate) fn hop_len(hop: NextHop) -> u8
    ensures len { result ≡ length (hop_octets hop) }
    ensures bound { result ≤ 32 }
{
    match hop {
        NextHop::V4(_) => 4,
        NextHop::V6(_) => 16,
        NextHop::V6WithLinkLocal(..) => 32,
    }
}

/// A prefix has no more bits than an address of its family.
fn prefix_is_fit(prefix: &Prefix)
    ensures { IsPrefix prefix.now }
{
    let _length = prefix.length();
}

/// How many octets spell the prefixes, if at most `most`.
fn prefixes_len(prefixes: &[Prefix], most: u16) -> Option<u16>
    ensures some { IfSome result (λ len. len ≡ length (nlri_octets prefixes.now)) }
    ensures fits { IfSome result (λ len. len ≤ most) }
    ensures each { IfSome result (λ _. All IsPrefix prefixes.now) }
    ensures none { IfNone result (most < length (nlri_octets prefixes.now)) }
{
    let mut left = most;
    for prefix in prefixes {
        prefix_is_fit(prefix);
        left = left.checked_sub(prefix.octet_len() as u16)?;
    }
    Some(most - left)
}

/// How many octets the header of an attribute has whose value has so many.
fn header_len(value_len: u32) -> u32
    ensures all { (t : AttrType) (value : List ℕ) → length value ≡ value_len
        → length (attribute_octets (attribute_with t value)) ≡ result + value_len }
    ensures bound { result ≤ 4 }
{
    if value_len > 255 { 4 } else { 3 }
}

/// How many octets an MP attribute has whose value has `fixed` octets besides these prefixes, if at
/// most `most`.
fn mp_length(fixed: u16, prefixes: &[Prefix], most: u16) -> Option<MpLength>
    ensures value { IfSome result (λ len. len.value ≡ fixed + length (nlri_octets prefixes.now)) }
    ensures attribute { IfSome result (λ len. (t : AttrType) (value : List ℕ)
        → length value ≡ len.value
        → len.attribute ≡ length (attribute_octets (attribute_with t value))) }
    ensures fits { IfSome result (λ len. len.attribute ≤ most) }
    ensures each { IfSome result (λ len. All IsPrefix prefixes.now) }
    ensures none { IfNone result ((t : AttrType) (value : List ℕ)
        → length value ≡ fixed + length (nlri_octets prefixes.now)
        → most < length (attribute_octets (attribute_with t value))) }
{
    let value = u32::from(fixed) + u32::from(prefixes_len(prefixes, most)?);
    let attribute = value + header_len(value);
    if attribute > u32::from(most) {
        return None;
    }
    Some(MpLength {
        value: value as u16,
        attribute: attribute as u16,
    })
}
