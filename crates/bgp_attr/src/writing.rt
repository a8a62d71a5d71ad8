//! Writing a route's path attributes (RFC 4271, 5; RFC 6793, 4.2.2): measured, then room made for
//! all of them, then written.

ghost use Rattle.std.specs.Prelude.{◌≡◌, ◌≤◌, ◌<◌, ◌+◌, ◌*◌, ◌^◌, ◌↔◌, ◌++◌, IsTrue, All};
ghost use Rattle.std.specs.Prelude.{IfSome, IfNone, OnOk, OnErr, length, option_map};
ghost use Rattle.std.specs.Prelude.{vec_len, vec_capacity};
ghost use Rattle.std.specs.List.{flat_map};
ghost use Rattle.bgp_path.specs.Path.{value_of};
ghost use Rattle.bgp_attr.specs.Values.{aggregator_octets, items_octets, value_octets};
ghost use Rattle.byteorder.specs.Endian.{big_bytes};
ghost use Rattle.bgp_attr.specs.LargeCommunities.{large_communities_octets};
ghost use Rattle.bgp_attr.specs.Writing.{as4_aggregator_octets, as4_path_octets, attribute_header};
ghost use Rattle.bgp_attr.specs.Writing.{next_hop_octets, path_octets, type_octets, value_in};
ghost use Rattle.bgp_attr.specs.Writing.{HasShortValue, IsWritable};

use crate::classes::Side;
use crate::flags::EXTENDED_LENGTH;
use crate::segments::has_large;
use crate::types::AttrType;
use crate::values::AttrValue;
use bgp_path::{Aggregator, LargeCommunity, NextHop, Path, PathParts, Segment};
use bgp_wire::{needs_four_octets, put_u8, put_u16};
use std::alloc::{AllocError, Allocator};

/// The most octets that a value can have: its length has at most two octets (RFC 4271, 4.3).
const LONGEST_VALUE: u128 = 65535;

/// Appends a path's attributes in ascending order of their types: those that it has, AS_PATH
/// always, NEXT_HOP where the next hop has four octets, no list that is empty and no MP attribute.
/// Where AS numbers have two octets, AS_TRANS stands for a larger one, and AS4_PATH and
/// AS4_AGGREGATOR say it (RFC 6793, 4.2.2). Whether the peer is internal makes no difference.
///
/// It is `Err` only where there was too little room and memory is refused, and then `out` is as
/// before.
pub fn write_path<A: Allocator, B: Allocator>(
    side: Side,
    path: &Path<B>,
    out: &mut Vec<u8, A>,
) -> Result<(), AllocError>
    requires { IsWritable side path.now }
    ensures ok { OnOk result (out.new.items ≡ out.old.items ++ path_octets side path.now) }
    ensures err { OnErr result (out.new.items ≡ out.old.items) }
    ensures memory { OnErr result
        (vec_capacity out.old < vec_len out.old + length (path_octets side path.now)) }
{
    out.reserve(octet_len(side, path) as usize)?;
    put_path(out, side, path);
    Ok(())
}

/// Appends what `write_path` does, where there is room for it.
pub fn put_path<A: Allocator, B: Allocator>(out: &mut Vec<u8, A>, side: Side, path: &Path<B>)
    requires writable { IsWritable side path.now }
    requires room { vec_len out.old + length (path_octets side path.now) ≤ vec_capacity out.old }
    ensures items { out.new.items ≡ out.old.items ++ path_octets side path.now }
    ensures len { vec_len out.new ≡ vec_len out.old + length (path_octets side path.now) }
    ensures capacity { vec_capacity out.old ≤ vec_capacity out.new }
{
    put_attributes(out, side, path.parts(), &AttrType::ALL);
}

/// How many octets `write_path` would append, if at most `most`.
pub fn path_len<A: Allocator>(side: Side, path: &Path<A>, most: u16) -> Option<u16>
    ensures some { IfSome result (λ len. len ≡ length (path_octets side path.now)) }
    ensures fits { IfSome result (λ len. len ≤ most) }
    ensures none { IfNone result (most < length (path_octets side path.now)) }
{
    let len = octet_len(side, path);
    if len > u128::from(most) {
        return None;
    }
    Some(len as u16)
}

/// How many octets `write_path` would append.
fn octet_len<A: Allocator>(side: Side, path: &Path<A>) -> u128
    ensures len { result ≡ length (path_octets side path.now) }
{
    attributes_len(side, path.parts(), &AttrType::ALL)
}

/// Whether each value that `write_path` would write has at most 65535 octets: its condition.
pub fn is_writable<A: Allocator>(side: Side, path: &Path<A>) -> bool
    ensures writable { IsTrue result ↔ IsWritable side path.now }
{
    are_short(side, path.parts(), &AttrType::ALL)
}

/// Whether the values of these types have at most 65535 octets each.
fn are_short<A: Allocator>(side: Side, path: &PathParts<A>, types: &[AttrType]) -> bool
    ensures { IsTrue result ↔ All (HasShortValue side (value_of path.now)) types.now }
{
    types
        .iter()
        .all(|attr_type| has_short_value(side, path, *attr_type))
}

/// Whether the value of this type has at most 65535 octets.
fn has_short_value<A: Allocator>(side: Side, path: &PathParts<A>, attr_type: AttrType) -> bool
    ensures { IsTrue result ↔ HasShortValue side (value_of path.now) attr_type }
{
    match value_of_type(side, path, attr_type) {
        Some(value) => value.len() <= LONGEST_VALUE,
        None => true,
    }
}

/// How many octets the attributes of these types have.
fn attributes_len<A: Allocator>(side: Side, path: &PathParts<A>, types: &[AttrType]) -> u128
    requires few { length types.now ≤ 16 }
    ensures len { result ≡ length (flat_map (type_octets side (value_of path.now)) types.now) }
{
    let mut len = 0;
    for attr_type in types {
        len += attribute_len(side, path, *attr_type);
    }
    len
}

/// How many octets the attribute of this type has: its header and its value.
fn attribute_len<A: Allocator>(side: Side, path: &PathParts<A>, attr_type: AttrType) -> u128
    ensures len { result ≡ length (type_octets side (value_of path.now) attr_type) }
    ensures bound { result ≤ 1022 * 2 ^ 64 + 4 }
{
    let Some(value) = value_of_type(side, path, attr_type) else {
        return 0;
    };
    let len = value.len();
    // flags 1, type 1, length 1, or 2 with Extended Length
    if len > 255 { len + 4 } else { len + 3 }
}

/// Appends the attributes of these types that the path has.
fn put_attributes<A: Allocator, B: Allocator>(
    out: &mut Vec<u8, A>,
    side: Side,
    path: &PathParts<B>,
    types: &[AttrType],
)
    requires writable { IsWritable side (value_of path.now) }
    requires room { vec_len out.old
        + length (flat_map (type_octets side (value_of path.now)) types.now)
        ≤ vec_capacity out.old }
    ensures items { out.new.items
        ≡ out.old.items ++ flat_map (type_octets side (value_of path.now)) types.now }
    ensures len { vec_len out.new ≡ vec_len out.old
        + length (flat_map (type_octets side (value_of path.now)) types.now) }
    ensures capacity { vec_capacity out.old ≤ vec_capacity out.new }
{
    for attr_type in types {
        put_attribute(out, side, path, *attr_type);
    }
}

/// Appends the attribute of this type, where the path has one.
fn put_attribute<A: Allocator, B: Allocator>(
    out: &mut Vec<u8, A>,
    side: Side,
    path: &PathParts<B>,
    attr_type: AttrType,
)
    requires writable { IsWritable side (value_of path.now) }
    requires room { vec_len out.old + length (type_octets side (value_of path.now) attr_type)
        ≤ vec_capacity out.old }
    ensures items { out.new.items
        ≡ out.old.items ++ type_octets side (value_of path.now) attr_type }
    ensures len { vec_len out.new
        ≡ vec_len out.old + length (type_octets side (value_of path.now) attr_type) }
    ensures capacity { vec_capacity out.old ≤ vec_capacity out.new }
{
    let Some(value) = value_of_type(side, path, attr_type) else {
        return;
    };
    put_attribute_header(out, attr_type, value.len() as u16);
    value.put(out);
}

/// Appends the header of an attribute of this type, whose value has `len` octets: flags, type and
/// length (RFC 4271, 4.3).
pub fn put_attribute_header<A: Allocator>(out: &mut Vec<u8, A>, attr_type: AttrType, len: u16)
    requires room { vec_len out.old + length (attribute_header attr_type len)
        ≤ vec_capacity out.old }
    ensures items { out.new.items ≡ out.old.items ++ attribute_header attr_type len }
    ensures len { vec_len out.new
        ≡ vec_len out.old + length (attribute_header attr_type len) }
    ensures capacity { vec_capacity out.old ≤ vec_capacity out.new }
{
    let row = attr_type.row();
    // Extended Length only where the value has more than 255 octets (RFC 4271, 4.3).
    if len > 255 {
        put_u8(out, row.bits | EXTENDED_LENGTH);
        put_u8(out, row.number);
        put_u16(out, len);
    } else {
        put_u8(out, row.bits);
        put_u8(out, row.number);
        put_u8(out, len as u8);
    }
}

/// The value of an attribute of this type: none where the path isn't written with one.
fn value_of_type<A: Allocator>(
    side: Side,
    path: &PathParts<A>,
    attr_type: AttrType,
) -> Option<AttrValue<'_, A>>
    ensures value { option_map value_octets result
        ≡ value_in side (value_of path.now) attr_type }
{
    // Each arm returns by itself, since some of them lend and others don't.
    match attr_type {
        AttrType::Origin => return Some(AttrValue::Octet(path.origin as u8)),
        AttrType::AsPath => return Some(AttrValue::Segments(side.as4, path.as_path.segments())),
        AttrType::NextHop => return next_hop_value(path.next_hop),
        AttrType::MultiExitDisc => return number_value(path.multi_exit_disc),
        AttrType::LocalPref => return number_value(path.local_pref),
        AttrType::AtomicAggregate => return path.atomic_aggregate.then_some(AttrValue::Empty),
        AttrType::Aggregator => return aggregator_value(side, path.aggregator),
        AttrType::Communities => return items_value(path.communities.as_slice()),
        AttrType::OriginatorId => return number_value(path.originator_id),
        AttrType::ClusterList => return items_value(path.cluster_list.as_slice()),
        AttrType::ExtendedCommunities => {
            return long_items_value(path.extended_communities.as_slice());
        }
        AttrType::As4Path => return as4_path_value(side, path.as_path.segments()),
        AttrType::As4Aggregator => return as4_aggregator_value(side, path.aggregator),
        AttrType::LargeCommunities => {
            return large_communities_value(path.large_communities.as_slice());
        }
        // These carry prefixes too, and are written with them.
        AttrType::MpReachNlri | AttrType::MpUnreachNlri => return None,
    }
}

/// The value of a number of four octets, where there is one.
fn number_value<'a, A: Allocator>(number: Option<u32>) -> Option<AttrValue<'a, A>>
    ensures value { option_map value_octets result ≡ option_map (big_bytes 4) number }
{
    Some(AttrValue::Number(number?))
}

/// The value of AGGREGATOR, where there is one.
fn aggregator_value<'a, A: Allocator>(
    side: Side,
    aggregator: Option<Aggregator>,
) -> Option<AttrValue<'a, A>>
    ensures value { option_map value_octets result
        ≡ option_map (aggregator_octets side.as4) aggregator }
{
    Some(AttrValue::Aggregator(side.as4, aggregator?))
}

/// The value of NEXT_HOP, where the next hop has four octets (RFC 4760, 3).
fn next_hop_value<'a, A: Allocator>(next_hop: NextHop) -> Option<AttrValue<'a, A>>
    ensures value { option_map value_octets result ≡ next_hop_octets next_hop }
{
    match next_hop {
        NextHop::V4(address) => Some(AttrValue::Number(address)),
        NextHop::V6(_) | NextHop::V6WithLinkLocal(..) => None,
    }
}

/// The value of a list of numbers of four octets: none where it is empty.
fn items_value<A: Allocator>(numbers: &[u32]) -> Option<AttrValue<'_, A>>
    ensures value { option_map value_octets result ≡ items_octets 4 numbers.now }
{
    if numbers.is_empty() {
        return None;
    }
    Some(AttrValue::Numbers(numbers))
}

/// The value of a list of numbers of eight octets: none where it is empty.
fn long_items_value<A: Allocator>(numbers: &[u64]) -> Option<AttrValue<'_, A>>
    ensures value { option_map value_octets result ≡ items_octets 8 numbers.now }
{
    if numbers.is_empty() {
        return None;
    }
    Some(AttrValue::LongNumbers(numbers))
}

/// The value of LARGE_COMMUNITY: none where the list is empty.
fn large_communities_value<A: Allocator>(communities: &[LargeCommunity]) -> Option<AttrValue<'_, A>>
    ensures value { option_map value_octets result
        ≡ large_communities_octets communities.now }
{
    if communities.is_empty() {
        return None;
    }
    Some(AttrValue::LargeCommunities(communities))
}

/// The value of AS4_PATH: it is written where AS numbers have two octets and one of the path's
/// needs four (RFC 6793, 4.2.2).
fn as4_path_value<A: Allocator>(side: Side, segments: &[Segment<A>]) -> Option<AttrValue<'_, A>>
    ensures value { option_map value_octets result ≡ as4_path_octets side.as4 segments.now }
{
    if !side.as4 && has_large(segments) {
        return Some(AttrValue::Segments(true, segments));
    }
    None
}

/// The value of AS4_AGGREGATOR: it is written where AS numbers have two octets and the
/// aggregator's needs four (RFC 6793, 4.2.2).
fn as4_aggregator_value<'a, A: Allocator>(
    side: Side,
    aggregator: Option<Aggregator>,
) -> Option<AttrValue<'a, A>>
    ensures value { option_map value_octets result
        ≡ as4_aggregator_octets side.as4 aggregator }
{
    match aggregator {
        Some(aggregator) if !side.as4 && needs_four_octets(aggregator.as_number) => {
            Some(AttrValue::Aggregator(true, aggregator))
        }
        _ => None,
    }
}
