//! The path that attributes say: of each type what the first attribute says, if it is of class Good
//! (RFC 4271, 5; RFC 6793, 4.2.3).

ghost use Rattle.std.specs.Prelude.{◌≡◌, ◌≤◌, ◌+◌, ℕ, List, [], true, length, IfOk, option_map};
ghost use Rattle.std.specs.Option.{option_map_or};
ghost use Rattle.byteorder.specs.Endian.{big_number};
ghost use Rattle.bgp_path.specs.Path.{value_of};
ghost use Rattle.bgp_attr.specs.Class.{as_width, strongest, value_rows};
ghost use Rattle.bgp_attr.specs.declared.classes.AttrVerdict.TheVariants.{Good};
ghost use Rattle.bgp_attr.specs.declared.types.AttrType.TheVariants as types;
ghost use Rattle.bgp_attr.specs.First.{first_at, value_by_type};
ghost use Rattle.bgp_attr.specs.LargeCommunities.{large_communities_from};
ghost use Rattle.bgp_attr.specs.Numbers.{items_from};
ghost use Rattle.bgp_attr.specs.PathFrom.{aggregator_in, is_as4_old, merged_aggregator};
ghost use Rattle.bgp_attr.specs.PathFrom.{merged_path, origin_from, path_from};
ghost use Rattle.bgp_attr.specs.PathIn.{path_in};
ghost use Rattle.bgp_attr.specs.Segments.{are_segments, number_width};

use crate::classes::Side;
use crate::first::FirstAttrs;
use crate::large_communities::read_large_communities;
use crate::numbers::{read_u32s, read_u64s, u32_numbers};
use crate::segments::{number_len, read_as_path};
use crate::types::AttrType;
use bgp_path::{
    Aggregator, AsPath, Items, LargeCommunity, NextHop, Numbers, Origin, Path, PathParts, merge,
};
use bgp_wire::AS_TRANS;
use byteorder::{BigEndian, ByteOrder};
use std::alloc::{AllocError, Allocator};

/// The path that these attributes say, with this next hop: an UPDATE with prefixes of two families
/// has two paths, of the same attributes. It is `Err` only where memory is refused.
pub fn read_path<A: Allocator + Copy>(
    alloc: A,
    side: Side,
    first: &FirstAttrs<'_>,
    next_hop: NextHop,
) -> Result<Path<A>, AllocError>
    ensures path { IfOk result
        (λ path. path ≡ path_from side (value_by_type side (first_at first.now)) next_hop) }
{
    let parts = read_parts(alloc, side, first, next_hop)?;
    Path::new(alloc, parts)
}

/// The parts of that path.
fn read_parts<A: Allocator + Copy>(
    alloc: A,
    side: Side,
    first: &FirstAttrs<'_>,
    next_hop: NextHop,
) -> Result<PathParts<A>, AllocError>
    ensures parts { IfOk result
        (λ parts. value_of parts
        ≡ path_from side (value_by_type side (first_at first.now)) next_hop) }
{
    let plain = aggregator(side, first, AttrType::Aggregator, side.as4);
    let as4 = aggregator(side, first, AttrType::As4Aggregator, true);
    let Lists {
        as_path,
        communities,
        cluster_list,
        extended_communities,
        large_communities,
    } = read_lists(alloc, side, first, is_as4_old(plain, as4))?;
    Ok(PathParts {
        origin: origin(side, first),
        as_path,
        next_hop,
        multi_exit_disc: number(side, first, AttrType::MultiExitDisc),
        local_pref: number(side, first, AttrType::LocalPref),
        atomic_aggregate: first.good(side, AttrType::AtomicAggregate).is_some(),
        aggregator: merged_aggregator(plain, as4),
        communities,
        originator_id: number(side, first, AttrType::OriginatorId),
        cluster_list,
        extended_communities,
        large_communities,
    })
}

/// The lists of a path.
struct Lists<A: Allocator> {
    as_path: AsPath<A>,
    communities: Numbers<A>,
    cluster_list: Items<u32, A>,
    extended_communities: Items<u64, A>,
    large_communities: Items<LargeCommunity, A>,
}

/// The lists of that path, whose AS4_PATH is old or isn't.
fn read_lists<A: Allocator + Copy>(
    alloc: A,
    side: Side,
    first: &FirstAttrs<'_>,
    is_old: bool,
) -> Result<Lists<A>, AllocError>
    ensures { IfOk result (λ lists. (lists.as_path ≡ merged_path is_old
        (option_map_or (path_in (as_width side))
        (value_by_type side (first_at first.now) types.AsPath) [])
        (option_map (path_in 4) (value_by_type side (first_at first.now) types.As4Path)))
        × (lists.communities
        ≡ items_from 4 (value_by_type side (first_at first.now) types.Communities))
        × (lists.cluster_list
        ≡ items_from 4 (value_by_type side (first_at first.now) types.ClusterList))
        × (lists.extended_communities
        ≡ items_from 8 (value_by_type side (first_at first.now) types.ExtendedCommunities))
        × (lists.large_communities ≡ large_communities_from
        (value_by_type side (first_at first.now) types.LargeCommunities))) }
{
    Ok(Lists {
        as_path: read_merged_path(alloc, side, first, is_old)?,
        communities: read_communities(alloc, side, first)?,
        cluster_list: read_cluster_list(alloc, side, first)?,
        extended_communities: read_long_items(alloc, side, first)?,
        large_communities: read_large_items(alloc, side, first)?,
    })
}

/// ORIGIN; IGP where there is none.
fn origin(side: Side, first: &FirstAttrs<'_>) -> Origin
    ensures { result ≡ origin_from (value_by_type side (first_at first.now) types.Origin) }
{
    match first.good(side, AttrType::Origin) {
        None => Origin::Igp,
        Some(attr) => match attr.value[0] {
            0 => Origin::Igp,
            1 => Origin::Egp,
            _ => Origin::Incomplete,
        },
    }
}

/// The number of four octets that an attribute of this type says.
fn number(side: Side, first: &FirstAttrs<'_>, attr_type: AttrType) -> Option<u32>
    requires { (v : List ℕ) → strongest (value_rows side attr_type v) ≡ Good → length v ≡ 4 }
    ensures { result
        ≡ option_map (big_number 4) (value_by_type side (first_at first.now) attr_type) }
{
    let attr = first.good(side, attr_type)?;
    Some(BigEndian::read_u32(attr.value))
}

/// The aggregator that an attribute of this type says, its AS number of two octets or of four.
fn aggregator(
    side: Side,
    first: &FirstAttrs<'_>,
    attr_type: AttrType,
    as4: bool,
) -> Option<Aggregator>
    requires { (v : List ℕ) → strongest (value_rows side attr_type v) ≡ Good
        → length v ≡ number_width as4 + 4 }
    ensures { result ≡ option_map (aggregator_in (number_width as4))
        (value_by_type side (first_at first.now) attr_type) }
{
    let attr = first.good(side, attr_type)?;
    let (number, address) = attr.value.split_at(number_len(as4));
    Some(Aggregator {
        as_number: as_number(as4, number),
        address: BigEndian::read_u32(address),
    })
}

/// An AS number in two octets, or in four.
fn as_number(as4: bool, octets: &[u8]) -> u32
    requires { number_width as4 ≤ length octets.now }
    ensures { result ≡ big_number (number_width as4) octets.now }
{
    if as4 {
        return BigEndian::read_u32(octets);
    }
    u32::from(BigEndian::read_u16(octets))
}

/// Whether AS4_PATH and AS4_AGGREGATOR are old: a speaker of two-octet AS numbers changed
/// AGGREGATOR, which isn't of AS_TRANS then (RFC 6793, 4.2.3).
fn is_as4_old(aggregator: Option<Aggregator>, as4: Option<Aggregator>) -> bool
    ensures { result ≡ is_as4_old aggregator as4 }
{
    match (aggregator, as4) {
        (Some(aggregator), Some(_)) => aggregator.as_number != u32::from(AS_TRANS),
        _ => false,
    }
}

/// AS4_AGGREGATOR in AGGREGATOR's place, unless it is old or alone (RFC 6793, 4.2.3).
fn merged_aggregator(aggregator: Option<Aggregator>, as4: Option<Aggregator>) -> Option<Aggregator>
    ensures { result ≡ merged_aggregator aggregator as4 }
{
    if is_as4_old(aggregator, as4) {
        return aggregator;
    }
    match (aggregator, as4) {
        (Some(_), Some(as4)) => Some(as4),
        _ => aggregator,
    }
}

/// AS_PATH, with AS4_PATH merged into it unless that is old (RFC 6793, 4.2.3).
fn read_merged_path<A: Allocator + Copy>(
    alloc: A,
    side: Side,
    first: &FirstAttrs<'_>,
    is_old: bool,
) -> Result<AsPath<A>, AllocError>
    ensures { IfOk result (λ path. path ≡ merged_path is_old
        (option_map_or (path_in (as_width side))
        (value_by_type side (first_at first.now) types.AsPath) [])
        (option_map (path_in 4) (value_by_type side (first_at first.now) types.As4Path))) }
{
    let path = read_plain_path(alloc, side, first)?;
    if is_old {
        return Ok(path);
    }
    let Some(as4) = read_path_of(alloc, side, first, AttrType::As4Path, true)? else {
        return Ok(path);
    };
    merge(alloc, &path, &as4)
}

/// AS_PATH; without segments where there is none.
fn read_plain_path<A: Allocator + Copy>(
    alloc: A,
    side: Side,
    first: &FirstAttrs<'_>,
) -> Result<AsPath<A>, AllocError>
    ensures { IfOk result (λ path. path ≡ option_map_or (path_in (as_width side))
        (value_by_type side (first_at first.now) types.AsPath) []) }
{
    match read_path_of(alloc, side, first, AttrType::AsPath, side.as4)? {
        Some(path) => Ok(path),
        None => Ok(AsPath::new(alloc)),
    }
}

/// The AS path that an attribute of this type says.
#[inline(always)]
fn read_path_of<A: Allocator + Copy>(
    alloc: A,
    side: Side,
    first: &FirstAttrs<'_>,
    attr_type: AttrType,
    as4: bool,
) -> Result<Option<AsPath<A>>, AllocError>
    requires { (v : List ℕ) → strongest (value_rows side attr_type v) ≡ Good
        → are_segments 4 (number_width as4) v ≡ true }
    ensures { IfOk result (λ path. path ≡ option_map (path_in (number_width as4))
        (value_by_type side (first_at first.now) attr_type)) }
{
    let Some(attr) = first.good(side, attr_type) else {
        return Ok(None);
    };
    Ok(Some(read_as_path(alloc, as4, attr.value)?))
}

/// COMMUNITIES: numbers of four octets.
fn read_communities<A: Allocator>(
    alloc: A,
    side: Side,
    first: &FirstAttrs<'_>,
) -> Result<Numbers<A>, AllocError>
    ensures { IfOk result (λ numbers. numbers
        ≡ items_from 4 (value_by_type side (first_at first.now) types.Communities)) }
{
    match first.good(side, AttrType::Communities) {
        Some(attr) => u32_numbers(alloc, attr.value),
        None => Ok(Numbers::new()),
    }
}

/// CLUSTER_LIST: numbers of four octets.
fn read_cluster_list<A: Allocator>(
    alloc: A,
    side: Side,
    first: &FirstAttrs<'_>,
) -> Result<Items<u32, A>, AllocError>
    ensures { IfOk result (λ items. items
        ≡ items_from 4 (value_by_type side (first_at first.now) types.ClusterList)) }
{
    match first.good(side, AttrType::ClusterList) {
        Some(attr) => Ok(Items::from(read_u32s(alloc, attr.value)?)),
        None => Ok(Items::new(alloc)),
    }
}

/// EXTENDED COMMUNITIES: numbers of eight octets.
fn read_long_items<A: Allocator>(
    alloc: A,
    side: Side,
    first: &FirstAttrs<'_>,
) -> Result<Items<u64, A>, AllocError>
    ensures { IfOk result (λ items.
        items ≡ items_from 8 (value_by_type side (first_at first.now) types.ExtendedCommunities)) }
{
    match first.good(side, AttrType::ExtendedCommunities) {
        Some(attr) => Ok(Items::from(read_u64s(alloc, attr.value)?)),
        None => Ok(Items::new(alloc)),
    }
}

/// LARGE_COMMUNITY: of equal large communities the first alone (RFC 8092, 3).
fn read_large_items<A: Allocator + Copy>(
    alloc: A,
    side: Side,
    first: &FirstAttrs<'_>,
) -> Result<Items<LargeCommunity, A>, AllocError>
    ensures { IfOk result (λ items. items ≡ large_communities_from
        (value_by_type side (first_at first.now) types.LargeCommunities)) }
{
    match first.good(side, AttrType::LargeCommunities) {
        Some(attr) => Ok(Items::from(read_large_communities(alloc, attr.value)?)),
        None => Ok(Items::new(alloc)),
    }
}
