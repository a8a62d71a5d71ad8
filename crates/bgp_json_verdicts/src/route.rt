//! The object of a route.

ghost use Rattle.std.specs.Prelude.{◌≡◌, codes, map, true};
ghost use Rattle.json.specs.Json.{boolean};
ghost use Rattle.json.specs.Tree.{json_tokens};
ghost use Rattle.bgp_json_values.specs.Adding.{Adds};
ghost use Rattle.bgp_json_values.specs.Objects.{members_tokens, number_of, values_tokens};
ghost use Rattle.bgp_json_values.specs.RoutesJson.{hop_addresses, hop_json};
ghost use Rattle.bgp_json_values.specs.Texts.{address_json};
ghost use Rattle.bgp_json_verdicts.specs.At.{number_members};
ghost use Rattle.bgp_json_verdicts.specs.RouteJson.{aggregator_json, aggregator_members};
ghost use Rattle.bgp_json_verdicts.specs.RouteJson.{community_json, community_members};
ghost use Rattle.bgp_json_verdicts.specs.RouteJson.{destination_members, extended_json};
ghost use Rattle.bgp_json_verdicts.specs.RouteJson.{kind_values, large_json, list_members};
ghost use Rattle.bgp_json_verdicts.specs.RouteJson.{mandatory_members, member_if, origin_text};
ghost use Rattle.bgp_json_verdicts.specs.RouteJson.{path_members, path_values};
ghost use Rattle.bgp_json_verdicts.specs.RouteJson.{reflection_members, route_members};
ghost use Rattle.bgp_json_verdicts.specs.RouteJson.{router_json, router_members, single_members};

use crate::at::put_number_if;
use bgp_json_values::{Writer, put_address, put_number, put_octets, put_prefix, put_truth};
use bgp_path::{Aggregator, LargeCommunity, NextHop, Origin, Path, Segment, SegmentKind};
use bgp_prefix::Address;
use bgp_tool::put_text;
use bgp_update::{Destination, PathId};
use std::alloc::{AllocError, Allocator};

/// Puts an IPv4 address.
fn put_router<A: Allocator + Copy>(
    writer: &mut Writer<A>,
    alloc: A,
    number: u32,
) -> Result<(), AllocError>
    ensures { Adds result writer.old writer.new (json_tokens (router_json number)) }
{
    put_address(writer, alloc, Address::V4(number))
}

/// Puts the addresses of a next hop.
fn put_hop_addresses<A: Allocator + Copy>(
    writer: &mut Writer<A>,
    alloc: A,
    next_hop: NextHop,
) -> Result<(), AllocError>
    ensures { Adds result writer.old writer.new
        (values_tokens (map address_json (hop_addresses next_hop))) }
{
    match next_hop {
        NextHop::V4(number) => put_router(writer, alloc, number),
        NextHop::V6(number) => put_address(writer, alloc, Address::V6(number)),
        NextHop::V6WithLinkLocal(number, link_local) => {
            put_address(writer, alloc, Address::V6(number))?;
            put_address(writer, alloc, Address::V6(link_local))
        }
    }
}

/// Puts a next hop.
fn put_hop<A: Allocator + Copy>(
    writer: &mut Writer<A>,
    alloc: A,
    next_hop: NextHop,
) -> Result<(), AllocError>
    ensures { Adds result writer.old writer.new (json_tokens (hop_json next_hop)) }
{
    writer.begin_array()?;
    put_hop_addresses(writer, alloc, next_hop)?;
    writer.end_array()
}

/// Puts numbers.
fn put_numbers<A: Allocator>(writer: &mut Writer<A>, numbers: &[u32]) -> Result<(), AllocError>
    ensures { Adds result writer.old writer.new
        (values_tokens (map number_of numbers.now)) }
{
    for number in numbers {
        writer.u64(u64::from(*number))?;
    }
    Ok(())
}

/// Puts a segment: the numbers of a sequence, or a set as one array.
fn put_segment<A: Allocator, B: Allocator>(
    writer: &mut Writer<A>,
    segment: &Segment<B>,
) -> Result<(), AllocError>
    ensures { Adds result writer.old writer.new
        (values_tokens (kind_values segment.now.kind segment.now.numbers)) }
{
    match segment.kind() {
        SegmentKind::Sequence => put_numbers(writer, segment.numbers()),
        SegmentKind::Set => {
            writer.begin_array()?;
            put_numbers(writer, segment.numbers())?;
            writer.end_array()
        }
    }
}

/// Puts the segments of an AS path.
fn put_segments<A: Allocator, B: Allocator>(
    writer: &mut Writer<A>,
    segments: &[Segment<B>],
) -> Result<(), AllocError>
    ensures { Adds result writer.old writer.new (values_tokens (path_values segments.now)) }
{
    for segment in segments {
        put_segment(writer, segment)?;
    }
    Ok(())
}

/// Returns the name of an origin.
fn origin_text(origin: Origin) -> &'static str
    ensures { result.now ≡ origin_text origin }
{
    match origin {
        Origin::Igp => "IGP",
        Origin::Egp => "EGP",
        Origin::Incomplete => "INCOMPLETE",
    }
}

/// Puts what each route has.
fn put_mandatory<A: Allocator + Copy, B: Allocator>(
    writer: &mut Writer<A>,
    alloc: A,
    path: &Path<B>,
) -> Result<(), AllocError>
    ensures { Adds result writer.old writer.new (members_tokens (mandatory_members path.now)) }
{
    let parts = path.parts();
    writer.key("next_hop")?;
    put_hop(writer, alloc, parts.next_hop)?;
    writer.key("path")?;
    writer.begin_array()?;
    put_segments(writer, parts.as_path.segments())?;
    writer.end_array()?;
    put_text(writer, "origin", origin_text(parts.origin))
}

/// Returns a number in 64 bits, if there is one.
fn wide(number: Option<u32>) -> Option<u64>
    ensures { result ≡ number }
{
    match number {
        None => None,
        Some(number) => Some(u64::from(number)),
    }
}

/// Puts a truth value, if it is true.
fn put_if<A: Allocator>(writer: &mut Writer<A>, is_so: bool, key: &str) -> Result<(), AllocError>
    ensures { Adds result writer.old writer.new
        (members_tokens (member_if is_so key.now (boolean true))) }
{
    if is_so {
        put_truth(writer, key, true)
    } else {
        Ok(())
    }
}

/// Puts an aggregator.
fn put_aggregator_object<A: Allocator + Copy>(
    writer: &mut Writer<A>,
    alloc: A,
    aggregator: Aggregator,
) -> Result<(), AllocError>
    ensures { Adds result writer.old writer.new (json_tokens (aggregator_json aggregator)) }
{
    writer.begin_object()?;
    put_number(writer, "as", u64::from(aggregator.as_number))?;
    writer.key("address")?;
    put_router(writer, alloc, aggregator.address)?;
    writer.end_object()
}

/// Puts an aggregator, if there is one.
fn put_aggregator<A: Allocator + Copy>(
    writer: &mut Writer<A>,
    alloc: A,
    aggregator: Option<Aggregator>,
) -> Result<(), AllocError>
    ensures { Adds result writer.old writer.new
        (members_tokens (aggregator_members aggregator)) }
{
    match aggregator {
        None => Ok(()),
        Some(aggregator) => {
            writer.key("aggregator")?;
            put_aggregator_object(writer, alloc, aggregator)
        }
    }
}

/// Puts numbers and truth values that a route may have.
fn put_single<A: Allocator + Copy, B: Allocator>(
    writer: &mut Writer<A>,
    alloc: A,
    path: &Path<B>,
) -> Result<(), AllocError>
    ensures { Adds result writer.old writer.new (members_tokens (single_members path.now)) }
{
    let parts = path.parts();
    put_number_if(writer, "med", wide(parts.multi_exit_disc))?;
    put_number_if(writer, "pref", wide(parts.local_pref))?;
    put_if(writer, parts.atomic_aggregate, "atomic")?;
    put_aggregator(writer, alloc, parts.aggregator)
}

/// Puts a community: its two halves.
fn put_community<A: Allocator + Copy>(
    writer: &mut Writer<A>,
    alloc: A,
    value: u32,
) -> Result<(), AllocError>
    ensures { Adds result writer.old writer.new (json_tokens (community_json value)) }
{
    let (high, low) = (value / 65536, value % 65536);
    let text = format!(in alloc; "{high}:{low}")?;
    writer.string(text.as_str())
}

/// Puts the values of COMMUNITIES.
fn put_community_values<A: Allocator + Copy>(
    writer: &mut Writer<A>,
    alloc: A,
    values: &[u32],
) -> Result<(), AllocError>
    ensures { Adds result writer.old writer.new (values_tokens (map community_json values.now)) }
{
    for value in values {
        put_community(writer, alloc, *value)?;
    }
    Ok(())
}

/// Puts COMMUNITIES, if there are some.
fn put_communities<A: Allocator + Copy>(
    writer: &mut Writer<A>,
    alloc: A,
    values: &[u32],
) -> Result<(), AllocError>
    ensures { Adds result writer.old writer.new
        (members_tokens (list_members (codes "communities") community_json values.now)) }
{
    if values.is_empty() {
        return Ok(());
    }
    writer.key("communities")?;
    writer.begin_array()?;
    put_community_values(writer, alloc, values)?;
    writer.end_array()
}

/// Puts the values of EXTENDED COMMUNITIES.
fn put_extended_values<A: Allocator + Copy>(
    writer: &mut Writer<A>,
    alloc: A,
    values: &[u64],
) -> Result<(), AllocError>
    ensures { Adds result writer.old writer.new (values_tokens (map extended_json values.now)) }
{
    for value in values {
        put_octets(writer, alloc, &value.to_be_bytes())?;
    }
    Ok(())
}

/// Puts EXTENDED COMMUNITIES, if there are some.
fn put_extended<A: Allocator + Copy>(
    writer: &mut Writer<A>,
    alloc: A,
    values: &[u64],
) -> Result<(), AllocError>
    ensures { Adds result writer.old writer.new
        (members_tokens (list_members (codes "extended") extended_json values.now)) }
{
    if values.is_empty() {
        return Ok(());
    }
    writer.key("extended")?;
    writer.begin_array()?;
    put_extended_values(writer, alloc, values)?;
    writer.end_array()
}

/// Puts a large community: its three numbers.
fn put_large_community<A: Allocator + Copy>(
    writer: &mut Writer<A>,
    alloc: A,
    value: LargeCommunity,
) -> Result<(), AllocError>
    ensures { Adds result writer.old writer.new (json_tokens (large_json value)) }
{
    let first = value.global_administrator;
    let second = value.local_data_part_1;
    let third = value.local_data_part_2;
    let text = format!(in alloc; "{first}:{second}:{third}")?;
    writer.string(text.as_str())
}

/// Puts the values of LARGE_COMMUNITY.
fn put_large_values<A: Allocator + Copy>(
    writer: &mut Writer<A>,
    alloc: A,
    values: &[LargeCommunity],
) -> Result<(), AllocError>
    ensures { Adds result writer.old writer.new (values_tokens (map large_json values.now)) }
{
    for value in values {
        put_large_community(writer, alloc, *value)?;
    }
    Ok(())
}

/// Puts LARGE_COMMUNITY, if there are some.
fn put_large<A: Allocator + Copy>(
    writer: &mut Writer<A>,
    alloc: A,
    values: &[LargeCommunity],
) -> Result<(), AllocError>
    ensures { Adds result writer.old writer.new
        (members_tokens (list_members (codes "large") large_json values.now)) }
{
    if values.is_empty() {
        return Ok(());
    }
    writer.key("large")?;
    writer.begin_array()?;
    put_large_values(writer, alloc, values)?;
    writer.end_array()
}

/// Puts the communities of a route.
fn put_all_communities<A: Allocator + Copy, B: Allocator>(
    writer: &mut Writer<A>,
    alloc: A,
    path: &Path<B>,
) -> Result<(), AllocError>
    ensures { Adds result writer.old writer.new (members_tokens (community_members path.now)) }
{
    let parts = path.parts();
    put_communities(writer, alloc, parts.communities.as_slice())?;
    put_extended(writer, alloc, parts.extended_communities.as_slice())?;
    put_large(writer, alloc, parts.large_communities.as_slice())
}

/// Puts an originator, if there is one.
fn put_originator<A: Allocator + Copy>(
    writer: &mut Writer<A>,
    alloc: A,
    originator: Option<u32>,
) -> Result<(), AllocError>
    ensures { Adds result writer.old writer.new
        (members_tokens (router_members (codes "originator") originator)) }
{
    match originator {
        None => Ok(()),
        Some(number) => {
            writer.key("originator")?;
            put_router(writer, alloc, number)
        }
    }
}

/// Puts the values of CLUSTER_LIST.
fn put_cluster_values<A: Allocator + Copy>(
    writer: &mut Writer<A>,
    alloc: A,
    values: &[u32],
) -> Result<(), AllocError>
    ensures { Adds result writer.old writer.new (values_tokens (map router_json values.now)) }
{
    for value in values {
        put_router(writer, alloc, *value)?;
    }
    Ok(())
}

/// Puts CLUSTER_LIST, if it has clusters.
fn put_clusters<A: Allocator + Copy>(
    writer: &mut Writer<A>,
    alloc: A,
    values: &[u32],
) -> Result<(), AllocError>
    ensures { Adds result writer.old writer.new
        (members_tokens (list_members (codes "clusters") router_json values.now)) }
{
    if values.is_empty() {
        return Ok(());
    }
    writer.key("clusters")?;
    writer.begin_array()?;
    put_cluster_values(writer, alloc, values)?;
    writer.end_array()
}

/// Puts what a route reflector adds.
fn put_reflection<A: Allocator + Copy, B: Allocator>(
    writer: &mut Writer<A>,
    alloc: A,
    path: &Path<B>,
) -> Result<(), AllocError>
    ensures { Adds result writer.old writer.new (members_tokens (reflection_members path.now)) }
{
    let parts = path.parts();
    put_originator(writer, alloc, parts.originator_id)?;
    put_clusters(writer, alloc, parts.cluster_list.as_slice())
}

/// Puts what the path attributes of a route say.
fn put_path<A: Allocator + Copy, B: Allocator>(
    writer: &mut Writer<A>,
    alloc: A,
    path: &Path<B>,
) -> Result<(), AllocError>
    ensures { Adds result writer.old writer.new (members_tokens (path_members path.now)) }
{
    put_mandatory(writer, alloc, path)?;
    put_single(writer, alloc, path)?;
    put_all_communities(writer, alloc, path)?;
    put_reflection(writer, alloc, path)
}

/// Puts which of the paths to a prefix it is, if it is identified.
fn put_path_id<A: Allocator>(writer: &mut Writer<A>, path: Option<PathId>) -> Result<(), AllocError>
    ensures { Adds result writer.old writer.new
        (members_tokens (number_members (codes "path_id") path)) }
{
    match path {
        None => Ok(()),
        Some(id) => put_number(writer, "path_id", u64::from(id.number())),
    }
}

/// Puts a destination.
fn put_destination<A: Allocator + Copy>(
    writer: &mut Writer<A>,
    alloc: A,
    destination: Destination,
) -> Result<(), AllocError>
    ensures { Adds result writer.old writer.new
        (members_tokens (destination_members destination)) }
{
    writer.key("prefix")?;
    put_prefix(writer, alloc, destination.prefix)?;
    put_path_id(writer, destination.path)
}

/// Puts the members of a route.
pub fn put_route<A: Allocator + Copy, B: Allocator>(
    writer: &mut Writer<A>,
    alloc: A,
    destination: Destination,
    path: &Path<B>,
) -> Result<(), AllocError>
    ensures { Adds result writer.old writer.new
        (members_tokens (route_members destination path.now)) }
{
    put_destination(writer, alloc, destination)?;
    put_path(writer, alloc, path)
}
