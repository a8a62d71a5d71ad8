//! The two attributes that have routes of other families (RFC 4760, 3 and 4).

ghost use Rattle.std.specs.Prelude.{◌≡◌, false, map, option_map, true};
ghost use Rattle.json.specs.Tree.{json_tokens};
ghost use Rattle.bgp_open.specs.Offer.{afi_of};
ghost use Rattle.bgp_values.specs.RoutesValue.{routes_value_of};
ghost use Rattle.bgp_json_values.specs.Adding.{Adds};
ghost use Rattle.bgp_json_values.specs.Objects.{members_tokens, values_tokens};
ghost use Rattle.bgp_json_values.specs.Octets.{value_members, value_or_octets};
ghost use Rattle.bgp_json_values.specs.RoutesJson.{hop_addresses, hop_json, hop_members};
ghost use Rattle.bgp_json_values.specs.RoutesJson.{other_json, path_ids_members, routes_json};
ghost use Rattle.bgp_json_values.specs.RoutesJson.{spelled_other, spelled_routes};
ghost use Rattle.bgp_json_values.specs.RoutesJson.{spelled_unicast, unicast_json};
ghost use Rattle.bgp_json_values.specs.Texts.{address_json};
ghost use Rattle.bgp_json_values.specs.Unicast.{json_of, spelled_by};

use crate::destinations::{listed, put_destinations, put_path_ids, put_spelled};
use crate::items::put_family;
use crate::octets::{put_octets_member, put_unless};
use crate::spelled_routes::{after_head, is_spelled_other, is_spelled_unicast};
use crate::texts::{put_address, put_octets};
use bgp_open::RouteForm;
use bgp_path::NextHop;
use bgp_prefix::{Address, Family};
use bgp_values::{Destination, Destinations, RoutesValue};
use json_writer::Writer;
use std::alloc::{AllocError, Allocator};

/// Unicast routes in JSON: what their destinations are called, whether path identifiers belong to
/// them, and what they are.
#[derive(Clone, Copy)]
struct Unicast<'a> {
    name: &'static str,
    identified: bool,
    family: Family,
    next_hop: Option<NextHop>,
    destinations: &'a [Destination],
}

/// Returns the Address Family Identifier of a family.
pub(crate) fn afi_of(family: Family) -> u16
    ensures { result ≡ afi_of family }
{
    match family {
        Family::V4 => 1,
        Family::V6 => 2,
    }
}

/// Puts the addresses of a next hop, one or two.
fn put_hop_addresses<A: Allocator + Copy>(
    writer: &mut Writer<A>,
    alloc: A,
    hop: NextHop,
) -> Result<(), AllocError>
    ensures { Adds result writer.old writer.new
        (values_tokens (map address_json (hop_addresses hop))) }
{
    match hop {
        NextHop::V4(address) => put_address(writer, alloc, Address::V4(address)),
        NextHop::V6(address) => put_address(writer, alloc, Address::V6(address)),
        NextHop::V6WithLinkLocal(address, link_local) => {
            put_address(writer, alloc, Address::V6(address))?;
            put_address(writer, alloc, Address::V6(link_local))
        }
    }
}

/// Puts a next hop, as an array.
fn put_hop<A: Allocator + Copy>(
    writer: &mut Writer<A>,
    alloc: A,
    hop: NextHop,
) -> Result<(), AllocError>
    ensures { Adds result writer.old writer.new (json_tokens (hop_json hop)) }
{
    writer.begin_array()?;
    put_hop_addresses(writer, alloc, hop)?;
    writer.end_array()
}

/// Puts the member that a next hop is, if there is one.
fn put_hop_member<A: Allocator + Copy>(
    writer: &mut Writer<A>,
    alloc: A,
    hop: Option<NextHop>,
) -> Result<(), AllocError>
    ensures { Adds result writer.old writer.new (members_tokens (hop_members hop)) }
{
    match hop {
        None => Ok(()),
        Some(hop) => {
            writer.key("next_hop")?;
            put_hop(writer, alloc, hop)
        }
    }
}

/// Puts the member that path identifiers are, if there are any.
fn put_ids_member<A: Allocator>(
    writer: &mut Writer<A>,
    identified: bool,
    destinations: &[Destination],
) -> Result<(), AllocError>
    ensures { Adds result writer.old writer.new
        (members_tokens (path_ids_members identified destinations.now)) }
{
    if identified {
        writer.key("paths")?;
        put_path_ids(writer, destinations)
    } else {
        Ok(())
    }
}

/// Puts unicast routes.
fn put_unicast<A: Allocator + Copy>(
    writer: &mut Writer<A>,
    alloc: A,
    routes: Unicast<'_>,
) -> Result<(), AllocError>
    ensures { Adds result writer.old writer.new (json_tokens (json_of routes.entry)) }
{
    writer.begin_object()?;
    put_family(writer, afi_of(routes.family), 1)?;
    put_hop_member(writer, alloc, routes.next_hop)?;
    writer.key(routes.name)?;
    put_destinations(writer, alloc, routes.destinations)?;
    put_ids_member(writer, routes.identified, routes.destinations)?;
    writer.end_object()
}

/// Puts octets of another family.
fn put_other<A: Allocator + Copy>(
    writer: &mut Writer<A>,
    alloc: A,
    afi: u16,
    safi: u8,
    octets: &[u8],
) -> Result<(), AllocError>
    ensures { Adds result writer.old writer.new
        (json_tokens (other_json afi safi octets.now)) }
{
    writer.begin_object()?;
    put_family(writer, afi, u16::from(safi))?;
    writer.key("rest")?;
    put_octets(writer, alloc, octets)?;
    writer.end_object()
}

/// Puts unicast routes as the value of these octets, and the octets if it doesn't spell them.
fn put_unicast_members<A: Allocator + Copy>(
    writer: &mut Writer<A>,
    alloc: A,
    octets: &[u8],
    routes: Unicast<'_>,
) -> Result<(), AllocError>
    ensures { Adds result writer.old writer.new (members_tokens
        (value_members (json_of routes.entry) (spelled_by routes.entry) octets.now)) }
{
    let is_spelled = is_spelled_unicast(
        octets,
        routes.family,
        routes.next_hop,
        routes.destinations,
    );
    writer.key("value")?;
    put_unicast(writer, alloc, routes)?;
    put_unless(writer, alloc, is_spelled, octets)
}

/// Puts unicast routes without path identifiers as the value of these octets, and the octets if it
/// doesn't spell them.
#[inline(always)]
fn put_plain_unicast<A: Allocator + Copy>(
    writer: &mut Writer<A>,
    alloc: A,
    octets: &[u8],
    name: &'static str,
    family: Family,
    next_hop: Option<NextHop>,
    destinations: Destinations<'_>,
) -> Result<(), AllocError>
    ensures { Adds result writer.old writer.new (members_tokens (value_members
        (unicast_json name.now false family next_hop destinations.entry)
        (spelled_unicast family next_hop destinations.entry) octets.now)) }
{
    let behind = after_head(family, next_hop, octets);
    writer.key("value")?;
    writer.begin_object()?;
    put_family(writer, afi_of(family), 1)?;
    put_hop_member(writer, alloc, next_hop)?;
    writer.key(name)?;
    let is_spelled = put_spelled(writer, alloc, destinations, behind)?;
    writer.end_object()?;
    put_unless(writer, alloc, is_spelled, octets)
}

/// Puts unicast routes with path identifiers as the value of these octets, and the octets if it
/// doesn't spell them.
#[inline(never)]
fn put_identified<A: Allocator + Copy>(
    writer: &mut Writer<A>,
    alloc: A,
    octets: &[u8],
    name: &'static str,
    family: Family,
    next_hop: Option<NextHop>,
    destinations: Destinations<'_>,
) -> Result<(), AllocError>
    ensures { Adds result writer.old writer.new (members_tokens (value_members
        (unicast_json name.now true family next_hop destinations.entry)
        (spelled_unicast family next_hop destinations.entry) octets.now)) }
{
    let destinations = listed(alloc, destinations)?;
    let routes = Unicast {
        name,
        identified: true,
        family,
        next_hop,
        destinations: destinations.as_slice(),
    };
    put_unicast_members(writer, alloc, octets, routes)
}

/// Puts unicast routes as the value of these octets, and the octets if it doesn't spell them.
#[inline(always)]
fn put_listed<A: Allocator + Copy>(
    writer: &mut Writer<A>,
    alloc: A,
    octets: &[u8],
    name: &'static str,
    identified: bool,
    family: Family,
    next_hop: Option<NextHop>,
    destinations: Destinations<'_>,
) -> Result<(), AllocError>
    ensures { Adds result writer.old writer.new (members_tokens (value_members
        (unicast_json name.now identified family next_hop destinations.entry)
        (spelled_unicast family next_hop destinations.entry) octets.now)) }
{
    if identified {
        put_identified(writer, alloc, octets, name, family, next_hop, destinations)
    } else {
        put_plain_unicast(writer, alloc, octets, name, family, next_hop, destinations)
    }
}

/// Puts octets of another family as the value of these octets, and the octets if it doesn't spell
/// them.
fn put_other_members<A: Allocator + Copy>(
    writer: &mut Writer<A>,
    alloc: A,
    octets: &[u8],
    afi: u16,
    safi: u8,
    rest: &[u8],
) -> Result<(), AllocError>
    ensures { Adds result writer.old writer.new (members_tokens (value_members
        (other_json afi safi rest.now) (spelled_other afi safi rest.now) octets.now)) }
{
    let is_spelled = is_spelled_other(octets, afi, safi, rest);
    writer.key("value")?;
    put_other(writer, alloc, afi, safi, rest)?;
    put_unless(writer, alloc, is_spelled, octets)
}

/// Puts what octets say of routes that are spelled in this form, with their destinations by this
/// name, or the octets: both if the octets aren't those of the value.
#[inline(always)]
pub(crate) fn put_routes<A: Allocator + Copy>(
    writer: &mut Writer<A>,
    alloc: A,
    name: &'static str,
    form: RouteForm,
    octets: &[u8],
    value: Option<RoutesValue<'_>>,
) -> Result<(), AllocError>
    ensures { Adds result writer.old writer.new (members_tokens (value_or_octets
        (routes_json name.now form) spelled_routes (option_map routes_value_of value.entry)
        octets.now)) }
{
    match value {
        None => put_octets_member(writer, alloc, octets),
        Some(
            RoutesValue::Other {
                afi,
                safi,
                octets: rest,
            },
        ) => put_other_members(writer, alloc, octets, afi, safi, rest),
        Some(
            RoutesValue::Unicast {
                family,
                next_hop,
                destinations,
            },
        ) => {
            let identified = form.identified.contains(family);
            put_listed(
                writer,
                alloc,
                octets,
                name,
                identified,
                family,
                next_hop,
                destinations,
            )
        }
    }
}
