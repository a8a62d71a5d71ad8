//! What an UPDATE changes if it is applied (RFC 4271, 3.1; RFC 7606, 2).

ghost use Rattle.std.specs.Prelude.{◌≡◌, ◌++◌, IfOk, OnOk, List};
ghost use Rattle.bgp_attr.specs.declared.types.AttrType.TheVariants as types;
ghost use Rattle.bgp_attr.specs.Field.{Attribute};
ghost use Rattle.bgp_attr.specs.First.{first_at, first_by_type, value_by_type};
ghost use Rattle.bgp_attr.specs.PathFrom.{next_hop_from, path_from};
ghost use Rattle.bgp_update.specs.Allowed.{changes_value, group_routes};
ghost use Rattle.bgp_update.specs.Changes.{
  AreChanges,
  announcements,
  base_destinations,
  hop_or,
  mp_hop,
  mp_destinations,
  destinations_among,
  routes_with,
  withdrawals,
};
ghost use Rattle.bgp_update.specs.Field.{field_destinations};
ghost use Rattle.bgp_update.specs.Found.{side_of};
ghost use Rattle.bgp_update.specs.Groups.{
  AreGroupsBy,
  group_if,
  group_with,
  groups_of,
};
ghost use Rattle.bgp_update.specs.Listed.{listed};
ghost use Rattle.bgp_update.specs.MpShown.{state_of};
ghost use Rattle.bgp_update.specs.Surveyed.{found_by};

use crate::destination::Destination;
use crate::destinations::DestinationField;
use crate::link_side::side;
use crate::mp::MpState;
use crate::outcomes::{Changes, Put};
use crate::survey::Survey;
use bgp_attr::{AttrType, FirstAttrs, NextHop, Side, read_path};
use bgp_open::{Family, Link};
use byteorder::{BigEndian, ByteOrder};
use std::alloc::{AllocError, Allocator};

/// Returns the changes of an UPDATE in which this was found.
pub(crate) fn changes_of<A: Allocator + Copy>(
    alloc: A,
    link: &Link,
    found: &Survey<'_>,
    first: &FirstAttrs<'_>,
) -> Result<Changes<A>, AllocError>
    ensures are { IfOk result (λ changes. (attributes : List Attribute)
        → first_at first.now ≡ first_by_type attributes
        → AreChanges (found_by found.now) (withdrawals link.now (found_by found.now))
        (announcements link.now (found_by found.now) attributes) (changes_value changes)) }
    ensures groups { IfOk result
        (λ changes. AreGroupsBy link.now (found_by found.now) (groups_of changes)) }
{
    let mut remove = Vec::new(alloc);
    push_withdrawn(&mut remove, link, found)?;
    if found.has_withdraw_fault() {
        // What would be announced is removed: "treat-as-withdraw" (RFC 7606, 2).
        push_announced(&mut remove, link, found)?;
        return Ok(Changes {
            remove,
            nlri: None,
            mp_reach_nlri: None,
        });
    }
    let nlri = base_group(alloc, link, found, first)?;
    let mp_reach_nlri = mp_group(alloc, link, found, first)?;
    Ok(Changes {
        remove,
        nlri,
        mp_reach_nlri,
    })
}

/// Appends the destinations that are withdrawn.
fn push_withdrawn<A: Allocator>(
    out: &mut Vec<Destination, A>,
    link: &Link,
    found: &Survey<'_>,
) -> Result<(), AllocError>
    ensures { OnOk result (out.new.items
        ≡ out.old.items ++ withdrawals link.now (found_by found.now)) }
{
    push_base_destinations(out, link, found.withdrawn)?;
    push_mp_destinations(out, &found.unreach.state)
}

/// Appends the destinations that are announced.
fn push_announced<A: Allocator>(
    out: &mut Vec<Destination, A>,
    link: &Link,
    found: &Survey<'_>,
) -> Result<(), AllocError>
    ensures { OnOk result ((attributes : List Attribute) → out.new.items ≡ out.old.items
        ++ destinations_among (announcements link.now (found_by found.now) attributes)) }
{
    push_base_destinations(out, link, found.nlri)?;
    push_mp_destinations(out, &found.reach.state)
}

/// Appends the destinations of a Withdrawn Routes or NLRI field if IPv4 is in use.
#[inline(always)]
fn push_base_destinations<A: Allocator>(
    out: &mut Vec<Destination, A>,
    link: &Link,
    field: DestinationField<'_>,
) -> Result<(), AllocError>
    ensures { OnOk result (out.new.items
        ≡ out.old.items ++ base_destinations link.now (field_destinations field.entry)) }
{
    if !link.families.contains(Family::V4) {
        return Ok(());
    }
    field.push_to(out)
}

/// Appends the destinations of an MP attribute of a family in use if its contents are right.
#[inline(always)]
fn push_mp_destinations<A: Allocator>(
    out: &mut Vec<Destination, A>,
    state: &MpState<'_>,
) -> Result<(), AllocError>
    ensures { OnOk result (out.new.items ≡ out.old.items ++ mp_destinations (state_of state.now)) }
{
    match state {
        MpState::Sound(_, contents) => contents.destinations.push_to(out),
        _ => Ok(()),
    }
}

/// Returns the routes of the NLRI field, with the next hop of NEXT_HOP.
fn base_group<A: Allocator + Copy>(
    alloc: A,
    link: &Link,
    found: &Survey<'_>,
    first: &FirstAttrs<'_>,
) -> Result<Option<Put<A>>, AllocError>
    ensures routes { IfOk result (λ group. group_routes group
        ≡ routes_with (path_from (side_of link.now)
        (value_by_type (side_of link.now) (first_at first.now))
        (next_hop_from (value_by_type (side_of link.now) (first_at first.now) types.NextHop)))
        (base_destinations link.now (field_destinations found.now.nlri))) }
    ensures groups { IfOk result (λ group. group_if group
        ≡ group_with (base_destinations link.now (field_destinations found.now.nlri))) }
{
    if !link.families.contains(Family::V4) {
        return Ok(None);
    }
    let side = side(link);
    let next_hop = base_hop(side, first);
    read_group(alloc, side, first, next_hop, found.nlri)
}

/// Returns the routes of MP_REACH_NLRI, with its own next hop.
fn mp_group<A: Allocator + Copy>(
    alloc: A,
    link: &Link,
    found: &Survey<'_>,
    first: &FirstAttrs<'_>,
) -> Result<Option<Put<A>>, AllocError>
    ensures routes { IfOk result (λ group. group_routes group
        ≡ routes_with (path_from (side_of link.now)
        (value_by_type (side_of link.now) (first_at first.now))
        (mp_hop (state_of found.now.reach.state)))
        (mp_destinations (state_of found.now.reach.state))) }
    ensures groups { IfOk result (λ group. group_if group
        ≡ group_with (mp_destinations (state_of found.now.reach.state))) }
{
    let MpState::Sound(_, contents) = found.reach.state else {
        return Ok(None);
    };
    let side = side(link);
    let next_hop = hop_or_none(contents.next_hop);
    read_group(alloc, side, first, next_hop, contents.destinations)
}

/// Returns the next hop that NEXT_HOP names.
fn base_hop(side: Side, first: &FirstAttrs<'_>) -> NextHop
    ensures { result ≡ next_hop_from (value_by_type side (first_at first.now) types.NextHop) }
{
    match first.good(side, AttrType::NextHop) {
        Some(attr) => NextHop::V4(BigEndian::read_u32(attr.value)),
        None => hop_or_none(None),
    }
}

/// Returns the next hop if there is one. If there is none, no route has what is returned.
fn hop_or_none(next_hop: Option<NextHop>) -> NextHop
    ensures { result ≡ hop_or next_hop }
{
    next_hop.unwrap_or(NextHop::V4(0))
}

/// Returns the routes of a field, or none if it has no destination: then no path is read.
fn read_group<A: Allocator + Copy>(
    alloc: A,
    side: Side,
    first: &FirstAttrs<'_>,
    next_hop: NextHop,
    field: DestinationField<'_>,
) -> Result<Option<Put<A>>, AllocError>
    ensures routes { IfOk result (λ group. group_routes group
        ≡ routes_with (path_from side (value_by_type side (first_at first.now)) next_hop)
        (listed (field_destinations field.entry))) }
    ensures groups { IfOk result
        (λ group. group_if group ≡ group_with (listed (field_destinations field.entry))) }
{
    let mut destinations = Vec::with_capacity(alloc, field.likely_count())?;
    field.push_to(&mut destinations)?;
    if destinations.is_empty() {
        return Ok(None);
    }
    let path = read_path(alloc, side, first, next_hop)?;
    Ok(Some(Put { path, destinations }))
}
