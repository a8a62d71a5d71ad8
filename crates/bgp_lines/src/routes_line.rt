//! The two attributes that have routes of other families, in words (RFC 4760, 3 and 4).

ghost use Rattle.std.specs.Prelude.{◌∷◌, option_map};
ghost use Rattle.bgp_text.specs.Lines.{Writes};
ghost use Rattle.bgp_text.specs.Text.{destinations_text};
ghost use Rattle.bgp_values.specs.RoutesValue.{other, routes_value_of};
ghost use Rattle.bgp_lines.specs.RoutesLine.{routes_or_octets, routes_text, unicast_name, via_text};

use crate::attribute_line::put_octets;
use bgp_names::put_family_name;
use bgp_path::NextHop;
use bgp_prefix::Family;
use bgp_text::{Destination, Destinations, Lines, put_destination, put_next_hop};
use bgp_values::RoutesValue;
use mrt::Sink;

/// The Subsequent Address Family Identifier of unicast.
const UNICAST: u8 = 1;

/// Puts destinations with blanks between them, of which the first is taken out.
pub(crate) fn put_listed<W: Sink>(
    lines: &mut Lines<'_, W>,
    first: Destination,
    others: Destinations<'_>,
)
    ensures { Writes lines.old lines.new (destinations_text (first ∷ others.entry)) }
{
    put_destination(lines, first);
    for destination in others {
        lines.put(b" ");
        put_destination(lines, destination);
    }
}

/// Puts destinations with blanks between them, or a dash for none.
fn put_destinations<W: Sink>(lines: &mut Lines<'_, W>, mut destinations: Destinations<'_>)
    ensures { Writes lines.old lines.new (destinations_text destinations.entry) }
{
    match destinations.next() {
        None => lines.put(b"-"),
        Some(first) => put_listed(lines, first, destinations),
    }
}

/// Puts the name of a family of unicast routes.
fn put_unicast_name<W: Sink>(lines: &mut Lines<'_, W>, family: Family)
    ensures { Writes lines.old lines.new (unicast_name family) }
{
    match family {
        Family::V4 => put_family_name(lines, 1, UNICAST),
        Family::V6 => put_family_name(lines, 2, UNICAST),
    }
}

/// Puts a next hop, if there is one.
#[tactic(auto, unfolding(crate::specs::RoutesLine::via_text))]
fn put_via<W: Sink>(lines: &mut Lines<'_, W>, next_hop: Option<NextHop>)
    ensures { Writes lines.old lines.new (via_text next_hop) }
{
    match next_hop {
        None => lines.put(b""),
        Some(next_hop) => {
            lines.put(b" via ");
            put_next_hop(lines, next_hop);
        }
    }
}

/// Puts octets of another family.
fn put_other<W: Sink>(lines: &mut Lines<'_, W>, afi: u16, safi: u8, octets: &[u8])
    ensures { Writes lines.old lines.new (routes_text (other afi safi octets.now)) }
{
    lines.put(b" ");
    put_family_name(lines, afi, safi);
    put_octets(lines, octets);
}

/// Puts routes behind the word of their attribute.
#[tactic(auto, unfolding(crate::specs::RoutesLine::routes_text))]
fn put_routes<W: Sink>(lines: &mut Lines<'_, W>, value: RoutesValue<'_>)
    ensures { Writes lines.old lines.new (routes_text (routes_value_of value.entry)) }
{
    match value {
        RoutesValue::Unicast {
            family,
            next_hop,
            destinations,
        } => {
            lines.put(b" ");
            put_unicast_name(lines, family);
            put_via(lines, next_hop);
            lines.put(b" ");
            put_destinations(lines, destinations);
        }
        RoutesValue::Other { afi, safi, octets } => put_other(lines, afi, safi, octets),
    }
}

/// Puts routes behind the word of their attribute, or its octets.
#[tactic(auto, unfolding(crate::specs::RoutesLine::routes_or_octets))]
pub(crate) fn put_routes_or_octets<W: Sink>(
    lines: &mut Lines<'_, W>,
    value: Option<RoutesValue<'_>>,
    octets: &[u8],
)
    ensures { Writes lines.old lines.new
        (routes_or_octets (option_map routes_value_of value.entry) octets.now) }
{
    match value {
        None => put_octets(lines, octets),
        Some(value) => put_routes(lines, value),
    }
}
