//! What the values of MP_REACH_NLRI and MP_UNREACH_NLRI say (RFC 4760, 3 and 4).

ghost use Rattle.std.specs.Prelude.{◌≡◌, ◌≤◌, length, option_map};
ghost use Rattle.bgp_values.specs.RoutesValue.{other_in, reach_value, routes_value_of};
ghost use Rattle.bgp_values.specs.RoutesValue.{unicast_of, unreach_value, with_any_hop};
ghost use Rattle.bgp_update.specs.Destinations.{destinations_of, is_identified};
ghost use Rattle.bgp_update.specs.MpValue.{reach_contents, unreach_contents};

use bgp_open::RouteForm;
use bgp_path::NextHop;
use bgp_prefix::Family;
use bgp_update::{Destinations, family_in, next_hop_in, split_reach};
use byteorder::{BigEndian, ByteOrder};

/// What the value of MP_REACH_NLRI or MP_UNREACH_NLRI says.
#[derive(Debug, Drop)]
pub enum RoutesValue<'a> {
    /// Unicast routes.
    Unicast {
        /// Their family.
        family: Family,
        /// Their next hop, if they are announced.
        next_hop: Option<NextHop>,
        /// What they lead to.
        destinations: Destinations<'a>,
    },
    /// Octets of another family.
    Other {
        /// The Address Family Identifier.
        afi: u16,
        /// The Subsequent Address Family Identifier.
        safi: u8,
        /// The octets behind both.
        octets: &'a [u8],
    },
}

/// Returns the form in which a next hop is read by its length alone.
fn with_any_hop(form: RouteForm) -> RouteForm
    ensures { result ≡ with_any_hop form }
{
    RouteForm {
        ipv6_next_hops: true,
        ..form
    }
}

/// Reads octets of another family.
fn read_other(value: &[u8]) -> RoutesValue<'_>
    requires { 3 ≤ length value.now }
    ensures { routes_value_of result ≡ other_in value.entry.now }
{
    RoutesValue::Other {
        afi: BigEndian::read_u16(value),
        safi: value[2],
        octets: value.split_at(3).1,
    }
}

/// Reads the destinations of a field.
fn destinations_in(form: RouteForm, family: Family, octets: &[u8]) -> Option<Destinations<'_>>
    ensures { result ≡ destinations_of (is_identified form family) family octets.entry.now }
{
    Destinations::new(form, family, octets)
}

/// Reads routes that are announced.
fn read_reach(form: RouteForm, family: Family, value: &[u8]) -> Option<RoutesValue<'_>>
    requires { 3 ≤ length value.now }
    ensures { option_map routes_value_of result
        ≡ unicast_of family (reach_contents form family value.entry.now) }
{
    let Some(parts) = split_reach(value) else {
        return None;
    };
    let Some(next_hop) = next_hop_in(form, family, parts.next_hop) else {
        return None;
    };
    let Some(destinations) = destinations_in(form, family, parts.nlri) else {
        return None;
    };
    Some(RoutesValue::Unicast {
        family,
        next_hop: Some(next_hop),
        destinations,
    })
}

/// Reads routes that are withdrawn.
fn read_unreach(form: RouteForm, family: Family, value: &[u8]) -> Option<RoutesValue<'_>>
    requires { 3 ≤ length value.now }
    ensures { option_map routes_value_of result
        ≡ unicast_of family (unreach_contents form family value.entry.now) }
{
    let Some(destinations) = destinations_in(form, family, value.split_at(3).1) else {
        return None;
    };
    Some(RoutesValue::Unicast {
        family,
        next_hop: None,
        destinations,
    })
}

impl<'a> RoutesValue<'a> {
    /// Returns what the value of MP_REACH_NLRI says, if it says something, where routes are spelled
    /// in this form. An IPv6 next hop of IPv4 routes is read even if the form has none (RFC 8950).
    pub fn of_reach(form: RouteForm, value: &'a [u8]) -> Option<RoutesValue<'a>>
        ensures { option_map routes_value_of result ≡ reach_value form value.entry.now }
    {
        if value.len() < 3 {
            return None;
        }
        match family_in(value) {
            None => Some(read_other(value)),
            Some(family) => read_reach(with_any_hop(form), family, value),
        }
    }

    /// Returns what the value of MP_UNREACH_NLRI says, if it says something, where routes are
    /// spelled in this form.
    pub fn of_unreach(form: RouteForm, value: &'a [u8]) -> Option<RoutesValue<'a>>
        ensures { option_map routes_value_of result ≡ unreach_value form value.entry.now }
    {
        if value.len() < 3 {
            return None;
        }
        match family_in(value) {
            None => Some(read_other(value)),
            Some(family) => read_unreach(form, family, value),
        }
    }
}
