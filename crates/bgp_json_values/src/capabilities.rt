//! Capabilities (RFC 5492, 4).

ghost use Rattle.std.specs.Prelude.{◌≡◌, option_map};
ghost use Rattle.json.specs.Tree.{json_tokens};
ghost use Rattle.bgp_open.specs.Capability.{capability_of};
ghost use Rattle.bgp_values.specs.CapabilityValue.{capability_value, capability_value_of, names};
ghost use Rattle.bgp_values.specs.CapabilityValue.{restart};
ghost use Rattle.bgp_values.specs.Items.{items_of};
ghost use Rattle.bgp_json_values.specs.Adding.{Adds};
ghost use Rattle.bgp_json_values.specs.CapabilityJson.{capabilities_json, capability_json};
ghost use Rattle.bgp_json_values.specs.CapabilityJson.{capability_value_json, role_json};
ghost use Rattle.bgp_json_values.specs.CapabilityJson.{spelled_capability};
ghost use Rattle.bgp_json_values.specs.ItemJson.{family_members};
ghost use Rattle.bgp_json_values.specs.Objects.{members_tokens, object_of};
ghost use Rattle.bgp_json_values.specs.Octets.{value_or_octets};

use crate::items::{put_family, put_items};
use crate::octets::{put_octets_member, put_unless};
use crate::spelled_capabilities::is_spelled;
use crate::texts::{put_name, put_number, put_truth};
use bgp_names::{name_of_capability, name_of_role};
use bgp_open::{Capabilities, Capability};
use bgp_values::{CapabilityValue, Item};
use json_writer::Writer;
use std::alloc::{AllocError, Allocator};

/// Puts the name of a role.
fn put_role<A: Allocator>(writer: &mut Writer<A>, number: u8) -> Result<(), AllocError>
    ensures { Adds result writer.old writer.new (json_tokens (role_json number)) }
{
    writer.string(name_of_role(number).unwrap_or(""))
}

/// Puts a family.
fn put_family_value<A: Allocator>(
    writer: &mut Writer<A>,
    afi: u16,
    safi: u8,
) -> Result<(), AllocError>
    ensures { Adds result writer.old writer.new
        (json_tokens (object_of (family_members afi safi))) }
{
    writer.begin_object()?;
    put_family(writer, afi, u16::from(safi))?;
    writer.end_object()
}

/// Puts the value of Graceful Restart.
fn put_restart<A: Allocator + Copy>(
    writer: &mut Writer<A>,
    alloc: A,
    restarted: bool,
    notification: bool,
    seconds: u16,
    families: &[u8],
) -> Result<(), AllocError>
    ensures { Adds result writer.old writer.new (json_tokens (capability_value_json
        (restart restarted notification seconds (items_of Item.RestartFamily families.now)))) }
{
    writer.begin_object()?;
    put_truth(writer, "restarted", restarted)?;
    put_truth(writer, "notification", notification)?;
    put_number(writer, "time", u64::from(seconds))?;
    writer.key("families")?;
    put_items(writer, alloc, Item::RestartFamily, families)?;
    writer.end_object()
}

/// Puts the names of a host and of its domain.
fn put_names<A: Allocator>(
    writer: &mut Writer<A>,
    host: &str,
    domain: &str,
) -> Result<(), AllocError>
    ensures { Adds result writer.old writer.new
        (json_tokens (capability_value_json (names host.now domain.now))) }
{
    writer.begin_object()?;
    writer.key("host")?;
    writer.string(host)?;
    writer.key("domain")?;
    writer.string(domain)?;
    writer.end_object()
}

/// Puts what a capability says.
fn put_value<A: Allocator + Copy>(
    writer: &mut Writer<A>,
    alloc: A,
    value: CapabilityValue<'_>,
) -> Result<(), AllocError>
    ensures { Adds result writer.old writer.new
        (json_tokens (capability_value_json (capability_value_of value.entry))) }
{
    match value {
        CapabilityValue::Family { afi, safi } => put_family_value(writer, afi, safi),
        CapabilityValue::Offered => writer.boolean(true),
        CapabilityValue::NextHops(octets) => put_items(writer, alloc, Item::HopFamily, octets),
        CapabilityValue::Role(number) => put_role(writer, number),
        CapabilityValue::Restart {
            restarted,
            notification,
            seconds,
            families,
        } => put_restart(writer, alloc, restarted, notification, seconds, families),
        CapabilityValue::AsNumber(number) => writer.u64(u64::from(number)),
        CapabilityValue::Paths(octets) => put_items(writer, alloc, Item::PathFamily, octets),
        CapabilityValue::LongLived(octets) => {
            put_items(writer, alloc, Item::LongLivedFamily, octets)
        }
        CapabilityValue::Names { host, domain } => put_names(writer, host, domain),
    }
}

/// Puts what a capability says, or its octets: both if the octets aren't those of the value.
fn put_said<A: Allocator + Copy>(
    writer: &mut Writer<A>,
    alloc: A,
    capability: Capability<'_>,
    value: Option<CapabilityValue<'_>>,
) -> Result<(), AllocError>
    requires { option_map capability_value_of value
        ≡ capability_value capability.code capability.value.now }
    ensures { Adds result writer.old writer.new (members_tokens
        (value_or_octets capability_value_json spelled_capability
        (option_map capability_value_of value.entry) capability.entry.value.now)) }
{
    match value {
        None => put_octets_member(writer, alloc, capability.value),
        Some(value) => {
            writer.key("value")?;
            put_value(writer, alloc, value)?;
            let is_spelled = is_spelled(alloc, capability.code, capability.value, value)?;
            put_unless(writer, alloc, is_spelled, capability.value)
        }
    }
}

/// Puts a capability.
fn put_capability<A: Allocator + Copy>(
    writer: &mut Writer<A>,
    alloc: A,
    capability: Capability<'_>,
) -> Result<(), AllocError>
    ensures { Adds result writer.old writer.new
        (json_tokens (capability_json (capability_of capability.entry))) }
{
    let code = capability.code;
    writer.begin_object()?;
    put_number(writer, "code", u64::from(code))?;
    writer.key("name")?;
    put_name(
        writer,
        alloc,
        "capability ",
        u64::from(code),
        name_of_capability(code),
    )?;
    put_said(
        writer,
        alloc,
        capability,
        CapabilityValue::of(code, capability.value),
    )?;
    writer.end_object()
}

/// Puts capabilities, as an array.
pub fn put_capabilities<A: Allocator + Copy>(
    writer: &mut Writer<A>,
    alloc: A,
    capabilities: Capabilities<'_>,
) -> Result<(), AllocError>
    ensures { Adds result writer.old writer.new
        (json_tokens (capabilities_json capabilities.entry)) }
{
    writer.begin_array()?;
    for capability in capabilities {
        put_capability(writer, alloc, capability)?;
    }
    writer.end_array()
}
