//! The line of an OPEN in words (RFC 4271, 4.2; RFC 5492).

ghost use Rattle.std.specs.Prelude.{◌≡◌, codes, if◌then◌else◌, option_map};
ghost use Rattle.bgp_open.specs.Capability.{capability_of};
ghost use Rattle.bgp_text.specs.Lines.{Writes};
ghost use Rattle.bgp_values.specs.CapabilityValue.{capability_value_of, names, restart};
ghost use Rattle.bgp_values.specs.Items.{items_of};
ghost use Rattle.bgp_lines.specs.Joined.{each_behind};
ghost use Rattle.bgp_lines.specs.OpenLine.{capability_value_text, hidden_capability_text};
ghost use Rattle.bgp_lines.specs.OpenLine.{is_known_code, named_capability, named_malformed_open};
ghost use Rattle.bgp_lines.specs.OpenLine.{named_open, open_fault_name, role_text, said_text};

use crate::items::{put_each, put_if, put_joined};
use crate::quoting::put_quoted;
use bgp_names::{name_of_role, put_capability_name, put_family_name, put_subcode_name};
use bgp_open::{Capabilities, Capability, Open, OpenFault};
use bgp_text::Lines;
use bgp_values::{CapabilityValue, Item};
use bgp_wire::ErrorCode;
use mrt::Sink;

/// Puts the name of a role.
fn put_role<W: Sink>(lines: &mut Lines<'_, W>, number: u8)
    ensures { Writes lines.old lines.new (role_text number) }
{
    lines.put(name_of_role(number).unwrap_or("").as_bytes());
}

/// Puts the value of Graceful Restart.
fn put_restart<W: Sink>(
    lines: &mut Lines<'_, W>,
    restarted: bool,
    notification: bool,
    seconds: u16,
    families: &[u8],
)
    ensures { Writes lines.old lines.new (capability_value_text (restart restarted notification
        seconds (items_of Item.RestartFamily families.now))) }
{
    lines.put(b" ");
    lines.put_decimal(seconds);
    lines.put(b" seconds");
    put_if(lines, restarted, b" restarted");
    put_if(lines, notification, b" notification");
    put_each(lines, b", ", Item::RestartFamily, families);
}

/// Puts two texts between quotation marks.
fn put_names<W: Sink>(lines: &mut Lines<'_, W>, host: &str, domain: &str)
    ensures { Writes lines.old lines.new (capability_value_text (names host.now domain.now)) }
{
    lines.put(b" ");
    put_quoted(lines, host);
    lines.put(b" ");
    put_quoted(lines, domain);
}

/// Puts a value behind the name of its capability.
#[tactic(auto, unfolding(crate::specs::OpenLine::capability_value_text))]
fn put_value<W: Sink>(lines: &mut Lines<'_, W>, value: CapabilityValue<'_>)
    ensures { Writes lines.old lines.new (capability_value_text (capability_value_of value.entry)) }
{
    match value {
        CapabilityValue::Family { afi, safi } => {
            lines.put(b" ");
            put_family_name(lines, afi, safi);
        }
        CapabilityValue::Offered => lines.put(b""),
        CapabilityValue::NextHops(octets) => {
            lines.put(b" ");
            put_joined(lines, b", ", Item::HopFamily, octets);
        }
        CapabilityValue::Role(number) => {
            lines.put(b" ");
            put_role(lines, number);
        }
        CapabilityValue::Restart {
            restarted,
            notification,
            seconds,
            families,
        } => put_restart(lines, restarted, notification, seconds, families),
        CapabilityValue::AsNumber(number) => {
            lines.put(b" ");
            lines.put_decimal(number);
        }
        CapabilityValue::Paths(octets) => {
            lines.put(b" ");
            put_joined(lines, b", ", Item::PathFamily, octets);
        }
        CapabilityValue::LongLived(octets) => put_each(lines, b", ", Item::LongLivedFamily, octets),
        CapabilityValue::Names { host, domain } => put_names(lines, host, domain),
    }
}

/// Checks whether the code of a capability has a name.
fn is_known_code(code: u8) -> bool
    ensures { result ≡ is_known_code code }
{
    matches!(code, 1 | 2 | 5 | 6 | 9 | 64 | 65 | 69 | 70 | 71 | 73 | 128)
}

/// Returns what stands between the name of a capability and octets without a value.
fn before_octets(code: u8) -> &'static [u8]
    ensures { result.now ≡ (if is_known_code code then codes " octets " else codes " ") }
{
    if is_known_code(code) {
        b" octets "
    } else {
        b" "
    }
}

/// Puts octets without a value behind the name of their capability.
fn put_hidden<W: Sink>(lines: &mut Lines<'_, W>, code: u8, octets: &[u8])
    ensures { Writes lines.old lines.new (hidden_capability_text code octets.now) }
{
    lines.put(before_octets(code));
    lines.put_hex(octets);
}

/// Puts what a capability says, or its octets.
fn put_said<W: Sink>(
    lines: &mut Lines<'_, W>,
    capability: Capability<'_>,
    value: Option<CapabilityValue<'_>>,
)
    ensures { Writes lines.old lines.new
        (said_text (capability_of capability.entry) (option_map capability_value_of value.entry)) }
{
    match value {
        None => put_hidden(lines, capability.code, capability.value),
        Some(value) => put_value(lines, value),
    }
}

/// Puts a capability: its name, and what it says.
fn put_capability<W: Sink>(lines: &mut Lines<'_, W>, capability: Capability<'_>)
    ensures { Writes lines.old lines.new (named_capability (capability_of capability.entry)) }
{
    put_capability_name(lines, capability.code);
    put_said(
        lines,
        capability,
        CapabilityValue::of(capability.code, capability.value),
    );
}

/// Puts capabilities, each behind a bar.
fn put_capabilities<W: Sink>(lines: &mut Lines<'_, W>, capabilities: Capabilities<'_>)
    ensures { Writes lines.old lines.new
        (each_behind (codes " | ") named_capability capabilities.entry) }
{
    for capability in capabilities {
        lines.put(b" | ");
        put_capability(lines, capability);
    }
}

/// Puts the line of an OPEN, without its end.
pub fn put_open<W: Sink>(lines: &mut Lines<'_, W>, message: &Open<'_>)
    ensures { Writes lines.old lines.new (named_open message.now) }
{
    lines.put(b"open as ");
    lines.put_decimal(message.my_as());
    lines.put(b" hold ");
    lines.put_decimal(message.hold());
    lines.put(b" id ");
    lines.put_ipv4(message.id());
    put_capabilities(lines, message.caps());
}

/// Puts what is wrong with the form of an OPEN.
fn put_open_fault<W: Sink>(lines: &mut Lines<'_, W>, fault: OpenFault)
    ensures { Writes lines.old lines.new (open_fault_name fault) }
{
    match fault {
        OpenFault::Malformed => lines.put(b"Malformed"),
        OpenFault::Version => put_subcode_name(lines, ErrorCode::OpenMessage.code(), 1),
        OpenFault::Parameter => put_subcode_name(lines, ErrorCode::OpenMessage.code(), 4),
    }
}

/// Puts the line of an OPEN whose form is wrong, without its end: the fault, and the octets behind
/// the header.
pub fn put_malformed_open<W: Sink>(lines: &mut Lines<'_, W>, fault: OpenFault, body: &[u8])
    ensures { Writes lines.old lines.new (named_malformed_open fault body.now) }
{
    lines.put(b"open malformed ");
    lines.put_decimal(fault.number());
    lines.put(b" ");
    put_open_fault(lines, fault);
    lines.put(b": ");
    lines.put_hex(body);
}
