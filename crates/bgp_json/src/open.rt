//! The object of an OPEN (RFC 4271, 4.2).

ghost use Rattle.std.specs.Prelude.{◌≡◌};
ghost use Rattle.json.specs.Json.{string};
ghost use Rattle.json.specs.Tree.{json_tokens};
ghost use Rattle.bgp_open.specs.Open.{capabilities_of, open_of, parameters_of};
ghost use Rattle.bgp_open.specs.OpenFault.{AreAllCapabilities, AreParameters, IsWellFormed};
ghost use Rattle.bgp_lines.specs.OpenLine.{open_fault_name};
ghost use Rattle.bgp_json_values.specs.Adding.{Adds};
ghost use Rattle.bgp_json_values.specs.Objects.{members_tokens};
ghost use Rattle.bgp_json.specs.MessageJson.{are_parameters_spelled, malformed_open_json};
ghost use Rattle.bgp_json.specs.MessageJson.{malformed_open_members, open_json, open_members};

use crate::members::begin;
use crate::place::{Place, put_place};
use bgp_json_values::{
    Writer, name_of_subcode, put_address, put_capabilities, put_name, put_number,
    put_octets_member, put_unless,
};
use bgp_open::{Open, OpenFault};
use bgp_prefix::Address;
use bgp_wire::ErrorCode;
use std::alloc::{AllocError, Allocator};

/// Where the parameters of an OPEN stand.
const PARAMETERS_AT: usize = 29; // header 19, fixed fields 10

/// Checks whether parameters are one with capabilities, or no octets.
fn are_spelled(parameters: &[u8]) -> bool
    requires whole { AreParameters parameters.now }
    requires types { AreAllCapabilities parameters.now }
    ensures { result ≡ are_parameters_spelled (capabilities_of parameters.now) parameters.now }
{
    if parameters.is_empty() {
        return true;
    }
    if parameters.len() <= 2 {
        return false;
    }
    usize::from(parameters[1]) == parameters.len() - 2
}

/// Returns the parameters of an OPEN.
fn parameters_of(octets: &[u8]) -> &[u8]
    requires { IsWellFormed octets.now }
    ensures { result.now ≡ parameters_of octets.entry.now }
{
    octets.split_at(PARAMETERS_AT).1
}

/// Checks whether an OPEN has its capabilities as they are written: in one parameter, or none.
fn is_spelled(octets: &[u8]) -> bool
    requires { IsWellFormed octets.now }
    ensures { result
        ≡ are_parameters_spelled (open_of octets.now).capabilities (parameters_of octets.now) }
{
    are_spelled(parameters_of(octets))
}

/// Puts what an OPEN says.
fn put_fields<A: Allocator + Copy>(
    writer: &mut Writer<A>,
    alloc: A,
    message: &Open<'_>,
) -> Result<(), AllocError>
    ensures { Adds result writer.old writer.new (members_tokens (open_members message.now)) }
{
    put_number(writer, "as", u64::from(message.my_as()))?;
    put_number(writer, "hold", u64::from(message.hold()))?;
    writer.key("id")?;
    put_address(writer, alloc, Address::V4(message.id()))?;
    writer.key("capabilities")?;
    put_capabilities(writer, alloc, message.caps())
}

/// Writes the object of an OPEN that has these octets.
pub(crate) fn write_open<A: Allocator + Copy>(
    writer: &mut Writer<A>,
    alloc: A,
    place: Place,
    message: &Open<'_>,
    octets: &[u8],
) -> Result<(), AllocError>
    requires well_formed { IsWellFormed octets.now }
    requires says { message.now ≡ open_of octets.now }
    ensures { Adds result writer.old writer.new
        (json_tokens (open_json place message.now octets.now)) }
{
    begin(writer, "open")?;
    put_place(writer, place)?;
    put_fields(writer, alloc, message)?;
    put_unless(writer, alloc, is_spelled(octets), octets)?;
    writer.end_object()
}

/// Puts the name of what is wrong with the form of an OPEN.
fn put_fault_name<A: Allocator + Copy>(
    writer: &mut Writer<A>,
    alloc: A,
    fault: OpenFault,
) -> Result<(), AllocError>
    ensures { Adds result writer.old writer.new (json_tokens (string (open_fault_name fault))) }
{
    let code = ErrorCode::OpenMessage.code();
    match fault {
        OpenFault::Malformed => writer.string("Malformed"),
        OpenFault::Version => put_name(writer, alloc, "subcode ", 1, name_of_subcode(code, 1)),
        OpenFault::Parameter => put_name(writer, alloc, "subcode ", 4, name_of_subcode(code, 4)),
    }
}

/// Puts a fault of an OPEN, and the octets.
fn put_fault<A: Allocator + Copy>(
    writer: &mut Writer<A>,
    alloc: A,
    fault: OpenFault,
    octets: &[u8],
) -> Result<(), AllocError>
    ensures { Adds result writer.old writer.new
        (members_tokens (malformed_open_members fault octets.now)) }
{
    put_number(writer, "fault", u64::from(fault.number()))?;
    writer.key("name")?;
    put_fault_name(writer, alloc, fault)?;
    put_octets_member(writer, alloc, octets)
}

/// Writes the object of an OPEN whose form is wrong.
pub(crate) fn write_malformed_open<A: Allocator + Copy>(
    writer: &mut Writer<A>,
    alloc: A,
    place: Place,
    fault: OpenFault,
    octets: &[u8],
) -> Result<(), AllocError>
    ensures { Adds result writer.old writer.new
        (json_tokens (malformed_open_json place fault octets.now)) }
{
    begin(writer, "malformed_open")?;
    put_place(writer, place)?;
    put_fault(writer, alloc, fault, octets)?;
    writer.end_object()
}
