//! The object of a header with faults (RFC 4271, 6.1).

ghost use Rattle.std.specs.Prelude.{◌≡◌, map};
ghost use Rattle.json.specs.Tree.{json_tokens};
ghost use Rattle.bgp_wire.specs.Header.{length_of};
ghost use Rattle.bgp_lines.specs.Others.{fault_subcodes, subcode_if};
ghost use Rattle.bgp_json_values.specs.Adding.{Adds};
ghost use Rattle.bgp_json_values.specs.Objects.{array_of, members_tokens, values_tokens};
ghost use Rattle.bgp_json.specs.Line.{PutsLine};
ghost use Rattle.bgp_json.specs.Object.{json_line};
ghost use Rattle.bgp_json.specs.Others.{fault_json, header_json, header_members};

use crate::line::{put_written, start};
use crate::members::begin;
use crate::place::{Place, put_place};
use bgp_json_values::{Writer, put_error_name, put_number, put_octets_member};
use bgp_text::Lines;
use bgp_wire::{ErrorCode, HEADER_LEN, HeaderFaults, read_type};
use byteorder::{BigEndian, ByteOrder};
use mrt::Sink;
use std::alloc::{AllocError, Allocator};

/// Puts a fault of a header.
fn put_fault<A: Allocator + Copy>(
    writer: &mut Writer<A>,
    alloc: A,
    subcode: u8,
) -> Result<(), AllocError>
    ensures { Adds result writer.old writer.new (json_tokens (fault_json subcode)) }
{
    let code = ErrorCode::MessageHeader.code();
    writer.begin_object()?;
    put_number(writer, "code", u64::from(code))?;
    put_number(writer, "subcode", u64::from(subcode))?;
    writer.key("name")?;
    put_error_name(writer, alloc, code, subcode)?;
    writer.end_object()
}

/// Puts a fault, if a header has it.
fn put_fault_if<A: Allocator + Copy>(
    writer: &mut Writer<A>,
    alloc: A,
    at_fault: bool,
    subcode: u8,
) -> Result<(), AllocError>
    ensures { Adds result writer.old writer.new
        (values_tokens (map fault_json (subcode_if at_fault subcode))) }
{
    if at_fault {
        put_fault(writer, alloc, subcode)
    } else {
        Ok(())
    }
}

/// Puts the faults of a header, by their subcodes ascending.
fn put_faults<A: Allocator + Copy>(
    writer: &mut Writer<A>,
    alloc: A,
    faults: HeaderFaults,
) -> Result<(), AllocError>
    ensures { Adds result writer.old writer.new
        (json_tokens (array_of fault_json (fault_subcodes faults))) }
{
    writer.begin_array()?;
    put_fault_if(writer, alloc, faults.marker, 1)?;
    put_fault_if(writer, alloc, faults.length.is_some(), 2)?;
    put_fault_if(writer, alloc, faults.kind.is_some(), 3)?;
    writer.end_array()
}

/// Returns the Length field of a header.
#[tactic(auto, unfolding(bgp_wire::specs::Header::length_of))]
fn read_length(header: &[u8; HEADER_LEN]) -> u16
    ensures { result ≡ length_of header.now }
{
    BigEndian::read_u16(&header[16..])
}

/// Puts a header's faults, what is in it, and octets.
fn put_header<A: Allocator + Copy>(
    writer: &mut Writer<A>,
    alloc: A,
    faults: HeaderFaults,
    header: &[u8; HEADER_LEN],
    octets: &[u8],
) -> Result<(), AllocError>
    ensures { Adds result writer.old writer.new
        (members_tokens (header_members faults header.now octets.now)) }
{
    writer.key("faults")?;
    put_faults(writer, alloc, faults)?;
    put_number(writer, "length", u64::from(read_length(header)))?;
    put_number(writer, "kind", u64::from(read_type(header)))?;
    put_octets_member(writer, alloc, octets)
}

/// Writes the object of a header with faults, which stands here, with these octets.
pub(crate) fn write_fault<A: Allocator + Copy>(
    writer: &mut Writer<A>,
    alloc: A,
    place: Place,
    faults: HeaderFaults,
    header: &[u8; HEADER_LEN],
    octets: &[u8],
) -> Result<(), AllocError>
    ensures { Adds result writer.old writer.new
        (json_tokens (header_json place faults header.now octets.now)) }
{
    begin(writer, "fault")?;
    put_place(writer, place)?;
    put_header(writer, alloc, faults, header, octets)?;
    writer.end_object()
}

/// Puts the line of a header with faults, which stands here, with these octets. If memory is
/// refused, it puts nothing.
pub fn put_json_fault<A: Allocator + Copy, W: Sink>(
    lines: &mut Lines<'_, W>,
    alloc: A,
    place: Place,
    faults: HeaderFaults,
    header: &[u8; HEADER_LEN],
    octets: &[u8],
) -> Result<(), AllocError>
    ensures { PutsLine result lines.old lines.new
        (json_line (header_json place faults header.now octets.now)) }
{
    let mut writer = start(alloc);
    let written = write_fault(&mut writer, alloc, place, faults, header, octets);
    put_written(lines, writer, written)
}
