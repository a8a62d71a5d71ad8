//! The objects of what is no message: a rest, a change of state, a refusal.

ghost use Rattle.std.specs.Prelude.{◌++◌, ◌∷◌, [], ℕ, List, Option, codes, length, option_map};
ghost use Rattle.std.specs.Borrow.{Bor};
ghost use Rattle.json.specs.Json.{string};
ghost use Rattle.json.specs.Tree.{json_tokens};
ghost use Rattle.bgp_json_values.specs.Naming.{name_or};
ghost use Rattle.bgp_json_values.specs.States.{state_name};
ghost use Rattle.bgp_json_values.specs.Adding.{Adds};
ghost use Rattle.bgp_json_values.specs.Objects.{members_tokens};
ghost use Rattle.bgp_json.specs.Line.{PutsLine};
ghost use Rattle.bgp_json.specs.Object.{json_line};
ghost use Rattle.bgp_json.specs.Others.{capture_json, change_json, change_members, octet_members};
ghost use Rattle.bgp_json.specs.Others.{recording_json, refusal_members, rest_json};

use crate::line::{put_written, start};
use crate::members::{begin, put_text};
use crate::place::{RecordPlace, put_direction, put_record_place};
use bgp_json_values::{Writer, name_of_state, put_name, put_number, put_octets_member};
use bgp_text::Lines;
use bgp_values::Direction;
use mrt::{CaptureFault, Sink};
use std::alloc::{AllocError, Allocator};

/// Writes the object of what a stream has behind its last whole message.
fn write_rest<A: Allocator + Copy>(
    writer: &mut Writer<A>,
    alloc: A,
    offset: u64,
    octets: &[u8],
) -> Result<(), AllocError>
    ensures { Adds result writer.old writer.new (json_tokens (rest_json offset octets.now)) }
{
    begin(writer, "rest")?;
    put_number(writer, "at", offset)?;
    put_number(writer, "count", octets.len() as u64)?;
    put_octets_member(writer, alloc, octets)?;
    writer.end_object()
}

/// Puts the line of what a stream has behind its last whole message, at this offset. If memory is
/// refused, it puts nothing.
pub fn put_json_rest<A: Allocator + Copy, W: Sink>(
    lines: &mut Lines<'_, W>,
    alloc: A,
    offset: u64,
    octets: &[u8],
) -> Result<(), AllocError>
    ensures { PutsLine result lines.old lines.new (json_line (rest_json offset octets.now)) }
{
    let mut writer = start(alloc);
    let written = write_rest(&mut writer, alloc, offset, octets);
    put_written(lines, writer, written)
}

/// Puts a member that is a state.
fn put_state<A: Allocator + Copy>(
    writer: &mut Writer<A>,
    alloc: A,
    key: &str,
    number: u16,
) -> Result<(), AllocError>
    ensures { Adds result writer.old writer.new
        (members_tokens ((key.now, string (state_name number)) ∷ [])) }
{
    writer.key(key)?;
    put_name(
        writer,
        alloc,
        "state ",
        u64::from(number),
        name_of_state(number),
    )
}

/// Puts both states of a change.
pub fn put_states<A: Allocator + Copy>(
    writer: &mut Writer<A>,
    alloc: A,
    old: u16,
    new: u16,
) -> Result<(), AllocError>
    ensures { Adds result writer.old writer.new (members_tokens (change_members old new)) }
{
    put_state(writer, alloc, "old", old)?;
    put_state(writer, alloc, "new", new)
}

/// Writes the object of a change from one state to another.
fn write_change<A: Allocator + Copy>(
    writer: &mut Writer<A>,
    alloc: A,
    place: RecordPlace,
    old: u16,
    new: u16,
) -> Result<(), AllocError>
    ensures { Adds result writer.old writer.new (json_tokens (change_json place old new)) }
{
    begin(writer, "change")?;
    put_record_place(writer, place)?;
    put_states(writer, alloc, old, new)?;
    writer.end_object()
}

/// Puts the line of a change from one state to another. If memory is refused, it puts nothing.
pub fn put_json_change<A: Allocator + Copy, W: Sink>(
    lines: &mut Lines<'_, W>,
    alloc: A,
    place: RecordPlace,
    old: u16,
    new: u16,
) -> Result<(), AllocError>
    ensures { PutsLine result lines.old lines.new (json_line (change_json place old new)) }
{
    let mut writer = start(alloc);
    let written = write_change(&mut writer, alloc, place, old, new);
    put_written(lines, writer, written)
}

/// Puts what is refused, with its number and its name.
fn put_refusal<A: Allocator>(
    writer: &mut Writer<A>,
    what: &str,
    number: u8,
    name: &str,
) -> Result<(), AllocError>
    ensures { Adds result writer.old writer.new
        (members_tokens (refusal_members what.now number name.now)) }
{
    put_text(writer, "what", what)?;
    put_number(writer, "number", u64::from(number))?;
    put_text(writer, "name", name)
}

/// Writes the object of a capture that is refused.
fn write_capture<A: Allocator>(
    writer: &mut Writer<A>,
    fault: CaptureFault,
) -> Result<(), AllocError>
    ensures { Adds result writer.old writer.new (json_tokens (capture_json fault)) }
{
    begin(writer, "refused")?;
    put_refusal(writer, "capture", fault.kind.number(), fault.kind.name())?;
    put_number(writer, "at", fault.offset)?;
    writer.end_object()
}

/// Puts the line of a capture that is refused. If memory is refused, it puts nothing.
pub fn put_json_capture_refusal<A: Allocator, W: Sink>(
    lines: &mut Lines<'_, W>,
    alloc: A,
    fault: CaptureFault,
) -> Result<(), AllocError>
    ensures { PutsLine result lines.old lines.new (json_line (capture_json fault)) }
{
    let mut writer = start(alloc);
    let written = write_capture(&mut writer, fault);
    put_written(lines, writer, written)
}

/// Puts an octet of a stream, if a refusal names one.
fn put_octet<A: Allocator>(
    writer: &mut Writer<A>,
    octet: Option<(Direction, u64)>,
) -> Result<(), AllocError>
    ensures { Adds result writer.old writer.new (members_tokens (octet_members octet)) }
{
    match octet {
        None => Ok(()),
        Some((direction, octet)) => {
            put_direction(writer, direction)?;
            put_number(writer, "octet", octet)
        }
    }
}

/// Writes the object of a recording that is refused.
fn write_recording<A: Allocator>(
    writer: &mut Writer<A>,
    number: u8,
    name: &str,
    packet: u64,
    octet: Option<(Direction, u64)>,
) -> Result<(), AllocError>
    ensures { Adds result writer.old writer.new
        (json_tokens (recording_json number name.now packet octet)) }
{
    begin(writer, "refused")?;
    put_refusal(writer, "recording", number, name)?;
    put_number(writer, "packet", packet)?;
    put_octet(writer, octet)?;
    writer.end_object()
}

/// Puts the line of a recording that is refused, with the number and the name of the refusal, the
/// packet at which it is told and the octet of a stream that it names. If memory is refused, it
/// puts nothing.
pub fn put_json_recording_refusal<A: Allocator, W: Sink>(
    lines: &mut Lines<'_, W>,
    alloc: A,
    number: u8,
    name: &str,
    packet: u64,
    octet: Option<(Direction, u64)>,
) -> Result<(), AllocError>
    ensures { PutsLine result lines.old lines.new
        (json_line (recording_json number name.now packet octet)) }
{
    let mut writer = start(alloc);
    let written = write_recording(&mut writer, number, name, packet, octet);
    put_written(lines, writer, written)
}
