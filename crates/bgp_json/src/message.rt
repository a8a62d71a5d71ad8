//! The object of a message (RFC 4271, 4).

ghost use Rattle.std.specs.Prelude.{◌≡◌, ◌≤◌, length};
ghost use Rattle.json.specs.Tree.{json_tokens};
ghost use Rattle.bgp_wire.specs.Header.{header_of, type_of};
ghost use Rattle.bgp_wire.specs.Verdict.{type_code};
ghost use Rattle.bgp_text.specs.Message.{Message, Says};
ghost use Rattle.bgp_update.specs.Parts.{LacksParts, SpellsParts, UpdateParts};
ghost use Rattle.bgp_values.specs.ErrorData.{error_of};
ghost use Rattle.bgp_json_values.specs.Adding.{Adds};
ghost use Rattle.bgp_json.specs.Line.{PutsLine};
ghost use Rattle.bgp_json.specs.MessageJson.{keepalive_json, malformed_update_json, message_json};
ghost use Rattle.bgp_json.specs.MessageJson.{notification_json};
ghost use Rattle.bgp_json.specs.Object.{json_line};

use crate::line::{put_written, start};
use crate::members::begin;
use crate::open::{write_malformed_open, write_open};
use crate::place::{Place, put_place};
use crate::update::{write_malformed_update, write_update};
use bgp_json_values::{Writer, put_error};
use bgp_open::{Notification, read_notification, read_open};
use bgp_text::Lines;
use bgp_update::read_parts;
use bgp_values::Reading;
use bgp_wire::MessageType;
use mrt::Sink;
use std::alloc::{AllocError, Allocator};

/// Writes the object of a NOTIFICATION.
fn write_notification<A: Allocator + Copy>(
    writer: &mut Writer<A>,
    alloc: A,
    place: Place,
    message: Notification<'_>,
) -> Result<(), AllocError>
    ensures { Adds result writer.old writer.new
        (json_tokens (notification_json place (error_of message.entry))) }
{
    begin(writer, "notification")?;
    put_place(writer, place)?;
    put_error(writer, alloc, message)?;
    writer.end_object()
}

/// Writes the object of a KEEPALIVE.
fn write_keepalive<A: Allocator>(writer: &mut Writer<A>, place: Place) -> Result<(), AllocError>
    ensures { Adds result writer.old writer.new (json_tokens (keepalive_json place)) }
{
    begin(writer, "keepalive")?;
    put_place(writer, place)?;
    writer.end_object()
}

/// Writes the object of a frame whose header says this type, and which stands here. UPDATEs are
/// read so.
pub(crate) fn write_frame<A: Allocator + Copy>(
    writer: &mut Writer<A>,
    alloc: A,
    reading: Reading,
    place: Place,
    kind: MessageType,
    frame: &[u8],
) -> Result<(), AllocError>
    requires kind { type_code kind ≡ type_of (header_of frame.now) }
    requires header { 19 ≤ length frame.now }
    requires says { (message : Message) × Says reading.form frame.now message }
    ensures { (message : Message) → Says reading.form frame.now message
        → Adds result writer.old writer.new
        (json_tokens (message_json reading place frame.now message)) }
{
    match kind {
        MessageType::Open => match read_open(frame) {
            Ok(message) => write_open(writer, alloc, place, &message, frame),
            Err(fault) => write_malformed_open(writer, alloc, place, fault, frame),
        },
        MessageType::Update => match read_parts(reading.form, frame) {
            Some(parts) => write_update(writer, alloc, reading, place, parts, frame),
            None => write_malformed_update(writer, alloc, place, frame),
        },
        MessageType::Notification => match read_notification(frame) {
            Some(message) => write_notification(writer, alloc, place, message),
            None => unreachable!(),
        },
        MessageType::Keepalive => write_keepalive(writer, place),
    }
}

/// Puts the line of a frame whose header says this type, and which stands here. UPDATEs are read
/// so. If memory is refused, it puts nothing.
pub fn put_json_frame<A: Allocator + Copy, W: Sink>(
    lines: &mut Lines<'_, W>,
    alloc: A,
    reading: Reading,
    place: Place,
    kind: MessageType,
    frame: &[u8],
) -> Result<(), AllocError>
    requires kind { type_code kind ≡ type_of (header_of frame.now) }
    requires header { 19 ≤ length frame.now }
    requires says { (message : Message) × Says reading.form frame.now message }
    ensures { (message : Message) → Says reading.form frame.now message
        → PutsLine result lines.old lines.new
        (json_line (message_json reading place frame.now message)) }
{
    let mut writer = start(alloc);
    let written = write_frame(&mut writer, alloc, reading, place, kind, frame);
    put_written(lines, writer, written)
}
