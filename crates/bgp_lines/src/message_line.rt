//! The line of a message in words.

ghost use Rattle.std.specs.Prelude.{◌≡◌, ◌≤◌, length, option_map};
ghost use Rattle.bgp_wire.specs.Header.{header_of, type_of};
ghost use Rattle.bgp_wire.specs.Message.{body_of};
ghost use Rattle.bgp_wire.specs.Verdict.{type_code};
ghost use Rattle.bgp_text.specs.Lines.{Writes};
ghost use Rattle.bgp_text.specs.Message.{Message, Says};
ghost use Rattle.bgp_lines.specs.MessageLine.{named_malformed_update, named_text};

use crate::notifications::put_notification;
use crate::open_line::{put_malformed_open, put_open};
use crate::update_line::put_update;
use bgp_open::{read_notification, read_open};
use bgp_text::{Lines, read_parts};
use bgp_values::Reading;
use bgp_wire::{HEADER_LEN, MessageType};
use mrt::Sink;

/// Returns what stands behind the header of a frame.
fn body_of(frame: &[u8]) -> &[u8]
    requires { 19 ≤ length frame.now }
    ensures { result.now ≡ body_of frame.entry.now }
{
    frame.split_at(HEADER_LEN).1
}

/// Puts the line of an UPDATE whose form is wrong, without its end: the octets behind its header.
fn put_malformed_update<W: Sink>(lines: &mut Lines<'_, W>, body: &[u8])
    ensures { Writes lines.old lines.new (named_malformed_update body.now) }
{
    lines.put(b"update malformed: ");
    lines.put_hex(body);
}

/// Puts the line of a frame whose header says this type in words, without its end. UPDATEs are read
/// so.
pub fn put_named<W: Sink>(
    lines: &mut Lines<'_, W>,
    reading: Reading,
    kind: MessageType,
    frame: &[u8],
)
    requires kind { type_code kind ≡ type_of (header_of frame.now) }
    requires header { 19 ≤ length frame.now }
    requires says { (message : Message) × Says reading.form frame.now message }
    ensures { (message : Message) → Says reading.form frame.now message
        → Writes lines.old lines.new (named_text reading frame.now message) }
{
    match kind {
        MessageType::Open => match read_open(frame) {
            Ok(message) => put_open(lines, &message),
            Err(fault) => put_malformed_open(lines, fault, body_of(frame)),
        },
        MessageType::Update => match read_parts(reading.form, frame) {
            Some(parts) => put_update(lines, reading, parts),
            None => put_malformed_update(lines, body_of(frame)),
        },
        MessageType::Notification => match read_notification(frame) {
            Some(message) => put_notification(lines, message),
            None => unreachable!(),
        },
        MessageType::Keepalive => lines.put(b"keepalive"),
    }
}
