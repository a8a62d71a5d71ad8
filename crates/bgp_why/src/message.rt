//! By which name a message is called.

ghost use Rattle.std.specs.Prelude.{◌≡◌, ◌&&◌, ◌⊎◌, not, is_some};
ghost use Rattle.bgp_wire.specs.Framing.{IsFrame, IsFaulty};
ghost use Rattle.bgp_wire.specs.Header.{header_of, type_of};
ghost use Rattle.bgp_wire.specs.Verdict.{type_code};
ghost use Rattle.bgp_text.specs.Lines.{Writes};
ghost use Rattle.bgp_text.specs.Message.{Message, Says};
ghost use Rattle.bgp_why.specs.Message.{faulty_text, is_refresh, is_type_5, IsNamed, name_of};
ghost use Rattle.bgp_why.specs.Message.{name_text};
ghost use Rattle.bgp_open.specs.declared.route_form.RouteForm.{RouteForm as TheForm};

use crate::errors::{header_faults, put_errors};
use bgp_open::{RouteForm, read_notification, read_open};
use bgp_text::Lines;
use bgp_update::read_parts;
use bgp_why_parts::put_full_code;
use bgp_wire::{HeaderFaults, HeaderVerdict, Limit, MessageType, check_header, header_at};
use mrt::Sink;

/// How a message is called.
#[derive(Clone, Copy, Debug, PartialEq, Eq)]
pub enum MessageName {
    /// An OPEN.
    Open,
    /// An OPEN whose form is wrong.
    MalformedOpen,
    /// An UPDATE.
    Update,
    /// An UPDATE whose fields can't be read.
    MalformedUpdate,
    /// A KEEPALIVE.
    Keepalive,
    /// A NOTIFICATION with this error code and subcode.
    Notification(u8, u8),
    /// A message whose header has these faults.
    FaultyHeader(HeaderFaults),
}

/// No fault of a header.
const NO_FAULT: HeaderFaults = HeaderFaults {
    marker: false,
    length: None,
    kind: None,
};

/// The name of an OPEN.
fn open_name(frame: &[u8]) -> MessageName
    requires { type_of (header_of frame.now) ≡ 1 }
    ensures { (form : TheForm) (message : Message) → Says form frame.now message
        → result ≡ name_of message }
{
    match read_open(frame) {
        Ok(_) => MessageName::Open,
        Err(_) => MessageName::MalformedOpen,
    }
}

/// The name of an UPDATE.
fn update_name(form: RouteForm, frame: &[u8]) -> MessageName
    requires { type_of (header_of frame.now) ≡ 2 }
    ensures { (message : Message) → Says form frame.now message → result ≡ name_of message }
{
    match read_parts(form, frame) {
        Some(_) => MessageName::Update,
        None => MessageName::MalformedUpdate,
    }
}

/// The name of a NOTIFICATION.
fn notification_name(frame: &[u8]) -> MessageName
    requires { type_of (header_of frame.now) ≡ 3 }
    ensures { (form : TheForm) (message : Message) → Says form frame.now message
        → result ≡ name_of message }
{
    match read_notification(frame) {
        Some(message) => MessageName::Notification(message.code, message.subcode),
        None => MessageName::FaultyHeader(NO_FAULT),
    }
}

/// The name of a frame whose header says this type.
fn frame_name(form: RouteForm, kind: MessageType, frame: &[u8]) -> MessageName
    requires { type_code kind ≡ type_of (header_of frame.now) }
    ensures { (message : Message) → Says form frame.now message → result ≡ name_of message }
{
    match kind {
        MessageType::Open => open_name(frame),
        MessageType::Update => update_name(form, frame),
        MessageType::Notification => notification_name(frame),
        MessageType::Keepalive => MessageName::Keepalive,
    }
}

impl MessageName {
    /// Returns the name of a message's octets, where it may be so long and routes are spelled in
    /// this form. Of octets that are no whole message, though their header has no fault, nothing
    /// is said.
    pub fn of(limit: Limit, form: RouteForm, octets: &[u8]) -> MessageName
        ensures { IsFrame limit octets.now ⊎ IsFaulty limit octets.now
            → IsNamed form limit octets.now result }
    {
        let Some(header) = header_at(octets) else {
            return MessageName::FaultyHeader(NO_FAULT);
        };
        match check_header(header, limit) {
            HeaderVerdict::Whole(_, kind) => frame_name(form, kind, octets),
            HeaderVerdict::Faulty(faults) => MessageName::FaultyHeader(faults),
        }
    }
}

/// Whether the only fault of a header is the type of ROUTE-REFRESH.
fn is_refresh(faults: &HeaderFaults) -> bool
    ensures { result ≡ is_refresh faults.now }
{
    !faults.marker && faults.length.is_none() && is_type_5(faults.kind)
}

fn is_type_5(kind: Option<u8>) -> bool
    ensures { result ≡ is_type_5 kind }
{
    match kind {
        Some(kind) => kind == 5,
        None => false,
    }
}

/// A header with faults.
fn put_faulty<W: Sink>(lines: &mut Lines<'_, W>, faults: &HeaderFaults)
    ensures { Writes lines.old lines.new (faulty_text faults.now) }
{
    if is_refresh(faults) {
        lines.put(b"ROUTE-REFRESH, read as a faulty header, 1/3 (Bad Message Type)");
    } else {
        lines.put(b"a faulty header, ");
        put_errors(lines, b" and ", &header_faults(faults));
    }
}

/// Puts how a message is called: `UPDATE`, or `NOTIFICATION 6/4 (Cease, Administrative Reset)`.
pub fn put_name<W: Sink>(lines: &mut Lines<'_, W>, name: &MessageName)
    ensures { Writes lines.old lines.new (name_text name.now) }
{
    match name {
        MessageName::Open => lines.put(b"OPEN"),
        MessageName::MalformedOpen => lines.put(b"malformed OPEN"),
        MessageName::Update => lines.put(b"UPDATE"),
        MessageName::MalformedUpdate => lines.put(b"malformed UPDATE"),
        MessageName::Keepalive => lines.put(b"KEEPALIVE"),
        MessageName::Notification(code, subcode) => {
            lines.put(b"NOTIFICATION ");
            put_full_code(lines, *code, *subcode);
        }
        MessageName::FaultyHeader(faults) => put_faulty(lines, faults),
    }
}
