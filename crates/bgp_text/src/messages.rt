//! One line a message (RFC 4271, 4), and one for what is no message.

ghost use Rattle.std.specs.Prelude.{◌≡◌};
ghost use Rattle.bgp_wire.specs.Header.{header_of, type_of};
ghost use Rattle.bgp_wire.specs.Verdict.{type_code};
ghost use Rattle.bgp_update.specs.Capability.{capability_of};
ghost use Rattle.bgp_update.specs.RouteForm.{plain_form};
ghost use Rattle.bgp_text.specs.Lines.{Writes};
ghost use Rattle.bgp_text.specs.Message.{Message, Says};
ghost use Rattle.bgp_text.specs.Text.{line_of, text_of, capability_text, capabilities_text};
ghost use Rattle.bgp_text.specs.Text.{open_text, malformed_open_text, notification_text};
ghost use Rattle.bgp_text.specs.Text.{subcode_text, subcodes_text, fault_line, rest_line};

use crate::lines::Lines;
use crate::updates::put_update;
use bgp_update::{
    Capabilities, Capability, Notification, Open, OpenFault, RouteForm, read_notification,
    read_open, read_parts,
};
use bgp_wire::{HeaderFaults, MessageType};
use mrt::Sink;

/// A capability after a blank.
fn put_capability<W: Sink>(lines: &mut Lines<'_, W>, capability: Capability<'_>)
    ensures { Writes lines.old lines.new (capability_text (capability_of capability.entry)) }
{
    lines.put(b" ");
    lines.put_decimal(capability.code);
    lines.put(b":");
    lines.put_hex(capability.value);
}

/// Capabilities in their order, or a dash for none.
fn put_capabilities<W: Sink>(lines: &mut Lines<'_, W>, mut capabilities: Capabilities<'_>)
    ensures { Writes lines.old lines.new (capabilities_text capabilities.entry) }
{
    let Some(first) = capabilities.next() else {
        return lines.put(b" -");
    };
    put_capability(lines, first);
    for another in capabilities {
        put_capability(lines, another);
    }
}

/// The text of an OPEN.
fn put_open<W: Sink>(lines: &mut Lines<'_, W>, message: &Open<'_>)
    ensures { Writes lines.old lines.new (open_text message.now) }
{
    lines.put(b"open as ");
    lines.put_decimal(message.my_as());
    lines.put(b" hold ");
    lines.put_decimal(message.hold());
    lines.put(b" id ");
    lines.put_ipv4(message.id());
    lines.put(b" caps");
    put_capabilities(lines, message.caps());
}

/// The text of an OPEN whose form is wrong.
fn put_malformed_open<W: Sink>(lines: &mut Lines<'_, W>, fault: OpenFault)
    ensures { Writes lines.old lines.new (malformed_open_text fault) }
{
    lines.put(b"open malformed ");
    lines.put_decimal(fault.number());
}

/// The text of a NOTIFICATION.
fn put_notification<W: Sink>(lines: &mut Lines<'_, W>, message: Notification<'_>)
    ensures { Writes lines.old lines.new
        (notification_text message.entry.code message.entry.subcode message.entry.detail.now) }
{
    lines.put(b"notification ");
    lines.put_decimal(message.code);
    lines.put(b"/");
    lines.put_decimal(message.subcode);
    lines.put(b" ");
    lines.put_hex(message.detail);
}

/// Puts the line of a frame whose header says this type, without its end. Its routes are spelled in
/// this form.
pub(crate) fn put_message_text<W: Sink>(
    lines: &mut Lines<'_, W>,
    form: RouteForm,
    kind: MessageType,
    frame: &[u8],
)
    requires kind { type_code kind ≡ type_of (header_of frame.now) }
    requires says { (message : Message) × Says form frame.now message }
    ensures { (message : Message) → Says form frame.now message
        → Writes lines.old lines.new (text_of message) }
{
    match kind {
        MessageType::Open => match read_open(frame) {
            Ok(message) => put_open(lines, &message),
            Err(fault) => put_malformed_open(lines, fault),
        },
        MessageType::Update => match read_parts(form, frame) {
            Some(parts) => put_update(lines, parts),
            None => lines.put(b"update malformed"),
        },
        MessageType::Notification => match read_notification(frame) {
            Some(message) => put_notification(lines, message),
            None => unreachable!(),
        },
        MessageType::Keepalive => lines.put(b"keepalive"),
    }
}

/// Puts the line of a frame whose header says this type. Its routes are spelled in the plain form.
pub fn put_message<W: Sink>(lines: &mut Lines<'_, W>, kind: MessageType, frame: &[u8])
    requires kind { type_code kind ≡ type_of (header_of frame.now) }
    requires says { (message : Message) × Says plain_form frame.now message }
    ensures { (message : Message) → Says plain_form frame.now message
        → Writes lines.old lines.new (line_of message) }
{
    put_message_text(lines, RouteForm::PLAIN, kind, frame);
    lines.put(b"\n");
}

/// A text where something is so, and nothing where it isn't.
fn text_if(is_so: bool, text: &str) -> &str
    ensures { result.now ≡ subcode_text is_so text.entry.now }
{
    if is_so { text } else { "" }
}

/// The subcodes of a header's faults, ascending, each after a blank.
pub(crate) fn put_subcodes<W: Sink>(lines: &mut Lines<'_, W>, faults: HeaderFaults)
    ensures { Writes lines.old lines.new (subcodes_text faults) }
{
    lines.put(text_if(faults.marker, " 1/1").as_bytes());
    lines.put(text_if(faults.length.is_some(), " 1/2").as_bytes());
    lines.put(text_if(faults.kind.is_some(), " 1/3").as_bytes());
}

/// The line of a header with faults, which stands at this offset of the stream.
pub fn put_fault<W: Sink>(lines: &mut Lines<'_, W>, offset: u64, faults: HeaderFaults)
    ensures { Writes lines.old lines.new (fault_line offset faults) }
{
    lines.put(b"fault at ");
    lines.put_decimal(offset);
    put_subcodes(lines, faults);
    lines.put(b"\n");
}

/// The line of a stream that ends this many octets after its last whole message.
pub fn put_rest<W: Sink>(lines: &mut Lines<'_, W>, count: usize)
    ensures { Writes lines.old lines.new (rest_line count) }
{
    lines.put(b"rest ");
    lines.put_decimal(count);
    lines.put(b"\n");
}
