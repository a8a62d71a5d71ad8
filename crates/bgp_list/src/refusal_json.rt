//! The objects of refusals, put without memory: the refusal may be that there was none.

ghost use Rattle.std.specs.Prelude.{◌<◌, ◌^◌};
ghost use Rattle.bgp_text.specs.Lines.{Writes};
ghost use Rattle.bgp_json.specs.Line.{IsOneValue};
ghost use Rattle.bgp_json.specs.Object.{json_line};
ghost use Rattle.bgp_json.specs.Others.{capture_json};
ghost use Rattle.bgp_list.specs.ConnectionJson.{refused_json};
ghost use Rattle.bgp_list.specs.RefusalLine.{front_text, offset_end, packet_end};

use bgp_import::Refusal;
use bgp_text::Lines;
use mrt::{CaptureFault, Sink};

/// What is refused, and the number and the name of why.
fn put_front<W: Sink>(lines: &mut Lines<'_, W>, what: &str, number: u8, name: &str)
    ensures wrote { Writes lines.old lines.new (front_text what.now number name.now) }
    ensures fits { number < 2 ^ 64 }
{
    lines.put(b"{\"type\":\"refused\",\"what\":\"");
    lines.put(what.as_bytes());
    lines.put(b"\",\"number\":");
    lines.put_decimal(number);
    lines.put(b",\"name\":\"");
    lines.put(name.as_bytes());
    lines.put(b"\"");
}

/// At which packet.
fn put_packet_end<W: Sink>(lines: &mut Lines<'_, W>, packet: u64)
    ensures wrote { Writes lines.old lines.new (packet_end packet) }
    ensures fits { packet < 2 ^ 64 }
{
    lines.put(b",\"packet\":");
    lines.put_decimal(packet);
    lines.put(b"}\n");
}

/// At which offset.
fn put_offset_end<W: Sink>(lines: &mut Lines<'_, W>, offset: u64)
    ensures wrote { Writes lines.old lines.new (offset_end offset) }
    ensures fits { offset < 2 ^ 64 }
{
    lines.put(b",\"at\":");
    lines.put_decimal(offset);
    lines.put(b"}\n");
}

/// Puts the object of a recording that can't be read on.
pub fn put_refused_json<W: Sink>(lines: &mut Lines<'_, W>, refusal: Refusal)
    ensures wrote { Writes lines.old lines.new (json_line (refused_json refusal)) }
    ensures is_value { IsOneValue (json_line (refused_json refusal)) }
{
    put_front(lines, "recording", refusal.number(), refusal.name());
    put_packet_end(lines, refusal.packet());
}

/// Puts the object of a capture that can't be read on.
pub fn put_fault_json<W: Sink>(lines: &mut Lines<'_, W>, fault: CaptureFault)
    ensures wrote { Writes lines.old lines.new (json_line (capture_json fault)) }
    ensures is_value { IsOneValue (json_line (capture_json fault)) }
{
    put_front(lines, "capture", fault.kind.number(), fault.kind.name());
    put_offset_end(lines, fault.offset);
}
