//! The line of a record in words: of a message or of a change of state, with its second and, if it
//! is known, the packet that shows it.

ghost use Rattle.std.specs.Prelude.{◌≤◌, ℕ, List, codes, length};
ghost use Rattle.bgp_wire.specs.Header.{limit_with};
ghost use Rattle.mrt.specs.Rules.{HasOtherLength};
ghost use Rattle.bgp_text.specs.Lines.{Writes};
ghost use Rattle.bgp_lines.specs.Form.{IsNamedMessage, packet_text, placed_text};
ghost use Rattle.bgp_lines.specs.Others.{named_change};

use crate::message_line::put_named;
use crate::others::{put_named_change, put_named_fault};
use bgp_prefix::{Seconds, Session};
use bgp_text::Lines;
use bgp_values::Reading;
use bgp_wire::{HeaderVerdict, Limit, check_header, header_at};
use mrt::Sink;

/// Puts the text of a message that a record holds, which may be so long, without a line's end: what
/// [`put_named`] puts, or for a header with faults what [`put_named_fault`] puts. It has a header,
/// and its length is the one that the header says, if that is a length that a message may have.
pub fn put_named_message<W: Sink>(
    lines: &mut Lines<'_, W>,
    reading: Reading,
    limit: Limit,
    octets: &[u8],
)
    requires long { 19 ≤ length octets.now }
    requires whole { ¬ HasOtherLength limit octets.now }
    ensures { (text : List ℕ) × IsNamedMessage reading limit octets.now text
        × Writes lines.old lines.new text }
{
    let Some(header) = header_at(octets) else {
        unreachable!();
    };
    match check_header(header, limit) {
        HeaderVerdict::Whole(_, kind) => put_named(lines, reading, kind, octets),
        HeaderVerdict::Faulty(faults) => put_named_fault(lines, faults, octets),
    }
}

/// Puts the number of a packet, if there is one.
fn put_packet<W: Sink>(lines: &mut Lines<'_, W>, packet: Option<u64>)
    ensures { Writes lines.old lines.new (packet_text packet) }
{
    match packet {
        None => lines.put(b""),
        Some(packet) => {
            lines.put(b" packet ");
            lines.put_decimal(packet);
        }
    }
}

/// Puts a message behind its second, its packet and how it went.
pub(crate) fn put_message_of<W: Sink>(
    lines: &mut Lines<'_, W>,
    session: &Session,
    reading: Reading,
    second: Seconds,
    packet: Option<u64>,
    went: &str,
    octets: &[u8],
)
    requires long { 19 ≤ length octets.now }
    requires whole { ¬ HasOtherLength (limit_with session.now.extended) octets.now }
    ensures { (text : List ℕ)
        × IsNamedMessage reading (limit_with session.now.extended) octets.now text
        × Writes lines.old lines.new (placed_text second packet went.now text) }
{
    lines.put(b"@");
    lines.put_decimal(second);
    put_packet(lines, packet);
    lines.put(went.as_bytes());
    put_named_message(
        lines,
        reading,
        Limit::with_extended(session.extended),
        octets,
    );
}

/// Puts a change of state behind its second and its packet.
pub(crate) fn put_change_of<W: Sink>(
    lines: &mut Lines<'_, W>,
    second: Seconds,
    packet: Option<u64>,
    old: u16,
    new: u16,
)
    ensures { Writes lines.old lines.new
        (placed_text second packet (codes " ") (named_change old new)) }
{
    lines.put(b"@");
    lines.put_decimal(second);
    put_packet(lines, packet);
    lines.put(b" ");
    put_named_change(lines, old, new);
}
