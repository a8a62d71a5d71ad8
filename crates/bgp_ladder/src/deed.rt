//! What a record shows, in words.

ghost use Rattle.std.specs.Prelude.{◌≡◌, ◌↔◌, IfOk, IsOk, IsTrue, List, ℕ};
ghost use Rattle.mrt.specs.Reader.{shown_of};
ghost use Rattle.mrt.specs.MemSink.{sink_state};
ghost use Rattle.bgp_wire.specs.Header.{length_of};
ghost use Rattle.bgp_text.specs.Lines.{Writes};
ghost use Rattle.bgp_ladder.specs.Batch.{AreDeeds};
ghost use Rattle.bgp_ladder.specs.Deed.{IsMessageText, IsDeedBy, IsWhole, change_text, octets_text};

use crate::rows::take_shown;
use bgp_lines::put_named_message;
use bgp_names::put_state_name;
use bgp_recording::{Entry, Framings};
use bgp_text::Lines;
use bgp_values::{Direction, Opens, Reading};
use bgp_wire::{HEADER_LEN, Limit, header_at};
use byteorder::{BigEndian, ByteOrder};
use mrt::{Failed, MemSink, Record, Sink, has_other_length};
use std::alloc::{AllocError, Allocator};

/// Returns the Length field of a header.
#[tactic(auto, unfolding(bgp_wire::specs::Header::length_of))]
fn read_length(header: &[u8; HEADER_LEN]) -> usize
    ensures { result ≡ length_of header.now }
{
    usize::from(BigEndian::read_u16(&header[16..]))
}

/// Returns whether octets are one whole message, or begin with a faulty header. Most have the
/// Length of their header, so that no more of it is read.
fn is_whole(limit: Limit, octets: &[u8]) -> bool
    ensures { IsTrue result ↔ IsWhole limit octets.now }
{
    let Some(header) = header_at(octets) else {
        return false;
    };
    read_length(header) == octets.len() || !has_other_length(octets, limit)
}

/// Puts octets that are no message.
fn put_octets<W: Sink>(lines: &mut Lines<'_, W>, octets: &[u8])
    ensures { Writes lines.old lines.new (octets_text octets.now) }
{
    lines.put(b"no whole message: ");
    lines.put_hex(octets);
}

/// Puts what a message says, if it may be so long and UPDATEs are read so.
fn put_message_text<W: Sink>(
    lines: &mut Lines<'_, W>,
    reading: Reading,
    limit: Limit,
    octets: &[u8],
)
    ensures { (text : List ℕ) × IsMessageText reading limit octets.now text
        × Writes lines.old lines.new text }
{
    if is_whole(limit, octets) {
        put_named_message(lines, reading, limit, octets);
    } else {
        put_octets(lines, octets);
    }
}

/// Puts a change from one state to another.
fn put_change_text<W: Sink>(lines: &mut Lines<'_, W>, old: u16, new: u16)
    ensures { Writes lines.old lines.new (change_text old new) }
{
    put_state_name(lines, old);
    lines.put(b" to ");
    put_state_name(lines, new);
}

/// Puts what a record shows, where these were the last OPENs and both directions are framed so.
fn put_deed_text<W: Sink>(
    lines: &mut Lines<'_, W>,
    opens: &Opens,
    framings: Framings,
    shown: &Record<'_>,
)
    ensures { (text : List ℕ) × IsDeedBy framings opens.now (shown_of shown.now) text
        × Writes lines.old lines.new text }
{
    match shown {
        Record::In(_, octets) => {
            let reading = opens.reading(false, Direction::Received);
            put_message_text(lines, reading, framings.received.limit, octets);
        }
        Record::Out(_, octets) => {
            let reading = opens.reading(false, Direction::Sent);
            put_message_text(lines, reading, framings.sent.limit, octets);
        }
        Record::Change(_, old, new) => put_change_text(lines, *old, *new),
    }
}

/// Returns what a sink in memory took, if it had memory for all of it.
fn taken<A: Allocator>(
    sink: MemSink<A>,
    handed: Result<(), Failed>,
) -> Result<Vec<u8, A>, AllocError>
    ensures { IfOk result (λ text. IsOk handed × (text.items ≡ (sink_state sink).octets)) }
{
    match handed {
        Ok(()) => Ok(sink.into_octets()),
        Err(Failed) => Err(AllocError),
    }
}

/// Puts what each of these shows, with an octet 0 behind it, where these were the last OPENs.
fn put_deeds<W: Sink>(
    lines: &mut Lines<'_, W>,
    opens: &Opens,
    framings: Framings,
    entries: &[Entry<'_>],
)
    ensures { (octets : List ℕ) × AreDeeds framings opens.now entries.now octets
        × Writes lines.old lines.new octets }
{
    let mut last = *opens;
    for place in 0..entries.len() {
        let entry = &entries[place];
        put_deed_text(lines, &last, framings, &entry.record);
        lines.put(&[0]);
        take_shown(&mut last, &entry.record);
    }
}

/// Returns what each of these shows, with an octet 0 behind it, where these were the last OPENs. To
/// make `Lines` clears a buffer that is far greater than what one record shows: one serves them all.
pub(crate) fn deeds_of<A: Allocator>(
    alloc: A,
    opens: &Opens,
    framings: Framings,
    entries: &[Entry<'_>],
) -> Result<Vec<u8, A>, AllocError>
    ensures { IfOk result (λ octets. AreDeeds framings opens.now entries.now octets.items) }
{
    let mut sink = MemSink::new(alloc);
    let mut lines = Lines::new(&mut sink);
    put_deeds(&mut lines, opens, framings, entries);
    let handed = lines.hand_over();
    // No effect: it ends the loan of the sink.
    lines.into_sink();
    taken(sink, handed)
}
