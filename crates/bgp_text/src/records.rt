//! One line a record of a capture (RFC 6396, 4.4), and one where the capture is refused.

ghost use Rattle.std.specs.Prelude.{◌≤◌, ℕ, List, Option, length};
ghost use Rattle.bgp_wire.specs.Header.{limit_with};
ghost use Rattle.mrt.specs.Reader.{shown_of};
ghost use Rattle.mrt.specs.Rules.{HasOtherLength};
ghost use Rattle.mrt.specs.Written.{IsAllowed};
ghost use Rattle.bgp_text.specs.Lines.{Writes};
ghost use Rattle.bgp_text.specs.Capture.{faulty_text, IsMessageText, message_text, change_text};
ghost use Rattle.bgp_text.specs.Capture.{IsRecordText, IsRecordLine, refused_line};

use crate::lines::Lines;
use crate::messages::{put_message_text, put_subcodes};
use bgp_prefix::{Seconds, Session};
use bgp_update::RouteForm;
use bgp_wire::{HeaderFaults, HeaderVerdict, Limit, check_header, header_at};
use mrt::{CaptureFault, Record, Sink};

/// The text of a header with faults.
fn put_faulty<W: Sink>(lines: &mut Lines<'_, W>, faults: HeaderFaults)
    ensures { Writes lines.old lines.new (faulty_text faults) }
{
    lines.put(b"fault");
    put_subcodes(lines, faults);
}

/// Puts the text of a message that a record holds. It may be so long, and its routes are spelled in
/// this form.
fn put_octets<W: Sink>(lines: &mut Lines<'_, W>, form: RouteForm, limit: Limit, octets: &[u8])
    requires long { 19 ≤ length octets.now }
    requires whole { ¬ HasOtherLength limit octets.now }
    ensures { (text : List ℕ) × IsMessageText form limit octets.now text
        × Writes lines.old lines.new text }
{
    let Some(header) = header_at(octets) else {
        unreachable!();
    };
    match check_header(header, limit) {
        HeaderVerdict::Whole(_, kind) => put_message_text(lines, form, kind, octets),
        HeaderVerdict::Faulty(faults) => put_faulty(lines, faults),
    }
}

/// A message of the session behind its second and how it went.
fn put_message_of<W: Sink>(
    lines: &mut Lines<'_, W>,
    session: &Session,
    form: RouteForm,
    second: Seconds,
    went: &str,
    octets: &[u8],
)
    requires long { 19 ≤ length octets.now }
    requires whole { ¬ HasOtherLength (limit_with session.now.extended) octets.now }
    ensures { (text : List ℕ) × IsMessageText form (limit_with session.now.extended) octets.now text
        × Writes lines.old lines.new (message_text second went.now text) }
{
    lines.put(b"@");
    lines.put_decimal(second);
    lines.put(went.as_bytes());
    put_octets(lines, form, Limit::with_extended(session.extended), octets);
}

/// The text of a change of state.
fn put_change<W: Sink>(lines: &mut Lines<'_, W>, second: Seconds, old: u16, new: u16)
    ensures { Writes lines.old lines.new (change_text second old new) }
{
    lines.put(b"@");
    lines.put_decimal(second);
    lines.put(b" change ");
    lines.put_decimal(old);
    lines.put(b" ");
    lines.put_decimal(new);
}

/// Puts the line of a record that a capture of the session may have, without its end, so that more
/// may be put after it. Its routes are spelled in this form.
pub fn put_record_text<W: Sink>(
    lines: &mut Lines<'_, W>,
    session: &Session,
    form: RouteForm,
    shown: &Record<'_>,
)
    requires { (last : Option ℕ) × IsAllowed session.now last (shown_of shown.now) }
    ensures { (text : List ℕ) × IsRecordText session.now form (shown_of shown.now) text
        × Writes lines.old lines.new text }
{
    match shown {
        Record::In(second, octets) => {
            put_message_of(lines, session, form, *second, " received ", octets)
        }
        Record::Out(second, octets) => {
            put_message_of(lines, session, form, *second, " sent ", octets)
        }
        Record::Change(second, old, new) => put_change(lines, *second, *old, *new),
    }
}

/// Puts the line of a record that a capture of the session may have. Its routes are spelled in the
/// plain form.
pub fn put_record<W: Sink>(lines: &mut Lines<'_, W>, session: &Session, shown: &Record<'_>)
    requires { (last : Option ℕ) × IsAllowed session.now last (shown_of shown.now) }
    ensures { (line : List ℕ) × IsRecordLine session.now (shown_of shown.now) line
        × Writes lines.old lines.new line }
{
    put_record_text(lines, session, RouteForm::PLAIN, shown);
    lines.put(b"\n");
}

/// The line of a capture that is refused.
pub fn put_refused<W: Sink>(lines: &mut Lines<'_, W>, fault: CaptureFault)
    ensures { Writes lines.old lines.new (refused_line fault.kind fault.offset) }
{
    lines.put(b"capture refused: ");
    lines.put_decimal(fault.kind.number());
    lines.put(b" ");
    lines.put(fault.kind.name().as_bytes());
    lines.put(b" at ");
    lines.put_decimal(fault.offset);
    lines.put(b"\n");
}
