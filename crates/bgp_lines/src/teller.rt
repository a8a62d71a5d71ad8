//! The lines of the messages of a session, in one of their forms.

ghost use Rattle.std.specs.Prelude.{◌≡◌, ◌≤◌, ℕ, List, Option, length};
ghost use Rattle.bgp_wire.specs.Header.{header_of, type_of};
ghost use Rattle.bgp_wire.specs.Verdict.{type_code};
ghost use Rattle.bgp_open.specs.declared.route_form.RouteForm.{RouteForm};
ghost use Rattle.mrt.specs.Reader.{shown_of};
ghost use Rattle.mrt.specs.Written.{IsAllowed};
ghost use Rattle.bgp_text.specs.Lines.{Writes};
ghost use Rattle.bgp_text.specs.Message.{Message, Says};
ghost use Rattle.bgp_lines.specs.Form.{Before, IsFrameLine, IsPlacedLine, before_behind};
ghost use Rattle.bgp_lines.specs.Form.{before_with, fault_line_in, nothing_before, rest_line_in};
ghost use Rattle.bgp_values.specs.Opens.{AreOpens};
ghost use Rattle.bgp_lines.specs.Telling.{Knows, NamesRecord, placed_as};

use crate::form::LineForm;
use crate::message_line::put_named;
use crate::others::{put_named_rest, put_named_stream_fault};
use crate::record_line::{put_change_of, put_message_of};
use bgp_prefix::Session;
use bgp_text::{Lines, put_fault, put_message, put_record, put_rest};
use bgp_values::{Direction, Opens};
use bgp_wire::{HEADER_LEN, HeaderFaults, MessageType};
use mrt::{Record, Sink};

/// Puts the lines of the messages of a session one after another, in one form. It knows what the
/// OPENs before settle, as far as the lines depend on it. It is small, and allocates nothing.
///
/// ```text
/// let mut teller = Teller::new(LineForm::Names { as2: false });
/// teller.put_frame(&mut lines, Direction::Received, kind, frame);
/// ```
#[derive(Clone, Copy, Debug, PartialEq, Eq)]
pub struct Teller {
    form: LineForm,
    opens: Opens,
}

/// Puts the text of a record in words.
fn put_named_record<W: Sink>(
    lines: &mut Lines<'_, W>,
    opens: &Opens,
    as2: bool,
    session: &Session,
    packet: Option<u64>,
    shown: &Record<'_>,
)
    requires { (last : Option ℕ) × IsAllowed session.now last (shown_of shown.now) }
    ensures { (text : List ℕ)
        × NamesRecord session.now opens.now as2 packet (shown_of shown.now) text
        × Writes lines.old lines.new text }
{
    match shown {
        Record::In(second, octets) => {
            let reading = opens.reading(as2, Direction::Received);
            put_message_of(
                lines,
                session,
                reading,
                *second,
                packet,
                " received ",
                octets,
            );
        }
        Record::Out(second, octets) => {
            let reading = opens.reading(as2, Direction::Sent);
            put_message_of(lines, session, reading, *second, packet, " sent ", octets);
        }
        Record::Change(second, old, new) => put_change_of(lines, *second, packet, *old, *new),
    }
}

/// Takes what a record shows.
fn take_record(opens: &mut Opens, shown: &Record<'_>)
    ensures { (before : Before) → AreOpens before.received before.sent opens.old
        → AreOpens (before_behind (shown_of shown.now) before).received
        (before_behind (shown_of shown.now) before).sent opens.new }
{
    match shown {
        Record::In(_, octets) => opens.take(Direction::Received, octets),
        Record::Out(_, octets) => opens.take(Direction::Sent, octets),
        Record::Change(_, _, _) => {}
    }
}

impl Teller {
    /// Starts before the first message.
    pub fn new(form: LineForm) -> Teller
        ensures form { result.form ≡ form }
        ensures knows { Knows result nothing_before }
    {
        Teller {
            form,
            opens: Opens::new(),
        }
    }

    /// Puts the line of the next message, a frame that went this way and whose header says this
    /// type.
    pub fn put_frame<W: Sink>(
        &mut self,
        lines: &mut Lines<'_, W>,
        direction: Direction,
        kind: MessageType,
        frame: &[u8],
    )
        requires kind { type_code kind ≡ type_of (header_of frame.now) }
        requires header { 19 ≤ length frame.now }
        requires says { (form : RouteForm) → (message : Message) × Says form frame.now message }
        ensures form { self.new.form ≡ self.old.form }
        ensures line { (before : Before) → Knows self.old before
            → (line : List ℕ) × IsFrameLine self.old.form before direction frame.now line
            × Writes lines.old lines.new line }
        ensures knows { (before : Before) → Knows self.old before
            → Knows self.new (before_with direction frame.now before) }
    {
        match self.form {
            LineForm::Plain => put_message(lines, kind, frame),
            LineForm::Names { as2 } => {
                put_named(lines, self.opens.reading(as2, direction), kind, frame);
                lines.put(b"\n");
                self.opens.take(direction, frame);
            }
        }
    }

    /// Puts the line of what a stream has behind its last frame.
    pub fn put_rest<W: Sink>(&self, lines: &mut Lines<'_, W>, octets: &[u8])
        ensures { Writes lines.old lines.new (rest_line_in self.now.form octets.now) }
    {
        match self.form {
            LineForm::Plain => put_rest(lines, octets.len()),
            LineForm::Names { .. } => {
                put_named_rest(lines, octets);
                lines.put(b"\n");
            }
        }
    }

    /// Puts the line of a header with faults, which stands at this offset of a stream.
    pub fn put_fault<W: Sink>(
        &self,
        lines: &mut Lines<'_, W>,
        offset: u64,
        faults: HeaderFaults,
        header: &[u8; HEADER_LEN],
    )
        ensures { Writes lines.old lines.new
            (fault_line_in self.now.form offset faults header.now) }
    {
        match self.form {
            LineForm::Plain => put_fault(lines, offset, faults),
            LineForm::Names { .. } => {
                put_named_stream_fault(lines, offset, faults, header);
                lines.put(b"\n");
            }
        }
    }

    /// Puts the line of the next record, which a capture of the session may have. In words it
    /// names the packet, if one is given.
    pub fn put_record<W: Sink>(
        &mut self,
        lines: &mut Lines<'_, W>,
        session: &Session,
        packet: Option<u64>,
        shown: &Record<'_>,
    )
        requires { (last : Option ℕ) × IsAllowed session.now last (shown_of shown.now) }
        ensures form { self.new.form ≡ self.old.form }
        ensures line { (before : Before) → Knows self.old before
            → (line : List ℕ)
            × IsPlacedLine self.old.form session.now before
            (placed_as packet (shown_of shown.now)) line
            × Writes lines.old lines.new line }
        ensures knows { (before : Before) → Knows self.old before
            → Knows self.new (before_behind (shown_of shown.now) before) }
    {
        match self.form {
            LineForm::Plain => put_record(lines, session, shown),
            LineForm::Names { as2 } => {
                put_named_record(lines, &self.opens, as2, session, packet, shown);
                lines.put(b"\n");
                take_record(&mut self.opens, shown);
            }
        }
    }
}
