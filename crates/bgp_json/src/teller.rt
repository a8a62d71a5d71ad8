//! The lines of the messages of a session as JSON.

ghost use Rattle.std.specs.Prelude.{◌≡◌, ◌≤◌, ◌+◌, ◌<◌, ◌^◌, ℕ, List, Option, MatchResult, length};
ghost use Rattle.json.specs.Json.{Json};
ghost use Rattle.bgp_wire.specs.Header.{header_of, type_of};
ghost use Rattle.bgp_wire.specs.Verdict.{type_code};
ghost use Rattle.bgp_open.specs.declared.route_form.RouteForm.{RouteForm};
ghost use Rattle.mrt.specs.Reader.{shown_of};
ghost use Rattle.mrt.specs.Written.{IsAllowed};
ghost use Rattle.bgp_text.specs.Message.{Message, Says};
ghost use Rattle.bgp_values.specs.Opens.{AreOpens};
ghost use Rattle.bgp_lines.specs.Form.{Before, before_behind, before_with, nothing_before};
ghost use Rattle.bgp_json.specs.Line.{PutsLine};
ghost use Rattle.bgp_json.specs.Object.{json_line};
ghost use Rattle.bgp_json.specs.RecordJson.{IsFrameLine, IsPlacedLine, place_at};
ghost use Rattle.bgp_json.specs.Telling.{Knows, ShowsJson};
ghost use Rattle.bgp_lines.specs.Telling.{placed_as};

use crate::message::put_json_frame;
use crate::others::put_json_change;
use crate::place::{Place, RecordPlace};
use crate::record::put_json_message;
use bgp_prefix::{Seconds, Session};
use bgp_text::Lines;
use bgp_values::{Direction, Opens};
use bgp_wire::{Limit, MessageType};
use mrt::{Record, Sink};
use std::alloc::{AllocError, Allocator};

/// Puts the lines of the messages of a session one after another as JSON. It knows what the OPENs
/// before settle. It is small, and its lines are made in memory.
///
/// ```text
/// let mut teller = JsonTeller::new(false);
/// teller.put_frame(&mut lines, alloc, Direction::Received, offset, kind, frame)?;
/// ```
#[derive(Clone, Copy, Debug, PartialEq, Eq)]
pub struct JsonTeller {
    /// AS numbers in AS_PATH and AGGREGATOR have two octets, whatever the OPENs offer.
    as2: bool,
    opens: Opens,
}

/// Returns the place of a record with this number.
fn place_at(number: u64, second: Seconds, packet: Option<u64>) -> RecordPlace
    ensures { result ≡ place_at number second packet }
{
    RecordPlace {
        number,
        second,
        packet,
    }
}

/// Takes what a record shows.
fn take_record(opens: &mut Opens, shown: &Record<'_>)
    ensures { (before : Before) → AreOpens before.received before.sent opens.old
        → AreOpens (before_behind (shown_of shown.now) before).received
        (before_behind (shown_of shown.now) before).sent opens.new }
{
    match shown {
        Record::In(_, octets) => opens.take(Direction::Received, octets),
        Record::Out(_, octets) => opens.take(Direction::Sent, octets),
        Record::Change(_, _, _) => {}
    }
}

/// Puts the line of a record, which has this number.
fn put_shown<A: Allocator + Copy, W: Sink>(
    lines: &mut Lines<'_, W>,
    alloc: A,
    opens: &Opens,
    as2: bool,
    session: &Session,
    number: u64,
    packet: Option<u64>,
    shown: &Record<'_>,
) -> Result<(), AllocError>
    requires { (last : Option ℕ) × IsAllowed session.now last (shown_of shown.now) }
    ensures { (value : Json)
        × ShowsJson session.now opens.now as2 number packet (shown_of shown.now) value
        × PutsLine result lines.old lines.new (json_line value) }
{
    let limit = Limit::with_extended(session.extended);
    match shown {
        Record::In(second, octets) => {
            let reading = opens.reading(as2, Direction::Received);
            let place = Place::InRecord(place_at(number, *second, packet), Direction::Received);
            put_json_message(lines, alloc, reading, limit, place, octets)
        }
        Record::Out(second, octets) => {
            let reading = opens.reading(as2, Direction::Sent);
            let place = Place::InRecord(place_at(number, *second, packet), Direction::Sent);
            put_json_message(lines, alloc, reading, limit, place, octets)
        }
        Record::Change(second, old, new) => {
            put_json_change(lines, alloc, place_at(number, *second, packet), *old, *new)
        }
    }
}

impl JsonTeller {
    /// Starts before the first message. With `as2` AS numbers have two octets, whatever the OPENs
    /// offer.
    pub fn new(as2: bool) -> JsonTeller
        ensures as2 { result.as2 ≡ as2 }
        ensures knows { Knows result nothing_before }
    {
        JsonTeller {
            as2,
            opens: Opens::new(),
        }
    }

    /// Puts the line of the next message, a frame that went this way, stands at this offset, and
    /// whose header says this type. If memory is refused, it puts nothing.
    pub fn put_frame<A: Allocator + Copy, W: Sink>(
        &mut self,
        lines: &mut Lines<'_, W>,
        alloc: A,
        direction: Direction,
        offset: u64,
        kind: MessageType,
        frame: &[u8],
    ) -> Result<(), AllocError>
        requires kind { type_code kind ≡ type_of (header_of frame.now) }
        requires header { 19 ≤ length frame.now }
        requires says { (form : RouteForm) → (message : Message) × Says form frame.now message }
        ensures as2 { self.new.as2 ≡ self.old.as2 }
        ensures line { (before : Before) → Knows self.old before
            → (line : List ℕ) × IsFrameLine before self.old.as2 direction offset frame.now line
            × PutsLine result lines.old lines.new line }
        ensures knows { (before : Before) → Knows self.old before
            → Knows self.new (before_with direction frame.now before) }
    {
        let reading = self.opens.reading(self.as2, direction);
        self.opens.take(direction, frame);
        put_json_frame(lines, alloc, reading, Place::InStream(offset), kind, frame)
    }

    /// Puts the line of the next record, which a capture of the session may have and which has this
    /// number. It names the packet, if one is given. If memory is refused, it puts nothing.
    pub fn put_record<A: Allocator + Copy, W: Sink>(
        &mut self,
        lines: &mut Lines<'_, W>,
        alloc: A,
        session: &Session,
        number: u64,
        packet: Option<u64>,
        shown: &Record<'_>,
    ) -> Result<(), AllocError>
        requires { (last : Option ℕ) × IsAllowed session.now last (shown_of shown.now) }
        ensures as2 { self.new.as2 ≡ self.old.as2 }
        ensures line { (before : Before) → Knows self.old before
            → (line : List ℕ)
            × IsPlacedLine session.now before self.old.as2 number
            (placed_as packet (shown_of shown.now)) line
            × PutsLine result lines.old lines.new line }
        ensures knows { (before : Before) → Knows self.old before
            → Knows self.new (before_behind (shown_of shown.now) before) }
    {
        let opens = self.opens;
        take_record(&mut self.opens, shown);
        put_shown(
            lines, alloc, &opens, self.as2, session, number, packet, shown,
        )
    }
}
