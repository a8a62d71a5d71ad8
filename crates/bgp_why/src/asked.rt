//! What the message that was received last asks for (RFC 4271, 6 and 8.2.2).

ghost use Rattle.std.specs.Prelude.{◌≡◌, ◌≤◌, ◌||◌, ◌⊎◌, length};
ghost use Rattle.bgp_wire.specs.Framing.{IsFrame, IsFaulty};
ghost use Rattle.bgp_machine.specs.Heard.{received_limit};
ghost use Rattle.bgp_text.specs.Lines.{Writes};
ghost use Rattle.bgp_why.specs.Asked.{Asks, asked_text, in_use_text, keepalive_text};
ghost use Rattle.bgp_why.specs.Asked.{last_received_line, link_text, received_text};
ghost use Rattle.bgp_why.specs.Asked.{unexpected_text, update_text, width_text};
ghost use Rattle.bgp_why.specs.Message.{IsNamed};

use crate::message::{MessageName, put_name};
use crate::place::{Place, put_place_at};
use crate::reasons::put_reasons;
use crate::refusal::{OpenReasons, open_reasons};
use crate::style::Style;
use bgp_machine::{Fsm, Heard, hear, received_limit};
use bgp_open::{Config, Families, Link, RouteForm};
use bgp_prefix::Seconds;
use bgp_text::Lines;
use bgp_why_parts::put_state_name;
use mrt::Sink;

/// A message that was received, as far as it decides what it asks for.
#[derive(Clone, Copy)]
pub enum Received {
    /// Its header has faults.
    FaultyHeader,
    /// An OPEN that need not be refused, and what both OPENs settle.
    ValidOpen(Link),
    /// An OPEN that has to be refused, and why.
    InvalidOpen(OpenReasons),
    /// An UPDATE.
    Update,
    /// A KEEPALIVE.
    Keepalive,
    /// A NOTIFICATION.
    Notification,
}

/// What a message asks for in a state.
#[derive(Clone, Copy)]
pub struct Asked {
    /// The state.
    pub state: Fsm,
    /// How the message is called.
    pub name: MessageName,
    /// The message.
    pub message: Received,
}

/// What a message is.
fn read_message(config: &Config, octets: &[u8]) -> Received
    ensures { 19 ≤ length octets.now → Asks config.now octets.now result }
{
    match hear(config, octets) {
        Heard::TooShort => Received::FaultyHeader,
        Heard::FaultyHeader(_) => Received::FaultyHeader,
        Heard::ValidOpen(link, _) => Received::ValidOpen(link),
        Heard::InvalidOpen(_) => Received::InvalidOpen(open_reasons(config, octets)),
        Heard::Update => Received::Update,
        Heard::Keepalive => Received::Keepalive,
        Heard::BadVersion | Heard::Notification => Received::Notification,
    }
}

impl Asked {
    /// What a message's octets ask for in a state. Routes are spelled in this form. Of fewer octets
    /// than a header has nothing is said, and of those that are no whole message no name.
    pub fn of(config: &Config, form: RouteForm, state: Fsm, octets: &[u8]) -> Asked
        ensures state { result.state ≡ state }
        ensures name { IsFrame (received_limit config.now) octets.now
            ⊎ IsFaulty (received_limit config.now) octets.now
            → IsNamed form (received_limit config.now) octets.now result.name }
        ensures asks { 19 ≤ length octets.now → Asks config.now octets.now result.message }
    {
        Asked {
            state,
            name: MessageName::of(received_limit(config), form, octets),
            message: read_message(config, octets),
        }
    }
}

/// How many octets AS numbers have.
fn width_text(as4: bool) -> &'static [u8]
    ensures { result.now ≡ width_text as4 }
{
    if as4 {
        b", AS numbers of 4 octets, "
    } else {
        b", AS numbers of 2 octets, "
    }
}

/// Whether there is a family.
pub(crate) fn has_some(families: Families) -> bool
    ensures { result ≡ (families.v4 || families.v6) }
{
    families.v4 || families.v6
}

/// The families that are in use.
fn in_use_text(families: Families) -> &'static str
    ensures { result.now ≡ in_use_text families }
{
    match (families.v4, families.v6) {
        (false, false) => "no address family",
        (true, false) => "IPv4",
        (false, true) => "IPv6",
        (true, true) => "IPv4 and IPv6",
    }
}

/// What both OPENs settle.
fn put_link<W: Sink>(lines: &mut Lines<'_, W>, link: &Link)
    ensures { Writes lines.old lines.new (link_text link.now) }
{
    lines.put(b": valid; the session then has Hold Time ");
    lines.put_decimal(link.hold);
    lines.put(width_text(link.as4));
    lines.put(in_use_text(link.families).as_bytes());
}

/// That a state takes no message of this type.
fn put_unexpected<W: Sink>(lines: &mut Lines<'_, W>, state: Fsm)
    ensures { Writes lines.old lines.new (unexpected_text state) }
{
    lines.put(b": unexpected in ");
    put_state_name(lines, state.number());
}

/// What a KEEPALIVE asks for.
fn put_keepalive<W: Sink>(lines: &mut Lines<'_, W>, state: Fsm)
    ensures { Writes lines.old lines.new (keepalive_text state) }
{
    match state {
        Fsm::OpenConfirm | Fsm::Established => {}
        _ => put_unexpected(lines, state),
    }
}

/// What an UPDATE asks for.
fn put_update<W: Sink>(lines: &mut Lines<'_, W>, state: Fsm)
    ensures { Writes lines.old lines.new (update_text state) }
{
    match state {
        Fsm::Established => {}
        _ => put_unexpected(lines, state),
    }
}

/// Puts what a message asks for in a state, where the peer's AS number may be free, after the
/// message's name: `: ends the session`, or nothing.
pub fn put_asked<W: Sink>(lines: &mut Lines<'_, W>, is_free: bool, state: Fsm, message: &Received)
    ensures { Writes lines.old lines.new (asked_text is_free state message.now) }
{
    match message {
        Received::FaultyHeader => lines.put(b""),
        Received::ValidOpen(link) => put_link(lines, link),
        Received::InvalidOpen(reasons) => {
            lines.put(b": invalid; it has ");
            put_reasons(lines, is_free, reasons);
        }
        Received::Update => put_update(lines, state),
        Received::Keepalive => put_keepalive(lines, state),
        Received::Notification => lines.put(b": ends the session"),
    }
}

/// Puts `last received: PLACE, TIME, NAME`.
pub(crate) fn put_received<W: Sink>(
    lines: &mut Lines<'_, W>,
    first: Seconds,
    place: &Place,
    name: &MessageName,
)
    ensures { Writes lines.old lines.new (received_text first place.now name.now) }
{
    lines.put(b"last received: ");
    put_place_at(lines, first, place);
    lines.put(b", ");
    put_name(lines, name);
}

/// Puts `last received: PLACE, TIME, NAME ASKED`: where the record stands that holds the message,
/// how it is called, and what it asks for.
pub fn put_last_received<W: Sink>(
    lines: &mut Lines<'_, W>,
    style: &Style,
    place: &Place,
    asked: &Asked,
)
    ensures { Writes lines.old lines.new (last_received_line style.now place.now asked.now) }
{
    lines.put(b"  ");
    put_received(lines, style.first, place, &asked.name);
    put_asked(lines, style.peer_as_is_free, asked.state, &asked.message);
    lines.put(b"\n");
}
