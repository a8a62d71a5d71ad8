//! The state that the records tell, and what was sent already.

ghost use Rattle.bgp_text.specs.Lines.{Writes};
ghost use Rattle.bgp_why.specs.State.{already_line, another_as_line, as_text, since_text};
ghost use Rattle.bgp_why.specs.State.{sent_line, state_line};

use crate::place::{Place, put_place_at};
use crate::style::Style;
use bgp_machine::Fsm;
use bgp_prefix::Seconds;
use bgp_text::Lines;
use bgp_why_parts::{put_full_code, put_state_name};
use mrt::Sink;

/// AS_TRANS, which stands for an AS number of four octets (RFC 6793, 9).
const AS_TRANS: u32 = 23456;

/// The record that shows the change to a state, if there is one.
fn put_since<W: Sink>(lines: &mut Lines<'_, W>, first: Seconds, since: Option<Place>)
    ensures { Writes lines.old lines.new (since_text first since) }
{
    match since {
        None => lines.put(b""),
        Some(place) => {
            lines.put(b" since ");
            put_place_at(lines, first, &place);
        }
    }
}

/// Puts `state: NAME since PLACE, TIME`: the state after the last change, and the record that shows
/// this change; or `state: Idle` if there was no change.
pub fn put_state<W: Sink>(lines: &mut Lines<'_, W>, style: &Style, state: Fsm, since: Option<Place>)
    ensures { Writes lines.old lines.new (state_line style.now.first state since) }
{
    lines.put(b"  state: ");
    put_state_name(lines, state.number());
    put_since(lines, style.first, since);
    lines.put(b"\n");
}

/// A NOTIFICATION that was sent before the impossible one.
#[derive(Clone, Copy, Debug, PartialEq, Eq)]
pub struct SentAlready {
    /// Where its record stands.
    pub place: Place,
    /// Its error code.
    pub code: u8,
    /// Its subcode.
    pub subcode: u8,
}

/// The note on a NOTIFICATION that was sent already.
fn put_sent<W: Sink>(lines: &mut Lines<'_, W>, first: Seconds, sent: &SentAlready)
    ensures { Writes lines.old lines.new (sent_line first sent.now) }
{
    lines.put(b"  note: it had sent NOTIFICATION ");
    put_full_code(lines, sent.code, sent.subcode);
    lines.put(b" already, at ");
    put_place_at(lines, first, &sent.place);
    lines.put(b"\n");
}

/// Puts `note: it had sent NOTIFICATION 6/2 (Cease, Administrative Shutdown) already, at PLACE,
/// TIME`, if one was sent before the impossible one.
pub fn put_sent_already<W: Sink>(lines: &mut Lines<'_, W>, style: &Style, sent: Option<SentAlready>)
    ensures { Writes lines.old lines.new (already_line style.now.first sent) }
{
    match sent {
        None => lines.put(b""),
        Some(sent) => put_sent(lines, style.first, &sent),
    }
}

/// An AS number, and whether it is AS_TRANS.
fn put_as<W: Sink>(lines: &mut Lines<'_, W>, number: u32)
    ensures { Writes lines.old lines.new (as_text number) }
{
    lines.put_decimal(number);
    if number == AS_TRANS {
        lines.put(b" (AS_TRANS)");
    } else {
        lines.put(b"");
    }
}

/// Puts that the lines below are those of a configuration with another AS number of the peer than
/// this one.
pub fn put_another_as<W: Sink>(lines: &mut Lines<'_, W>, number: u32)
    ensures { Writes lines.old lines.new (another_as_line number) }
{
    lines.put(b"  the lines below are for a router configured for a peer in another AS than ");
    put_as(lines, number);
    lines.put(b"\n");
}
