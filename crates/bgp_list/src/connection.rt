//! The lines of a connection, and those of what is refused in a recording.

ghost use Rattle.std.specs.Prelude.{◌≡◌, option_map};
ghost use Rattle.bgp_text.specs.Lines.{Writes};
ghost use Rattle.bgp_ended.specs.Values.{ended_value, outline_value};
ghost use Rattle.bgp_list.specs.Connections.{as_of, as_text, connection_text, end_line};
ghost use Rattle.bgp_list.specs.Connections.{endpoint_of, first_text, number_text, numbered_text};
ghost use Rattle.bgp_list.specs.Connections.{octets_text, opening_text, outlined_text};
ghost use Rattle.bgp_list.specs.Connections.{place_text, reason_text, refused_text, side_text};
ghost use Rattle.bgp_list.specs.Connections.{refused_between_text, refused_connection_text};

use crate::cause::cause_of;
use bgp_clock::put_when;
use bgp_ended::{Ended, Endpoint, Outline, put_ended, put_endpoint};
use bgp_import::{Refusal, other_side};
use bgp_prefix::Session;
use bgp_text::{Lines, put_address};
use mrt::Sink;
use segments::Addresses;
use streams::{Opening, Side};

/// Returns the end of one of a connection's systems, with its port.
pub fn endpoint_of(side: Side, session: &Session, opening: Opening) -> Endpoint
    ensures { result ≡ endpoint_of side session.now opening }
{
    match side {
        Side::Local => Endpoint {
            address: session.local,
            port: Some(opening.local_port),
        },
        Side::Peer => Endpoint {
            address: session.peer,
            port: Some(opening.peer_port),
        },
    }
}

/// What a connection's line begins with: its number.
fn put_number<W: Sink>(lines: &mut Lines<'_, W>, opening: Opening)
    ensures { Writes lines.old lines.new (number_text opening) }
{
    lines.put(b"connection ");
    lines.put_decimal(opening.number);
    lines.put(b": ");
}

/// The time and the number of its first packet.
fn put_first<W: Sink>(lines: &mut Lines<'_, W>, opening: Opening)
    ensures { Writes lines.old lines.new (first_text opening) }
{
    lines.put(b" at ");
    put_when(lines, opening.second, opening.micro);
    lines.put(b" UTC, packet ");
    lines.put_decimal(opening.packet);
}

/// Its number, its ends, whoever opened it first, and its first packet.
fn put_opening<W: Sink>(lines: &mut Lines<'_, W>, session: &Session, opening: Opening)
    ensures { Writes lines.old lines.new (opening_text session.now opening) }
{
    let from = opening.opened_by;
    put_number(lines, opening);
    put_endpoint(lines, &endpoint_of(from, session, opening));
    lines.put(b" to ");
    put_endpoint(lines, &endpoint_of(other_side(from), session, opening));
    put_first(lines, opening);
}

/// The AS number in the OPEN of one of the systems, if it sent one.
pub(crate) fn as_of(side: Side, outline: &Outline<'_>) -> Option<u32>
    ensures { result ≡ as_of side (outline_value outline.now) }
{
    match side {
        Side::Local => outline.local_as,
        Side::Peer => outline.peer_as,
    }
}

fn put_as<W: Sink>(lines: &mut Lines<'_, W>, number: Option<u32>)
    ensures { Writes lines.old lines.new (as_text number) }
{
    match number {
        Some(number) => {
            lines.put(b"AS ");
            lines.put_decimal(number);
        }
        None => lines.put(b"AS unknown"),
    }
}

/// An end with its AS number.
fn put_numbered<W: Sink>(lines: &mut Lines<'_, W>, end: &Endpoint, number: Option<u32>)
    ensures { Writes lines.old lines.new (numbered_text end.now number) }
{
    put_endpoint(lines, end);
    lines.put(b" (");
    put_as(lines, number);
    lines.put(b")");
}

/// That of one of a connection's systems.
fn put_side<W: Sink>(
    lines: &mut Lines<'_, W>,
    side: Side,
    session: &Session,
    opening: Opening,
    outline: &Outline<'_>,
)
    ensures { Writes lines.old lines.new
        (side_text side session.now opening (outline_value outline.now)) }
{
    let end = endpoint_of(side, session, opening);
    put_numbered(lines, &end, as_of(side, outline));
}

/// Its number, its ends with their AS numbers, and its first packet.
fn put_outlined<W: Sink>(
    lines: &mut Lines<'_, W>,
    session: &Session,
    opening: Opening,
    outline: &Outline<'_>,
)
    ensures { Writes lines.old lines.new
        (outlined_text session.now opening (outline_value outline.now)) }
{
    let opener = opening.opened_by;
    put_number(lines, opening);
    put_side(lines, opener, session, opening, outline);
    lines.put(b" to ");
    put_side(lines, other_side(opener), session, opening, outline);
    put_first(lines, opening);
}

/// How many octets either side sent, whoever opened the connection first.
fn put_octets<W: Sink>(lines: &mut Lines<'_, W>, first: usize, second: usize)
    ensures { Writes lines.old lines.new (octets_text first second) }
{
    lines.put(b", octets sent ");
    lines.put_decimal(first);
    lines.put(b" and ");
    lines.put_decimal(second);
    lines.put(b"\n");
}

/// The line of its end.
fn put_end<W: Sink>(
    lines: &mut Lines<'_, W>,
    session: &Session,
    opening: Opening,
    ended: Option<Ended<'_>>,
)
    ensures { Writes lines.old lines.new
        (end_line session.now opening (option_map ended_value ended.entry)) }
{
    match ended {
        None => lines.put(b"  open at the end of the file\n"),
        Some(ended) => {
            let by = endpoint_of(ended.by, session, opening);
            put_ended(lines, opening.second, &by, &ended);
        }
    }
}

/// Puts the two lines of a connection that isn't refused, of which this is known, whose opener sent
/// so many octets, and the other system so many:
/// `connection 1: 192.0.2.2:44467 (AS 65002) to 192.0.2.1:179 (AS unknown) at 2026-11-22
/// 06:39:58.681502 UTC, packet 3, octets sent 541 and 315`, and below it
/// `  ended at packet 17, 06:38:45.133606, by 192.0.2.1:179: FIN, no NOTIFICATION`, or
/// `  open at the end of the file`.
pub fn put_connection<W: Sink>(
    lines: &mut Lines<'_, W>,
    session: &Session,
    opening: Opening,
    outline: &Outline<'_>,
    first: usize,
    second: usize,
)
    ensures { Writes lines.old lines.new
        (connection_text session.now opening (outline_value outline.now) first second) }
{
    put_outlined(lines, session, opening, outline);
    put_octets(lines, first, second);
    put_end(lines, session, opening, outline.ended);
}

/// At which packet something is refused.
fn put_place<W: Sink>(lines: &mut Lines<'_, W>, refusal: Refusal)
    ensures { Writes lines.old lines.new (place_text refusal) }
{
    lines.put(b"refused at packet ");
    lines.put_decimal(refusal.packet());
}

/// Why it is refused: its number, its name, and what is wrong.
fn put_reason<W: Sink>(lines: &mut Lines<'_, W>, refusal: Refusal)
    ensures { Writes lines.old lines.new (reason_text refusal) }
{
    lines.put(b": ");
    lines.put_decimal(refusal.number());
    lines.put(b" ");
    lines.put(refusal.name().as_bytes());
    lines.put(b", ");
    lines.put(cause_of(refusal).as_bytes());
    lines.put(b"\n");
}

/// Puts the line of what is refused in a recording:
/// `refused at packet 2: 12 NoStart, a side whose SYN is not in the file`.
pub fn put_refused<W: Sink>(lines: &mut Lines<'_, W>, refusal: Refusal)
    ensures { Writes lines.old lines.new (refused_text refusal) }
{
    put_place(lines, refusal);
    put_reason(lines, refusal);
}

/// Puts the two lines of a connection that is refused: its own, without AS numbers and octets, and
/// that of the refusal.
pub fn put_refused_connection<W: Sink>(
    lines: &mut Lines<'_, W>,
    session: &Session,
    opening: Opening,
    refusal: Refusal,
)
    ensures { Writes lines.old lines.new
        (refused_connection_text session.now opening refusal) }
{
    put_opening(lines, session, opening);
    lines.put(b"\n");
    put_refused(lines, refusal);
}

/// Puts the line of two addresses of whose connections none can be told:
/// `refused at packet 6, between 192.0.2.1 and 192.0.2.3: 7 Fragment, a fragment of an IP packet`.
pub fn put_refused_between<W: Sink>(
    lines: &mut Lines<'_, W>,
    addresses: Addresses,
    refusal: Refusal,
)
    ensures { Writes lines.old lines.new (refused_between_text addresses refusal) }
{
    put_place(lines, refusal);
    lines.put(b", between ");
    put_address(lines, addresses.from);
    lines.put(b" and ");
    put_address(lines, addresses.to);
    put_reason(lines, refusal);
}
