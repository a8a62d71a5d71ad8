//! The texts of connections and refusals, as a list of connections has them.

ghost use Rattle.std.specs.Prelude.{◌≡◌};
ghost use Rattle.bgp_text.specs.Lines.{Writes};
ghost use Rattle.bgp_import.specs.Refusals.{reason_text, place_text, refusal_line};
ghost use Rattle.bgp_import.specs.ListText.{end_text, end_of, other_side, opening_text};
ghost use Rattle.bgp_import.specs.ListText.{refused_text, octets_text};

use crate::refusal::{Place, Refusal, direction};
use bgp_prefix::Session;
use bgp_text::{Lines, put_address};
use mrt::Sink;
use segments::Endpoint;
use streams::{Opening, Side};

/// The end of one of the systems.
pub fn end_of(side: Side, session: &Session, opening: Opening) -> Endpoint
    ensures { result ≡ end_of side session.now opening }
{
    match side {
        Side::Local => Endpoint {
            address: session.local,
            port: opening.local_port,
        },
        Side::Peer => Endpoint {
            address: session.peer,
            port: opening.peer_port,
        },
    }
}

/// The other one.
pub fn other_side(side: Side) -> Side
    ensures { result ≡ other_side side }
{
    match side {
        Side::Local => Side::Peer,
        Side::Peer => Side::Local,
    }
}

/// An address and a port.
pub fn put_end<W: Sink>(lines: &mut Lines<'_, W>, end: Endpoint)
    ensures { Writes lines.old lines.new (end_text end) }
{
    put_address(lines, end.address);
    lines.put(b" ");
    lines.put_decimal(end.port);
}

/// What a connection's line begins with: its number, its ends, whoever opened it first, and its
/// second.
pub fn put_opening<W: Sink>(lines: &mut Lines<'_, W>, session: &Session, opening: Opening)
    ensures { Writes lines.old lines.new (opening_text session.now opening) }
{
    lines.put(b"connection ");
    lines.put_decimal(opening.number);
    lines.put(b" from ");
    put_end(lines, end_of(opening.opened_by, session, opening));
    lines.put(b" to ");
    put_end(
        lines,
        end_of(other_side(opening.opened_by), session, opening),
    );
    lines.put(b" at ");
    lines.put_decimal(opening.second);
}

/// Why something is refused: `NUMBER NAME at packet N`.
fn put_reason<W: Sink>(lines: &mut Lines<'_, W>, refusal: Refusal)
    ensures { Writes lines.old lines.new (reason_text refusal) }
{
    lines.put_decimal(refusal.number());
    lines.put(b" ");
    lines.put(refusal.name().as_bytes());
    lines.put(b" at packet ");
    lines.put_decimal(refusal.packet());
}

/// What stands in place of a refused connection's octets: `refused NUMBER NAME at packet N`.
pub fn put_refused<W: Sink>(lines: &mut Lines<'_, W>, refusal: Refusal)
    ensures { Writes lines.old lines.new (refused_text refusal) }
{
    lines.put(b"refused ");
    put_reason(lines, refusal);
}

/// The octet that a refusal names, if it names one.
fn put_place<W: Sink>(lines: &mut Lines<'_, W>, place: Option<Place>)
    ensures { Writes lines.old lines.new (place_text place) }
{
    match place {
        Some(Place { from, octet }) => {
            lines.put(b" ");
            lines.put(direction(from).as_bytes());
            lines.put(b" octet ");
            lines.put_decimal(octet);
        }
        None => lines.put(b""),
    }
}

/// The line of a refusal: `recording refused: NUMBER NAME at packet N`, and the octet that it
/// names.
pub fn put_refusal<W: Sink>(lines: &mut Lines<'_, W>, refusal: Refusal)
    ensures { Writes lines.old lines.new (refusal_line refusal) }
{
    lines.put(b"recording refused: ");
    put_reason(lines, refusal);
    put_place(lines, refusal.place());
    lines.put(b"\n");
}

/// How many octets either side sent, whoever opened the connection first.
pub fn put_counts<W: Sink>(lines: &mut Lines<'_, W>, first: usize, second: usize)
    ensures { Writes lines.old lines.new (octets_text first second) }
{
    lines.put(b"octets ");
    lines.put_decimal(first);
    lines.put(b" ");
    lines.put_decimal(second);
}
