//! The lines of a list.

ghost use Rattle.std.specs.Prelude.{◌≡◌, IfOk, List};
ghost use Rattle.packets.specs.Packet.{Recorded};
ghost use Rattle.streams.specs.Held.{HoldsConnections};
ghost use Rattle.streams.specs.Passed.{Segment};
ghost use Rattle.bgp_import.specs.Listed.{CanBeTold, IsListed};
ghost use Rattle.bgp_import.specs.Talks.{AreHeld};
ghost use Rattle.json.specs.Tree.{json_tokens};
ghost use Rattle.bgp_text.specs.Lines.{Writes};
ghost use Rattle.bgp_json_values.specs.Adding.{Adds};

use crate::connection::{put_connection, put_refused_between, put_refused_connection};
use crate::connection_json::{write_connection, write_refused_between, write_refused_connection};
use bgp_ended::{Outline, outline_of};
use bgp_import::{Listed, Refusal, octets_from, other_side, refused, selection_of};
use bgp_json_values::Writer;
use bgp_prefix::Session;
use bgp_text::Lines;
use mrt::Sink;
use segments::Addresses;
use std::alloc::{AllocError, Allocator};
use streams::{Connections, Opening};

/// A line of a list.
#[derive(Clone, Copy, Debug)]
pub enum Line<'a> {
    /// A connection: what is known of it, how many octets whoever opened it sent, and how many the
    /// other.
    Octets(Session, Opening, Outline<'a>, usize, usize),
    /// A connection that is refused.
    Refused(Session, Opening, Refusal),
    /// Two addresses of whose connections none can be told.
    AllRefused(Addresses, Refusal),
}

impl<'a> Line<'a> {
    ghost use Rattle.bgp_list.specs.Forms.{line_json};
    ghost use Rattle.bgp_list.specs.Lines.{IsLineAt, IsLineOf, line_text, line_value, refusal_in};

    /// That of the connection of these that was opened so. `AllocError` is answered where there is
    /// no memory to read its streams.
    fn of<A: Allocator + Copy>(
        alloc: A,
        last_packet: u64,
        session: Session,
        connections: &'a Connections<A>,
        opening: Opening,
    ) -> Result<Line<'a>, AllocError>
        requires { AreHeld connections.now }
        ensures { (segments : List Segment) → HoldsConnections segments connections.entry.now
            → IfOk result (λ line.
            IsLineOf last_packet segments session opening (line_value line)) }
    {
        let connection = match connections.choose(Some(opening.number), last_packet) {
            Ok(connection) => connection,
            Err(fault) => {
                return Ok(Line::Refused(session, opening, Refusal::Connection(fault)));
            }
        };
        let outline = outline_of(alloc, &connection)?;
        let from = opening.opened_by;
        Ok(Line::Octets(
            session,
            opening,
            outline,
            octets_from(from, &connection),
            octets_from(other_side(from), &connection),
        ))
    }

    /// That of what is listed at this packet.
    pub(crate) fn at<A: Allocator + Copy>(
        alloc: A,
        port: u16,
        last_packet: u64,
        packet: u64,
        listed: &Listed<'a, A>,
    ) -> Result<Line<'a>, AllocError>
        requires { CanBeTold listed.now }
        ensures { (packets : List Recorded) → IsListed port packets packet listed.now
            → IfOk result (λ line. IsLineAt port packets last_packet packet (line_value line)) }
    {
        match *listed {
            Listed::Connection(addresses, talk, opening) => {
                let session = selection_of(addresses, port).session;
                Line::of(alloc, last_packet, session, &talk.connections, opening)
            }
            Listed::Refused(addresses, fault) => {
                Ok(Line::AllRefused(addresses, refused(fault, packet)))
            }
        }
    }

    /// The refusal in it, if there is one.
    pub(crate) fn refusal(&self) -> Option<Refusal>
        ensures { result ≡ refusal_in (line_value self.now) }
    {
        match *self {
            Line::Octets(..) => None,
            Line::Refused(_, _, refusal) | Line::AllRefused(_, refusal) => Some(refusal),
        }
    }

    /// Puts it.
    pub(crate) fn put<W: Sink>(&self, lines: &mut Lines<'_, W>)
        ensures { Writes lines.old lines.new (line_text (line_value self.now)) }
    {
        match self {
            Line::Octets(session, opening, outline, first, second) => {
                put_connection(lines, session, *opening, outline, *first, *second);
            }
            Line::Refused(session, opening, refusal) => {
                put_refused_connection(lines, session, *opening, *refusal);
            }
            Line::AllRefused(addresses, refusal) => {
                put_refused_between(lines, *addresses, *refusal);
            }
        }
    }

    /// Writes its object.
    pub fn write<A: Allocator + Copy>(
        &self,
        writer: &mut Writer<A>,
        alloc: A,
    ) -> Result<(), AllocError>
        ensures { Adds result writer.old writer.new
            (json_tokens (line_json (line_value self.now))) }
    {
        match self {
            Line::Octets(session, opening, outline, first, second) => {
                write_connection(writer, alloc, session, *opening, outline, *first, *second)
            }
            Line::Refused(session, opening, refusal) => {
                write_refused_connection(writer, alloc, session, *opening, *refusal)
            }
            Line::AllRefused(addresses, refusal) => {
                write_refused_between(writer, alloc, *addresses, *refusal)
            }
        }
    }
}
