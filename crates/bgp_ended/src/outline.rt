//! How a connection ended, and which AS numbers its ends have.

ghost use Rattle.std.specs.Prelude.{◌≡◌, IfOk, IfSome, option_map};
ghost use Rattle.streams.specs.declared.passed.Side.TheVariants.{Peer};
ghost use Rattle.bgp_open.specs.OpenFault.{IsWellFormed};
ghost use Rattle.bgp_check.specs.Answered.{number_of};
ghost use Rattle.bgp_recording.specs.Gathered.{IsCovered};
ghost use Rattle.bgp_ended.specs.Notified.{said_in};
ghost use Rattle.bgp_ended.specs.Offered.{AreSentBy, end_for, sent_by};
ghost use Rattle.bgp_ended.specs.Outline.{IsEndOf, IsOutlineOf, closed_by};
ghost use Rattle.bgp_ended.specs.Values.{ended_value, outline_value};

use crate::ended::{Ended, How, Outline};
use crate::notified::first_notified;
use crate::offered::{framings_by, with_both_offers};
use crate::opens::first_open;
use crate::same_messages::finds_the_same_in;
use bgp_import::{as_number, other_side};
use bgp_recording::{Framed, Framing, Framings, Message, Moment, frame_connection};
use std::alloc::{AllocError, Allocator};
use streams::{Connection, End, Side, Stream};

/// The AS number that a well-formed OPEN tells, if there is one.
fn number_of(octets: Option<&[u8]>) -> Option<u32>
    requires { IfSome octets (λ o. IsWellFormed o.now) }
    ensures { result ≡ number_of (option_map (λ o. o.now) octets.entry) }
{
    let octets = octets?;
    Some(as_number(octets))
}

/// What a FIN or a RST tells of the end.
fn closed_by(end: End) -> Ended<'static>
    ensures { ended_value result ≡ closed_by end }
{
    Ended {
        moment: Moment::of_end(end),
        by: end.side,
        how: How::Closed(end.closing),
    }
}

/// How a connection with these messages and this FIN or RST ended, if it did.
fn end_of<'a>(received: &[Message<'a>], sent: &[Message<'a>], end: Option<End>) -> Option<Ended<'a>>
    ensures { IsEndOf (said_in received.now sent.now) end (option_map ended_value result) }
{
    match first_notified(received, sent) {
        Some(ended) => Some(ended),
        None => match end {
            Some(end) => Some(closed_by(end)),
            None => None,
        },
    }
}

/// Returns the FIN or RST of a connection as the other system has it.
fn other_end(end: Option<End>) -> Option<End>
    ensures { result ≡ end_for Peer end }
{
    let end = end?;
    Some(End {
        side: other_side(end.side),
        ..end
    })
}

/// Returns what this system sent, and the end of the connection as it has that, as a connection in
/// which nothing else was sent.
fn said_alone<'a>(connection: &Connection<'a>, side: Side) -> Connection<'a>
    ensures sent { result.sent ≡ sent_by side connection.now }
    ensures end { result.end ≡ end_for side connection.now.end }
    ensures received { IsCovered result.received }
{
    let nothing = Stream {
        octets: &[],
        runs: &[],
    };
    let (sent, end) = match side {
        Side::Local => (connection.sent, connection.end),
        Side::Peer => (connection.received, other_end(connection.end)),
    };
    Connection {
        received: nothing,
        sent,
        end,
        ..*connection
    }
}

/// Returns the messages that this system sent, framed so.
fn framed_of<'a, A: Allocator + Copy>(
    alloc: A,
    connection: &Connection<'a>,
    side: Side,
    framing: Framing,
) -> Result<Framed<'a, A>, AllocError>
    requires { IsCovered (sent_by side connection.now) }
    ensures { IfOk result (λ framed. AreSentBy side framing connection.now framed.messages.items
        framed.unshown) }
{
    let alone = said_alone(connection, side);
    let framed = frame_connection(alloc, &alone, Framings::alike(framing))?;
    Ok(framed.sent)
}

/// Returns the messages that this system sent, by new rules of framing. Those that the old rules
/// found are known: where both find the same, they aren't framed again.
fn framed_anew<'a, A: Allocator + Copy>(
    alloc: A,
    connection: &Connection<'a>,
    side: Side,
    known: Framed<'a, A>,
    old: Framing,
    new: Framing,
) -> Result<Framed<'a, A>, AllocError>
    requires { IsCovered (sent_by side connection.now) }
    ensures { IfOk result (λ framed. AreSentBy side old connection.now known.entry.messages.items
        known.entry.unshown
        → AreSentBy side new connection.now framed.messages.items framed.unshown) }
{
    if finds_the_same_in(&known, old, new) {
        return Ok(known);
    }
    framed_of(alloc, connection, side, new)
}

/// Returns which AS numbers the ends of a connection have, by the OPENs that they sent, and how it
/// ended, if it did: by the first NOTIFICATION in packet order, of both directions, each framed by
/// what its receiver offers; without one, by the first FIN or RST.
///
/// A NOTIFICATION's packet is the first that shows that it had been made, whichever of both systems
/// sent it.
pub fn outline_of<'a, A: Allocator + Copy>(
    alloc: A,
    connection: &Connection<'a>,
) -> Result<Outline<'a>, AllocError>
    requires received { IsCovered connection.now.received }
    requires sent { IsCovered connection.now.sent }
    ensures { IfOk result (λ outline. IsOutlineOf connection.now (outline_value outline)) }
{
    let looked_in = with_both_offers();
    let sent = framed_of(alloc, connection, Side::Local, looked_in.sent)?;
    let received = framed_of(alloc, connection, Side::Peer, looked_in.received)?;
    let local = first_open(&sent.messages);
    let peers = first_open(&received.messages);
    let by = framings_by(local, peers);
    let sent = framed_anew(
        alloc,
        connection,
        Side::Local,
        sent,
        looked_in.sent,
        by.sent,
    )?;
    let (old, new) = (looked_in.received, by.received);
    let received = framed_anew(alloc, connection, Side::Peer, received, old, new)?;
    Ok(Outline {
        local_as: number_of(local),
        peer_as: number_of(peers),
        ended: end_of(&received.messages, &sent.messages, connection.end),
    })
}
