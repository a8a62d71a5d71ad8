//! The messages of a connection, and the records that tell it.

ghost use Rattle.std.specs.Prelude.{◌≡◌, IfOk, map};
ghost use Rattle.mrt.specs.Reader.{shown_of};
ghost use Rattle.bgp_recording.specs.Captured.{records_of};
ghost use Rattle.bgp_recording.specs.Givers.{own_end};
ghost use Rattle.bgp_recording.specs.Gathered.{IsCovered, IsClocked, IsHeard, IsSaid};
ghost use Rattle.bgp_recording.specs.Recorded.{IsExchangeOf, IsRecordedInOrder};

use crate::entry::Entry;
use crate::framing::{Direction, Framed, Framing, Framings, Unshown, split_messages};
use crate::givers::{earliest, latest};
use crate::ordering::{Exchange, made_entries};
use crate::pending::Moment;
use mrt::Record;
use std::alloc::{AllocError, Allocator, Global};
use streams::{Connection, End, Side, Stream};

/// The messages of a connection, whatever order they are handled in.
#[derive(Debug, Drop)]
pub struct FramedConnection<'a, A: Allocator = Global> {
    /// Those that the local system received.
    pub received: Framed<'a, A>,
    /// Those that it sent.
    pub sent: Framed<'a, A>,
}

/// The records of a connection, and what is left of its streams.
#[derive(Debug, Drop)]
pub struct Recording<'a, A: Allocator = Global> {
    /// The records, in the made order, each with the packet that shows it.
    pub entries: Vec<Entry<'a>, A>,
    /// The same records alone, as they are judged.
    pub records: Vec<Record<'a>, A>,
    /// What of the octets that the local system received is in none of them.
    pub received: Unshown,
    /// What of those that it sent.
    pub sent: Unshown,
}

/// The end, where it is the local system's own.
fn own_end(end: Option<End>) -> Option<Moment>
    ensures { result ≡ own_end end }
{
    let end = end?;
    match end.side {
        Side::Local => Some(Moment::of_end(end)),
        Side::Peer => None,
    }
}

/// The messages that the local system received, each with the packet by which it came.
fn received_messages<'a, A: Allocator + Copy>(
    alloc: A,
    framing: Framing,
    stream: &Stream<'a>,
) -> Result<Framed<'a, A>, AllocError>
    requires { IsCovered stream.now }
    ensures { IfOk result (λ framed.
        IsHeard framing stream.now framed.messages.items framed.unshown) }
{
    let givers = latest(alloc, stream.runs)?;
    let framed = split_messages(alloc, framing, stream.octets, &givers, Direction::Received)?;
    Ok(framed)
}

/// Those that it sent, each with the packet by which it is known to have been made.
fn sent_messages<'a, A: Allocator + Copy>(
    alloc: A,
    framing: Framing,
    stream: &Stream<'a>,
    end: Option<End>,
) -> Result<Framed<'a, A>, AllocError>
    requires { IsCovered stream.now }
    ensures { IfOk result (λ framed.
        IsSaid framing stream.now end framed.messages.items framed.unshown) }
{
    let givers = earliest(alloc, stream.runs, own_end(end))?;
    let framed = split_messages(alloc, framing, stream.octets, &givers, Direction::Sent)?;
    Ok(framed)
}

/// The messages in both streams of a connection, those of either direction framed by its rules, each
/// with the packet by which it came or is known to have been made.
pub fn frame_connection<'a, A: Allocator + Copy>(
    alloc: A,
    connection: &Connection<'a>,
    framings: Framings,
) -> Result<FramedConnection<'a, A>, AllocError>
    requires received { IsCovered connection.now.received }
    requires sent { IsCovered connection.now.sent }
    ensures received { IfOk result (λ framed. IsHeard framings.received connection.now.received
        framed.received.messages.items framed.received.unshown) }
    ensures sent { IfOk result (λ framed. IsSaid framings.sent connection.now.sent
        connection.now.end framed.sent.messages.items framed.sent.unshown) }
{
    Ok(FramedConnection {
        received: received_messages(alloc, framings.received, &connection.received)?,
        sent: sent_messages(alloc, framings.sent, &connection.sent, connection.end)?,
    })
}

impl<'a, A: Allocator> FramedConnection<'a, A> {
    /// What packets tell of the session of the connection whose messages these are.
    pub fn exchange<'l>(&'l self, connection: &Connection<'a>) -> Exchange<'l, 'a>
        ensures { IsExchangeOf connection.now self.entry.now.received.messages.items
            self.entry.now.sent.messages.items result }
    {
        Exchange {
            opened_by: connection.opened_by,
            packet: connection.packet,
            second: connection.second,
            micro: connection.micro,
            received: &self.received.messages,
            sent: &self.sent.messages,
            end: connection.end,
        }
    }
}

/// The records of entries.
fn records_of<'a, A: Allocator>(
    alloc: A,
    entries: &[Entry<'a>],
) -> Result<Vec<Record<'a>, A>, AllocError>
    ensures { IfOk result (λ records. map shown_of records.items ≡ records_of entries.now) }
{
    let mut records = Vec::new(alloc);
    for entry in entries {
        records.push(entry.record)?;
    }
    Ok(records)
}

/// The records that tell a connection whose packets' seconds don't fall, the messages of either
/// direction framed by its rules. The order is allowed where a received message is handled within
/// so many seconds after it came. The session begins in Idle, and the changes of state are those to
/// which the order leads.
pub fn make_records<'a, A: Allocator + Copy>(
    alloc: A,
    connection: &Connection<'a>,
    framings: Framings,
    within: u16,
) -> Result<Recording<'a, A>, AllocError>
    requires received { IsCovered connection.now.received }
    requires sent { IsCovered connection.now.sent }
    // Where the packets' seconds don't fall, the records tell the connection.
    ensures told { IfOk result (λ made. IsClocked connection.now → IsRecordedInOrder framings
        within connection.now made.entries.items made.received made.sent) }
    ensures records { IfOk result (λ made.
        map shown_of made.records.items ≡ records_of made.entries.items) }
{
    let framed = frame_connection(alloc, connection, framings)?;
    let entries = made_entries(alloc, framed.exchange(connection), within)?;
    let (received, sent) = (framed.received.unshown, framed.sent.unshown);
    // The messages are let go before the records are listed, so that both never stand in memory.
    drop(framed);
    let records = records_of(alloc, &entries)?;
    Ok(Recording {
        entries,
        records,
        received,
        sent,
    })
}
