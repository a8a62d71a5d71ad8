//! The capture that is made of a connection.

ghost use Rattle.std.specs.Prelude.{◌≡◌, ◌<◌, ◌≤◌, ℕ, List, Some, None};
ghost use Rattle.std.specs.Prelude.{IfSome, IfNone, OnOk, OnErr};
ghost use Rattle.std.specs.List.{AllByRecursion};
ghost use Rattle.mrt.specs.Failures.{failures_after};
ghost use Rattle.mrt.specs.Sink.{TakesBeginning};
ghost use Rattle.bgp_import.specs.Captures.{CanBeWritten, message_from, IsAsNumberOf};
ghost use Rattle.bgp_import.specs.Captures.{AreAsNumbers, shown_by, counted, made_by};
ghost use Rattle.bgp_import.specs.Captures.{entries_octets, IsCapture, put_off};

use crate::note::Notes;
use crate::sender::as_number;
use bgp_prefix::Session;
use bgp_recording::{Entry, Recording};
use mrt::{Failed, Record, Sink, write_record};
use std::alloc::Allocator;
use streams::Side;

/// The AS numbers of both systems.
#[derive(Clone, Copy)]
pub(crate) struct AsNumbers {
    peer: u32,
    local: u32,
}

/// The octets of a record's message, if this system sent it.
pub(crate) fn message_from<'a>(entry: Entry<'a>, from: Side) -> Option<&'a [u8]>
    ensures some { IfSome result (λ octets. message_from from entry.entry ≡ Some octets.now) }
    ensures none { IfNone result (message_from from entry.entry ≡ None) }
{
    match (entry.record, from) {
        (Record::In(_, octets), Side::Peer) | (Record::Out(_, octets), Side::Local) => Some(octets),
        _ => None,
    }
}

/// The AS number of one of the systems: by its first message, and 0 where it has none.
fn as_number_of(entries: &[Entry<'_>], from: Side) -> u32
    ensures { IsAsNumberOf from entries.now result }
{
    for entry in entries {
        match message_from(*entry, from) {
            Some(octets) => return as_number(octets),
            None => {}
        }
    }
    0
}

/// The AS numbers of both systems.
fn as_numbers(entries: &[Entry<'_>]) -> AsNumbers
    ensures { AreAsNumbers entries.now result }
{
    AsNumbers {
        peer: as_number_of(entries, Side::Peer),
        local: as_number_of(entries, Side::Local),
    }
}

/// Writes the records of entries, one after another. After a failure a beginning of their octets
/// was written.
fn write_entries<W: Sink>(
    sink: &mut W,
    session: &Session,
    numbers: AsNumbers,
    entries: &[Entry<'_>],
) -> Result<(), Failed>
    requires failures { W.failures sink.old < u64.MAX }
    requires writable { AllByRecursion (CanBeWritten session.now) entries.now }
    ensures ok { OnOk result (W.takes sink.old sink.new
        (entries_octets session.now numbers entries.now)) }
    ensures err { OnErr result (TakesBeginning W.takes sink.old sink.new
        (entries_octets session.now numbers entries.now)) }
    ensures failures { W.failures sink.new ≡ failures_after (W.failures sink.old) result }
{
    for entry in entries {
        match write_record(sink, session, numbers.peer, numbers.local, &entry.record) {
            Ok(()) => {}
            Err(_) => return Err(Failed),
        }
    }
    Ok(())
}

/// Writes the capture of these entries: their records one after another, with the AS numbers that
/// the first message of either system tells. After a failure a beginning of it was written.
///
/// It needs that the records can be written: both addresses are of one family, as those of a packet
/// are, and no message is longer than the session's may be.
pub fn write_capture<W: Sink>(
    sink: &mut W,
    session: &Session,
    entries: &[Entry<'_>],
) -> Result<(), Failed>
    requires failures { W.failures sink.old < u64.MAX }
    requires writable { AllByRecursion (CanBeWritten session.now) entries.now }
    ensures ok { OnOk result ((octets : List ℕ) × IsCapture session.now entries.now octets
        × W.takes sink.old sink.new octets) }
    ensures err { OnErr result ((octets : List ℕ) × IsCapture session.now entries.now octets
        × TakesBeginning W.takes sink.old sink.new octets) }
    ensures failures { W.failures sink.new ≡ failures_after (W.failures sink.old) result }
{
    write_entries(sink, session, as_numbers(entries), entries)
}

/// 1 of a received message that came by a packet before this one, and else 0.
fn counted(made: u64, entry: &Entry<'_>) -> usize
    ensures count { result ≡ counted made entry.now.packet (shown_by entry.now) }
    ensures few { result ≤ 1 }
{
    match entry.record {
        Record::In(..) if entry.packet < made => 1,
        _ => 0,
    }
}

/// The latest of this packet and of that by which a message was made.
fn made_by(made: u64, entry: &Entry<'_>) -> u64
    ensures { result ≡ made_by made entry.now.packet (shown_by entry.now) }
{
    match entry.record {
        Record::Out(..) => entry.packet.max(made),
        _ => made,
    }
}

/// How many received messages stand after a sent one that was made by a packet after the one by
/// which they came.
fn count_put_off(entries: &[Entry<'_>]) -> usize
    ensures { result ≡ put_off 0 entries.now }
{
    let mut count = 0;
    let mut made = 0;
    for entry in entries {
        count += counted(made, entry);
        made = made_by(made, entry);
    }
    count
}

/// What there is to tell of a capture that is made of a connection.
pub fn notes_on<A: Allocator>(made: &Recording<'_, A>) -> Notes
    ensures received { result.received ≡ made.now.received }
    ensures sent { result.sent ≡ made.now.sent }
    ensures put_off { result.put_off ≡ put_off 0 made.now.entries.items }
{
    Notes {
        received: made.received,
        sent: made.sent,
        put_off: count_put_off(made.entries.as_slice()),
    }
}
