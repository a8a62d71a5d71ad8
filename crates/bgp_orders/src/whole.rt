//! The entries of a whole way, of an exchange and over a connection.

ghost use Rattle.std.specs.Prelude.{◌≡◌, IfNone, IfOk, IfSome, map};
ghost use Rattle.mrt.specs.Reader.{shown_of};
ghost use Rattle.bgp_machine.specs.Run.{End as TheEnd, IsComplete};
ghost use Rattle.bgp_recording.specs.Captured.{records_of};
ghost use Rattle.bgp_recording.specs.Gathered.{IsClocked, IsCovered};
ghost use Rattle.bgp_recording.specs.Told.{IsTold};
ghost use Rattle.bgp_orders.specs.Entries.{AreOfAWay};
ghost use Rattle.bgp_orders.specs.Entries.{EntriesShowTheWay, RunsOfEntriesAreWhole};
ghost use Rattle.bgp_orders.specs.Explained.{IsWhole, ShowARun};
ghost use Rattle.bgp_orders.specs.Tracks.{NoneIsFound};
ghost use Rattle.bgp_orders.specs.WholeWays.{AreOfAWayOver, CanHaveEnded, NoneIsFoundOver};

use crate::course::entries_along;
use crate::search::Search;
use crate::tracing::whole_track;
use bgp_open::Config;
use bgp_recording::{Entry, Exchange, Framings, Recording, frame_connection};
use mrt::Record;
use std::alloc::{AllocError, Allocator};
use streams::Connection;

/// Returns the entries of a way for which [`explained_count`](crate::explained_count) says that it
/// is whole: the records of the way, each with the packet that shows it. Some run shows just these
/// records. How it ends the judge says of them; as it ends the session can have ended.
///
/// Returns `None` only if no way is whole, or if more nodes than
/// [`MOST_NODES`](crate::MOST_NODES) are reached, and `AllocError` if memory is refused.
pub fn entries_of_whole_way<'a, A: Allocator + Copy>(
    alloc: A,
    config: &Config,
    exchange: &Exchange<'_, 'a>,
    within: u16,
) -> Result<Option<Vec<Entry<'a>, A>>, AllocError>
    ensures way { IfOk result (λ found. IfSome found (λ entries. IsTold exchange.now
        → AreOfAWay within exchange.now entries.items)) }
    ensures ends { IfOk result (λ found. IfSome found (λ entries. IsTold exchange.now
        → (e : TheEnd) → IsComplete config.now (records_of entries.items) e
        → IsWhole config.now within exchange.now e)) }
    ensures run { IfOk result (λ found. IfSome found (λ entries.
        ShowARun config.now (records_of entries.items))) }
    ensures none { IfOk result (λ found. IfNone found
        (NoneIsFound config.now within exchange.now)) }
{
    runs_of_entries_are_whole();
    let search = Search {
        config: *config,
        exchange: *exchange,
        within,
    };
    match whole_track(alloc, &search)? {
        Some(track) => entries_along(alloc, &search, track.start, track.steps.as_slice()),
        None => Ok(None),
    }
}

/// Returns the records of entries.
fn records_of<'a, A: Allocator>(
    alloc: A,
    entries: &[Entry<'a>],
) -> Result<Vec<Record<'a>, A>, AllocError>
    ensures { IfOk result (λ records. map shown_of records.items ≡ records_of entries.now) }
{
    let mut records = Vec::new(alloc);
    for entry in entries {
        records.push(entry.record)?;
    }
    Ok(records)
}

/// Returns the records of a whole way of a connection's messages, if
/// [`verdict_over_orders`](crate::verdict_over_orders) is a yes: as
/// [`make_records`](bgp_recording::make_records) has those of the made order, and with the same
/// that is left of the streams. The messages of either direction are framed by its rules. Some run
/// shows just these records.
///
/// Returns `None` only if no way is whole, or if more nodes than
/// [`MOST_NODES`](crate::MOST_NODES) are reached, and `AllocError` if memory is refused.
pub fn record_whole_way<'a, A: Allocator + Copy>(
    alloc: A,
    config: &Config,
    connection: &Connection<'a>,
    framings: Framings,
    within: u16,
) -> Result<Option<Recording<'a, A>>, AllocError>
    requires received { IsCovered connection.now.received }
    requires sent { IsCovered connection.now.sent }
    ensures way { IfOk result (λ found. IfSome found (λ made. IsClocked connection.now
        → AreOfAWayOver framings within connection.now made.entries.items made.received
        made.sent)) }
    ensures records { IfOk result (λ found. IfSome found (λ made.
        map shown_of made.records.items ≡ records_of made.entries.items)) }
    ensures ends { IfOk result (λ found. IfSome found (λ made. IsClocked connection.now
        → (e : TheEnd) → IsComplete config.now (map shown_of made.records.items) e
        → CanHaveEnded config.now within framings connection.now e)) }
    ensures run { IfOk result (λ found. IfSome found (λ made.
        ShowARun config.now (map shown_of made.records.items))) }
    ensures none { IfOk result (λ found. IfNone found
        (NoneIsFoundOver config.now within framings connection.now)) }
{
    let framed = frame_connection(alloc, connection, framings)?;
    let exchange = framed.exchange(connection);
    let Some(entries) = entries_of_whole_way(alloc, config, &exchange, within)? else {
        return Ok(None);
    };
    let records = records_of(alloc, &entries)?;
    Ok(Some(Recording {
        entries,
        records,
        received: framed.received.unshown,
        sent: framed.sent.unshown,
    }))
}

/// States that the records of a way's entries are those of the way, and that the session can have
/// ended as a run of the session machine does that shows just these records.
pub fn runs_of_entries_are_whole()
    ensures records { EntriesShowTheWay }
    ensures runs { RunsOfEntriesAreWhole }
{}
