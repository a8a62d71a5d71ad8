//! The line of a session.

ghost use Rattle.std.specs.Prelude.{◌≡◌, map};
ghost use Rattle.bgp_text.specs.Lines.{Writes};
ghost use Rattle.mrt_sessions.specs.Counts.{counts_in};
ghost use Rattle.mrt_sessions.specs.Located.{located};
ghost use Rattle.bgp_list.specs.Sessions.{counts_text, first_second, last_second};
ghost use Rattle.bgp_list.specs.Sessions.{session_line, times_text};

use bgp_clock::{put_short, put_when};
use bgp_prefix::Seconds;
use bgp_text::{Lines, put_address};
use mrt::Sink;
use mrt_sessions::{Addresses, Counts, NamedRecord};

/// Returns the second of the first of these records, 0 if there is none: a time of the same day is
/// told without its date.
pub fn first_second(records: &[NamedRecord<'_>]) -> Seconds
    ensures { result ≡ first_second (map located records.now) }
{
    match records.first() {
        Some(named) => named.header().second,
        None => 0,
    }
}

/// That of the last one.
pub(crate) fn last_second(records: &[NamedRecord<'_>]) -> Seconds
    ensures { result ≡ last_second (map located records.now) }
{
    match records.last() {
        Some(named) => named.header().second,
        None => 0,
    }
}

/// How many records there are of each direction.
fn put_counts<W: Sink>(lines: &mut Lines<'_, W>, counts: Counts)
    ensures { Writes lines.old lines.new (counts_text counts) }
{
    lines.put(b"received ");
    lines.put_decimal(counts.received);
    lines.put(b", sent ");
    lines.put_decimal(counts.sent);
    lines.put(b", changes of state ");
    lines.put_decimal(counts.changes);
}

/// The times of the first and of the last record.
fn put_times<W: Sink>(lines: &mut Lines<'_, W>, first: Seconds, last: Seconds)
    ensures { Writes lines.old lines.new (times_text first last) }
{
    put_when(lines, first, None);
    lines.put(b" to ");
    put_short(lines, first, last, None);
    lines.put(b" UTC");
}

/// Puts the line of a session with these records: the times of the first and of the last, how many
/// records there are, and how many of each direction, faulty or not:
/// `session: 192.0.2.1 with peer 192.0.2.2, 1970-01-01 00:01:40 to 00:01:51 UTC, records 18:
/// received 5, sent 5, changes of state 8`.
pub fn put_session<W: Sink>(
    lines: &mut Lines<'_, W>,
    addresses: Addresses,
    records: &[NamedRecord<'_>],
)
    ensures { Writes lines.old lines.new (session_line addresses (map located records.now)) }
{
    lines.put(b"session: ");
    put_address(lines, addresses.local);
    lines.put(b" with peer ");
    put_address(lines, addresses.peer);
    lines.put(b", ");
    put_times(lines, first_second(records), last_second(records));
    lines.put(b", records ");
    lines.put_decimal(records.len());
    lines.put(b": ");
    put_counts(lines, Counts::of(records));
    lines.put(b"\n");
}
