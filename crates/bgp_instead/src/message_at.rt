//! Whether a record of a recording is that of a sent message, and which.

ghost use Rattle.std.specs.Prelude.{◌≡◌, count_by};
ghost use Rattle.bgp_prefix.specs.Shown.{second_of};
ghost use Rattle.mrt.specs.Reader.{shown_of};
ghost use Rattle.bgp_instead.specs.MessageAt.{is_message_at, second_at, sends};

use bgp_prefix::Seconds;
use bgp_recording::Entry;
use mrt::Record;

/// Checks whether a record is that of a message that was sent.
fn sends(entry: &Entry<'_>) -> bool
    ensures { result ≡ sends entry.now }
{
    match entry.record {
        Record::Out(..) => true,
        Record::In(..) | Record::Change(..) => false,
    }
}

/// Counts the messages that were sent.
fn count_sent(entries: &[Entry<'_>]) -> usize
    ensures { result ≡ count_by sends entries.now }
{
    let mut count = 0;
    for entry in entries {
        if sends(entry) {
            count += 1;
        }
    }
    count
}

/// Checks whether the record after so many is the sent message before which so many sent ones
/// stand.
pub fn is_message_at(entries: &[Entry<'_>], count: usize, before: usize) -> bool
    ensures { result ≡ is_message_at entries.now count before }
{
    match entries.get(count) {
        Some(entry) => sends(entry) && count_sent(&entries[..count]) == before,
        None => false,
    }
}

/// Returns a record's second.
fn second_of(shown: &Record<'_>) -> Seconds
    ensures { result ≡ second_of (shown_of shown.now) }
{
    match *shown {
        Record::In(second, _) | Record::Out(second, _) => second,
        Record::Change(second, _, _) => second,
    }
}

/// Returns the second of the record after so many, and 0 if there is none.
pub(crate) fn second_at(entries: &[Entry<'_>], count: usize) -> Seconds
    ensures { result ≡ second_at entries.now count }
{
    match entries.get(count) {
        Some(entry) => second_of(&entry.record),
        None => 0,
    }
}
