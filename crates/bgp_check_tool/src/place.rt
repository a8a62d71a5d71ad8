//! Where a record of a recording stands.

ghost use Rattle.std.specs.Prelude.{◌≡◌, option_map};
ghost use Rattle.bgp_prefix.specs.Shown.{second_of};
ghost use Rattle.mrt.specs.Reader.{shown_of};
ghost use Rattle.bgp_check_tool.specs.Place.{last_place, place_at, second_at, sent_place};

use crate::orders::NoOrder;
use bgp_check_lines::entry_place;
use bgp_prefix::Seconds;
use bgp_recording::Entry;
use bgp_why::Place;
use mrt::Record;

/// Returns a record's second.
fn second_of(shown: &Record<'_>) -> Seconds
    ensures { result ≡ second_of (shown_of shown.now) }
{
    match *shown {
        Record::In(second, _) | Record::Out(second, _) => second,
        Record::Change(second, _, _) => second,
    }
}

/// Returns the second of the record after so many, and 0 if there is none.
pub(crate) fn second_at(entries: &[Entry<'_>], count: usize) -> Seconds
    ensures { result ≡ second_at entries.now count }
{
    match entries.get(count) {
        Some(entry) => second_of(&entry.record),
        None => 0,
    }
}

/// Returns where the record after so many stands; nowhere if there is none.
pub(crate) fn place_at(entries: &[Entry<'_>], count: usize) -> Place
    ensures { result ≡ place_at entries.now count }
{
    match entries.get(count) {
        Some(entry) => entry_place(count as u64 + 1, entry),
        None => Place {
            number: 0,
            packet: None,
            second: 0,
            micro: None,
        },
    }
}

/// Returns where the last record stands.
pub(crate) fn last_place(entries: &[Entry<'_>]) -> Place
    ensures { result ≡ last_place entries.now }
{
    place_at(entries, entries.len().saturating_sub(1))
}

/// Returns where the sent message stands that no order explains.
pub(crate) fn sent_place(found: &NoOrder<'_>) -> Place
    ensures { result ≡ sent_place found.now }
{
    Place {
        number: 0,
        packet: Some(found.unexplained.packet),
        second: found.message.second,
        micro: found.message.micro,
    }
}
