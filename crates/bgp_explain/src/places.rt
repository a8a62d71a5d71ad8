//! Where the records that are judged stand.

ghost use Rattle.std.specs.Prelude.{◌≡◌};
ghost use Rattle.bgp_explain.specs.Fractions.{counted};
ghost use Rattle.bgp_explain.specs.Places.{capture_place, entry_place, named_place, numbered_at};
ghost use Rattle.bgp_explain.specs.Places.{place_with, places_of, shown_place};

use crate::fractions::{Fractions, NumberedRecord};
use bgp_prefix::Seconds;
use bgp_recording::Entry;
use bgp_why::Place;

/// Where the records that are judged stand.
#[derive(Clone, Copy)]
pub enum Places<'a> {
    /// As they are counted, from 1: they are all records of a capture's session. Of those that a
    /// reason names these are the fractions of their seconds.
    Counted(&'a Fractions),
    /// So, and shown by the packets of these entries, of which they are the records: at the times of
    /// the packets.
    Shown(&'a [Entry<'a>]),
    /// With these numbers, one after another, and these fractions: other records of their session
    /// stand between them.
    Numbered(&'a [NumberedRecord]),
}

/// Returns the entry with this count, from 1, if there is one.
fn entry_at<'a>(entries: &[Entry<'a>], count: u64) -> Option<Entry<'a>>
    ensures { result ≡ counted entries.now count }
{
    let index = count.checked_sub(1)?;
    Some(*entries.get(index as usize)?)
}

/// Returns a record without a fraction.
fn numbered(number: u64) -> NumberedRecord
    ensures { result ≡ record { number = number; micro = None } }
{
    NumberedRecord {
        number,
        micro: None,
    }
}

/// Returns the number and the fraction with this count, from 1, or the count itself where there are
/// fewer.
fn numbered_at(numbers: &[NumberedRecord], count: u64) -> NumberedRecord
    ensures { result ≡ numbered_at numbers.now count }
{
    let Some(index) = count.checked_sub(1) else {
        return numbered(count);
    };
    match numbers.get(index as usize) {
        Some(numbered) => *numbered,
        None => numbered(count),
    }
}

/// Returns the place of a record of a capture.
fn capture_place(numbered: NumberedRecord, second: Seconds) -> Place
    ensures { result ≡ capture_place numbered second }
{
    Place {
        number: numbered.number,
        packet: None,
        second,
        micro: numbered.micro,
    }
}

/// Returns the place of a record that no entry shows, without a fraction of its second.
fn place_with(number: u64, second: Seconds) -> Place
    ensures { result ≡ place_with number second }
{
    Place {
        number,
        packet: None,
        second,
        micro: None,
    }
}

/// Returns where an entry's record stands that has this number: the packet that shows it, and the
/// time of that.
pub fn entry_place(number: u64, entry: &Entry<'_>) -> Place
    ensures { result ≡ entry_place number entry.now }
{
    Place {
        number,
        packet: Some(entry.packet),
        second: entry.second,
        micro: entry.micro,
    }
}

/// Returns where the record with this count stands: that of this entry, if there is one.
fn shown_place(count: u64, second: Seconds, entry: Option<Entry<'_>>) -> Place
    ensures { result ≡ shown_place count second entry.entry }
{
    match entry {
        Some(entry) => entry_place(count, &entry),
        None => place_with(count, second),
    }
}

/// Returns where the record stands that has this count among those that are judged, and this
/// second, unless a packet shows it.
pub(crate) fn place_of(places: Places<'_>, count: u64, second: Seconds) -> Place
    ensures { result ≡ places_of places.entry count second }
{
    match places {
        Places::Counted(fractions) => capture_place(
            NumberedRecord {
                number: count,
                micro: fractions.micro_of(count),
            },
            second,
        ),
        Places::Shown(entries) => shown_place(count, second, entry_at(entries, count)),
        Places::Numbered(numbers) => capture_place(numbered_at(numbers, count), second),
    }
}

/// Returns where a record stands that is named, if one is.
pub(crate) fn named_place(
    places: Places<'_>,
    named: Option<u64>,
    second: Option<Seconds>,
) -> Option<Place>
    ensures { result ≡ named_place (places_of places.entry) named second }
{
    let Some(count) = named else {
        return None;
    };
    match second {
        None => None,
        Some(second) => Some(place_of(places, count, second)),
    }
}
