//! Where the records of a stretch stand in their session.

ghost use Rattle.std.specs.Prelude.{◌≡◌, ◌+◌, ◌<◌, IfOk, map, unwrap_or};
ghost use Rattle.std.specs.List.{AllByRecursion};
ghost use Rattle.mrt.specs.Reader.{shown_of};
ghost use Rattle.mrt_sessions.specs.Located.{located};
ghost use Rattle.bgp_check.specs.StretchTold.{told_value};
ghost use Rattle.bgp_check_capture_tool.specs.Places.{last_place, micro_after, numbers_of};
ghost use Rattle.bgp_check_capture_tool.specs.Places.{place_after, place_in, place_of_last};
ghost use Rattle.bgp_check_capture_tool.specs.Places.{second_at};

use bgp_check::{Answer, Judged, StretchTold};
use bgp_check_lines::NumberedRecord;
use bgp_judge::Verdict;
use bgp_prefix::Seconds;
use bgp_why::Place;
use mrt::Record;
use mrt_sessions::NamedRecord;
use std::alloc::{AllocError, Allocator};

/// The fraction of the second of a session's record, before which so many of its records in the
/// file stand, if it has one.
pub(crate) fn micro_after(named: &[NamedRecord<'_>], before: usize) -> Option<u32>
    ensures { result ≡ micro_after (map located named.now) before }
{
    match named.get(before) {
        Some(named) => named.micro(),
        None => None,
    }
}

/// The numbers that the judged records of a stretch have in their session, and their fractions: so
/// many of the session's records in the file stand before the stretch.
pub(crate) fn numbers_of<A: Allocator + Copy>(
    alloc: A,
    named: &[NamedRecord<'_>],
    before: usize,
    places: &[usize],
) -> Result<Vec<NumberedRecord, A>, AllocError>
    requires few { AllByRecursion (λ place. before + place < usize.MAX) places.now }
    ensures { IfOk result (λ numbers. numbers.items
        ≡ numbers_of (map located named.now) before places.now) }
{
    let mut numbers = Vec::new(alloc);
    for place in places {
        numbers.push(NumberedRecord {
            number: (before + *place) as u64 + 1,
            micro: micro_after(named, before + *place),
        })?;
    }
    Ok(numbers)
}

/// The second of the record after so many of these: 0, if there is none.
fn second_at(records: &[Record<'_>], count: usize) -> Seconds
    ensures { result ≡ second_at (map shown_of records.now) count }
{
    match records.get(count) {
        Some(Record::In(second, _) | Record::Out(second, _) | Record::Change(second, _, _)) =>
            *second,
        None => 0,
    }
}

/// The record of the session before which so many stand, with this second.
fn place_after(named: &[NamedRecord<'_>], before: usize, second: Seconds) -> Place
    requires { before < usize.MAX }
    ensures { result ≡ place_after (map located named.now) before second }
{
    Place {
        number: before as u64 + 1,
        packet: None,
        second,
        micro: micro_after(named, before),
    }
}

/// How many records of the stretch stand before the last one that is judged.
fn last_place(places: &[usize]) -> usize
    ensures { result ≡ last_place places.now }
{
    match places.last() {
        Some(place) => *place,
        None => 0,
    }
}

/// The last record that is judged of a stretch before which so many stand.
fn place_of_last<A: Allocator>(
    named: &[NamedRecord<'_>],
    before: usize,
    told: &StretchTold<'_, A>,
) -> Place
    requires { before + last_place told.now.places.items < usize.MAX }
    ensures { result ≡ place_of_last (map located named.now) before (told_value told.now) }
{
    let last = told.records.len().saturating_sub(1);
    place_after(
        named,
        before + last_place(&told.places),
        second_at(&told.records, last),
    )
}

/// Where a verdict on a stretch stands: a no at the impossible record, and what is unfinished after
/// the last one. The session has these records in the file.
pub(crate) fn place_in<A: Allocator>(
    named: &[NamedRecord<'_>],
    before: usize,
    told: &StretchTold<'_, A>,
) -> Place
    requires last { before + last_place told.now.places.items < usize.MAX }
    requires impossible { before + unwrap_or told.now.impossible 0 < usize.MAX }
    ensures { result ≡ place_in (map located named.now) before (told_value told.now) }
{
    match &told.answer {
        Answer::Judged(
            Judged {
                verdict: Verdict::No(count),
                ..
            },
        ) => place_after(
            named,
            before + told.impossible.unwrap_or(0),
            second_at(&told.records, *count as usize),
        ),
        Answer::Judged(_) | Answer::NotJudged(_) => place_of_last(named, before, told),
    }
}
