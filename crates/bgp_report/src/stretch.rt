//! The records of a stretch of a session in an MRT file, and what its ladder is put of.

ghost use Rattle.std.specs.Prelude.{◌≡◌, IfOk, map};
ghost use Rattle.mrt.specs.Reader.{shown_of};
ghost use Rattle.bgp_prefix.specs.Shown.{second_of};
ghost use Rattle.bgp_check_tool.specs.Made.{AreOffered};
ghost use Rattle.bgp_check_capture_tool.specs.Marks.{mark_value};
ghost use Rattle.bgp_report.specs.DrawnStretch.{IsDrawnStretch};
ghost use Rattle.bgp_report.specs.Stretches.{AreEntries, numbered_by};

use crate::ladder::place_of;
use crate::names::Names;
use crate::stretch_names::{text_of, words_of};
use bgp_check::{heard_open, own_open};
use bgp_check_capture_tool::{NumberedRecord, StretchMark};
use bgp_ended::framing_by;
use bgp_html::Column;
use bgp_ladder::{Ladder, Numbering};
use bgp_prefix::Seconds;
use bgp_recording::{Entry, Framings};
use mrt::Record;
use std::alloc::{AllocError, Allocator};

/// Returns the second of a record.
fn second_of(shown: &Record<'_>) -> Seconds
    ensures { result ≡ second_of (shown_of shown.now) }
{
    match shown {
        Record::In(second, _) => *second,
        Record::Out(second, _) => *second,
        Record::Change(second, ..) => *second,
    }
}

/// Returns the entry of a record with this number in its session.
fn entry_of<'a>(shown: Record<'a>, numbered: NumberedRecord) -> Entry<'a>
    ensures shown { shown_of result.record ≡ shown_of shown.entry }
    ensures numbered { numbered_by result ≡ numbered }
    ensures second { result.second ≡ second_of (shown_of shown.entry) }
{
    Entry {
        packet: numbered.number,
        second: second_of(&shown),
        micro: numbered.micro,
        record: shown,
    }
}

/// Returns the entries of records that have these numbers in their session, if there are as many.
fn entries_of<'a, A: Allocator>(
    alloc: A,
    records: &[Record<'a>],
    numbers: &[NumberedRecord],
) -> Result<Vec<Entry<'a>, A>, AllocError>
    ensures { IfOk result (λ entries. AreEntries (map shown_of records.now) numbers.now
        entries.items) }
{
    if records.len() != numbers.len() {
        return Err(AllocError);
    }
    let mut entries = Vec::new(alloc);
    for place in 0..records.len() {
        entries.push(entry_of(records[place], numbers[place]))?;
    }
    Ok(entries)
}

/// Returns by which rules both directions are framed: either by what its receiver offers in the
/// first well-formed OPEN that it sent.
fn framings_of(records: &[Record<'_>]) -> Framings
    ensures { AreOffered (map shown_of records.now) result }
{
    Framings {
        received: framing_by(own_open(records)),
        sent: framing_by(heard_open(records)),
    }
}

/// What the ladder of a stretch is put of.
#[derive(Drop)]
pub(crate) struct DrawnStretch<'a, A: Allocator> {
    pub(crate) names: Names<A>,
    pub(crate) entries: Vec<Entry<'a>, A>,
    pub(crate) ladder: Ladder,
}

/// Makes what the ladder of a stretch is put of.
pub(crate) fn stretch_of<'a, A: Allocator + Copy>(
    alloc: A,
    mark: &StretchMark<'a, A>,
) -> Result<DrawnStretch<'a, A>, AllocError>
    ensures { IfOk result (λ drawn. IsDrawnStretch (mark_value mark.now) drawn) }
{
    let summary = words_of(alloc, mark)?;
    let left = text_of(alloc, mark.addresses.peer)?;
    let right = text_of(alloc, mark.addresses.local)?;
    let entries = entries_of(alloc, &mark.records, &mark.numbers)?;
    let ladder = Ladder {
        column: Column::Right,
        first: mark.first,
        micro: mark.micro,
        framings: framings_of(&mark.records),
        numbering: Numbering::Session,
        impossible: place_of(mark.no),
        asked: place_of(mark.no),
    };
    Ok(DrawnStretch {
        names: Names {
            summary,
            left,
            right,
        },
        entries,
        ladder,
    })
}
