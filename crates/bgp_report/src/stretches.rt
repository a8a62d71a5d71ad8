//! The ladders of a report on an MRT file: what stands after its text.

ghost use Rattle.std.specs.Prelude.{◌≡◌, ◌<◌, IsFalse, List, ℕ, map};
ghost use Rattle.std.specs.List.{list_any};
ghost use Rattle.bgp_text.specs.Lines.{Writes};
ghost use Rattle.bgp_html.specs.Pieces.{Piece, html_of};
ghost use Rattle.bgp_check_capture_tool.specs.Marks.{MarkValue, mark_value};
ghost use Rattle.bgp_report.specs.Notes.{AreNotes};
ghost use Rattle.bgp_report.specs.Stretches.{AreStretches, IsJudged, IsStretchOrLost};
ghost use Rattle.bgp_report.specs.Stretches.{PutsStretches, has_no, lost_pieces, none_pieces};
ghost use Rattle.bgp_report.specs.Stretches.{stretch_is_open, stretches_pieces};

use crate::ladder::put_drawn;
use crate::ladders::possible_at;
use crate::stretch::stretch_of;
use bgp_check_capture_tool::{StretchMark, StretchMarks};
use bgp_html::{Notes, Tag, put_escaped, put_tag};
use bgp_ladder::rows_are_not_printed;
use bgp_text::Lines;
use mrt::Sink;
use std::alloc::{AllocError, Allocator};

/// Checks whether a stretch has a no.
fn has_no<A: Allocator>(mark: &StretchMark<'_, A>) -> bool
    ensures { result ≡ has_no (mark_value mark.now) }
{
    mark.no.is_some()
}

/// Checks whether one of these stretches has a no.
fn some_no<A: Allocator>(marks: &[StretchMark<'_, A>]) -> bool
    ensures { result ≡ list_any has_no (map mark_value marks.now) }
{
    for mark in marks {
        if has_no(mark) {
            return true;
        }
    }
    false
}

/// Checks whether the ladder of a stretch with this number is open, in a file of which some stretch
/// has a no or none has: it has one, or is the first of a file without.
fn is_open<A: Allocator>(some_no: bool, number: usize, mark: &StretchMark<'_, A>) -> bool
    ensures { (marks : List MarkValue) → some_no ≡ list_any has_no marks
        → result ≡ stretch_is_open marks number (mark_value mark.now) }
{
    if some_no { has_no(mark) } else { number == 0 }
}

/// Puts that memory was refused for the records of a stretch.
fn put_lost<W: Sink>(lines: &mut Lines<'_, W>)
    ensures { Writes lines.old lines.new (html_of lost_pieces) }
{
    put_tag(lines, Tag::Details);
    put_escaped(lines, b"records of a stretch");
    put_tag(lines, Tag::SummaryEnd);
    put_escaped(lines, b"There was no memory for these records.");
    put_tag(lines, Tag::DetailsEnd);
}

/// Puts that memory was refused for the records of all stretches.
fn put_none<W: Sink>(lines: &mut Lines<'_, W>)
    ensures { Writes lines.old lines.new (html_of none_pieces) }
{
    put_tag(lines, Tag::Stretches);
    put_escaped(lines, b"There was no memory for the records.");
    put_tag(lines, Tag::SectionEnd);
}

/// Puts the ladder of a stretch, or that memory was refused for it. The lines of a text say what
/// could have come.
fn put_stretch<A: Allocator + Copy, W: Sink>(
    alloc: A,
    lines: &mut Lines<'_, W>,
    mark: &StretchMark<'_, A>,
    is_open: bool,
    possible: &[u8],
)
    ensures { (pieces : List Piece)
        × IsStretchOrLost is_open (mark_value mark.now) possible.now pieces
        × Writes lines.old lines.new (html_of pieces) }
{
    match stretch_of(alloc, mark) {
        Ok(drawn) => put_drawn(
            alloc,
            lines,
            &drawn.names,
            &drawn.ladder,
            &drawn.entries,
            is_open,
            b"in the order of the file",
            possible,
        ),
        Err(AllocError) => put_lost(lines),
    }
}

/// Puts the ladder of a stretch whose answer stands behind so many.
fn put_judged<A: Allocator + Copy, W: Sink>(
    alloc: A,
    lines: &mut Lines<'_, W>,
    notes: &Notes<A>,
    count: usize,
    mark: &StretchMark<'_, A>,
    is_open: bool,
)
    requires { count < u64.MAX }
    ensures { (text : List ℕ) → AreNotes text notes.now → (pieces : List Piece)
        × IsJudged text is_open count (mark_value mark.now) pieces
        × Writes lines.old lines.new (html_of pieces) }
{
    put_stretch(alloc, lines, mark, is_open, possible_at(notes, count));
}

/// Puts the ladders of all stretches.
fn put_each<A: Allocator + Copy, W: Sink>(
    alloc: A,
    lines: &mut Lines<'_, W>,
    notes: &Notes<A>,
    marks: &[StretchMark<'_, A>],
)
    ensures { (text : List ℕ) → AreNotes text notes.now → (pieces : List Piece)
        × AreStretches text (map mark_value marks.now) pieces
        × Writes lines.old lines.new (html_of pieces) }
{
    let some_no = some_no(marks);
    for place in 0..marks.len() {
        let mark = &marks[place];
        let is_open = is_open(some_no, place, mark);
        put_judged(alloc, lines, notes, place, mark, is_open);
    }
}

/// Puts the ladders of all stretches, with what stands before and behind them.
fn put_section<A: Allocator + Copy, W: Sink>(
    alloc: A,
    lines: &mut Lines<'_, W>,
    notes: &Notes<A>,
    marks: &[StretchMark<'_, A>],
)
    ensures { (text : List ℕ) → AreNotes text notes.now → (pieces : List Piece)
        × AreStretches text (map mark_value marks.now) pieces
        × Writes lines.old lines.new (html_of (stretches_pieces pieces)) }
{
    put_tag(lines, Tag::Stretches);
    put_each(alloc, lines, notes, marks);
    put_tag(lines, Tag::SectionEnd);
}

/// Puts what stands after the text of a report on an MRT file: the records of each stretch that is
/// judged, as a ladder, with what is noted of the text.
pub(crate) fn put_stretches<A: Allocator + Copy, W: Sink>(
    alloc: A,
    lines: &mut Lines<'_, W>,
    notes: &Notes<A>,
    marks: &StretchMarks<'_, A>,
)
    ensures { (text : List ℕ) (all : List MarkValue) → AreNotes text notes.now
        → (IsFalse marks.now.are_missing → map mark_value marks.now.stretches.items ≡ all)
        → PutsStretches text all lines.old lines.new }
{
    rows_are_not_printed();
    if marks.are_missing {
        put_none(lines);
    } else if marks.stretches.is_empty() {
        lines.put(b"");
    } else {
        put_section(alloc, lines, notes, &marks.stretches);
    }
}
