//! The ladders of a report: what stands after its text.

ghost use Rattle.std.specs.Prelude.{◌≡◌, ◌<◌, ◌≤◌, ◌+◌, ℕ, IsFalse, List};
ghost use Rattle.std.specs.List.{list_any};
ghost use Rattle.packets.specs.Packet.{Recorded};
ghost use Rattle.bgp_import.specs.Talks.{HoldsSome};
ghost use Rattle.bgp_text.specs.Lines.{Writes};
ghost use Rattle.bgp_html.specs.Pieces.{Piece, html_of};
ghost use Rattle.bgp_check_tool.specs.declared.marks.BothMarks.{BothMarks as Both};
ghost use Rattle.bgp_recording.specs.Gathered.{IsClocked, IsCovered};
ghost use Rattle.bgp_report.specs.Ladders.{AreLadders, AreOfBoth, IsJudgedEnd, IsLadderOrLacking};
ghost use Rattle.bgp_report.specs.Ladders.{IsOfEnd, IsPossible, PutsBehind, behind_both};
ghost use Rattle.bgp_report.specs.Ladders.{behind_end, section_pieces};
ghost use Rattle.bgp_report.specs.Notes.{AreNotes};
ghost use Rattle.bgp_report.specs.Ladders.{has_no, is_judged, is_no, lacking_pieces};
ghost use Rattle.bgp_report.specs.Ladders.{missing_pieces, opener_is_open, other_is_open};
ghost use Rattle.bgp_report.specs.Ladders.{some_judged};

use crate::ladder::{connection_of, drawn_of, put_drawn};
use crate::names::order_words;
use bgp_check_tool::{BothMarks, CheckOptions, EndMark, Marks, NoAt};
use bgp_html::{Notes, Tag, put_escaped, put_tag};
use bgp_import::{Talks, other_side};
use bgp_ladder::rows_are_not_printed;
use bgp_text::Lines;
use mrt::Sink;
use std::alloc::{AllocError, Allocator};
use streams::{Connection, Side};

/// Checks whether a no stands somewhere.
fn is_no(place: NoAt) -> bool
    ensures { result ≡ is_no place }
{
    match place {
        NoAt::Nowhere => false,
        NoAt::Record(_) => true,
        NoAt::Message(_) => true,
    }
}

/// Checks whether an end has a no.
fn has_no(mark: Option<EndMark>) -> bool
    ensures { result ≡ has_no mark }
{
    match mark {
        None => false,
        Some(mark) => is_no(mark.no),
    }
}

/// Checks whether an end is judged.
fn is_judged(mark: Option<EndMark>) -> bool
    ensures { result ≡ is_judged mark }
{
    match mark {
        None => false,
        Some(_) => true,
    }
}

/// Checks whether the ladder of the end that opened a connection is open: it has a no, or the other
/// one has none.
fn opener_is_open(both: &BothMarks) -> bool
    ensures { result ≡ opener_is_open both.now }
{
    if has_no(both.other) {
        has_no(both.opener)
    } else {
        true
    }
}

/// Checks whether the ladder of the other end is open: it has a no, or is the only one.
fn other_is_open(both: &BothMarks) -> bool
    ensures { result ≡ other_is_open both.now }
{
    if is_judged(both.opener) {
        has_no(both.other)
    } else {
        true
    }
}

/// Checks whether an end of a connection is judged.
fn some_judged(both: &BothMarks) -> bool
    ensures { result ≡ some_judged both.now }
{
    is_judged(both.opener) || is_judged(both.other)
}

/// Checks whether an end of some connection is judged.
fn are_some_judged(marks: &[BothMarks]) -> bool
    ensures { result ≡ list_any some_judged marks.now }
{
    for both in marks {
        if some_judged(both) {
            return true;
        }
    }
    false
}

/// Puts that memory was refused for the records of an end.
fn put_lacking<W: Sink>(lines: &mut Lines<'_, W>)
    ensures { Writes lines.old lines.new (html_of lacking_pieces) }
{
    put_tag(lines, Tag::Details);
    put_escaped(lines, b"records of an end");
    put_tag(lines, Tag::SummaryEnd);
    put_escaped(lines, b"There was no memory for these records.");
    put_tag(lines, Tag::DetailsEnd);
}

/// Puts that memory was refused for the records of all ends.
fn put_missing<W: Sink>(lines: &mut Lines<'_, W>)
    ensures { Writes lines.old lines.new (html_of missing_pieces) }
{
    put_tag(lines, Tag::Ladders);
    put_escaped(lines, b"There was no memory for the records.");
    put_tag(lines, Tag::SectionEnd);
}

/// Returns how many answers stand before that of the next end, if so many stand before that of one.
fn behind_end(count: usize, mark: Option<EndMark>) -> usize
    requires { count < u64.MAX }
    ensures value { result ≡ behind_end count mark }
    ensures within { result ≤ count + 1 }
{
    match mark {
        None => count,
        Some(_) => count + 1,
    }
}

/// Returns the lines that say what could have come, or had to, where the answer behind so many
/// stands.
pub(crate) fn possible_at<'a, A: Allocator + Copy>(notes: &'a Notes<A>, count: usize) -> &'a [u8]
    requires { count < u64.MAX }
    ensures { (text : List ℕ) → AreNotes text notes.now → IsPossible text count result.now }
{
    match notes.of_answer(count + 1) {
        Some(lines) => lines,
        None => b"There was no memory for what could have come.\n",
    }
}

/// Puts the ladder of the end on this side of a connection, or that memory was refused for it.
fn put_connected<A: Allocator + Copy, W: Sink>(
    alloc: A,
    lines: &mut Lines<'_, W>,
    within: u16,
    connection: &Connection<'_>,
    both: &BothMarks,
    side: Side,
    is_open: bool,
    mark: EndMark,
    possible: &[u8],
)
    requires received { IsCovered connection.now.received }
    requires sent { IsCovered connection.now.sent }
    ensures { IsClocked connection.now → (pieces : List Piece)
        × IsLadderOrLacking within connection.now both.now side is_open mark possible.now pieces
        × Writes lines.old lines.new (html_of pieces) }
{
    match drawn_of(alloc, within, connection, both, side, mark) {
        Ok(drawn) => put_drawn(
            alloc,
            lines,
            &drawn.names,
            &drawn.ladder,
            &drawn.made.recording.entries,
            is_open,
            order_words(mark.order),
            possible,
        ),
        Err(AllocError) => put_lacking(lines),
    }
}

/// Puts the ladder of the end on this side, behind so many answers, or that memory was refused for
/// it.
fn put_judged<A: Allocator + Copy, W: Sink>(
    alloc: A,
    lines: &mut Lines<'_, W>,
    within: u16,
    talks: &Talks<A>,
    notes: &Notes<A>,
    count: usize,
    both: &BothMarks,
    side: Side,
    is_open: bool,
    mark: EndMark,
)
    requires count { count < u64.MAX }
    requires held { (port : ℕ) × (packets : List Recorded) × HoldsSome port packets talks.now }
    ensures { (port : ℕ) (packets : List Recorded) (text : List ℕ)
        → HoldsSome port packets talks.now → AreNotes text notes.now
        → (pieces : List Piece)
        × IsJudgedEnd port within packets text both.now side is_open count mark pieces
        × Writes lines.old lines.new (html_of pieces) }
{
    match connection_of(talks, both) {
        Some(connection) => put_connected(
            alloc,
            lines,
            within,
            &connection,
            both,
            side,
            is_open,
            mark,
            possible_at(notes, count),
        ),
        None => put_lacking(lines),
    }
}

/// Puts the ladder of the end on this side, if it is judged, behind so many answers.
fn put_end<A: Allocator + Copy, W: Sink>(
    alloc: A,
    lines: &mut Lines<'_, W>,
    within: u16,
    talks: &Talks<A>,
    notes: &Notes<A>,
    count: usize,
    both: &BothMarks,
    side: Side,
    is_open: bool,
    mark: Option<EndMark>,
)
    requires count { count < u64.MAX }
    requires held { (port : ℕ) × (packets : List Recorded) × HoldsSome port packets talks.now }
    ensures { (port : ℕ) (packets : List Recorded) (text : List ℕ)
        → HoldsSome port packets talks.now → AreNotes text notes.now
        → (pieces : List Piece)
        × IsOfEnd port within packets text both.now side is_open count mark pieces
        × Writes lines.old lines.new (html_of pieces) }
{
    match mark {
        None => lines.put(b""),
        Some(mark) => put_judged(
            alloc, lines, within, talks, notes, count, both, side, is_open, mark,
        ),
    }
}

/// Puts the ladders of both ends of a connection, behind so many answers. Returns how many stand
/// before those of the next one.
fn put_both<A: Allocator + Copy, W: Sink>(
    alloc: A,
    lines: &mut Lines<'_, W>,
    within: u16,
    talks: &Talks<A>,
    notes: &Notes<A>,
    count: usize,
    both: &BothMarks,
) -> usize
    requires count { count + 1 < u64.MAX }
    requires held { (port : ℕ) × (packets : List Recorded) × HoldsSome port packets talks.now }
    ensures behind { result ≡ behind_both count both.now }
    ensures within { result ≤ count + 2 }
    ensures ladders { (port : ℕ) (packets : List Recorded) (text : List ℕ)
        → HoldsSome port packets talks.now → AreNotes text notes.now
        → (pieces : List Piece) × AreOfBoth port within packets text count both.now pieces
        × Writes lines.old lines.new (html_of pieces) }
{
    let from = both.opening.opened_by;
    let is_open = opener_is_open(both);
    let mark = both.opener;
    put_end(
        alloc, lines, within, talks, notes, count, both, from, is_open, mark,
    );
    let count = behind_end(count, mark);
    let to = other_side(from);
    let is_open = other_is_open(both);
    let mark = both.other;
    put_end(
        alloc, lines, within, talks, notes, count, both, to, is_open, mark,
    );
    behind_end(count, mark)
}

/// Puts the ladders of all connections.
fn put_each<A: Allocator + Copy, W: Sink>(
    alloc: A,
    lines: &mut Lines<'_, W>,
    within: u16,
    talks: &Talks<A>,
    notes: &Notes<A>,
    marks: &[BothMarks],
)
    requires { (port : ℕ) × (packets : List Recorded) × HoldsSome port packets talks.now }
    ensures { (port : ℕ) (packets : List Recorded) (text : List ℕ)
        → HoldsSome port packets talks.now → AreNotes text notes.now
        → (pieces : List Piece) × AreLadders port within packets text 0 marks.now pieces
        × Writes lines.old lines.new (html_of pieces) }
{
    let mut count = 0;
    for place in 0..marks.len() {
        count = put_both(alloc, lines, within, talks, notes, count, &marks[place]);
    }
}

/// Puts the ladders of all connections, with what stands before and behind them.
fn put_section<A: Allocator + Copy, W: Sink>(
    alloc: A,
    lines: &mut Lines<'_, W>,
    within: u16,
    talks: &Talks<A>,
    notes: &Notes<A>,
    marks: &[BothMarks],
)
    requires { (port : ℕ) × (packets : List Recorded) × HoldsSome port packets talks.now }
    ensures { (port : ℕ) (packets : List Recorded) (text : List ℕ)
        → HoldsSome port packets talks.now → AreNotes text notes.now
        → (pieces : List Piece) × AreLadders port within packets text 0 marks.now pieces
        × Writes lines.old lines.new (html_of (section_pieces pieces)) }
{
    put_tag(lines, Tag::Ladders);
    put_each(alloc, lines, within, talks, notes, marks);
    put_tag(lines, Tag::SectionEnd);
}

/// Puts what stands after the text of a report: the records of each end that is judged, as a
/// ladder, with what is noted of the text.
pub(crate) fn put_ladders<A: Allocator + Copy, W: Sink>(
    alloc: A,
    lines: &mut Lines<'_, W>,
    options: &CheckOptions,
    talks: &Talks<A>,
    notes: &Notes<A>,
    marks: &Marks<A>,
)
    requires { (port : ℕ) × (packets : List Recorded) × HoldsSome port packets talks.now }
    ensures { (port : ℕ) (packets : List Recorded) (text : List ℕ) (all : List Both)
        → HoldsSome port packets talks.now → AreNotes text notes.now
        → (IsFalse marks.now.are_missing → marks.now.both.items ≡ all)
        → PutsBehind port options.now.within packets text all lines.old lines.new }
{
    rows_are_not_printed();
    if marks.are_missing {
        put_missing(lines);
    } else if are_some_judged(&marks.both) {
        put_section(alloc, lines, options.within, talks, notes, &marks.both);
    } else {
        lines.put(b"");
    }
}
