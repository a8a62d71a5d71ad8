//! The markup of a report: each piece of it is one of these, and holds nothing from elsewhere.

ghost use Rattle.bgp_text.specs.Lines.{Writes};
ghost use Rattle.bgp_html.specs.Tags.{mark_class, row_text, tag_text, what_class};
ghost use Rattle.bgp_html.specs.declared.tag.Mark.TheVariants.{Plain};
ghost use Rattle.bgp_html.specs.declared.tag.Tag.TheVariants.{Change, ChangeEnd, Ladder};
ghost use Rattle.bgp_html.specs.declared.tag.What.TheVariants.{Received, Sent};

use crate::page::{
    put_after_name, put_after_title, put_ladders_start, put_page_start, put_stretches_start,
};
use bgp_text::Lines;
use mrt::Sink;

/// In which column of a ladder the end stands that is judged: the left one is that of the end which
/// opened the connection. In a capture the right one is that of the local system.
#[derive(Clone, Copy, Debug, PartialEq, Eq)]
pub enum Column {
    /// The first.
    Left,
    /// The second.
    Right,
}

/// What a row of a ladder shows.
#[derive(Clone, Copy, Debug, PartialEq, Eq)]
pub enum What {
    /// A message that the judged end sent, from this column to the other.
    Sent(Column),
    /// A message that it received, from the other column to this.
    Received(Column),
    /// A change of its state.
    Changed,
    /// How many rows were left out.
    Run,
}

/// How a row of a ladder is marked.
#[derive(Clone, Copy, Debug, PartialEq, Eq)]
pub enum Mark {
    /// Not at all.
    Plain,
    /// It is the record at which a no stands.
    No,
    /// It is behind that, and isn't judged.
    Behind,
    /// It is no record: it could have stood there.
    Possible,
}

/// A piece of markup.
#[derive(Clone, Copy, Debug, PartialEq, Eq)]
pub enum Tag {
    /// The start of a ladder's table, and of its caption.
    Ladder(Column),
    /// The end of the caption, and the start of the table's head and of its first cell.
    CaptionEnd,
    /// The start of the head's next cell.
    Head,
    /// The end of the table's head.
    HeadEnd,
    /// The start of a row, and of its first cell.
    Row(What, Mark),
    /// The start of a row's next cell.
    Cell,
    /// The start of what a message says, between both columns, and its end, which ends the row.
    Message,
    /// See `Message`.
    MessageEnd,
    /// The start of a change of state, in this column, and its end, which ends the row.
    Change(Column),
    /// See `Change`.
    ChangeEnd(Column),
    /// The end of the table.
    LadderEnd,
    /// The start of a report, and of its title.
    Page,
    /// The end of the title, the style sheet, and the start of the heading.
    AfterTitle,
    /// The end of the heading, and what the answers say.
    AfterName,
    /// The start of what stands after the text about a recording, with a heading and what the rows
    /// say; and its end.
    Ladders,
    /// The same start after the text about a capture.
    Stretches,
    /// See `Ladders`.
    SectionEnd,
    /// The start of what is shown when it is asked for, and of its summary.
    Details,
    /// The same of what is shown until it is hidden.
    DetailsOpen,
    /// The end of the summary.
    SummaryEnd,
    /// The end of what it sums up.
    DetailsEnd,
}

/// Puts the class of a row that shows this: the arrow of a message points to the right (`to`) or to
/// the left (`fro`).
fn put_what<W: Sink>(lines: &mut Lines<'_, W>, what: What)
    ensures { Writes lines.old lines.new (what_class what) }
{
    match what {
        What::Sent(Column::Left) => lines.put(b"m s to"),
        What::Sent(Column::Right) => lines.put(b"m s fro"),
        What::Received(Column::Left) => lines.put(b"m r fro"),
        What::Received(Column::Right) => lines.put(b"m r to"),
        What::Changed => lines.put(b"c"),
        What::Run => lines.put(b"run"),
    }
}

/// Puts the class of a row that is marked so, behind a blank.
fn put_mark<W: Sink>(lines: &mut Lines<'_, W>, mark: Mark)
    ensures { Writes lines.old lines.new (mark_class mark) }
{
    match mark {
        Mark::Plain => lines.put(b""),
        Mark::No => lines.put(b" no"),
        Mark::Behind => lines.put(b" late"),
        Mark::Possible => lines.put(b" could"),
    }
}

/// Puts the start of a row that isn't marked, of a message that this column sent.
fn put_sent_row<W: Sink>(lines: &mut Lines<'_, W>, column: Column)
    ensures { Writes lines.old lines.new (row_text (Sent column) Plain) }
{
    match column {
        Column::Left => lines.put(b"<tr class=\"m s to\"><td>"),
        Column::Right => lines.put(b"<tr class=\"m s fro\"><td>"),
    }
}

/// The same, of a message that it received.
fn put_received_row<W: Sink>(lines: &mut Lines<'_, W>, column: Column)
    ensures { Writes lines.old lines.new (row_text (Received column) Plain) }
{
    match column {
        Column::Left => lines.put(b"<tr class=\"m r fro\"><td>"),
        Column::Right => lines.put(b"<tr class=\"m r to\"><td>"),
    }
}

/// Puts the start of a row that isn't marked: at once, since most rows are not.
fn put_plain_row<W: Sink>(lines: &mut Lines<'_, W>, what: What)
    ensures { Writes lines.old lines.new (row_text what Plain) }
{
    match what {
        What::Sent(column) => put_sent_row(lines, column),
        What::Received(column) => put_received_row(lines, column),
        What::Changed => lines.put(b"<tr class=\"c\"><td>"),
        What::Run => lines.put(b"<tr class=\"run\"><td>"),
    }
}

/// Puts the start of a row that is marked.
fn put_marked_row<W: Sink>(lines: &mut Lines<'_, W>, what: What, mark: Mark)
    ensures { Writes lines.old lines.new (row_text what mark) }
{
    lines.put(b"<tr class=\"");
    put_what(lines, what);
    put_mark(lines, mark);
    lines.put(b"\"><td>");
}

/// Puts the start of a row.
fn put_row<W: Sink>(lines: &mut Lines<'_, W>, what: What, mark: Mark)
    ensures { Writes lines.old lines.new (row_text what mark) }
{
    match mark {
        Mark::Plain => put_plain_row(lines, what),
        Mark::No | Mark::Behind | Mark::Possible => put_marked_row(lines, what, mark),
    }
}

/// Puts the start of a ladder.
#[tactic(auto, unfolding(crate::specs::Tags::tag_text))]
fn put_ladder_start<W: Sink>(lines: &mut Lines<'_, W>, column: Column)
    ensures { Writes lines.old lines.new (tag_text (Ladder column)) }
{
    match column {
        Column::Left => lines.put(b"<table class=\"ladder a\"><caption>"),
        Column::Right => lines.put(b"<table class=\"ladder b\"><caption>"),
    }
}

/// Puts the start of a change of state in this column.
#[tactic(auto, unfolding(crate::specs::Tags::tag_text))]
fn put_change<W: Sink>(lines: &mut Lines<'_, W>, column: Column)
    ensures { Writes lines.old lines.new (tag_text (Change column)) }
{
    match column {
        Column::Left => lines.put(b"<td><span>"),
        Column::Right => lines.put(b"<td><td><td><span>"),
    }
}

/// Puts the end of a change of state in this column, which ends the row.
#[tactic(auto, unfolding(crate::specs::Tags::tag_text))]
fn put_change_end<W: Sink>(lines: &mut Lines<'_, W>, column: Column)
    ensures { Writes lines.old lines.new (tag_text (ChangeEnd column)) }
{
    match column {
        Column::Left => lines.put(b"</span><td><td>\n"),
        Column::Right => lines.put(b"</span>\n"),
    }
}

/// Puts a piece of markup.
#[inline(always)]
#[tactic(auto, unfolding(crate::specs::Tags::tag_text))]
pub fn put_tag<W: Sink>(lines: &mut Lines<'_, W>, tag: Tag)
    ensures { Writes lines.old lines.new (tag_text tag) }
{
    match tag {
        Tag::Ladder(column) => put_ladder_start(lines, column),
        Tag::CaptionEnd => lines.put(b"</caption><thead><tr><th>"),
        Tag::Head => lines.put(b"<th>"),
        Tag::HeadEnd => lines.put(b"<tbody>\n"),
        Tag::Row(what, mark) => put_row(lines, what, mark),
        Tag::Cell => lines.put(b"<td>"),
        Tag::Message => lines.put(b"<td><td><div>"),
        Tag::MessageEnd => lines.put(b"</div><td>\n"),
        Tag::Change(column) => put_change(lines, column),
        Tag::ChangeEnd(column) => put_change_end(lines, column),
        Tag::LadderEnd => lines.put(b"</table>\n"),
        Tag::Page => put_page_start(lines),
        Tag::AfterTitle => put_after_title(lines),
        Tag::AfterName => put_after_name(lines),
        Tag::Ladders => put_ladders_start(lines),
        Tag::Stretches => put_stretches_start(lines),
        Tag::SectionEnd => lines.put(b"</section>\n"),
        Tag::Details => lines.put(b"<details><summary>"),
        Tag::DetailsOpen => lines.put(b"<details open><summary>"),
        Tag::SummaryEnd => lines.put(b"</summary>\n"),
        Tag::DetailsEnd => lines.put(b"</details>\n"),
    }
}
