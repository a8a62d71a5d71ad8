//! The rows of records.

ghost use Rattle.std.specs.Prelude.{◌≡◌, ◌<◌, ◌∷◌, [], ℕ, IsTrue, List, Some, OnErr, OnOk};
ghost use Rattle.mrt.specs.Reader.{shown_of};
ghost use Rattle.bgp_text.specs.Lines.{Writes};
ghost use Rattle.bgp_html.specs.Escaped.{escaped};
ghost use Rattle.bgp_html.specs.Pieces.{Piece, html_of};
ghost use Rattle.bgp_values.specs.Opens.{AreOpens, received_with, sent_with};
ghost use Rattle.bgp_values.specs.declared.opens.Opens.{Opens};
ghost use Rattle.bgp_lines.specs.Form.{Before as Messages, before_behind};
ghost use Rattle.bgp_ladder.specs.Batch.{IsShownBy};
ghost use Rattle.bgp_ladder.specs.Ladder.{IsEntryOf, IsRowOf, LastWithin, PutsRows};
ghost use Rattle.bgp_ladder.specs.Ladder.{PutsRowsBefore, PutsSome};
ghost use Rattle.bgp_ladder.specs.Ladder.{change_pieces, deed_pieces, front_pieces, greatest_in};
ghost use Rattle.bgp_ladder.specs.Ladder.{mark_at};
ghost use Rattle.bgp_ladder.specs.Ladder.{message_pieces, row_pieces, what_of};

use crate::batch::{Batch, filled};
use crate::cells::put_time;
use crate::numbering::{Numbering, put_numbers};
use crate::possible::{put_behind, put_last};
use crate::runs::{Part, Run, next_run, part_of, summed_last, type_of};
use crate::sums::put_sum;
use bgp_html::{Column, Mark, Tag, What, put_escaped, put_tag};
use bgp_prefix::Seconds;
use bgp_recording::{Entry, Framings};
use bgp_text::Lines;
use bgp_values::{Direction, Opens};
use mrt::{Record, Sink};
use std::alloc::{AllocError, Allocator};

/// The Type of an OPEN (RFC 4271, 4.1).
const OPEN: u8 = 1;

/// What is known of a ladder beside its entries.
#[derive(Clone, Copy, Debug)]
pub struct Ladder {
    /// In which column the end stands that is judged.
    pub column: Column,
    /// The second of the connection's first packet.
    pub first: Seconds,
    /// The microseconds of that second, where the recording has them.
    pub micro: Option<u32>,
    /// How both directions are framed: a longer message has a faulty header.
    pub framings: Framings,
    /// How its records are numbered.
    pub numbering: Numbering,
    /// The record at which a no stands, counted from 0, if there is one.
    pub impossible: Option<usize>,
    /// The record that the lines on what could have come are about, counted from 0: that of the no,
    /// unless the no is about all orders. If there is none, they are about what could come next.
    pub asked: Option<usize>,
}

/// What is known of the entries before one.
#[derive(Clone, Copy, Debug)]
struct Before<'a> {
    /// The last of them, if a row of its own is the last one.
    previous: Option<Entry<'a>>,
    /// The greatest packet of them.
    greatest: u64,
}

/// Returns what the row of a record shows.
fn what_of(column: Column, shown: &Record<'_>) -> What
    ensures { result ≡ what_of column (shown_of shown.now) }
{
    match shown {
        Record::In(..) => What::Received(column),
        Record::Out(..) => What::Sent(column),
        Record::Change(..) => What::Changed,
    }
}

/// Returns how the row of a record is marked, where a no stands at that one.
pub(crate) fn mark_at(impossible: Option<usize>, number: usize) -> Mark
    ensures { result ≡ mark_at impossible number }
{
    match impossible {
        None => Mark::Plain,
        Some(no) => {
            if number == no {
                Mark::No
            } else if no < number {
                Mark::Behind
            } else {
                Mark::Plain
            }
        }
    }
}

/// Puts what stands in a row before what its record shows.
fn put_front<W: Sink>(
    lines: &mut Lines<'_, W>,
    ladder: &Ladder,
    before: &Before<'_>,
    number: usize,
    entry: &Entry<'_>,
)
    requires { number < u64.MAX }
    ensures { Writes lines.old lines.new (html_of
        (front_pieces ladder.now before.now.greatest before.now.previous number entry.now)) }
{
    let what = what_of(ladder.column, &entry.record);
    put_tag(lines, Tag::Row(what, mark_at(ladder.impossible, number)));
    put_time(lines, ladder, before.greatest, before.previous, entry);
    put_numbers(lines, ladder.numbering, number, entry);
}

/// Puts a text. It isn't searched if it is known that HTML has it as it is.
fn put_text<W: Sink>(lines: &mut Lines<'_, W>, text: &[u8], is_plain: bool)
    requires { IsTrue is_plain → escaped text.now ≡ text.now }
    ensures { Writes lines.old lines.new (escaped text.now) }
{
    if is_plain {
        lines.put(text);
    } else {
        put_escaped(lines, text);
    }
}

/// Puts a message that says this, and the end of its row.
pub(crate) fn put_message<W: Sink>(lines: &mut Lines<'_, W>, text: &[u8], is_plain: bool)
    requires { IsTrue is_plain → escaped text.now ≡ text.now }
    ensures { Writes lines.old lines.new (html_of (message_pieces text.now)) }
{
    put_tag(lines, Tag::Message);
    put_text(lines, text, is_plain);
    put_tag(lines, Tag::MessageEnd);
}

/// Puts a change that is this one, and the end of its row.
fn put_change<W: Sink>(lines: &mut Lines<'_, W>, column: Column, text: &[u8])
    ensures { Writes lines.old lines.new (html_of (change_pieces column text.now)) }
{
    put_tag(lines, Tag::Change(column));
    put_escaped(lines, text);
    put_tag(lines, Tag::ChangeEnd(column));
}

/// Puts what a record shows, which is this, and the end of its row.
fn put_shown<W: Sink>(
    lines: &mut Lines<'_, W>,
    column: Column,
    shown: &Record<'_>,
    text: &[u8],
    is_plain: bool,
)
    requires { IsTrue is_plain → escaped text.now ≡ text.now }
    ensures { Writes lines.old lines.new
        (html_of (deed_pieces column (shown_of shown.now) text.now)) }
{
    match shown {
        Record::In(..) => put_message(lines, text, is_plain),
        Record::Out(..) => put_message(lines, text, is_plain),
        Record::Change(..) => put_change(lines, column, text),
    }
}

/// Puts the row of an entry behind these, with its number, from 0 on, and what it shows.
fn put_row<W: Sink>(
    lines: &mut Lines<'_, W>,
    ladder: &Ladder,
    before: &Before<'_>,
    number: usize,
    entry: &Entry<'_>,
    text: &[u8],
    is_plain: bool,
)
    requires number { number < u64.MAX }
    requires plain { IsTrue is_plain → escaped text.now ≡ text.now }
    ensures { Writes lines.old lines.new (html_of (row_pieces ladder.now before.now.greatest
        before.now.previous number entry.now text.now)) }
{
    put_front(lines, ladder, before, number, entry);
    put_shown(lines, ladder.column, &entry.record, text, is_plain);
}

/// Puts what stands for an entry behind these, by how it does, with what it shows. A row that sums
/// it up with others goes to the last of them.
fn put_part<W: Sink>(
    lines: &mut Lines<'_, W>,
    ladder: &Ladder,
    before: &Before<'_>,
    number: usize,
    entry: &Entry<'_>,
    last: &Entry<'_>,
    part: Part,
    text: &[u8],
    is_plain: bool,
)
    requires first { number < u64.MAX }
    requires last { LastWithin u64.MAX number part }
    requires plain { IsTrue is_plain → escaped text.now ≡ text.now }
    ensures { (opens : Opens)
        → IsShownBy ladder.now.framings opens (shown_of entry.now.record) part text.now
        → (row : List Piece) × IsRowOf ladder.now opens before.now.greatest before.now.previous
        number entry.now last.now part row × Writes lines.old lines.new (html_of row) }
{
    match part {
        Part::Own => put_row(lines, ladder, before, number, entry, text, is_plain),
        Part::Last => {
            let behind_sum = Before {
                previous: None,
                greatest: before.greatest,
            };
            put_row(lines, ladder, &behind_sum, number, entry, text, is_plain);
        }
        Part::Sum(count) => put_sum(lines, ladder, number, count, entry, last),
        Part::Summed => {}
    }
}

/// Puts what stands for an entry behind these, by how it does, with what it shows. If the lines are
/// about its record, what could have come in its place stands behind it.
fn put_entry<W: Sink>(
    lines: &mut Lines<'_, W>,
    ladder: &Ladder,
    possible: &[u8],
    before: &Before<'_>,
    number: usize,
    entry: &Entry<'_>,
    last: &Entry<'_>,
    part: Part,
    text: &[u8],
    is_plain: bool,
)
    requires first { number < u64.MAX }
    requires last { LastWithin u64.MAX number part }
    requires plain { IsTrue is_plain → escaped text.now ≡ text.now }
    ensures { (opens : Opens)
        → IsShownBy ladder.now.framings opens (shown_of entry.now.record) part text.now
        → (row : List Piece) × IsEntryOf ladder.now possible.now opens before.now.greatest
        before.now.previous number entry.now last.now part row
        × Writes lines.old lines.new (html_of row) }
{
    put_part(
        lines, ladder, before, number, entry, last, part, text, is_plain,
    );
    put_behind(lines, ladder, possible, number);
}

/// Takes a message. Only an OPEN counts, and few messages are one.
fn take_message(opens: &mut Opens, direction: Direction, octets: &[u8])
    ensures { (received sent : List (List ℕ)) → AreOpens received sent opens.old
        → AreOpens (received_with direction octets.now received)
        (sent_with direction octets.now sent) opens.new }
{
    if type_of(octets) == OPEN {
        opens.take(direction, octets);
    }
}

/// Takes what a record shows.
pub(crate) fn take_shown(opens: &mut Opens, shown: &Record<'_>)
    ensures { (before : Messages) → AreOpens before.received before.sent opens.old
        → AreOpens (before_behind (shown_of shown.now) before).received
        (before_behind (shown_of shown.now) before).sent opens.new }
{
    match shown {
        Record::In(_, octets) => take_message(opens, Direction::Received, octets),
        Record::Out(_, octets) => take_message(opens, Direction::Sent, octets),
        Record::Change(..) => {}
    }
}

/// Returns what is known before the next entry.
fn behind<'a>(before: Before<'a>, entry: &Entry<'a>) -> Before<'a>
    ensures previous { result.previous ≡ Some entry.now }
    ensures greatest { result.greatest ≡ greatest_in before.entry.greatest (entry.now ∷ []) }
{
    Before {
        previous: Some(*entry),
        greatest: if before.greatest < entry.packet {
            entry.packet
        } else {
            before.greatest
        },
    }
}

/// Puts the rows of these entries, and what could have come behind the row of the record that the
/// lines are about.
fn put_all<A: Allocator + Copy, W: Sink>(
    alloc: A,
    lines: &mut Lines<'_, W>,
    ladder: &Ladder,
    possible: &[u8],
    entries: &[Entry<'_>],
) -> Result<(), AllocError>
    ensures ok { OnOk result
        (PutsRowsBefore ladder.now possible.now entries.now [] lines.old lines.new) }
    ensures err { OnErr result
        (PutsSome ladder.now possible.now entries.now lines.old lines.new) }
{
    let mut opens = Opens::new();
    let mut before = Before {
        previous: None,
        greatest: 0,
    };
    let mut run = Run {
        length: 0,
        behind: 0,
    };
    let mut batch = Batch::none(alloc);
    for number in 0..entries.len() {
        let entry = &entries[number];
        run = next_run(ladder, entries, number, run);
        let part = part_of(run);
        let rest = entries.split_at(number).1;
        batch = filled(alloc, batch, &opens, ladder.framings, rest, part)?;
        let end = batch.end();
        let text = batch.words(end);
        let is_plain = batch.are_plain();
        let last = summed_last(entries, number, run);
        put_entry(
            lines, ladder, possible, &before, number, entry, last, part, text, is_plain,
        );
        batch.pass(end);
        take_shown(&mut opens, &entry.record);
        before = behind(before, entry);
    }
    Ok(())
}

/// Puts the rows of these entries, one after another, each with its number and what it shows: a
/// message as `bgp decode --names` prints it, with what the OPENs before it settle. In a recording
/// the number counts from 1 on, and the packet stands before it; in a capture it is that of the
/// session. The record at which a no stands is marked, and those behind it are. If more than 40
/// messages of one direction and type follow one another, and neither the no stands at one of them
/// nor are the lines about one, one row sums up those between the first and the last.
///
/// The lines of a text say what could have come in place of a record, or after all of them: each
/// has a row there.
///
/// If memory is refused for a row, those before it are put, and nothing of it.
pub fn put_rows<A: Allocator + Copy, W: Sink>(
    alloc: A,
    lines: &mut Lines<'_, W>,
    ladder: &Ladder,
    possible: &[u8],
    entries: &[Entry<'_>],
) -> Result<(), AllocError>
    ensures ok { OnOk result
        (PutsRows ladder.now possible.now entries.now lines.old lines.new) }
    ensures err { OnErr result
        (PutsSome ladder.now possible.now entries.now lines.old lines.new) }
{
    put_all(alloc, lines, ladder, possible, entries)?;
    put_last(lines, ladder, possible);
    Ok(())
}
