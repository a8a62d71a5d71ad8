//! Rows that sum up the middle of a run.

ghost use Rattle.std.specs.Prelude.{◌+◌, ◌<◌};
ghost use Rattle.mrt.specs.Reader.{shown_of};
ghost use Rattle.bgp_text.specs.Lines.{Writes};
ghost use Rattle.bgp_html.specs.Escaped.{escaped};
ghost use Rattle.bgp_html.specs.Pieces.{html_of};
ghost use Rattle.bgp_ladder.specs.Ladder.{count_pieces, kind_pieces, kind_words, number_words};
ghost use Rattle.bgp_ladder.specs.Ladder.{sum_pieces, type_words};

use crate::cells::put_number;
use crate::numbering::{first_number, last_number, put_blanks};
use crate::rows::{Ladder, mark_at};
use crate::runs::type_of;
use bgp_html::{Tag, What, put_escaped, put_tag};
use bgp_recording::Entry;
use bgp_text::Lines;
use mrt::{Record, Sink};

/// Puts the name of a message type.
fn put_type<W: Sink>(lines: &mut Lines<'_, W>, number: u8)
    ensures { Writes lines.old lines.new (escaped (type_words number)) }
{
    match number {
        1 => put_escaped(lines, b"OPEN"),
        2 => put_escaped(lines, b"UPDATE"),
        3 => put_escaped(lines, b"NOTIFICATION"),
        4 => put_escaped(lines, b"KEEPALIVE"),
        5 => put_escaped(lines, b"ROUTE-REFRESH"),
        _ => put_escaped(lines, b"message"),
    }
}

/// Puts of which type messages are, and which way they went.
fn put_kind_words<W: Sink>(lines: &mut Lines<'_, W>, number: u8, way: &[u8])
    ensures { Writes lines.old lines.new (html_of (kind_words number way.now)) }
{
    put_type(lines, number);
    put_escaped(lines, way);
}

/// Puts of which type the messages of a run are, and which way they went.
fn put_kind<W: Sink>(lines: &mut Lines<'_, W>, shown: &Record<'_>)
    ensures { Writes lines.old lines.new (html_of (kind_pieces (shown_of shown.now))) }
{
    match shown {
        Record::In(_, octets) => put_kind_words(lines, type_of(octets), b" received"),
        Record::Out(_, octets) => put_kind_words(lines, type_of(octets), b" sent"),
        Record::Change(..) => lines.put(b""),
    }
}

/// Puts how many records more there are of a run.
fn put_count<W: Sink>(lines: &mut Lines<'_, W>, count: usize, shown: &Record<'_>)
    ensures { Writes lines.old lines.new (html_of (count_pieces count (shown_of shown.now))) }
{
    put_number(lines, count as u64);
    put_escaped(lines, b" more ");
    put_kind(lines, shown);
}

/// Puts which numbers they have, and the end of the row.
fn put_their_numbers<W: Sink>(lines: &mut Lines<'_, W>, first: u64, last: u64)
    ensures { Writes lines.old lines.new (html_of (number_words first last)) }
{
    put_escaped(lines, b", records ");
    put_number(lines, first);
    put_escaped(lines, b" to ");
    put_number(lines, last);
    put_tag(lines, Tag::MessageEnd);
}

/// Puts the row of so many records, from an entry with this number to that one.
pub(crate) fn put_sum<W: Sink>(
    lines: &mut Lines<'_, W>,
    ladder: &Ladder,
    number: usize,
    count: usize,
    entry: &Entry<'_>,
    last: &Entry<'_>,
)
    requires first { number < u64.MAX }
    requires last { number + count < u64.MAX }
    ensures { Writes lines.old lines.new
        (html_of (sum_pieces ladder.now number count entry.now last.now)) }
{
    put_tag(
        lines,
        Tag::Row(What::Run, mark_at(ladder.impossible, number)),
    );
    put_blanks(lines, ladder.numbering);
    put_tag(lines, Tag::Message);
    put_count(lines, count, &entry.record);
    let from = first_number(ladder.numbering, number, entry);
    put_their_numbers(
        lines,
        from,
        last_number(ladder.numbering, number, count, last),
    );
}
