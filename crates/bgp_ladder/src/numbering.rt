//! How the records of a ladder are numbered, and the cells that show it.

ghost use Rattle.std.specs.Prelude.{◌≡◌, ◌+◌, ◌<◌};
ghost use Rattle.bgp_text.specs.Lines.{Writes};
ghost use Rattle.bgp_html.specs.Pieces.{html_of};
ghost use Rattle.bgp_ladder.specs.Numbering.{blank_cells, counted_heads, first_number, last_number};
ghost use Rattle.bgp_ladder.specs.Numbering.{number_cells};
ghost use Rattle.bgp_ladder.specs.declared.numbering.Numbering.TheVariants.{Packets, Session};

use crate::cells::put_number;
use bgp_html::{Tag, put_escaped, put_tag};
use bgp_recording::Entry;
use bgp_text::Lines;
use mrt::Sink;

/// How the records of a ladder are numbered.
#[derive(Clone, Copy, Debug, PartialEq, Eq)]
pub enum Numbering {
    /// From 1 on, each behind the number of the packet that shows it.
    Packets,
    /// As in their session, which can have more of them. There are no packets: the packet of an
    /// entry is the number of its record.
    Session,
}

/// Puts the names of the first columns, if there are packets.
fn put_packet_heads<W: Sink>(lines: &mut Lines<'_, W>)
    ensures { Writes lines.old lines.new (html_of (counted_heads Packets)) }
{
    put_escaped(lines, b"time");
    put_tag(lines, Tag::Head);
    put_escaped(lines, b"packet");
    put_tag(lines, Tag::Head);
    put_escaped(lines, b"record");
    put_tag(lines, Tag::Head);
}

/// Puts the names of the first columns, if there are none.
fn put_session_heads<W: Sink>(lines: &mut Lines<'_, W>)
    ensures { Writes lines.old lines.new (html_of (counted_heads Session)) }
{
    put_escaped(lines, b"time");
    put_tag(lines, Tag::Head);
    put_escaped(lines, b"record");
    put_tag(lines, Tag::Head);
}

/// Puts the names of the first columns, each with the start of the next.
pub(crate) fn put_heads<W: Sink>(lines: &mut Lines<'_, W>, numbering: Numbering)
    ensures { Writes lines.old lines.new (html_of (counted_heads numbering)) }
{
    match numbering {
        Numbering::Packets => put_packet_heads(lines),
        Numbering::Session => put_session_heads(lines),
    }
}

/// Puts the packet of an entry and its number, which counts from 0 on, each in a cell of its own.
fn put_packet_cells<W: Sink>(lines: &mut Lines<'_, W>, number: usize, entry: &Entry<'_>)
    requires { number < u64.MAX }
    ensures { Writes lines.old lines.new (html_of (number_cells Packets number entry.now)) }
{
    put_tag(lines, Tag::Cell);
    put_number(lines, entry.packet);
    put_tag(lines, Tag::Cell);
    put_number(lines, number as u64 + 1);
}

/// Puts the number that an entry has in its session, in a cell of its own.
fn put_session_cell<W: Sink>(lines: &mut Lines<'_, W>, entry: &Entry<'_>)
    ensures { Writes lines.old lines.new (html_of (number_cells Session 0 entry.now)) }
{
    let number = entry.packet;
    put_tag(lines, Tag::Cell);
    put_number(lines, number);
}

/// Puts the cells behind the time, in the row of an entry with this number, from 0 on.
pub(crate) fn put_numbers<W: Sink>(
    lines: &mut Lines<'_, W>,
    numbering: Numbering,
    number: usize,
    entry: &Entry<'_>,
)
    requires { number < u64.MAX }
    ensures { Writes lines.old lines.new (html_of (number_cells numbering number entry.now)) }
{
    match numbering {
        Numbering::Packets => put_packet_cells(lines, number, entry),
        Numbering::Session => put_session_cell(lines, entry),
    }
}

/// Puts two blank cells.
fn put_blank_cells<W: Sink>(lines: &mut Lines<'_, W>)
    ensures { Writes lines.old lines.new (html_of (blank_cells Packets)) }
{
    put_tag(lines, Tag::Cell);
    put_tag(lines, Tag::Cell);
}

/// Puts a blank cell.
fn put_blank_cell<W: Sink>(lines: &mut Lines<'_, W>)
    ensures { Writes lines.old lines.new (html_of (blank_cells Session)) }
{
    put_tag(lines, Tag::Cell);
}

/// Puts the same cells in a row that isn't that of one record.
pub(crate) fn put_blanks<W: Sink>(lines: &mut Lines<'_, W>, numbering: Numbering)
    ensures { Writes lines.old lines.new (html_of (blank_cells numbering)) }
{
    match numbering {
        Numbering::Packets => put_blank_cells(lines),
        Numbering::Session => put_blank_cell(lines),
    }
}

/// Returns the number that an entry is shown with, of which this is the number from 0 on.
pub(crate) fn first_number(numbering: Numbering, number: usize, entry: &Entry<'_>) -> u64
    requires { number < u64.MAX }
    ensures { result ≡ first_number numbering number entry.now }
{
    match numbering {
        Numbering::Packets => number as u64 + 1,
        Numbering::Session => entry.packet,
    }
}

/// Returns the number that the last of so many is shown with, of which the first has this one.
pub(crate) fn last_number(
    numbering: Numbering,
    number: usize,
    count: usize,
    last: &Entry<'_>,
) -> u64
    requires { number + count < u64.MAX }
    ensures { result ≡ last_number numbering number count last.now }
{
    match numbering {
        Numbering::Packets => (number + count) as u64,
        Numbering::Session => last.packet,
    }
}
