//! Rows of what could have come, or had to: in place of a record, or after all of them.

ghost use Rattle.std.specs.Prelude.{◌≡◌, ◌<◌, ◌≤◌, ◌+◌, ◌-◌, ◌++◌, List, drop, length, take};
ghost use Rattle.bgp_text.specs.Lines.{Writes};
ghost use Rattle.bgp_html.specs.Pieces.{Piece, html_of};
ghost use Rattle.bgp_ladder.specs.Possible.{behind_pieces, last_pieces, possible_row};
ghost use Rattle.bgp_ladder.specs.Possible.{possible_rows, rows_from};

use crate::numbering::{Numbering, put_blanks};
use crate::rows::{Ladder, put_message};
use crate::runs::is_marked;
use bgp_html::{Mark, Tag, What, put_tag};
use bgp_text::Lines;
use mrt::Sink;

/// Puts a row that says this.
fn put_possible_row<W: Sink>(lines: &mut Lines<'_, W>, numbering: Numbering, line: &[u8])
    ensures { Writes lines.old lines.new (html_of (possible_row numbering line.now)) }
{
    put_tag(lines, Tag::Row(What::Run, Mark::Possible));
    put_blanks(lines, numbering);
    put_message(lines, line, false);
}

/// Puts the row of the line that begins at this place, if the octet at that one ends it. Returns
/// where the line begins that goes on.
fn put_ended<W: Sink>(
    lines: &mut Lines<'_, W>,
    numbering: Numbering,
    text: &[u8],
    first: usize,
    place: usize,
) -> usize
    requires first { first ≤ place }
    requires place { place < length text.now }
    ensures within { result ≤ place + 1 }
    ensures puts { (rows : List Piece) × Writes lines.old lines.new (html_of rows)
        × (rows ++ rows_from numbering (take (place + 1 - result) (drop result text.now))
        (drop (place + 1) text.now)
        ≡ rows_from numbering (take (place - first) (drop first text.now))
        (drop place text.now)) }
{
    if text[place] == b'\n' {
        put_possible_row(lines, numbering, &text[first..place]);
        place + 1
    } else {
        first
    }
}

/// Puts a row for each line of a text.
fn put_possible<W: Sink>(lines: &mut Lines<'_, W>, numbering: Numbering, text: &[u8])
    ensures { Writes lines.old lines.new (html_of (possible_rows numbering text.now)) }
{
    let mut first = 0;
    for place in 0..text.len() {
        first = put_ended(lines, numbering, text, first, place);
    }
}

/// Puts what could have come in place of the record with this number, if the lines are about it.
pub(crate) fn put_behind<W: Sink>(
    lines: &mut Lines<'_, W>,
    ladder: &Ladder,
    possible: &[u8],
    number: usize,
)
    ensures { Writes lines.old lines.new
        (html_of (behind_pieces ladder.now possible.now number)) }
{
    if is_marked(ladder.asked, number) {
        put_possible(lines, ladder.numbering, possible);
    } else {
        lines.put(b"");
    }
}

/// Puts what could have come after all records, if the lines are about none of them.
pub(crate) fn put_last<W: Sink>(lines: &mut Lines<'_, W>, ladder: &Ladder, possible: &[u8])
    ensures { Writes lines.old lines.new (html_of (last_pieces ladder.now possible.now)) }
{
    match ladder.asked {
        None => put_possible(lines, ladder.numbering, possible),
        Some(_) => lines.put(b""),
    }
}
