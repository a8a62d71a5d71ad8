//! The head of a ladder.

ghost use Rattle.bgp_text.specs.Lines.{Writes};
ghost use Rattle.bgp_html.specs.Pieces.{html_of};
ghost use Rattle.bgp_ladder.specs.Ladder.{end_heads, head_pieces};

use crate::numbering::{Numbering, put_heads};
use bgp_html::{Column, Tag, put_escaped, put_tag};
use bgp_text::Lines;
use mrt::Sink;

/// Puts the heads of both ends' columns, and an empty one between them.
fn put_ends<W: Sink>(lines: &mut Lines<'_, W>, left: &[u8], right: &[u8])
    ensures { Writes lines.old lines.new (html_of (end_heads left.now right.now)) }
{
    put_escaped(lines, left);
    put_tag(lines, Tag::Head);
    put_tag(lines, Tag::Head);
    put_escaped(lines, right);
    put_tag(lines, Tag::HeadEnd);
}

/// Puts the head of a ladder whose records are numbered so: a caption, and the names of its
/// columns. Those of both ends are given, the left one is the end that opened the connection, or in
/// a capture the peer.
///
/// Whatever stands in these texts, it is shown as it is, and nothing of it is markup.
pub fn put_head<W: Sink>(
    lines: &mut Lines<'_, W>,
    column: Column,
    numbering: Numbering,
    caption: &[u8],
    left: &[u8],
    right: &[u8],
)
    ensures { Writes lines.old lines.new
        (html_of (head_pieces column numbering caption.now left.now right.now)) }
{
    put_tag(lines, Tag::Ladder(column));
    put_escaped(lines, caption);
    put_tag(lines, Tag::CaptionEnd);
    put_heads(lines, numbering);
    put_ends(lines, left, right);
}
