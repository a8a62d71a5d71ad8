//! The head of a report, with the name of the file.

ghost use Rattle.bgp_text.specs.Lines.{Writes};
ghost use Rattle.bgp_html.specs.Escaped.{escaped};
ghost use Rattle.bgp_html.specs.Pieces.{html_of};
ghost use Rattle.bgp_html.specs.Report.{head_pieces, name_octet, shown_name};

use crate::escaped::put_escaped;
use crate::tag::{Tag, put_tag};
use bgp_text::Lines;
use mrt::Sink;

/// Puts an octet of a file's name.
#[tactic(auto, unfolding(crate::specs::Report::name_octet))]
fn put_name_octet<W: Sink>(lines: &mut Lines<'_, W>, octet: u8)
    ensures { Writes lines.old lines.new (escaped (name_octet octet)) }
{
    if octet < 32 || octet == 127 {
        put_escaped(lines, "\u{fffd}".as_bytes());
    } else {
        put_escaped(lines, &[octet]);
    }
}

/// Puts a file's name.
fn put_name<W: Sink>(lines: &mut Lines<'_, W>, name: &[u8])
    ensures { Writes lines.old lines.new (escaped (shown_name name.now)) }
{
    for octet in name {
        put_name_octet(lines, *octet);
    }
}

/// Puts the head of a report on a file of this name.
pub(crate) fn put_head<W: Sink>(lines: &mut Lines<'_, W>, name: &[u8])
    ensures { Writes lines.old lines.new (html_of (head_pieces name.now)) }
{
    put_tag(lines, Tag::Page);
    put_name(lines, name);
    put_tag(lines, Tag::AfterTitle);
    put_name(lines, name);
    put_tag(lines, Tag::AfterName);
}
