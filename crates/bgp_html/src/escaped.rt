//! Text as HTML has it.

ghost use Rattle.std.specs.Prelude.{◌≡◌, IsTrue};
ghost use Rattle.bgp_text.specs.Lines.{Writes};
ghost use Rattle.bgp_html.specs.Escaped.{escape_octet, escaped};

use bgp_text::Lines;
use memchr::{memchr2, memchr3};
use mrt::Sink;

/// Puts an octet of a text.
#[tactic(auto, unfolding(crate::specs::Escaped::escape_octet))]
fn put_octet<W: Sink>(lines: &mut Lines<'_, W>, octet: u8)
    ensures { Writes lines.old lines.new (escape_octet octet) }
{
    match octet {
        b'&' => lines.put(b"&amp;"),
        b'<' => lines.put(b"&lt;"),
        b'>' => lines.put(b"&gt;"),
        b'"' => lines.put(b"&quot;"),
        b'\'' => lines.put(b"&#39;"),
        _ => lines.put(&[octet]),
    }
}

/// Puts a text octet by octet.
fn put_each<W: Sink>(lines: &mut Lines<'_, W>, text: &[u8])
    ensures { Writes lines.old lines.new (escaped text.now) }
{
    for octet in text {
        put_octet(lines, *octet);
    }
}

/// Checks whether HTML has a text as it is.
fn are_plain(text: &[u8]) -> bool
    ensures { IsTrue result → escaped text.now ≡ text.now }
{
    memchr3(b'&', b'<', b'>', text).is_none() && memchr2(b'"', b'\'', text).is_none()
}

/// Puts a text into HTML, between tags or in an attribute: `&`, `<`, `>` and both quotation marks
/// as character references (the HTML standard, 13.1.4), every other octet as it is.
///
/// The text has to be UTF-8 without control characters but line feeds, if the HTML is to be valid.
pub fn put_escaped<W: Sink>(lines: &mut Lines<'_, W>, text: &[u8])
    ensures { Writes lines.old lines.new (escaped text.now) }
{
    // Most texts stand there as they are, and are put at once.
    if are_plain(text) {
        lines.put(text);
    } else {
        put_each(lines, text);
    }
}
