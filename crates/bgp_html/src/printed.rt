//! Lines that stand in HTML as they are printed as text.

ghost use Rattle.std.specs.Prelude.{◌≡◌};
ghost use Rattle.bgp_text.specs.Lines.{Writes};
ghost use Rattle.bgp_html.specs.Kinds.{is_indented, kind_of};
ghost use Rattle.bgp_html.specs.Printed.{kind_end, kind_start};
ghost use Rattle.bgp_html.specs.Taking.{Front, begun_html, between, count_with, end_html, joins};
ghost use Rattle.bgp_html.specs.Taking.{line_end, line_html, open_behind, open_end};

use crate::escaped::put_escaped;
use bgp_text::Lines;
use mrt::Sink;

/// What lines say, which decides how they look.
#[derive(Clone, Copy, Debug, PartialEq, Eq)]
pub enum Kind {
    /// Which connection or session this is.
    Connection,
    /// A yes.
    Yes,
    /// A no.
    No,
    /// An unfinished.
    Unfinished,
    /// That an end isn't judged.
    NotJudged,
    /// What could have come, or had to, in place of a record or after the last one.
    Possible,
    /// What else is said beside an answer.
    Beside,
    /// What is said of the whole file.
    Whole,
    /// How many answers there are of each kind.
    Totals,
}

/// An element that is open.
#[derive(Clone, Copy, Debug, PartialEq, Eq)]
pub enum Element {
    /// A line of this kind has begun: it is the last of so many.
    Line(Kind, usize),
    /// So many lines stand in it, and the next can stand there, too.
    Lines(usize),
}

/// How many lines an element has at most: a browser draws none of those in an element that isn't
/// shown, and all of those in one that is.
const MOST_LINES: usize = 100;

/// Checks whether lines of this kind are indented.
fn is_indented(kind: Kind) -> bool
    ensures { result ≡ is_indented kind }
{
    match kind {
        Kind::Possible | Kind::Beside => true,
        Kind::Connection | Kind::Yes | Kind::No | Kind::Unfinished => false,
        Kind::NotJudged | Kind::Whole | Kind::Totals => false,
    }
}

/// Checks whether a line of this kind stands in the element of the `count` lines before it: one
/// that is open, or none.
fn joins(count: usize, kind: Kind) -> bool
    ensures { result ≡ joins count kind }
{
    0 < count && count < MOST_LINES && is_indented(kind)
}

/// Puts the start of an element for lines of this kind.
fn put_start<W: Sink>(lines: &mut Lines<'_, W>, kind: Kind)
    ensures { Writes lines.old lines.new (kind_start kind) }
{
    match kind {
        Kind::Connection => lines.put(b"<h2><samp>"),
        Kind::Yes => lines.put(b"<h3><samp class=\"yes\">"),
        Kind::No => lines.put(b"<h3><samp class=\"no\">"),
        Kind::Unfinished => lines.put(b"<h3><samp class=\"due\">"),
        Kind::NotJudged => lines.put(b"<h3><samp class=\"not\">"),
        Kind::Possible | Kind::Beside => lines.put(b"<pre><samp>"),
        Kind::Whole => lines.put(b"<p><samp>"),
        Kind::Totals => lines.put(b"<p class=\"sum\"><samp>"),
    }
}

/// Puts the end of that element.
pub(crate) fn put_end<W: Sink>(lines: &mut Lines<'_, W>, kind: Kind)
    ensures { Writes lines.old lines.new (kind_end kind) }
{
    match kind {
        Kind::Connection => lines.put(b"</samp></h2>\n"),
        Kind::Yes | Kind::No | Kind::Unfinished | Kind::NotJudged => {
            lines.put(b"</samp></h3>\n");
        }
        Kind::Possible | Kind::Beside => lines.put(b"</samp></pre>\n"),
        Kind::Whole | Kind::Totals => lines.put(b"</samp></p>\n"),
    }
}

/// Returns what a line says that begins so: the first four octets of it tell.
pub(crate) fn kind_of(front: &[u8]) -> Kind
    ensures { result ≡ kind_of front.now }
{
    if front.starts_with(b"  co") || front.starts_with(b"  ha") {
        Kind::Possible
    } else if front.starts_with(b"  or") {
        Kind::Possible
    } else if front.starts_with(b"  ") {
        Kind::Beside
    } else if front.starts_with(b"conn") || front.starts_with(b"sess") {
        Kind::Connection
    } else if front.starts_with(b"yes") {
        Kind::Yes
    } else if front.starts_with(b"no ") {
        Kind::No
    } else if front.starts_with(b"unfi") {
        Kind::Unfinished
    } else if front.starts_with(b"not ") {
        Kind::NotJudged
    } else if front.starts_with(b"ends") {
        Kind::Totals
    } else {
        Kind::Whole
    }
}

/// Puts the end of an element of `count` lines, if one is open.
fn put_open_end<W: Sink>(lines: &mut Lines<'_, W>, count: usize)
    ensures { Writes lines.old lines.new (open_end count) }
{
    if count != 0 {
        put_end(lines, Kind::Beside);
    }
}

/// Puts what stands between these lines and one of this kind.
fn put_between<W: Sink>(lines: &mut Lines<'_, W>, count: usize, kind: Kind)
    ensures { Writes lines.old lines.new (between count kind) }
{
    if !joins(count, kind) {
        put_open_end(lines, count);
        put_start(lines, kind);
    }
}

/// Returns how many lines the element has in which a line of this kind stands, behind `count`.
pub(crate) fn count_with(count: usize, kind: Kind) -> usize
    ensures { result ≡ count_with count kind }
{
    if joins(count, kind) { count + 1 } else { 1 }
}

/// Puts the front of a line of this kind behind `count` lines: in their element or in one of its
/// own.
pub(crate) fn put_begun<W: Sink>(lines: &mut Lines<'_, W>, count: usize, kind: Kind, front: &[u8])
    ensures { Writes lines.old lines.new (begun_html count kind front.now) }
{
    put_between(lines, count, kind);
    put_escaped(lines, front);
}

/// Puts what stands behind a line of this kind: more lines can stand with one that is indented.
pub(crate) fn put_line_end<W: Sink>(lines: &mut Lines<'_, W>, kind: Kind)
    ensures { Writes lines.old lines.new (line_end kind) }
{
    if !is_indented(kind) {
        put_end(lines, kind);
    }
}

/// Puts a line of this kind behind `count` lines.
pub(crate) fn put_line<W: Sink>(lines: &mut Lines<'_, W>, count: usize, kind: Kind, line: &[u8])
    ensures { Writes lines.old lines.new (line_html count kind line.now) }
{
    put_begun(lines, count, kind, line);
    put_line_end(lines, kind);
}

/// Returns the element that is open behind a line of this kind, the last of `count`.
pub(crate) fn open_behind(kind: Kind, count: usize) -> Option<Element>
    ensures { result ≡ open_behind kind count }
{
    if is_indented(kind) {
        Some(Element::Lines(count))
    } else {
        None
    }
}

/// Puts the front of the last line behind `count` lines, if it isn't empty, and the end of the
/// element.
pub(crate) fn put_last<W: Sink>(lines: &mut Lines<'_, W>, count: usize, front: &[u8])
    ensures { Writes lines.old lines.new (end_html (Front count front.now)) }
{
    if front.is_empty() {
        put_open_end(lines, count);
        return;
    }
    let kind = kind_of(front);
    put_begun(lines, count, kind, front);
    put_end(lines, kind);
}
