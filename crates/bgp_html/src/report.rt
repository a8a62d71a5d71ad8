//! What `bgp check` prints, as a report in HTML.

ghost use Rattle.std.specs.Prelude.{◌≡◌, ◌<◌, ◌≤◌, ◌∷◌, [], None, Some, IsFalse, length, take};
ghost use Rattle.bgp_text.specs.Lines.{Writes};
ghost use Rattle.bgp_html.specs.Noted.{nothing_noted};
ghost use Rattle.bgp_html.specs.Notes.{IsNotedBy, noted_by};
ghost use Rattle.bgp_html.specs.Pieces.{html_of};
ghost use Rattle.bgp_html.specs.Report.{head_pieces};
ghost use Rattle.bgp_html.specs.Taking.{Front, HasNoEnd, Puts, end_html, end_notes, first_end};
ghost use Rattle.bgp_html.specs.Taking.{place_of};
ghost use Rattle.bgp_html.specs.declared.printed.Element.TheVariants.{Line};

use crate::escaped::put_escaped;
use crate::head::put_head;
use crate::notes::Notes;
use crate::printed::{
    Element, Kind, count_with, kind_of, open_behind, put_begun, put_end, put_last, put_line,
    put_line_end,
};
use arrayvec::ArrayVec;
use bgp_text::Lines;
use memchr::memchr;
use mrt::{Failed, Sink};
use std::alloc::Allocator;

/// The first octets of a line, by which it is known what the line says.
const FRONT: usize = 4;

/// A report on its way to a sink. It is a sink, too: it takes what `bgp check` prints, and puts
/// its lines into elements by what they say: lines that are indented together, as far as they
/// follow each other, and each other line by itself. It notes what could have come, answer by
/// answer. It never fails: if the sink behind it does, the lines tell of that.
#[derive(Drop)]
pub struct Report<'a, A: Allocator, W: Sink> {
    lines: Lines<'a, W>,
    notes: Notes<A>,
    /// The element that is open, if one is.
    element: Option<Element>,
    /// The front of a line of which it isn't known yet what it says.
    front: ArrayVec<u8, FRONT>,
    ghost short: { length front.items ≤ 3 },
}

/// Returns where the first line feed stands, or how many octets there are.
fn first_end(octets: &[u8]) -> usize
    ensures value { result ≡ first_end octets.now }
    ensures within { result ≤ length octets.now }
{
    match memchr(b'\n', octets) {
        Some(place) => place,
        None => octets.len(),
    }
}

impl<'a, A: Allocator + Copy, W: Sink> Report<'a, A, W> {
    /// Returns a report of which nothing is written yet.
    pub fn new(alloc: A, sink: &'a mut W) -> Report<'a, A, W>
        requires { W.failures sink.old < u64.MAX }
        ensures same { result.lines.outlet.sink.ghost_name ≡ sink.entry.ghost_name }
        ensures now { result.lines.outlet.sink.now ≡ sink.old }
        ensures fresh { IsFalse result.lines.outlet.has_failed }
        ensures empty { result.lines.held.items ≡ [] }
        ensures element { result.element ≡ None }
        ensures front { result.front.items ≡ [] }
        ensures noted { noted_by result.notes ≡ nothing_noted }
        ensures none { IsFalse result.notes.are_missing }
    {
        Report {
            lines: Lines::new(sink),
            notes: Notes::new(alloc),
            element: None,
            front: ArrayVec::new(),
        }
    }

    /// Puts the head of a report on a file of this name: what loads nothing, the title, the style
    /// sheet, the heading, and what the answers say. A control character of the name is shown as
    /// U+FFFD.
    pub fn put_head(&mut self, name: &[u8])
        ensures writes { Writes self.old.lines self.new.lines (html_of (head_pieces name.now)) }
        ensures element { self.new.element ≡ self.old.element }
        ensures front { self.new.front.items ≡ self.old.front.items }
        ensures notes { self.new.notes ≡ self.old.notes }
    {
        put_head(&mut self.lines, name);
    }

    /// Puts what is left at the end of the text: the last line, if it has no line feed.
    pub fn end(&mut self)
        ensures writes { Writes self.old.lines self.new.lines
            (end_html (place_of self.old.element self.old.front.items)) }
        ensures noted { IsNotedBy self.old.notes self.new.notes
            (end_notes (place_of self.old.element self.old.front.items)) }
    {
        match self.element {
            None => self.end_front(0),
            Some(Element::Lines(count)) => self.end_front(count),
            Some(Element::Line(kind, _)) => put_end(&mut self.lines, kind),
        }
    }

    /// Returns the lines of the report, behind whose text more can be put, and what is noted of the
    /// text: `end` comes first.
    pub fn into_parts(self) -> (Lines<'a, W>, Notes<A>)
        ensures lines { result.0 ≡ self.entry.lines }
        ensures notes { result.1 ≡ self.entry.notes }
    {
        (self.lines, self.notes)
    }

    /// Puts the front of the last line, behind `count` lines, or nothing if it is empty; and the
    /// end of the element.
    fn end_front(&mut self, count: usize)
        ensures writes { Writes self.old.lines self.new.lines
            (end_html (Front count self.old.front.items)) }
        ensures noted { IsNotedBy self.old.notes self.new.notes
            (end_notes (Front count self.old.front.items)) }
    {
        let front = self.front.as_slice();
        put_last(&mut self.lines, count, front);
        self.notes.add_line(kind_of(front), front);
    }

    /// Puts an octet at the front of a line, behind `count` lines.
    fn put_front(&mut self, count: usize, octet: u8)
        requires { place_of self.old.element self.old.front.items
            ≡ Front count self.old.front.items }
        ensures { Puts self.old.lines self.new.lines self.old.element self.new.element
            self.old.front.items self.new.front.items self.old.notes self.new.notes (octet ∷ []) }
    {
        let is_known = self.front.len() == FRONT - 1;
        self.front.push(octet);
        let kind = kind_of(self.front.as_slice());
        if octet == b'\n' {
            put_line(&mut self.lines, count, kind, self.front.as_slice());
            self.notes.add_line(kind, self.front.as_slice());
            self.element = open_behind(kind, count_with(count, kind));
            self.front.clear();
        } else if is_known {
            put_begun(&mut self.lines, count, kind, self.front.as_slice());
            self.notes.add_line(kind, self.front.as_slice());
            self.element = Some(Element::Line(kind, count_with(count, kind)));
            self.front.clear();
        }
    }

    /// Puts octets of a line of this kind: they don't end it.
    fn put_rest(&mut self, kind: Kind, count: usize, octets: &[u8])
        requires element { self.old.element ≡ Some (Line kind count) }
        requires none { HasNoEnd octets.now }
        ensures puts { Puts self.old.lines self.new.lines self.old.element self.new.element
            self.old.front.items self.new.front.items self.old.notes self.new.notes octets.now }
        ensures element { self.new.element ≡ Some (Line kind count) }
    {
        put_escaped(&mut self.lines, octets);
        self.notes.add_rest(kind, octets);
    }

    /// Puts the end of a line of this kind.
    fn end_line(&mut self, kind: Kind, count: usize)
        requires { self.old.element ≡ Some (Line kind count) }
        ensures { Puts self.old.lines self.new.lines self.old.element self.new.element
            self.old.front.items self.new.front.items self.old.notes self.new.notes (10 ∷ []) }
    {
        put_escaped(&mut self.lines, b"\n");
        put_line_end(&mut self.lines, kind);
        self.notes.add_rest(kind, b"\n");
        self.element = open_behind(kind, count);
        self.front.clear();
    }

    /// Puts octets of a line of this kind, and its end if that is among them. Returns how many.
    fn put_within(&mut self, kind: Kind, count: usize, octets: &[u8]) -> usize
        requires element { self.old.element ≡ Some (Line kind count) }
        requires some { 0 < length octets.now }
        ensures some { 0 < result }
        ensures within { result ≤ length octets.now }
        ensures puts { Puts self.old.lines self.new.lines self.old.element self.new.element
            self.old.front.items self.new.front.items self.old.notes self.new.notes
            (take result octets.now) }
    {
        let end = first_end(octets);
        self.put_rest(kind, count, octets.split_at(end).0);
        if end == octets.len() {
            end
        } else {
            self.end_line(kind, count);
            end + 1
        }
    }

    /// Puts the first of these octets: one, or those of a line. Returns how many.
    fn put_some(&mut self, octets: &[u8]) -> usize
        requires { 0 < length octets.now }
        ensures some { 0 < result }
        ensures within { result ≤ length octets.now }
        ensures puts { Puts self.old.lines self.new.lines self.old.element self.new.element
            self.old.front.items self.new.front.items self.old.notes self.new.notes
            (take result octets.now) }
    {
        match self.element {
            None => {
                self.put_front(0, octets[0]);
                1
            }
            Some(Element::Lines(count)) => {
                self.put_front(count, octets[0]);
                1
            }
            Some(Element::Line(kind, count)) => self.put_within(kind, count, octets),
        }
    }

    /// Puts octets.
    fn put(&mut self, octets: &[u8])
        ensures { Puts self.old.lines self.new.lines self.old.element self.new.element
            self.old.front.items self.new.front.items self.old.notes self.new.notes octets.now }
    {
        let mut rest = octets;
        while !rest.is_empty() {
            let count = self.put_some(rest);
            rest = rest.split_at(count).1;
        }
    }
}

impl<A: Allocator + Copy, W: Sink> Sink for Report<'_, A, W> {
    ghost use Rattle.bgp_html.specs.Taking.{Puts, puts_joined, puts_nothing};

    ghost takes = { λ a b. Puts a.lines b.lines a.element b.element a.front.items b.front.items
        a.notes b.notes };

    ghost failures = { λ a. 0 };

    ghost nothing = { λ a. puts_nothing W.nothing a.lines a.element a.front.items a.notes };

    ghost joined = { λ a b c. puts_joined W.joined a.lines b.lines c.lines
        a.element b.element c.element a.front.items b.front.items c.front.items
        a.notes b.notes c.notes };

    fn write(&mut self, octets: &[u8]) -> Result<usize, Failed> {
        self.put(octets);
        Ok(octets.len())
    }

    fn failures(&self) -> u64 {
        0
    }
}
