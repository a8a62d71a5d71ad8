//! What is noted of a text while it is put into HTML: what could have come, answer by answer.

ghost use Rattle.std.specs.Prelude.{◌≡◌, IsFalse, IsTrue, IfNone, IfSome};
ghost use Rattle.bgp_html.specs.Noted.{begun, is_answer, is_possible, more, noted_at};
ghost use Rattle.bgp_html.specs.Noted.{nothing_noted, with_line, with_rest};
ghost use Rattle.bgp_html.specs.Notes.{IsNotedBy, noted_by};

use crate::printed::Kind;
use std::alloc::Allocator;
use std::mem;

/// Of each answer in a text, the lines that say what could have come there, or had to.
#[derive(Drop)]
pub struct Notes<A: Allocator> {
    alloc: A,
    /// Those of the answers before the last one. The first are those before all answers.
    done: Vec<Vec<u8, A>, A>,
    /// Those of the last one.
    last: Vec<u8, A>,
    /// Whether memory was refused for some of them.
    are_missing: bool,
}

/// Checks whether a line of this kind is an answer: an end that is judged has one.
fn is_answer(kind: Kind) -> bool
    ensures { result ≡ is_answer kind }
{
    match kind {
        Kind::Yes | Kind::No | Kind::Unfinished => true,
        Kind::Connection | Kind::NotJudged | Kind::Possible => false,
        Kind::Beside | Kind::Whole | Kind::Totals => false,
    }
}

/// Checks whether a line of this kind says what could have come, or had to.
fn is_possible(kind: Kind) -> bool
    ensures { result ≡ is_possible kind }
{
    match kind {
        Kind::Possible => true,
        Kind::Connection | Kind::Yes | Kind::No | Kind::Unfinished => false,
        Kind::NotJudged | Kind::Beside | Kind::Whole | Kind::Totals => false,
    }
}

impl<A: Allocator + Copy> Notes<A> {
    /// Nothing yet.
    pub(crate) fn new(alloc: A) -> Notes<A>
        ensures noted { noted_by result ≡ nothing_noted }
        ensures none { IsFalse result.are_missing }
    {
        Notes {
            alloc,
            done: Vec::new(alloc),
            last: Vec::new(alloc),
            are_missing: false,
        }
    }

    /// Begins those of an answer.
    fn begin(&mut self)
        ensures { IsNotedBy self.old self.new begun }
    {
        let last = mem::replace(&mut self.last, Vec::new(self.alloc));
        match self.done.push(last) {
            Ok(()) => {}
            Err(_) => self.are_missing = true,
        }
    }

    /// Adds octets to those of the last answer.
    fn add(&mut self, octets: &[u8])
        ensures { IsNotedBy self.old self.new (more octets.now) }
    {
        match self.last.extend_from_slice(octets) {
            Ok(()) => {}
            Err(_) => self.are_missing = true,
        }
    }

    /// Adds the rest of a line of this kind.
    pub(crate) fn add_rest(&mut self, kind: Kind, octets: &[u8])
        ensures { IsNotedBy self.old self.new (with_rest kind octets.now) }
    {
        if is_possible(kind) {
            self.add(octets);
        }
    }

    /// Adds a line of this kind, or its front.
    pub(crate) fn add_line(&mut self, kind: Kind, octets: &[u8])
        ensures { IsNotedBy self.old self.new (with_line kind octets.now) }
    {
        if is_answer(kind) {
            self.begin();
        } else {
            self.add_rest(kind, octets);
        }
    }

    /// Returns the lines that say what could have come, or had to, where an answer stands: the one
    /// with this number, from 1 on. If memory was refused for some lines of the text, there are
    /// none.
    pub fn of_answer(&self, number: usize) -> Option<&[u8]>
        ensures some { IfSome result (λ octets. octets.now ≡ noted_at number (noted_by self.now)) }
        ensures all { IfSome result (λ octets. IsFalse self.now.are_missing) }
        ensures none { IfNone result (IsTrue self.now.are_missing) }
    {
        if self.are_missing {
            return None;
        }
        match self.done.get(number) {
            Some(octets) => Some(octets.as_slice()),
            None => {
                if number == self.done.len() {
                    Some(self.last.as_slice())
                } else {
                    Some(b"")
                }
            }
        }
    }
}
