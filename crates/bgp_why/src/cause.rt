//! What is wrong with a record at which a no stands.

ghost use Rattle.std.specs.Prelude.{◌≡◌};
ghost use Rattle.bgp_text.specs.Lines.{Writes};
ghost use Rattle.bgp_why.specs.Deed.{cause_text, due_first, is_message, message_due};
ghost use Rattle.bgp_why.specs.Deed.{not_allowed, resembled_text};
ghost use Rattle.bgp_why.specs.Found.{found_with, the_one, with_message};

use crate::items::{Item, items_of, put_due};
use crate::lacks::{Lacks, is_resembled, put_lacks};
use crate::style::Style;
use bgp_text::Lines;
use bgp_why_parts::{OwnFaults, Possible};
use mrt::Sink;
use std::alloc::Allocator;

/// The messages among items so far.
#[derive(Clone, Copy)]
pub(crate) enum Found {
    /// There is none.
    Nothing,
    /// There is this one.
    One(Item),
    /// There are several.
    Several,
}

/// Whether an item is a message to be sent.
fn is_message(item: &Item) -> bool
    ensures { result ≡ is_message item.now }
{
    !matches!(*item, Item::ReceivedMessage | Item::Change(_, _))
}

/// What is found once this message follows.
fn with_message(found: Found, item: Item) -> Found
    ensures { result ≡ with_message item found }
{
    match found {
        Found::Nothing => Found::One(item),
        Found::One(_) | Found::Several => Found::Several,
    }
}

/// What is found once this item follows, if there is one.
fn found_with(found: Found, item: &Option<Item>) -> Found
    ensures { result ≡ found_with item.now found }
{
    let Some(item) = *item else {
        return found;
    };
    if is_message(&item) {
        with_message(found, item)
    } else {
        found
    }
}

/// The one message that is found.
fn the_one(found: Found) -> Option<Item>
    ensures { result ≡ the_one found }
{
    match found {
        Found::One(item) => Some(item),
        Found::Nothing | Found::Several => None,
    }
}

/// The message that is due, if there is just one.
fn message_due(possible: &Possible) -> Option<Item>
    ensures { result ≡ message_due possible.now }
{
    let mut found = Found::Nothing;
    for item in &items_of(possible) {
        found = found_with(found, item);
    }
    the_one(found)
}

/// That a message is due first, or something.
fn put_due_first<W: Sink>(lines: &mut Lines<'_, W>, item: Option<Item>)
    ensures { Writes lines.old lines.new (due_first item) }
{
    match item {
        None => lines.put(b" before it did what was due"),
        Some(item) => {
            lines.put(b", but ");
            put_due(lines, &item);
            lines.put(b" was due first");
        }
    }
}

/// What the record lacks of what may come, if it resembles something.
fn put_resembled<W: Sink, A: Allocator>(
    lines: &mut Lines<'_, W>,
    own_faults: Option<OwnFaults>,
    possible: &Possible,
    lacks: &Lacks<'_, A>,
)
    ensures { Writes lines.old lines.new (resembled_text own_faults possible.now lacks.now) }
{
    if is_resembled(possible, lacks) {
        put_lacks(lines, b": ", b": ", own_faults, lacks);
    } else {
        lines.put(b"");
    }
}

/// That the record isn't allowed here, and what it lacks of what is.
fn put_not_allowed<W: Sink, A: Allocator>(
    lines: &mut Lines<'_, W>,
    own_faults: Option<OwnFaults>,
    possible: &Possible,
    lacks: &Lacks<'_, A>,
)
    ensures { Writes lines.old lines.new (not_allowed own_faults possible.now lacks.now) }
{
    lines.put(b", not allowed here");
    put_resembled(lines, own_faults, possible, lacks);
}

/// Puts what is wrong with the impossible record: `, not allowed here` and what it lacks, or that
/// something is due first, as in `, but KEEPALIVE was due first`.
pub fn put_cause<W: Sink, A: Allocator>(
    lines: &mut Lines<'_, W>,
    style: &Style,
    possible: &Possible,
    lacks: &Lacks<'_, A>,
)
    ensures { Writes lines.old lines.new
        (cause_text style.now.own_faults possible.now lacks.now) }
{
    if possible.message {
        put_not_allowed(lines, style.own_faults, possible, lacks);
    } else {
        put_due_first(lines, message_due(possible));
    }
}
