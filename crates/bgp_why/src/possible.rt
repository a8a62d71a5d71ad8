//! What may follow, an item a line, and what the impossible record lacks of it.

ghost use Rattle.std.specs.Prelude.{◌≡◌, ◌∷◌, []};
ghost use Rattle.bgp_text.specs.Lines.{Writes};
ghost use Rattle.bgp_why.specs.Items.{all_items, first_word, next_word, those_possible};
ghost use Rattle.bgp_why.specs.Lacks.{but_text};
ghost use Rattle.bgp_why.specs.Possible.{item_line, item_lines, possible_but_lines};
ghost use Rattle.bgp_why.specs.Possible.{possible_lines, possible_shown, shown_lines};
ghost use Rattle.bgp_why.specs.Possible.{states_without};

use crate::items::{ITEMS, Item, items_of, put_item};
use crate::lacks::{Lacks, put_but};
use crate::other_lines::put_other_orders;
use crate::style::Style;
use bgp_machine::Fsm;
use bgp_text::Lines;
use bgp_why_parts::{Possible, States};
use mrt::Sink;
use std::alloc::{Allocator, Global};

/// All states of a set but this one.
fn states_without(state: Fsm, states: States) -> States
    ensures { result ≡ states_without state states }
{
    match state {
        Fsm::Idle => States {
            idle: false,
            ..states
        },
        Fsm::Connect => States {
            connect: false,
            ..states
        },
        Fsm::Active => States {
            active: false,
            ..states
        },
        Fsm::OpenSent => States {
            open_sent: false,
            ..states
        },
        Fsm::OpenConfirm => States {
            open_confirm: false,
            ..states
        },
        Fsm::Established => States {
            established: false,
            ..states
        },
    }
}

/// What may follow, as it is shown.
fn possible_shown(is_recording: bool, possible: &Possible) -> Possible
    ensures { result ≡ possible_shown is_recording possible.now }
{
    if is_recording {
        Possible {
            changes: states_without(possible.state, possible.changes),
            ..*possible
        }
    } else {
        *possible
    }
}

/// Returns the items that are shown, in the order of their lines, or `None` in the place of each
/// that isn't possible.
pub fn shown_items(style: &Style, possible: &Possible) -> [Option<Item>; ITEMS]
    ensures { result ≡ all_items (possible_shown style.now.is_recording possible.now) }
{
    items_of(&possible_shown(style.is_recording, possible))
}

/// The words before the first item.
fn first_word(message: bool, is_next: bool) -> &'static [u8]
    ensures { result.now ≡ first_word message is_next }
{
    match (message, is_next) {
        (true, true) => b"could come next: ",
        (true, false) => b"could come here: ",
        (false, true) => b"had to come next: ",
        (false, false) => b"had to come here: ",
    }
}

/// Puts the line of an item after these words.
pub(crate) fn put_item_line<W: Sink, A: Allocator>(
    lines: &mut Lines<'_, W>,
    style: &Style,
    word: &'static [u8],
    item: &Item,
    lacks: &Lacks<'_, A>,
)
    ensures { Writes lines.old lines.new
        (item_line style.now.first (but_text style.now.own_faults lacks.now) word.now item.now) }
{
    lines.put(b"  ");
    lines.put(word);
    put_item(lines, style.first, item);
    put_but(lines, style.own_faults, item, lacks);
    lines.put(b"\n");
}

/// Puts the line of an item after these words, where the item is possible, and answers the words of
/// the next line.
fn put_next_line<W: Sink, A: Allocator>(
    lines: &mut Lines<'_, W>,
    style: &Style,
    word: &'static [u8],
    item: &Option<Item>,
    lacks: &Lacks<'_, A>,
) -> &'static [u8]
    ensures writes { Writes lines.old lines.new
        (item_lines style.now.first (but_text style.now.own_faults lacks.now) word.now
        (those_possible (item.now ∷ []))) }
    ensures word { result.now ≡ next_word word.now item.now }
{
    let Some(item) = *item else {
        return word;
    };
    put_item_line(lines, style, word, &item, lacks);
    b"or: "
}

/// Puts the lines of items.
fn put_lines<W: Sink, A: Allocator>(
    lines: &mut Lines<'_, W>,
    style: &Style,
    is_next: bool,
    possible: &Possible,
    lacks: &Lacks<'_, A>,
)
    ensures { Writes lines.old lines.new (shown_lines style.now is_next
        (but_text style.now.own_faults lacks.now) possible.now) }
{
    let shown = possible_shown(style.is_recording, possible);
    let mut word = first_word(possible.message, is_next);
    for item in &items_of(&shown) {
        word = put_next_line(lines, style, word, item, lacks);
    }
}

/// Puts what may stand in the impossible record's place, an item a line: `could come here: ITEM`
/// or, where something is due, `had to come here: ITEM`, and then `or: ITEM` each. Behind the item
/// that the record resembles stands what it lacks of it: `; this one: PART; PART`. Then what could
/// have been sent in other orders, as the style says, if no line has it: `or: in another order,
/// ITEM` each. Nothing is put where nothing may follow.
pub fn put_possible_but<W: Sink, A: Allocator>(
    lines: &mut Lines<'_, W>,
    style: &Style,
    possible: &Possible,
    lacks: &Lacks<'_, A>,
)
    ensures { Writes lines.old lines.new (possible_but_lines style.now possible.now lacks.now) }
{
    put_lines(lines, style, false, possible, lacks);
    put_other_orders(lines, style, possible);
}

/// Puts what may follow all records: the same lines with `next` in place of `here`, and without
/// parts.
pub fn put_possible<W: Sink>(lines: &mut Lines<'_, W>, style: &Style, possible: &Possible)
    ensures { Writes lines.old lines.new (possible_lines style.now possible.now) }
{
    put_lines::<W, Global>(lines, style, true, possible, &Lacks::Nothing);
}
