//! What may follow, an object an item.

ghost use Rattle.std.specs.Prelude.{◌≡◌, ◌∷◌, [], not};
ghost use Rattle.bgp_why.specs.Items.{those_possible};
ghost use Rattle.bgp_why.specs.Lacks.{but_text};
ghost use Rattle.bgp_json_verdicts.specs.Lines.{item_values, possible_values, still_first};
ghost use Rattle.bgp_json_verdicts.specs.Telling.{Tells};

use crate::texts::{but_text, item_text};
use bgp_json_verdicts::{ReasonLine, Telling, VerdictLine};
use bgp_reason::Possible;
use bgp_text::Lines;
use bgp_why::{Item, Lacks, Style, shown_items};
use mrt::Sink;
use std::alloc::Allocator;

/// How items are told: whether something is owed, and whether they come after all records.
#[derive(Clone, Copy)]
struct Way {
    is_owed: bool,
    is_next: bool,
}

/// Puts the object of an item.
fn tell_item<A: Allocator + Copy, B: Allocator, W: Sink>(
    telling: &mut Telling,
    lines: &mut Lines<'_, W>,
    alloc: A,
    style: &Style,
    way: Way,
    is_first: bool,
    item: &Item,
    lacks: &Lacks<'_, B>,
)
    ensures { Tells telling.old telling.new lines.old lines.new
        (item_values way.is_owed way.is_next is_first style.now.first
        (but_text style.now.own_faults lacks.now) (item.now ∷ [])) }
{
    let text = item_text(alloc, style.first, item);
    let but = but_text(alloc, style, item, lacks);
    match (text, but) {
        (Ok(text), Ok(but)) => {
            let reason = ReasonLine::Possible(
                way.is_owed,
                way.is_next,
                is_first,
                text.as_slice(),
                but.as_slice(),
            );
            telling.put(lines, alloc, &VerdictLine::Reason(reason));
        }
        _ => telling.fail(),
    }
}

/// Puts the object of an item, if it is possible, and returns whether the next one is the first.
fn tell_item_if<A: Allocator + Copy, B: Allocator, W: Sink>(
    telling: &mut Telling,
    lines: &mut Lines<'_, W>,
    alloc: A,
    style: &Style,
    way: Way,
    is_first: bool,
    item: &Option<Item>,
    lacks: &Lacks<'_, B>,
) -> bool
    ensures tells { Tells telling.old telling.new lines.old lines.new
        (item_values way.is_owed way.is_next is_first style.now.first
        (but_text style.now.own_faults lacks.now) (those_possible (item.now ∷ []))) }
    ensures first { result ≡ still_first is_first item.now }
{
    let Some(item) = *item else {
        return is_first;
    };
    tell_item(telling, lines, alloc, style, way, is_first, &item, lacks);
    false
}

/// Puts what may stand in the impossible record's place, or follow all records, an object an item,
/// with what the record lacks of the item that it resembles.
pub(crate) fn tell_possible<A: Allocator + Copy, B: Allocator, W: Sink>(
    telling: &mut Telling,
    lines: &mut Lines<'_, W>,
    alloc: A,
    style: &Style,
    is_next: bool,
    possible: &Possible,
    lacks: &Lacks<'_, B>,
)
    ensures { Tells telling.old telling.new lines.old lines.new
        (possible_values style.now is_next (but_text style.now.own_faults lacks.now)
        possible.now) }
{
    let way = Way {
        is_owed: !possible.message,
        is_next,
    };
    let mut is_first = true;
    for item in &shown_items(style, possible) {
        is_first = tell_item_if(telling, lines, alloc, style, way, is_first, item, lacks);
    }
}
