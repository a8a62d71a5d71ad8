//! What could have been sent in other orders, an object an item.

ghost use Rattle.std.specs.Prelude.{◌∷◌, []};
ghost use Rattle.bgp_why.specs.Items.{all_items, those_possible};
ghost use Rattle.bgp_why.specs.OtherOrders.{besides};
ghost use Rattle.bgp_json_verdicts.specs.Lines.{other_item_values, other_values};
ghost use Rattle.bgp_json_verdicts.specs.Telling.{Tells};

use crate::texts::item_text;
use bgp_json_verdicts::{ReasonLine, Telling, VerdictLine};
use bgp_reason::Possible;
use bgp_text::Lines;
use bgp_why::{Item, OtherOrders, Style, other_items};
use mrt::Sink;
use std::alloc::{AllocError, Allocator};

/// Puts the object of an item, if it is possible.
fn tell_other<A: Allocator + Copy, W: Sink>(
    telling: &mut Telling,
    lines: &mut Lines<'_, W>,
    alloc: A,
    style: &Style,
    item: &Option<Item>,
)
    ensures { Tells telling.old telling.new lines.old lines.new
        (other_item_values style.now.first (those_possible (item.now ∷ []))) }
{
    let Some(item) = *item else {
        return;
    };
    match item_text(alloc, style.first, &item) {
        Ok(text) => {
            let reason = ReasonLine::InAnotherOrder(text.as_slice());
            telling.put(lines, alloc, &VerdictLine::Reason(reason));
        }
        Err(AllocError) => telling.fail(),
    }
}

/// Puts what could have been sent, an object an item, for each that isn't possible by the records.
fn tell_others<A: Allocator + Copy, W: Sink>(
    telling: &mut Telling,
    lines: &mut Lines<'_, W>,
    alloc: A,
    style: &Style,
    possible: &Possible,
    others: &Possible,
)
    ensures { Tells telling.old telling.new lines.old lines.new
        (other_item_values style.now.first
        (those_possible (all_items (besides possible.now others.now)))) }
{
    for item in &other_items(possible, others) {
        tell_other(telling, lines, alloc, style, item);
    }
}

/// Puts what could have been sent in other orders, an object an item, for each that isn't possible by
/// the records; or that it isn't known.
pub(crate) fn tell_other_orders<A: Allocator + Copy, W: Sink>(
    telling: &mut Telling,
    lines: &mut Lines<'_, W>,
    alloc: A,
    style: &Style,
    possible: &Possible,
)
    ensures { Tells telling.old telling.new lines.old lines.new
        (other_values style.now.first possible.now style.now.other_orders) }
{
    match &style.other_orders {
        OtherOrders::Unasked => {}
        OtherOrders::Unknown => {
            let reason = ReasonLine::OtherOrdersUnknown;
            telling.put(lines, alloc, &VerdictLine::Reason(reason));
        }
        OtherOrders::Known(others) => tell_others(telling, lines, alloc, style, possible, others),
    }
}
