//! The lines of what could have been sent in the impossible record's place in another order.

ghost use Rattle.std.specs.Prelude.{◌≡◌, ◌∷◌, []};
ghost use Rattle.bgp_text.specs.Lines.{Writes};
ghost use Rattle.bgp_why.specs.Items.{all_items, those_possible};
ghost use Rattle.bgp_why.specs.OtherOrders.{besides};
ghost use Rattle.bgp_why.specs.Possible.{other_item_lines, other_lines};

use crate::items::{ITEMS, Item, items_of};
use crate::lacks::Lacks;
use crate::other_orders::{OtherOrders, besides};
use crate::possible::put_item_line;
use crate::style::Style;
use bgp_text::Lines;
use bgp_why_parts::Possible;
use mrt::Sink;
use std::alloc::Global;

/// Returns the items that these others have beside the possible ones.
pub fn other_items(possible: &Possible, others: &Possible) -> [Option<Item>; ITEMS]
    ensures { result ≡ all_items (besides possible.now others.now) }
{
    items_of(&besides(possible, others))
}

/// Puts the line of an item, where it is possible.
fn put_other_item<W: Sink>(lines: &mut Lines<'_, W>, style: &Style, item: &Option<Item>)
    ensures { Writes lines.old lines.new
        (other_item_lines style.now.first (those_possible (item.now ∷ []))) }
{
    let Some(item) = *item else {
        return;
    };
    let word = b"or: in another order, ";
    put_item_line::<W, Global>(lines, style, word, &item, &Lacks::Nothing);
}

/// Puts the lines of what could have been sent.
fn put_other_items<W: Sink>(lines: &mut Lines<'_, W>, style: &Style, others: &Possible)
    ensures { Writes lines.old lines.new
        (other_item_lines style.now.first (those_possible (all_items others.now))) }
{
    for item in &items_of(others) {
        put_other_item(lines, style, item);
    }
}

/// Puts what could have been sent in other orders, an item a line, `or: in another order, ITEM`,
/// for each that isn't possible by the records; or that it isn't known. Nothing is put where
/// nothing is said of other orders.
pub(crate) fn put_other_orders<W: Sink>(
    lines: &mut Lines<'_, W>,
    style: &Style,
    possible: &Possible,
)
    ensures { Writes lines.old lines.new
        (other_lines style.now.first possible.now style.now.other_orders) }
{
    match &style.other_orders {
        OtherOrders::Unasked => lines.put(b""),
        OtherOrders::Unknown => lines.put(
            b"  or: perhaps more in another order (too many to try, or out of memory)\n",
        ),
        OtherOrders::Known(others) => put_other_items(lines, style, &besides(possible, others)),
    }
}
