//! A law of the lines of a reason, on a function that does nothing.

ghost use Rattle.bgp_why.specs.Lines.{LinesTellAll, OthersTellTheRest};

use bgp_update::empty_is_clean;

/// The lines of what may follow tell all of it, and nothing else: a record that a capture can hold
/// may follow just where it is of an item that has a line, and no line is without such a record.
pub fn lines_tell_all_that_may_follow()
    ensures { LinesTellAll }
{
    empty_is_clean();
}

/// The lines of other orders tell what could be sent in them and isn't told already, and nothing
/// else: a message that could be sent in some order is of an item of one of the lines before, or of
/// one of theirs; and each of theirs could be.
pub fn other_orders_tell_the_rest()
    ensures { OthersTellTheRest }
{}
