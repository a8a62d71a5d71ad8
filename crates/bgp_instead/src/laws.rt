//! A law of what could have been sent, on a function that does nothing.

ghost use Rattle.bgp_instead.specs.Kinds.{EachIsOfAKind};

use bgp_machine::each_owed_want_can_be_met;
use bgp_update::empty_is_clean;

/// States that each message that could have been sent in a place is of one of the kinds that
/// [`sendable_instead`](crate::sendable_instead) returns. Of Bad Message Length and Bad Message Type
/// it says so where the data are those of the message that was received last: behind a faulty header
/// no message is read.
pub fn each_message_is_of_a_kind()
    ensures { EachIsOfAKind }
{
    each_owed_want_can_be_met();
    empty_is_clean();
}
