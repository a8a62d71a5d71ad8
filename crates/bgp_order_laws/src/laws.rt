//! Laws of what is printed of a connection, each on a function that does nothing.

ghost use Rattle.bgp_order_laws.specs.AllEnds.{PrintedYesListsEveryEnd};
ghost use Rattle.bgp_order_laws.specs.Checked.{CheckedYesListsEveryEnd};
ghost use Rattle.bgp_order_laws.specs.OneAnswer.{PrintsOneAnswer, PrintsOneMadeVerdict};
ghost use Rattle.bgp_order_laws.specs.Patience.{LessPatienceKeepsANo, MorePatienceKeepsAYes};

use bgp_import::recordings_are_made_once;
use bgp_judge::records_have_just_one_verdict;
use bgp_orders::{no_order_explains_a_no, one_verdict_over_all_ways, runs_of_entries_are_whole};
use bgp_way_ends::{a_yes_lists_all_ends, two_starts_are_enough, whole_ways_end_in_one_state};

/// Law: the ends that are printed behind a yes are all in which the session can have ended.
///
/// If what is printed of a connection begins with `yes`, lines of some ends stand behind it, and
/// these are just the ends that some run of the session machine has which shows just the records of
/// the connection's messages, in some order that the packets allow within the patience: each of
/// them, and no other. That holds whether the yes is of the order that was made or of another, and
/// from whichever of the standard's four starts the session began (RFC 4271, 8.2.2).
pub fn a_printed_yes_lists_every_end()
    ensures { PrintedYesListsEveryEnd }
{
    a_yes_lists_all_ends();
    two_starts_are_enough();
}

/// Law: what is printed of a connection is one thing.
///
/// Two prints of one connection, for the same configuration and patience, whatever memory each
/// had, never say two different things of all orders that the packets allow. Both say `yes` with
/// the same ends, or `no at packet` of the same packet, or `unfinished`, and so it is. Or one of
/// them says nothing of all orders: the connection is refused, as it is if memory is; or the search
/// reaches too many nodes, and the print is about the made order alone. Two such prints have the
/// same verdict on that order.
pub fn a_printed_verdict_is_the_only_one()
    ensures all { PrintsOneAnswer }
    ensures made { PrintsOneMadeVerdict }
{
    a_yes_lists_all_ends();
    no_order_explains_a_no();
    one_verdict_over_all_ways();
    recordings_are_made_once();
    records_have_just_one_verdict();
    runs_of_entries_are_whole();
    two_starts_are_enough();
}

/// Law: more patience takes no printed yes back, and less patience no printed no.
///
/// If `yes` is printed of a connection, then with more patience (`--within`) the same lines are
/// printed, `yes` and the same ends: all that the session can have, with either patience. If `no at
/// packet` is printed, then with less patience it is printed, too, of that message or one before
/// it. Or what is printed then says nothing of all orders, as
/// [`a_printed_verdict_is_the_only_one`] has it.
pub fn more_patience_keeps_a_printed_yes()
    ensures yes { MorePatienceKeepsAYes }
    ensures no { LessPatienceKeepsANo }
{
    a_yes_lists_all_ends();
    no_order_explains_a_no();
    one_verdict_over_all_ways();
    records_have_just_one_verdict();
    runs_of_entries_are_whole();
    two_starts_are_enough();
}

/// Law: the ends that `check` prints behind a yes are all in which the session can have ended.
///
/// If the lines of an end begin with `yes`, the ends in them are just those that the session can
/// have under the configuration under which the yes is told, in any order of the connection's
/// messages that the packets allow within the patience. And under each configuration under which
/// the end's OPEN is its own, and which allows the order of the answer, the session can have no
/// other end, by any order. Of a configuration that allows another order alone it says nothing.
pub fn a_checked_yes_lists_every_end()
    ensures { CheckedYesListsEveryEnd }
{
    a_yes_lists_all_ends();
    runs_of_entries_are_whole();
    whole_ways_end_in_one_state();
}
