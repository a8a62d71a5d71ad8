//! Laws of the ends of whole ways, each on a function that does nothing.

ghost use Rattle.bgp_way_ends.specs.Connections.{MadeOrderListsAllEnds, WayListsAllEnds};
ghost use Rattle.bgp_way_ends.specs.EveryEnd.{MadeYesListsEveryEnd, WayYesListsEveryEnd};
ghost use Rattle.bgp_way_ends.specs.MadeUnfinished.{MadeUnfinishedIsNoNo};
ghost use Rattle.bgp_way_ends.specs.OneState.{EachWholeWayTellsAllEnds, WholeWaysEndInOneState};
ghost use Rattle.bgp_way_ends.specs.Patience.{MorePatienceKeepsNodes, MorePatienceReaches};
ghost use Rattle.bgp_way_ends.specs.Patience.{MorePatienceStaysTooLong};
ghost use Rattle.bgp_way_ends.specs.Starts.{TwoStartsDecide, TwoStartsEndAll};
ghost use Rattle.bgp_way_ends.specs.Starts.{TwoStartsExplainAll};
ghost use Rattle.bgp_way_ends.specs.WayEnds.{EntriesTellAllEnds, OneWayForEachState};
ghost use Rattle.bgp_way_ends.specs.WayEnds.{OneWayTellsAllEnds, WholeWaysEndAlike};

use bgp_judge::{a_member_is_reached, records_tell_the_state};
use bgp_orders::{runs_of_entries_are_whole, whole_ways_are_reached};

/// States that two whole ways of an exchange that end in one state have the same ends. So the ends
/// of one of them, and of the entries of one, are all in which the session can have ended in that
/// state. Elsewhere than in Established there are no routes; and in Established they come from the
/// messages that were received behind the KEEPALIVE that led there, which are the same in each way.
pub fn whole_ways_end_alike()
    ensures ways { WholeWaysEndAlike }
    ensures one { OneWayTellsAllEnds }
    ensures entries { EntriesTellAllEnds }
{
    a_member_is_reached();
    records_tell_the_state();
    runs_of_entries_are_whole();
}

/// States that the session can have ended so exactly where one of some whole ways ends so, if for
/// each node that is reached at which nothing is left one of these ways ends in its state.
pub fn one_way_for_each_state_is_enough()
    ensures { OneWayForEachState }
{
    whole_ways_end_alike();
    whole_ways_are_reached();
}

/// States that a yes on a connection lists all ends in its states, whatever order they are of. Of
/// the records of a way, as [`record_whole_way`](bgp_orders::record_whole_way) returns them, these
/// ends are listed, and of those that [`make_records`](bgp_recording::make_records) makes: then the
/// session can have ended, by any order that the packets allow, in no other end in the state of a
/// listed one.
pub fn a_yes_lists_all_ends_in_its_states()
    ensures way { WayListsAllEnds }
    ensures made { MadeOrderListsAllEnds }
{
    a_member_is_reached();
    records_tell_the_state();
    runs_of_entries_are_whole();
}

/// States that all whole ways of an exchange end in one state, if a message that is a NOTIFICATION
/// by its kind is one by its octets. So the ends of one of them are all in which the session can
/// have ended. Where the connection has an end, nothing stays but Idle, or Active if no message
/// was received behind the own OPEN; else a session falls only by a NOTIFICATION, or by a message
/// before the own OPEN, and where it doesn't fall, what was received settles its state.
pub fn whole_ways_end_in_one_state()
    ensures state { WholeWaysEndInOneState }
    ensures ends { EachWholeWayTellsAllEnds }
{
    a_member_is_reached();
    records_tell_the_state();
    whole_ways_end_alike();
}

/// States that a yes on a connection lists all ends, whatever order they are of: of those that
/// [`a_yes_lists_all_ends_in_its_states`] names the premise of the states isn't needed. If any end
/// is listed the session can have ended, by any order that the packets allow, in the listed ends
/// alone.
pub fn a_yes_lists_all_ends()
    ensures way { WayYesListsEveryEnd }
    ensures made { MadeYesListsEveryEnd }
{
    a_member_is_reached();
    records_tell_the_state();
    runs_of_entries_are_whole();
    a_yes_lists_all_ends_in_its_states();
}

/// States that where the order that is made is unfinished, it is no no over all orders that the
/// packets allow: some order is a yes, or it is unfinished over all. So whether a message is blamed
/// doesn't rest on which order is made.
pub fn a_made_unfinished_is_no_no()
    ensures { MadeUnfinishedIsNoNo }
{}

/// States that the two starts of a way are enough. The standard has four: Connect or Active before
/// the own OPEN (RFC 4271, 8.2.2), and the own OPEN delayed or not (DelayOpen). The end of a
/// connection leads to Idle from each of them (by the standard to Active from a delayed Connect).
/// From what packets show of a connection, a run from one of the four explains so many messages
/// exactly if some way does. A run from one of them ends in a state exactly if some whole way does.
/// And the verdict over all ways is that from the four.
pub fn two_starts_are_enough()
    ensures explained { TwoStartsExplainAll }
    ensures ends { TwoStartsEndAll }
    ensures verdict { TwoStartsDecide }
{
    a_member_is_reached();
}

/// States that more patience reaches no fewer nodes. So if the search is too long it needn't be
/// made again with more: more nodes than it looks at are reached then, too.
pub fn more_patience_reaches_no_fewer_nodes()
    ensures reached { MorePatienceReaches }
    ensures nodes { MorePatienceKeepsNodes }
    ensures too_long { MorePatienceStaysTooLong }
{}
