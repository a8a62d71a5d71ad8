//! Laws of ways, each on a function that does nothing.

ghost use Rattle.bgp_orders.specs.Explained.{FewerAreExplained, HasOneVerdictOver, NeverNoneOver};
ghost use Rattle.bgp_orders.specs.Explained.{MorePatienceExplains, MorePatienceKeepsEnds};
ghost use Rattle.bgp_orders.specs.Nodes.{ExplainedIsReached, ReachedIsExplained};
ghost use Rattle.bgp_orders.specs.Nodes.{ReachedIsWhole, WholeIsReached};
ghost use Rattle.bgp_orders.specs.Walks.{OrdersAreWalks, WalksAreOrders, WalksGoOn};
ghost use Rattle.bgp_orders.specs.Ways.{FrontsBeginWays, MadeIsAWay, SomeWay};

use bgp_machine::each_owed_want_can_be_met;

/// States that an order is allowed exactly where each item may stand next when it does, if what
/// packets show goes by a clock; and that from each place some walk leads to the end.
pub fn orders_are_walks()
    ensures walks { OrdersAreWalks }
    ensures orders { WalksAreOrders }
    ensures go_on { WalksGoOn }
{}

/// States that the made order is a way, that the records of the front of a way begin those of the
/// way, and that there is a way, if what packets show goes by a clock.
pub fn ways_begin_with_their_fronts()
    ensures made { MadeIsAWay }
    ensures fronts { FrontsBeginWays }
    ensures some { SomeWay }
{}

/// States that exactly one verdict over all ways holds: two that hold are equal, and it isn't so
/// that none holds, if what packets show goes by a clock. And that a way that explains a message
/// explains those before it.
pub fn one_verdict_over_all_ways()
    ensures one { HasOneVerdictOver }
    ensures some { NeverNoneOver }
    ensures fewer { FewerAreExplained }
{}

/// States that more patience keeps what is explained, and each end. So it makes no no of a yes, and
/// no no come earlier.
pub fn patience_keeps_verdicts()
    ensures explained { MorePatienceExplains }
    ensures ends { MorePatienceKeepsEnds }
{}

/// States that so many sent messages are explained exactly where a node is reached with them; the
/// one direction if what packets show goes by a clock.
pub fn explained_messages_are_reached()
    ensures reached { ExplainedIsReached }
    ensures explained { ReachedIsExplained }
{
    each_owed_want_can_be_met();
}

/// States that the session can have ended in a state exactly where a node is reached at which
/// nothing is left, in that state; the one direction if what packets show goes by a clock.
pub fn whole_ways_are_reached()
    ensures reached { WholeIsReached }
    ensures whole { ReachedIsWhole }
{
    each_owed_want_can_be_met();
}
