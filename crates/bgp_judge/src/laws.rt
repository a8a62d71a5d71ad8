//! Laws about a session's records and where they lead, each on a function that does nothing.

ghost use Rattle.std.specs.Prelude.{◌≤◌, ℕ, length};
ghost use Rattle.bgp_judge.specs.Chains.{BareChains, BareStep, BeginsByChains, EndsByChains};
ghost use Rattle.bgp_judge.specs.Memory.{LacksNoneBehindANo};
ghost use Rattle.bgp_judge.specs.Receiving.{HasAStep, IsImpossibleWhereOwed, IsSettled};
ghost use Rattle.bgp_judge.specs.Told.{EachRunIsAsTold, HasOneEnd, HasOneTable, ToldOneMore};
ghost use Rattle.bgp_judge.specs.Verdict.{HasOneVerdict, NeverNone};

use crate::tracker::Tracker;
use bgp_machine::{Head, each_owed_want_can_be_met, hear, read_update, some_outcome};
use bgp_open::{Config, Link};
use std::alloc::Allocator;

/// States that a session's records settle, for each run that shows them, the name of its state, the
/// link, and in Established the table that its routes come from (`specs/Told`); and that they do so
/// record by record.
pub fn records_tell_the_state()
    ensures each { EachRunIsAsTold }
    ensures one_more { ToldOneMore }
    ensures one_table { HasOneTable }
{}

/// States that two possible ends of a session's records with the same families disabled are equal.
/// So the order of the ends is strict, and there are at most four.
pub fn one_end_for_each_disabled_set()
    ensures { HasOneEnd }
{}

/// States that exactly one verdict holds of a session's records: two that hold are equal, and it
/// isn't so that none holds.
pub fn records_have_just_one_verdict()
    ensures one { HasOneVerdict }
    ensures some { NeverNone }
{}

/// States that where records have a verdict of no and memory is lacked for them, it is lacked before
/// the first record or for one that isn't behind the impossible one. So a no is answered whatever
/// is refused behind its record.
pub fn memory_is_lacked_behind_no_impossible_record<A: Allocator + Copy, T: Tracker<A>>(tracker: &T)
    ensures { LacksNoneBehindANo T.may_lack_at_start T.may_lack }
{}

/// Shows that an UPDATE is applied or refused on a link. One for which memory is refused isn't one
/// that resets the session, and so is applied.
fn settle<A: Allocator + Copy>(alloc: A, link: &Link, octets: &[u8])
    ensures { ¬ ¬ IsSettled link.now octets.now }
{
    some_outcome(link, octets);
    if let Ok(outcomes) = read_update(alloc, link, octets) {
        let _reset = outcomes.reset;
    }
}

/// States that each state has a step about any octets that are as long as a header or longer. What
/// is run decides which, and its result isn't used; the law holds also if memory is refused.
pub fn each_message_has_a_step<A: Allocator + Copy>(
    alloc: A,
    config: &Config,
    head: Head,
    octets: &[u8],
)
    ensures { 19 ≤ length octets.now → (t : ℕ) → ¬ ¬ HasAStep config.now head t octets.now }
{
    let _heard = hear(config, octets);
    if let Head::Established(link, _) = head {
        settle(alloc, &link, octets);
    }
}

/// States that a no at a received message, from a header's length on, is never about the peer: the
/// message is impossible only where the local system still owes something before it. `link` is the
/// one that the records settle. What is run decides what the message is, and its result isn't used;
/// the law holds also if memory is refused.
pub fn impossible_only_where_owed<A: Allocator + Copy>(
    alloc: A,
    config: &Config,
    link: &Link,
    octets: &[u8],
)
    ensures { 19 ≤ length octets.now → IsImpossibleWhereOwed config.now link.now octets.now }
{
    each_owed_want_can_be_met();
    let _heard = hear(config, octets);
    settle(alloc, link, octets);
}

/// States that records begin a run exactly where a chain of the judge's steps
/// ([`next_members`](crate::next_members)) leads from the fresh member to some member, record by
/// record; and that some run shows just them and ends so exactly where such a member has nothing
/// left to show and ends so.
pub fn a_member_is_reached()
    ensures begins { BeginsByChains }
    ensures ends { EndsByChains }
{
    each_owed_want_can_be_met();
}

/// States that routes decide nothing: with its routes forgotten, what a record makes of a member is
/// just what it makes of the member without routes. So chains whose members forget their routes at
/// each record lead to just the members that chains lead to, with their routes forgotten.
pub fn routes_decide_nothing()
    ensures step { BareStep }
    ensures chains { BareChains }
{}
