//! Laws of what may follow a session's records, each on a function that does nothing.

ghost use Rattle.std.specs.Prelude.{◌≤◌, Some, length};
ghost use Rattle.bgp_reason.specs.Asked.{AskedTellAll, ExpiresFromThenOn};
ghost use Rattle.bgp_reason.specs.Hearable.{CanBeHeard, IsSettled};
ghost use Rattle.bgp_reason.specs.Reasons.{MessageWhereARunEnds, NoHasAReason};
ghost use Rattle.bgp_reason.specs.Reasons.{OwedWhereUnfinished, SomethingMayFollow};
ghost use Rattle.bgp_reason.specs.Told.{ToldOneMore, ToldStateIsTold};

use bgp_machine::{each_owed_want_can_be_met, empty_is_clean, hear, read_update, some_outcome};
use bgp_open::{Config, Link};
use std::alloc::Allocator;

/// What is so of one record of each kind tells all that may follow, and nothing else.
pub fn one_record_of_each_kind_tells_all()
    ensures { AskedTellAll }
{
    each_owed_want_can_be_met();
    empty_is_clean();
}

/// Where Hold Timer Expired may be sent, it may be later.
pub fn hold_timer_expires_from_then_on()
    ensures { ExpiresFromThenOn }
{
    each_owed_want_can_be_met();
}

/// Where records begin a run, something may follow them. So of a record that is impossible there is
/// a reason: it is none of those that are possible in its place, and there are others.
pub fn each_no_has_a_reason()
    ensures something { SomethingMayFollow }
    ensures reason { NoHasAReason }
{
    each_owed_want_can_be_met();
}

/// A message may be received just where some run ends. So something is owed, that is to be sent or
/// told first, just where the verdict is unfinished.
pub fn owed_where_unfinished()
    ensures message { MessageWhereARunEnds }
    ensures owed { OwedWhereUnfinished }
{
    each_owed_want_can_be_met();
}

/// What an UPDATE comes to on a link: it is applied or refused. Where memory is refused, it is none
/// that resets the session, and so is applied.
fn settle<A: Allocator + Copy>(alloc: A, link: &Link, octets: &[u8])
    ensures { ¬ ¬ IsSettled (Some link.now) octets.now }
{
    some_outcome(link, octets);
    if let Ok(outcomes) = read_update(alloc, link, octets) {
        let _reset = outcomes.reset;
    }
}

/// Octets of the size of a header and more can be heard: it isn't so that they are no message of
/// any kind, or an UPDATE that is neither applied nor refused on the link. What is run decides
/// which, and nothing of it is answered; it says the same where memory is refused.
pub fn each_message_can_be_heard<A: Allocator + Copy>(
    alloc: A,
    config: &Config,
    link: Option<Link>,
    octets: &[u8],
)
    ensures { 19 ≤ length octets.now → ¬ ¬ CanBeHeard config.now link octets.now }
{
    let _heard = hear(config, octets);
    if let Some(link) = link {
        settle(alloc, &link, octets);
    }
}

/// What records tell is told one by one, and the state is the one that runs of them end in
/// ([law](bgp_judge::records_tell_the_state)).
pub fn records_tell_one_by_one()
    ensures one_more { ToldOneMore }
    ensures state { ToldStateIsTold }
{}
