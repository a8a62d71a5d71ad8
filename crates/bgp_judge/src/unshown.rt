//! What a step has still to show, record by record.

ghost use Rattle.std.specs.Prelude.{◌≡◌, ◌∷◌, [], MatchOption};
ghost use Rattle.bgp_prefix.specs.Shown.{Sent, Changed};
ghost use Rattle.bgp_open.specs.declared.config.Config.{Config as TheConfig};
ghost use Rattle.bgp_machine.specs.Want.{wants_of};
ghost use Rattle.mrt.specs.Reader.{shown_of};
ghost use Rattle.bgp_judge.specs.Unshown.{PaysNothing, Leaves};

use bgp_machine::{Fsm, Want, Wants, meets};
use bgp_open::{Config, Link};
use mrt::Record;

/// What a step has still to show.
#[derive(Clone, Copy, Debug, PartialEq, Eq)]
pub struct Unshown {
    /// The messages that it has still to send, in order.
    pub wants: Wants,
    /// The change of state that isn't shown yet: the old state and the new one.
    pub change: Option<(Fsm, Fsm)>,
}

/// Splits the first want from the others.
fn split_first(wants: Wants) -> Option<(Want, Wants)>
    ensures { MatchOption result (wants_of wants ≡ [])
        (λ x. wants_of wants ≡ x.0 ∷ wants_of x.1) }
{
    match wants {
        Wants::Nothing => None,
        Wants::One(want) => Some((want, Wants::Nothing)),
        Wants::Two(first, second) => Some((first, Wants::One(second))),
    }
}

/// Returns what a sent message leaves, if it is the first that is owed.
fn pay_message(
    config: &Config,
    link: Option<Link>,
    unshown: Unshown,
    octets: &[u8],
) -> Option<Unshown>
    ensures { MatchOption result
        ((t : _) → PaysNothing config.now link (Sent t octets.now) unshown)
        (λ left. (t : _) → Leaves config.now link (Sent t octets.now) unshown left) }
{
    let (first, others) = split_first(unshown.wants)?;
    if !meets(config, link, first, octets) {
        return None;
    }
    Some(Unshown {
        wants: others,
        change: unshown.change,
    })
}

/// Returns what a change of state leaves, if it is the one that is owed.
fn pay_change(unshown: Unshown, old: u16, new: u16) -> Option<Unshown>
    ensures { MatchOption result
        ((config : TheConfig) (link : _) (t : _)
        → PaysNothing config link (Changed t old new) unshown)
        (λ left. (config : TheConfig) (link : _) (t : _)
        → Leaves config link (Changed t old new) unshown left) }
{
    let (from, to) = unshown.change?;
    if from.number() != old {
        return None;
    }
    if to.number() != new {
        return None;
    }
    Some(Unshown {
        wants: unshown.wants,
        change: None,
    })
}

/// Returns what is left to show after the record, on the link that stood before the step. Returns
/// `None` if the record isn't what comes next: a sent message that doesn't meet the first want,
/// another change, or a received message. Takes no memory.
pub fn pay(
    config: &Config,
    link: Option<Link>,
    unshown: Unshown,
    shown: &Record<'_>,
) -> Option<Unshown>
    ensures { MatchOption result (PaysNothing config.now link (shown_of shown.now) unshown)
        (λ left. Leaves config.now link (shown_of shown.now) unshown left) }
{
    match *shown {
        Record::In(_, _) => None,
        Record::Out(_, octets) => pay_message(config, link, unshown, octets),
        Record::Change(_, old, new) => pay_change(unshown, old, new),
    }
}
