//! The link on which the local system sends, kept record by record.

ghost use Rattle.std.specs.Prelude.{◌≡◌, ◌++◌, ◌∷◌, [], List};
ghost use Rattle.bgp_prefix.specs.Shown.{ShownRecord};
ghost use Rattle.bgp_machine.specs.Run.{Begins};
ghost use Rattle.mrt.specs.Reader.{shown_of};
ghost use Rattle.bgp_judge.specs.Told as judged;
ghost use Rattle.bgp_explain.specs.Sending.{IsOffered, IsSendingAt, link_by, nothing_sending};

use crate::offers::Offers;
use bgp_machine::{Fsm, Heard, hear};
use bgp_open::{Config, Link};
use mrt::Record;

/// Idle's number in a record (RFC 6396, 4.4.1).
const IDLE: u16 = 1;

/// What the OPENs of a session settle and offer, as far as its records tell it.
#[derive(Clone, Copy)]
pub(crate) struct Sending {
    /// What the message settles that was received last before OpenConfirm, where it is an OPEN that
    /// need not be refused.
    pub(crate) offered: Option<Link>,
    /// The link on which a message is sent that follows the records.
    pub(crate) link: Option<Link>,
    /// What the OPENs offer about routes.
    pub(crate) offers: Offers,
}

/// What a message settles, where it is an OPEN that need not be refused.
fn settled(config: &Config, octets: &[u8]) -> Option<Link>
    ensures { IsOffered config.now octets.now result }
{
    match hear(config, octets) {
        Heard::ValidOpen(link, _) => Some(link),
        _ => None,
    }
}

/// What is offered after one record more, in this state.
fn offered_after(
    offered: Option<Link>,
    config: &Config,
    state: Fsm,
    shown: &Record<'_>,
) -> Option<Link>
    ensures { (t : judged.Told) → state ≡ t.fsm → IsOffered config.now t.peer_open offered
        → IsOffered config.now (judged.told_next t (shown_of shown.now)).peer_open result }
{
    match *shown {
        Record::In(_, octets) => match state {
            Fsm::OpenConfirm | Fsm::Established => offered,
            Fsm::Idle | Fsm::Connect | Fsm::Active | Fsm::OpenSent => settled(config, octets),
        },
        Record::Out(_, _) => offered,
        Record::Change(_, _, new) => { if new == IDLE { None } else { offered } }
    }
}

/// The link in a state: in OpenConfirm and Established what was offered, in Idle what stood before.
fn link_in(state: Fsm, before: Option<Link>, offered: Option<Link>) -> Option<Link>
    ensures { result ≡ link_by state before offered }
{
    match state {
        Fsm::Idle => before,
        Fsm::Connect | Fsm::Active | Fsm::OpenSent => None,
        Fsm::OpenConfirm | Fsm::Established => offered,
    }
}

impl Sending {
    /// Before the first record.
    pub(crate) fn nothing() -> Sending
        ensures { result ≡ nothing_sending }
    {
        Sending {
            offered: None,
            link: None,
            offers: Offers::nothing(),
        }
    }

    /// With one record more, in this state, after which the records tell the other one.
    pub(crate) fn with(self, config: &Config, state: Fsm, after: Fsm, shown: &Record<'_>) -> Sending
        ensures { (records : List ShownRecord) → state ≡ (judged.told records).fsm
            → after ≡ (judged.told (records ++ shown_of shown.now ∷ [])).fsm
            → Begins config.now (records ++ shown_of shown.now ∷ [])
            → IsSendingAt config.now records self
            → IsSendingAt config.now (records ++ shown_of shown.now ∷ []) result }
    {
        let offered = offered_after(self.offered, config, state, shown);
        Sending {
            offered,
            link: link_in(after, self.link, offered),
            offers: self.offers.with(state, after, shown),
        }
    }
}
