//! What both OPENs of a session offer about routes, kept record by record.

ghost use Rattle.std.specs.Prelude.{◌≡◌, ◌↔◌, ◌++◌, ◌∷◌, [], ℕ, List, IsTrue};
ghost use Rattle.std.specs.Prelude.{IfSome, IfNone};
ghost use Rattle.bgp_prefix.specs.Shown.{ShownRecord};
ghost use Rattle.bgp_open.specs.OpenFault.{IsWellFormed};
ghost use Rattle.mrt.specs.Reader.{shown_of};
ghost use Rattle.bgp_judge.specs.Told as judged;
ghost use Rattle.bgp_parts.specs.Opens.{IsSent, SendsNone};
ghost use Rattle.bgp_open.specs.RouteOffer.{IsRouteOffer};
ghost use Rattle.bgp_explain.specs.LeftOut.{LeavesOut};
ghost use Rattle.bgp_explain.specs.Offers.{AreOffersAt, IsOwnOffer};
ghost use Rattle.bgp_explain.specs.Offers.{no_offers, settling_by};

use crate::left_out::LeftOut;
use bgp_machine::Fsm;
use bgp_open::{Config, RouteOffer, read_open};
use mrt::Record;

/// Idle's number in a record (RFC 6396, 4.4.1).
const IDLE: u16 = 1;

/// What the OPENs of a session offer about routes, as far as its records tell them.
#[derive(Clone, Copy)]
pub(crate) struct Offers {
    /// What the first OPEN offers that was sent, if one was.
    pub(crate) own: Option<RouteOffer>,
    /// What the message offers that was received last before OpenConfirm.
    pub(crate) peers: RouteOffer,
    /// What the OPEN offers that settles the link.
    pub(crate) settling: RouteOffer,
}

/// Whether octets are a whole and well-formed OPEN.
fn is_well_formed(octets: &[u8]) -> bool
    ensures { IsTrue result ↔ IsWellFormed octets.now }
{
    read_open(octets).is_ok()
}

/// What a record's message offers, where it is an OPEN that is sent.
fn sent_offer(shown: &Record<'_>) -> Option<RouteOffer>
    ensures some { IfSome result (λ offer. (octets : List ℕ)
        × IsSent IsWellFormed (shown_of shown.now) octets × IsRouteOffer octets offer) }
    ensures none { IfNone result (SendsNone IsWellFormed (shown_of shown.now)) }
{
    match *shown {
        Record::Out(_, octets) if is_well_formed(octets) => Some(RouteOffer::of(octets)),
        _ => None,
    }
}

/// What the first OPEN offers that was sent, after one record more.
fn own_after(before: Option<RouteOffer>, shown: &Record<'_>) -> Option<RouteOffer>
    ensures { (records : List ShownRecord) → IsOwnOffer records before
        → IsOwnOffer (records ++ shown_of shown.now ∷ []) result }
{
    match before {
        Some(offer) => Some(offer),
        None => sent_offer(shown),
    }
}

/// What the message offers that was received last before OpenConfirm, after one record more, which
/// comes in this state.
fn peers_after(before: RouteOffer, state: Fsm, shown: &Record<'_>) -> RouteOffer
    ensures { (t : judged.Told) → state ≡ t.fsm → IsRouteOffer t.peer_open before
        → IsRouteOffer (judged.told_next t (shown_of shown.now)).peer_open result }
{
    match *shown {
        Record::In(_, octets) => match state {
            Fsm::OpenConfirm | Fsm::Established => before,
            Fsm::Idle | Fsm::Connect | Fsm::Active | Fsm::OpenSent => RouteOffer::of(octets),
        },
        Record::Out(_, _) => before,
        Record::Change(_, _, new) => {
            if new == IDLE {
                RouteOffer::NOTHING
            } else {
                before
            }
        }
    }
}

/// What the OPEN offers that settles the link in a state.
fn settling_in(state: Fsm, before: RouteOffer, peers: RouteOffer) -> RouteOffer
    ensures { result ≡ settling_by state before peers }
{
    match state {
        Fsm::Idle | Fsm::Connect | Fsm::Active | Fsm::OpenSent => before,
        Fsm::OpenConfirm | Fsm::Established => peers,
    }
}

impl Offers {
    /// Before the first record.
    pub(crate) fn nothing() -> Offers
        ensures { result ≡ no_offers }
    {
        Offers {
            own: None,
            peers: RouteOffer::NOTHING,
            settling: RouteOffer::NOTHING,
        }
    }

    /// With one record more, in this state, after which the records tell the other one.
    pub(crate) fn with(self, state: Fsm, after: Fsm, shown: &Record<'_>) -> Offers
        ensures { (records : List ShownRecord) → state ≡ (judged.told records).fsm
            → after ≡ (judged.told (records ++ shown_of shown.now ∷ [])).fsm
            → AreOffersAt records self
            → AreOffersAt (records ++ shown_of shown.now ∷ []) result }
    {
        let peers = peers_after(self.peers, state, shown);
        Offers {
            own: own_after(self.own, shown),
            peers,
            settling: settling_in(after, self.settling, peers),
        }
    }

    /// What judging leaves out of what both OPENs offer.
    pub(crate) fn left_out(self, config: &Config) -> LeftOut
        ensures { (records : List ShownRecord) → AreOffersAt records self
            → LeavesOut config.now records result }
    {
        let own = match self.own {
            Some(own) => own,
            None => RouteOffer::NOTHING,
        };
        LeftOut::of(config, own, self.settling)
    }
}
