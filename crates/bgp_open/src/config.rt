//! What the local system is configured to do.

ghost use Rattle.std.specs.Prelude.{◌≡◌, ◌↔◌, ◌⊎◌, IsTrue, IfSome, IfNone};
ghost use Rattle.bgp_open.specs.Config.{IsConfig, AreNumbers, HaveTwoOctets};
ghost use Rattle.bgp_open.specs.Config.{IsBadHold, is_internal, offering_nothing};

use crate::families::Families;
use crate::route_offer::RouteOffer;
use bgp_prefix::{Seconds, Session};
use bgp_wire::needs_four_octets;

/// The parts of a configuration, not yet checked.
///
/// [`Session`] says which session of a capture is meant, and `Link` what both OPENs settle.
#[derive(Clone, Copy, Debug, PartialEq, Eq)]
pub struct ConfigParts {
    /// The local system's AS number.
    pub local_as: u32,
    /// The peer's AS number.
    pub peer_as: u32,
    /// The local system's BGP Identifier.
    pub local_id: u32,
    /// The Hold Time that the OPEN proposes, in seconds.
    pub hold: u16,
    /// The families that the OPEN offers.
    pub families: Families,
    /// Whether the OPEN has the capability of four-octet AS numbers (RFC 6793).
    pub as4: bool,
    /// Whether the OPEN may be delayed (RFC 4271, 8.1.1, DelayOpen).
    pub delay_open: bool,
    /// How long the local system waits for the peer's OPEN. RFC 4271, 8.2.2, suggests a large value
    /// of the HoldTimer: 4 minutes.
    pub large_hold: Seconds,
    /// The two ends of the session.
    pub session: Session,
    /// What the OPEN offers about routes. If this is nothing, the OPEN may still offer something
    /// about routes, but that offer has no effect.
    pub offers: RouteOffer,
}

/// A configuration of the local system.
#[derive(Clone, Copy, Debug, PartialEq, Eq)]
pub struct Config {
    /// What it is made of.
    pub parts: ConfigParts,
    /// [`Config::new`] accepts the parts.
    pub ghost valid: { IsConfig parts },
    /// Its numbers fit their fields.
    pub ghost fits: { AreNumbers parts },
}

/// Whether a Hold Time is one that none may have: it is to be 0 or at least 3 seconds.
pub(crate) fn is_bad_hold(hold: u16) -> bool
    ensures { IsTrue result ↔ IsBadHold hold }
{
    hold == 1 || hold == 2
}

/// Whether two octets can hold both AS numbers.
fn have_two_octets(parts: &ConfigParts) -> bool
    ensures { IsTrue result ↔ HaveTwoOctets parts.now }
{
    !needs_four_octets(parts.local_as) && !needs_four_octets(parts.peer_as)
}

/// Whether the parts make a configuration.
fn is_config(parts: &ConfigParts) -> bool
    ensures { IsTrue result ↔ IsConfig parts.now }
{
    parts.local_as != 0
        && parts.peer_as != 0
        && parts.local_id != 0
        && !is_bad_hold(parts.hold)
        && !parts.families.is_empty()
        && parts.large_hold != 0
        && (parts.as4 || have_two_octets(parts))
}

impl Config {
    /// Makes a configuration of the parts. Returns `None` if an AS number or the BGP Identifier is
    /// 0, the Hold Time is 1 or 2 (RFC 4271, 4.2), no family is offered, the large Hold Time is 0,
    /// or an AS number has more than two octets and the OPEN doesn't offer four-octet ones (RFC
    /// 6793, 1).
    pub fn new(parts: ConfigParts) -> Option<Config>
        ensures some { IfSome result (λ config. config.parts ≡ parts) }
        ensures none { IfNone result (¬ IsConfig parts) }
    {
        if is_config(&parts) {
            Some(Config { parts })
        } else {
            None
        }
    }

    /// Checks whether the peer is internal: both AS numbers are equal (RFC 4271, 1.1).
    pub fn is_internal(&self) -> bool
        ensures { result ≡ is_internal self.now.parts }
    {
        self.parts.local_as == self.parts.peer_as
    }

    /// Returns the same configuration, except that it offers nothing about routes.
    pub fn without_offers(self) -> Config
        ensures { result.parts ≡ offering_nothing self.parts }
    {
        Config {
            parts: ConfigParts {
                offers: RouteOffer::NOTHING,
                ..self.parts
            },
        }
    }
}
