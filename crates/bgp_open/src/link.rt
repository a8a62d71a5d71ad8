//! What both OPENs settle (RFC 4271, 4.2; RFC 6793, 4.1; RFC 4760, 8; RFC 8654, 4; RFC 7911, 5;
//! RFC 8950, 4).

ghost use Rattle.std.specs.Prelude.{◌≡◌};
ghost use Rattle.bgp_open.specs.Link.{link_of};

use crate::config::Config;
use crate::families::Families;
use crate::offer::{offered_as_number, offered_families, offers_extended};
use crate::open::Open;
use crate::route_form::RouteForm;
use crate::route_offer::RouteOffer;

/// What both OPENs of a session settle. It is small, and allocates nothing.
#[derive(Clone, Copy, Debug, PartialEq, Eq)]
#[non_exhaustive]
pub struct Link {
    /// The Hold Time in seconds: the smaller one of both OPENs. 0 is no limit.
    pub hold: u16,
    /// Whether AS numbers have four octets in AS_PATH and AGGREGATOR, not two.
    pub as4: bool,
    /// The families in use: those that both sides offer.
    pub families: Families,
    /// Whether the peer is internal.
    pub internal: bool,
    /// Whether the peer offers extended messages (RFC 8654). If it does, the local system may send
    /// longer messages, whatever it offers itself.
    pub extended: bool,
    /// How the routes that the local system receives are spelled.
    pub received: RouteForm,
    /// How the routes that it sends are spelled.
    pub sent: RouteForm,
}

/// Returns what the configuration and the peer's OPEN settle: the smaller Hold Time; four-octet AS
/// numbers if both sides send that capability; the families that both offer; whether the peer is
/// internal; whether it offers extended messages; and how routes are spelled in each direction. It
/// is meant for an OPEN for which `open_faults` returns an empty `must`.
pub fn negotiate(config: &Config, message: &Open<'_>) -> Link
    ensures { result ≡ link_of config.now message.now }
{
    let offers = config.parts.offers;
    let peers = RouteOffer::in_open(message);
    Link {
        hold: config.parts.hold.min(message.hold()),
        as4: config.parts.as4 && offered_as_number(message).is_some(),
        families: config
            .parts
            .families
            .intersection(offered_families(message)),
        internal: config.is_internal(),
        extended: offers_extended(message),
        received: offers.received_from(peers),
        sent: offers.sent_to(peers),
    }
}
