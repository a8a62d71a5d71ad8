//! What an OPEN offers about routes: several paths to a prefix (RFC 7911, 4), and IPv6 next hops
//! of IPv4 routes (RFC 8950, 4).

ghost use Rattle.std.specs.Prelude.{◌≡◌, ◌↔◌, IsTrue};
ghost use Rattle.bgp_open.specs.RouteOffer.{IsRouteOffer, nothing, route_offer_in};
ghost use Rattle.bgp_open.specs.RouteForm.{received_form, sent_form};

use crate::families::Families;
use crate::next_hops::offers_next_hops;
use crate::open::{Open, read_fields};
use crate::paths::{Direction, families_with};
use crate::route_form::RouteForm;

/// What an OPEN offers, or is to offer, about how routes are spelled.
#[derive(Clone, Copy, Debug, PartialEq, Eq)]
pub struct RouteOffer {
    /// The families of which the sender of the OPEN offers to send several paths to a prefix
    /// (ADD-PATH; RFC 7911, 4).
    pub sends: Families,
    /// The families of which it offers to receive several.
    pub receives: Families,
    /// Whether it offers to receive IPv4 routes with IPv6 next hops (RFC 8950, 4).
    pub next_hops: bool,
}

impl RouteOffer {
    /// The offer of nothing.
    pub const NOTHING: RouteOffer = RouteOffer {
        sends: Families::NONE,
        receives: Families::NONE,
        next_hops: false,
    };

    /// Checks whether nothing is offered.
    pub fn is_nothing(&self) -> bool
        ensures { IsTrue result ↔ (self.now ≡ nothing) }
    {
        *self == RouteOffer::NOTHING
    }

    /// Returns what an OPEN offers. One entry of one capability is enough to offer a family,
    /// whatever other entries say. A capability whose length is wrong, or that has a Send/Receive
    /// other than 1 to 3, is passed over whole.
    pub fn in_open(message: &Open<'_>) -> RouteOffer
        ensures { result ≡ route_offer_in message.now }
    {
        RouteOffer {
            sends: families_with(message, Direction::Sends),
            receives: families_with(message, Direction::Receives),
            next_hops: offers_next_hops(message),
        }
    }

    /// Returns what a message offers. It is nothing if the message isn't a readable OPEN
    /// ([`read_fields`](crate::read_fields)).
    pub fn of(octets: &[u8]) -> RouteOffer
        ensures { IsRouteOffer octets.now result }
    {
        match read_fields(octets) {
            Some(message) => RouteOffer::in_open(&message),
            None => RouteOffer::NOTHING,
        }
    }

    /// Returns how the routes that the local system receives are spelled. `self` is its own offer,
    /// and `peers` the peer's.
    pub fn received_from(self, peers: RouteOffer) -> RouteForm
        ensures { result ≡ received_form self peers }
    {
        RouteForm::between(peers, self)
    }

    /// Returns how the routes that the local system sends are spelled. `self` is its own offer, and
    /// `peers` the peer's.
    pub fn sent_to(self, peers: RouteOffer) -> RouteForm
        ensures { result ≡ sent_form self peers }
    {
        RouteForm::between(self, peers)
    }
}
