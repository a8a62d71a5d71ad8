//! How routes are spelled in one direction of a session.

ghost use Rattle.std.specs.Prelude.{◌≡◌};
ghost use Rattle.bgp_open.specs.RouteForm.{form_between};

use crate::families::Families;
use crate::route_offer::RouteOffer;

/// How the routes in UPDATEs are spelled in one direction of a session. It is small, and allocates
/// nothing.
#[derive(Clone, Copy, Debug, PartialEq, Eq)]
pub struct RouteForm {
    /// The families that have a path identifier before each prefix (RFC 7911, 3).
    pub identified: Families,
    /// Whether IPv4 routes may have IPv6 next hops (RFC 8950, 3).
    pub ipv6_next_hops: bool,
}

impl RouteForm {
    /// No path identifiers, and only IPv4 next hops for IPv4 routes: how routes are spelled if no
    /// OPEN offers another way.
    pub const PLAIN: RouteForm = RouteForm {
        identified: Families::NONE,
        ipv6_next_hops: false,
    };

    /// Returns how the routes are spelled that one system sends and another receives, by what both
    /// offer. A family has path identifiers if the sender offers to send them and the receiver to
    /// receive them (RFC 7911, 5). IPv6 next hops go by the receiver's offer alone (RFC 8950, 4).
    pub fn between(sender: RouteOffer, receiver: RouteOffer) -> RouteForm
        ensures { result ≡ form_between sender receiver }
    {
        RouteForm {
            identified: sender.sends.intersection(receiver.receives),
            ipv6_next_hops: receiver.next_hops,
        }
    }
}
