//! What both OPENs of a session offer about routes, whatever is configured.

ghost use Rattle.std.specs.Prelude.{◌≡◌};
ghost use Rattle.bgp_parts.specs.BothOffers.{both_have_next_hops, settle_something};
ghost use Rattle.bgp_parts.specs.BothOffers.{identified_families};

use bgp_open::{Families, RouteOffer};

/// Returns the families whose prefixes have path identifiers in one direction of the session at
/// least (ADD-PATH; RFC 7911, 5): the local system offers to send several paths, and the peer to
/// receive them, or the other way round.
fn identified_families(own: RouteOffer, peers: RouteOffer) -> Families
    ensures { result ≡ identified_families own peers }
{
    let received = own.received_from(peers).identified;
    let sent = own.sent_to(peers).identified;
    Families {
        v4: received.v4 || sent.v4,
        v6: received.v6 || sent.v6,
    }
}

/// Checks whether IPv4 routes may have IPv6 next hops in both directions (RFC 8950, 4): both OPENs
/// offer them.
fn both_have_next_hops(own: RouteOffer, peers: RouteOffer) -> bool
    ensures { result ≡ both_have_next_hops own peers }
{
    own.received_from(peers).ipv6_next_hops && own.sent_to(peers).ipv6_next_hops
}

/// Checks whether both OPENs settle something about routes: several paths to a prefix in one
/// direction at least, or IPv6 next hops of IPv4 routes in both.
pub fn settle_something(own: RouteOffer, peers: RouteOffer) -> bool
    ensures { result ≡ settle_something own peers }
{
    let identified = identified_families(own, peers);
    identified.v4 || identified.v6 || both_have_next_hops(own, peers)
}
