//! What both OPENs of a session offer about routes, and judging leaves out.

ghost use Rattle.std.specs.Prelude.{◌≡◌, ◌↔◌, IsTrue};
ghost use Rattle.bgp_explain.specs.LeftOut.{IsLeftOut, IsWithout, LacksOffers, nothing_left_out};

use bgp_open::{Config, RouteOffer};
use bgp_parts::settle_something;

/// What both OPENs of a session offer about routes, and judging leaves out. So the answer may be one
/// that such a session can't have given.
#[derive(Clone, Copy, Debug, PartialEq, Eq)]
pub struct LeftOut {
    /// What the OPEN offers that was sent, if nothing is configured to be offered, though both
    /// OPENs settle several paths to a prefix (ADD-PATH, RFC 7911) or IPv6 next hops of IPv4 routes
    /// (RFC 8950).
    pub without: Option<RouteOffer>,
}

/// Checks whether nothing is configured to be offered, though both OPENs settle something.
fn lacks_offers(config: &Config, own: RouteOffer, peers: RouteOffer) -> bool
    ensures { IsTrue result ↔ LacksOffers config.now.parts.offers own peers }
{
    config.parts.offers.is_nothing() && settle_something(own, peers)
}

/// What the own OPEN offers, where it is so.
fn without(config: &Config, own: RouteOffer, peers: RouteOffer) -> Option<RouteOffer>
    ensures { IsWithout config.now.parts.offers own peers result }
{
    if lacks_offers(config, own, peers) {
        return Some(own);
    }
    None
}

impl LeftOut {
    /// Nothing is left out.
    pub fn nothing() -> LeftOut
        ensures { result ≡ nothing_left_out }
    {
        LeftOut { without: None }
    }

    /// What is left out of what both OPENs offer.
    pub(crate) fn of(config: &Config, own: RouteOffer, peers: RouteOffer) -> LeftOut
        ensures { IsLeftOut config.now own peers result }
    {
        LeftOut {
            without: without(config, own, peers),
        }
    }
}
