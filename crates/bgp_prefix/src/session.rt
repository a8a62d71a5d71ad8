//! Which session of a capture is meant, and in what its times are told.

ghost use Rattle.std.specs.Prelude.{◌≡◌};
ghost use Rattle.bgp_prefix.specs.RouteRefresh.{is_offered, refresh_with};

use crate::address::Address;

/// Whole seconds, of a moment or of a span: a capture's are those since 1970 (RFC 6396, 2).
pub type Seconds = u32;

/// What becomes of the ROUTE-REFRESH messages (RFC 2918) that a capture shows of a session.
#[derive(Clone, Copy, Debug, PartialEq, Eq, Hash)]
pub enum RouteRefresh {
    /// The local system offers no route refresh: its type is unknown, which is a fault of the
    /// message's header (RFC 4271, 6.1).
    NotOffered,
    /// It may have offered route refresh, and the capture is refused at such a message.
    Refused,
    /// It may have offered route refresh, and such a message is passed over where its type is the
    /// one fault of its header and it is whole. Any other is as where route refresh isn't offered.
    PassedOver,
}

impl RouteRefresh {
    /// As a capture is read where the local system may have offered route refresh, or didn't:
    /// refused then, unless one says that such messages are to be passed over.
    pub fn with_offer(offered: bool) -> RouteRefresh
        ensures { result ≡ refresh_with offered }
    {
        if offered {
            RouteRefresh::Refused
        } else {
            RouteRefresh::NotOffered
        }
    }

    /// Whether the local system may have offered route refresh.
    pub fn is_offered(self) -> bool
        ensures { result ≡ is_offered self }
    {
        match self {
            RouteRefresh::NotOffered => false,
            RouteRefresh::Refused | RouteRefresh::PassedOver => true,
        }
    }
}

/// The two ends of one BGP session, as the records of a capture name them.
///
/// What the local system is configured to do stands in `bgp_open`'s `Config`, and what both OPENs
/// settle in its `Link`.
#[derive(Clone, Copy, Debug, PartialEq, Eq, Hash)]
pub struct Session {
    /// The peer's address.
    pub peer: Address,
    /// The local system's address.
    pub local: Address,
    /// Whether the local system may have offered route refresh (RFC 2918), and what becomes of its
    /// messages then.
    pub refresh: RouteRefresh,
    /// Whether the local system offers extended messages (RFC 8654): then those that it receives
    /// may be longer, in every state (profile).
    pub extended: bool,
}
