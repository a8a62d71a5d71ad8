//! What tests and programs of several crates configure a router to, and the line that tells such a
//! configuration in a table. No command uses it.
//!
//! `vectors` of `bgp_wire` has the messages that this router sends and receives.
#![tactic(auto)]

mod told;

use bgp_open::{ConfigParts, Families, RouteOffer};
use bgp_prefix::{Address, RouteRefresh, Session};
pub use told::{config_of, families_of, offer_of, parts_of};

/// What router A is configured to do: AS 65001 at 192.0.2.1, with AS 65002 at 192.0.2.2, Hold Time
/// 90, both families and four-octet AS numbers. It may have offered route refresh.
pub const ROUTER_A: ConfigParts = ConfigParts {
    local_as: 65001,
    peer_as: 65002,
    local_id: 0xc000_0201,
    hold: 90,
    families: Families { v4: true, v6: true },
    as4: true,
    delay_open: false,
    large_hold: 240,
    session: Session {
        peer: Address::V4(0xc000_0202),
        local: Address::V4(0xc000_0201),
        refresh: RouteRefresh::Refused,
        extended: false,
    },
    offers: RouteOffer::NOTHING,
};

/// The same for a router A that doesn't offer route refresh, as a speaker doesn't.
pub const SPEAKER_A: ConfigParts = ConfigParts {
    local_as: 65001,
    peer_as: 65002,
    local_id: 0xc000_0201,
    hold: 90,
    families: Families { v4: true, v6: true },
    as4: true,
    delay_open: false,
    large_hold: 240,
    session: Session {
        peer: Address::V4(0xc000_0202),
        local: Address::V4(0xc000_0201),
        refresh: RouteRefresh::NotOffered,
        extended: false,
    },
    offers: RouteOffer::NOTHING,
};
