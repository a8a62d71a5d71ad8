//! What an OPEN offers by its capabilities.

ghost use Rattle.std.specs.Prelude.{◌≡◌, is_some, true};
ghost use Rattle.bgp_open.specs.Capability.{capability_of};
ghost use Rattle.bgp_open.specs.Offer.{as_number_of, families_of, is_as4, offers_extended};
ghost use Rattle.bgp_open.specs.RouteOffer.{route_offer_in};
ghost use Rattle.bgp_check.specs.Refresh.{is_route_refresh, offers_refresh};

use bgp_open::{Capability, Config, ConfigParts, Families, Open, RouteOffer, negotiate};
use bgp_prefix::{Address, RouteRefresh, Session};
use byteorder::{BigEndian, ByteOrder};

/// The Capability Code of route refresh (RFC 2918, 2).
const ROUTE_REFRESH: u8 = 2;

/// The Capability Code of four-octet AS numbers (RFC 6793, 3).
const FOUR_OCTET_AS: u8 = 65;

/// What a system offers by the capabilities of its OPEN.
#[derive(Clone, Copy, Debug, PartialEq, Eq)]
pub struct Offer {
    /// The families (RFC 4760, 8): IPv4 unicast alone where no capability could name one.
    pub families: Families,
    /// Whether it sends a four-octet AS number (RFC 6793, 3).
    pub as4: bool,
    /// Whether it can receive extended messages (RFC 8654, 4).
    pub extended: bool,
    /// Whether it can receive ROUTE-REFRESH messages (RFC 2918, 2).
    pub refresh: bool,
    /// What it offers about how routes are spelled (RFC 7911, 4; RFC 8950, 4).
    pub routes: RouteOffer,
}

/// A system that offers whatever is known here: with it an OPEN settles what that OPEN offers.
fn offering_all() -> Config
    ensures families { result.parts.families ≡ record { v4 = true; v6 = true } }
    ensures as4 { result.parts.as4 ≡ true }
{
    let parts = ConfigParts {
        local_as: 1,
        peer_as: 1,
        local_id: 1,
        hold: 90,
        families: Families { v4: true, v6: true },
        as4: true,
        delay_open: false,
        large_hold: 1,
        session: Session {
            peer: Address::V4(0),
            local: Address::V4(0),
            refresh: RouteRefresh::NotOffered,
            extended: false,
        },
        offers: RouteOffer::NOTHING,
    };
    match Config::new(parts) {
        Some(config) => config,
        None => unreachable!(),
    }
}

fn is_as4(capability: Capability<'_>) -> bool
    ensures { result ≡ is_as4 (capability_of capability.entry) }
{
    capability.code == FOUR_OCTET_AS && capability.value.len() == 4
}

/// Returns the four-octet AS number in the first capability that has one (RFC 6793, 3).
pub(crate) fn as_number(message: &Open<'_>) -> Option<u32>
    ensures { result ≡ as_number_of message.now.capabilities }
{
    for capability in message.caps() {
        if is_as4(capability) {
            return Some(BigEndian::read_u32(capability.value));
        }
    }
    None
}

fn is_route_refresh(capability: Capability<'_>) -> bool
    ensures { result ≡ is_route_refresh (capability_of capability.entry) }
{
    capability.code == ROUTE_REFRESH
}

/// Whether the OPEN offers route refresh.
fn offers_refresh(message: &Open<'_>) -> bool
    ensures { result ≡ offers_refresh message.now.capabilities }
{
    message.caps().any(is_route_refresh)
}

/// Returns what the OPEN offers.
pub fn offer_of(message: &Open<'_>) -> Offer
    ensures families { result.families ≡ families_of message.now.capabilities }
    ensures as4 { result.as4 ≡ is_some (as_number_of message.now.capabilities) }
    ensures extended { result.extended ≡ offers_extended message.now.capabilities }
    ensures refresh { result.refresh ≡ offers_refresh message.now.capabilities }
    ensures routes { result.routes ≡ route_offer_in message.now }
{
    let link = negotiate(&offering_all(), message);
    Offer {
        families: link.families,
        as4: link.as4,
        extended: link.extended,
        refresh: offers_refresh(message),
        routes: RouteOffer::in_open(message),
    }
}
