//! What an OPEN that was sent lacks of the local system's own (RFC 4271, 4.2; RFC 4760, 8;
//! RFC 6793, 4.1; RFC 8654, 4; RFC 7911, 4; RFC 8950, 4).

ghost use Rattle.std.specs.Prelude.{◌≡◌, ◌↔◌, if◌then◌else◌, Some, None, true, false};
ghost use Rattle.std.specs.Prelude.{IsTrue, IfSome, IfNone};
ghost use Rattle.bgp_open.specs.RouteOffer.{route_offer_in};
ghost use Rattle.bgp_parts.specs.OwnOpenParts.{AreDifferences, AreOwnOpenParts, IsOffersPart};
ghost use Rattle.bgp_parts.specs.OwnOpenParts.{LacksNothing};

use crate::offer::{offered_as_number, offered_families, offers_extended};
use bgp_open::{Config, Families, Open, OpenFault, RouteOffer, read_open};
use bgp_wire::two_octet_as;

/// What was sent in place of what is configured.
#[derive(Clone, Copy, Debug, PartialEq, Eq)]
pub struct Differing<T> {
    /// What was sent.
    pub sent: T,
    /// What is configured.
    pub configured: T,
}

/// What of a well-formed OPEN differs from the local system's own.
#[derive(Clone, Copy, Debug, PartialEq, Eq)]
pub struct OpenDifferences {
    /// My Autonomous System: 23456 is configured where the AS number has more than two octets
    /// (RFC 6793, 9).
    pub my_as: Option<Differing<u16>>,
    /// The Hold Time, in seconds.
    pub hold: Option<Differing<u16>>,
    /// The BGP Identifier.
    pub id: Option<Differing<u32>>,
    /// The families that are offered (RFC 4760, 8).
    pub families: Option<Differing<Families>>,
    /// The AS number in the first capability of four-octet AS numbers, if there is one (RFC 6793,
    /// 4.1).
    pub as_number: Option<Differing<Option<u32>>>,
    /// Whether extended messages are offered (RFC 8654, 4). An OPEN is the local system's own only
    /// where it offers them just as configured, so without this part an OPEN could have none and
    /// not be the own.
    pub extended: Option<Differing<bool>>,
    /// What is offered about routes (RFC 7911, 4; RFC 8950, 4), unless nothing is configured.
    pub offers: Option<Differing<RouteOffer>>,
}

/// What an OPEN that was sent lacks of the local system's own.
#[derive(Clone, Copy, Debug, PartialEq, Eq)]
pub enum OwnOpenParts {
    /// Its form is at fault, and nothing else of it is told.
    Malformed(OpenFault),
    /// It is well-formed, and differs so.
    Differing(OpenDifferences),
}

/// Both values, where they aren't equal.
fn unless_equal<T: PartialEq + Copy>(sent: T, configured: T) -> Option<Differing<T>>
    ensures some { IfSome result (λ d. T.eq sent configured ≡ false) }
    ensures sent { IfSome result (λ d. d.sent ≡ sent) }
    ensures configured { IfSome result (λ d. d.configured ≡ configured) }
    ensures none { IfNone result (T.eq sent configured ≡ true) }
{
    if sent == configured {
        return None;
    }
    Some(Differing { sent, configured })
}

/// The AS number in the capability of four-octet AS numbers, where it is sent.
fn own_as_number(config: &Config) -> Option<u32>
    ensures { result ≡ (if config.now.parts.as4 then Some config.now.parts.local_as else None) }
{
    config.parts.as4.then_some(config.parts.local_as)
}

/// What is offered about routes, where something is configured and it isn't that.
fn offers_part(config: &Config, message: &Open<'_>) -> Option<Differing<RouteOffer>>
    ensures { IsOffersPart (route_offer_in message.now) config.now.parts.offers result }
{
    let configured = config.parts.offers;
    if configured.is_nothing() {
        return None;
    }
    unless_equal(RouteOffer::in_open(message), configured)
}

/// What of an OPEN differs from what is configured.
fn differences(config: &Config, message: &Open<'_>) -> OpenDifferences
    ensures { AreDifferences config.now message.now result }
{
    let parts = &config.parts;
    OpenDifferences {
        my_as: unless_equal(message.my_as(), two_octet_as(parts.local_as)),
        hold: unless_equal(message.hold(), parts.hold),
        id: unless_equal(message.id(), parts.local_id),
        families: unless_equal(offered_families(config, message), parts.families),
        as_number: unless_equal(offered_as_number(message), own_as_number(config)),
        extended: unless_equal(offers_extended(config, message), parts.session.extended),
        offers: offers_part(config, message),
    }
}

/// What an OPEN lacks of the local system's own: the fault of its form, or each of its AS number,
/// Hold Time, BGP Identifier, families, four-octet AS number, offer of extended messages and offer
/// about routes that isn't as configured. Its other capabilities are free, and where no offer about
/// routes is configured, those too.
pub fn own_open_parts(config: &Config, octets: &[u8]) -> OwnOpenParts
    ensures { AreOwnOpenParts config.now octets.now result }
{
    match read_open(octets) {
        Ok(message) => OwnOpenParts::Differing(differences(config, &message)),
        Err(fault) => OwnOpenParts::Malformed(fault),
    }
}

impl OwnOpenParts {
    /// Whether there is no part.
    pub fn is_empty(&self) -> bool
        ensures { IsTrue result ↔ LacksNothing self.now }
    {
        match self {
            OwnOpenParts::Malformed(_) => false,
            OwnOpenParts::Differing(told) => {
                told.my_as.is_none()
                    && told.hold.is_none()
                    && told.id.is_none()
                    && told.families.is_none()
                    && told.as_number.is_none()
                    && told.extended.is_none()
                    && told.offers.is_none()
            }
        }
    }
}
