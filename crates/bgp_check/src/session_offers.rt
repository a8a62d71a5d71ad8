//! What the OPENs of a session offer of messages that aren't those of every session.

ghost use Rattle.std.specs.Prelude.{◌≡◌, ◌↔◌, IfSome, IsTrue, map, option_map};
ghost use Rattle.bgp_machine.specs.Lists.{Has};
ghost use Rattle.bgp_open.specs.OpenFault.{IsWellFormed};
ghost use Rattle.mrt_sessions.specs.Located.{located};
ghost use Rattle.bgp_check.specs.SessionOffers.{HearsOffer, OffersExtended, SendsOffer};
ghost use Rattle.bgp_check.specs.SessionOffers.{extended_in, refresh_in};

use crate::offer::offer_of;
use bgp_open::read_open;
use mrt::{Form, form_of};
use mrt_sessions::{ExtendedMessages, NamedRecord};

/// Whether the octets are a whole and well-formed OPEN that offers extended messages (RFC 8654, 4).
fn offers_extended(octets: &[u8]) -> bool
    ensures { IsTrue result ↔ OffersExtended octets.now }
{
    match read_open(octets) {
        Ok(message) => offer_of(&message).extended,
        Err(_) => false,
    }
}

/// Whether the record is an OPEN that the local system sent, with that offer.
fn sends_offer(named: &NamedRecord<'_>) -> bool
    ensures { IsTrue result ↔ SendsOffer (located named.now) }
{
    match form_of(named.header().subtype) {
        Some(Form::Sent) => offers_extended(named.content()),
        Some(Form::Change | Form::Received | Form::AddPath) | None => false,
    }
}

/// Whether it is one that it received.
fn hears_offer(named: &NamedRecord<'_>) -> bool
    ensures { IsTrue result ↔ HearsOffer (located named.now) }
{
    match form_of(named.header().subtype) {
        Some(Form::Received) => offers_extended(named.content()),
        Some(Form::Change | Form::Sent | Form::AddPath) | None => false,
    }
}

/// Whether an OPEN among the records that the local system sent offers extended messages.
fn sends_an_offer(records: &[NamedRecord<'_>]) -> bool
    ensures { IsTrue result ↔ Has SendsOffer (map located records.now) }
{
    for named in records {
        if sends_offer(named) {
            return true;
        }
    }
    false
}

/// Whether one among those that it received does.
fn hears_an_offer(records: &[NamedRecord<'_>]) -> bool
    ensures { IsTrue result ↔ Has HearsOffer (map located records.now) }
{
    for named in records {
        if hears_offer(named) {
            return true;
        }
    }
    false
}

/// Which messages of a session may be extended ones, by all of its records in a file: each
/// direction by what an OPEN of its receiver offers.
pub fn extended_messages(records: &[NamedRecord<'_>]) -> ExtendedMessages
    ensures received { IsTrue result.received ↔ Has SendsOffer (map located records.now) }
    ensures sent { IsTrue result.sent ↔ Has HearsOffer (map located records.now) }
{
    ExtendedMessages {
        received: sends_an_offer(records),
        sent: hears_an_offer(records),
    }
}

/// Whether there is an OPEN, and it offers extended messages.
pub(crate) fn extended_in(octets: Option<&[u8]>) -> bool
    requires { IfSome octets (λ o. IsWellFormed o.now) }
    ensures { result ≡ extended_in (option_map (λ o. o.now) octets.entry) }
{
    let Some(octets) = octets else {
        return false;
    };
    match read_open(octets) {
        Ok(message) => offer_of(&message).extended,
        Err(_) => unreachable!(),
    }
}

/// Whether there is an OPEN, and it offers route refresh (RFC 2918, 2).
pub(crate) fn refresh_in(octets: Option<&[u8]>) -> bool
    requires { IfSome octets (λ o. IsWellFormed o.now) }
    ensures { result ≡ refresh_in (option_map (λ o. o.now) octets.entry) }
{
    let Some(octets) = octets else {
        return false;
    };
    match read_open(octets) {
        Ok(message) => offer_of(&message).refresh,
        Err(_) => unreachable!(),
    }
}
