//! How both directions of a connection are framed.

ghost use Rattle.std.specs.Prelude.{◌≡◌, IfSome, option_map};
ghost use Rattle.bgp_open.specs.OpenFault.{IsWellFormed};
ghost use Rattle.bgp_ended.specs.Offered.{framing_by, framing_with, framings_by};
ghost use Rattle.bgp_ended.specs.Offered.{with_both_offers};

use bgp_check::offer_of;
use bgp_open::{Open, read_open};
use bgp_recording::{Framing, Framings};
use bgp_wire::Limit;

/// By which rules what comes to a system is framed that sent this OPEN.
fn framing_with(message: &Open<'_>) -> Framing
    ensures { result ≡ framing_with message.now.capabilities }
{
    let offer = offer_of(message);
    Framing {
        limit: Limit::with_extended(offer.extended),
        skips_refresh: offer.refresh,
    }
}

/// Returns by which rules what comes to a system is framed that sent this OPEN, or none: it may be
/// sent what it offers.
pub fn framing_by(octets: Option<&[u8]>) -> Framing
    requires { IfSome octets (λ o. IsWellFormed o.now) }
    ensures { result ≡ framing_by (option_map (λ o. o.now) octets.entry) }
{
    let Some(octets) = octets else {
        return Framing {
            limit: Limit::Plain,
            skips_refresh: false,
        };
    };
    match read_open(octets) {
        Ok(message) => framing_with(&message),
        Err(_) => unreachable!(),
    }
}

/// Returns by which rules both directions are framed, where the local system sent this OPEN and the
/// peer that one.
pub(crate) fn framings_by(local: Option<&[u8]>, peers: Option<&[u8]>) -> Framings
    requires local { IfSome local (λ o. IsWellFormed o.now) }
    requires peers { IfSome peers (λ o. IsWellFormed o.now) }
    ensures { result ≡ framings_by (option_map (λ o. o.now) local.entry)
        (option_map (λ o. o.now) peers.entry) }
{
    Framings {
        received: framing_by(local),
        sent: framing_by(peers),
    }
}

/// Returns the rules by which both directions are framed as if both systems offered extended
/// messages and route refresh.
pub fn with_both_offers() -> Framings
    ensures { result ≡ with_both_offers }
{
    Framings::alike(Framing {
        limit: Limit::Extended,
        skips_refresh: true,
    })
}
