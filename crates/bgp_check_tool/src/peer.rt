//! The AS number that a peer has to have, for what is told under one of the widest configurations.

ghost use Rattle.std.specs.Prelude.{◌≡◌, Option, option_map};
ghost use Rattle.bgp_open.specs.Open.{OpenFields};
ghost use Rattle.bgp_check.specs.Answered.{heard_as, peer_as_by};
ghost use Rattle.bgp_check.specs.WidestOf.{AreTold};

use bgp_check::{PeerAs, Widest};
use bgp_open::read_fields;

/// Returns the AS number that is wanted of the peer; 0 where none is, as of an OPEN that says 0.
pub(crate) fn heard_as(widest: &Widest) -> u32
    ensures { result ≡ heard_as widest.now.wanting }
{
    match widest.wanting {
        Some(wanting) => wanting.parts.peer_as,
        None => 0,
    }
}

/// Returns whether the fields of the peer's OPEN can be told, and for which AS number then: the one
/// that is wanted of it, or another.
pub(crate) fn peer_as_by(wants_peers: bool, peers: Option<&[u8]>, number: u32) -> PeerAs
    ensures { (told : Option OpenFields) → AreTold (option_map (λ o. o.now) peers.entry) told
        → result ≡ peer_as_by wants_peers told number }
{
    let Some(peers) = peers else {
        return PeerAs::Any;
    };
    match read_fields(peers) {
        Some(_) if wants_peers => PeerAs::Is(number),
        Some(_) => PeerAs::OtherThan(number),
        None => PeerAs::Any,
    }
}
