//! Whether the parameters of an OPEN are whole, and of which types (RFC 4271, 4.2; RFC 5492, 4).

ghost use Rattle.std.specs.Prelude.{◌≡◌, ◌↔◌, IsTrue};
ghost use Rattle.bgp_open.specs.Triplet.{IsWhole};
ghost use Rattle.bgp_open.specs.Capability.{triplet_of};
ghost use Rattle.bgp_open.specs.OpenFault.{HasWholeCapabilities, AreParameters};
ghost use Rattle.bgp_open.specs.OpenFault.{AreAllCapabilities};

use crate::capability::CAPABILITIES;
use crate::triplet::{RawTriplet, Triplets, first_triplet};

/// Whether the octets are triplets and nothing else.
fn is_whole(octets: &[u8]) -> bool
    ensures { IsTrue result ↔ IsWhole octets.now }
{
    let mut rest = octets;
    while let Some((_, behind)) = first_triplet(rest) {
        rest = behind;
    }
    rest.is_empty()
}

/// Whether a parameter's capabilities, if it has any, are whole.
fn has_whole_capabilities(parameter: RawTriplet<'_>) -> bool
    ensures { IsTrue result ↔ HasWholeCapabilities (triplet_of parameter.entry) }
{
    parameter.code != CAPABILITIES || is_whole(parameter.value)
}

/// Whether the octets are parameters and nothing else, and each one's capabilities are whole.
pub(crate) fn are_parameters(octets: &[u8]) -> bool
    ensures { IsTrue result ↔ AreParameters octets.now }
{
    is_whole(octets) && Triplets::new(octets).all(has_whole_capabilities)
}

/// Whether every parameter is of type 2.
pub(crate) fn are_all_capabilities(octets: &[u8]) -> bool
    ensures { IsTrue result ↔ AreAllCapabilities octets.now }
{
    Triplets::new(octets).all(|parameter| parameter.code == CAPABILITIES)
}
