//! Capabilities of a BGP speaker (RFC 5492, 4), which its OPEN advertises.

ghost use Rattle.std.specs.Prelude.{◌≡◌};
ghost use Rattle.bgp_open.specs.Open.{capabilities_of, capabilities_in};
ghost use Rattle.bgp_open.specs.Triplet.{triplets_of};
ghost use Rattle.bgp_open.specs.Capability.{triplet_of};

use crate::triplet::{RawTriplet, first_triplet};
use std::marker::Model;

/// The Parameter Type of the parameter that has capabilities (RFC 5492, 4).
pub(crate) const CAPABILITIES: u8 = 2;

/// One capability: a code and a value. If it was read from an OPEN, the value has at most 255
/// octets.
#[derive(Clone, Copy, Debug, Default, PartialEq, Eq)]
pub struct Capability<'a> {
    /// The Capability Code.
    pub code: u8,
    /// The Capability Value.
    pub value: &'a [u8],
}

/// The capabilities of an OPEN, in order, over all its parameters. It allocates nothing.
///
/// Contracts see it as the list of the capabilities that are left.
#[derive(Debug, Drop)]
pub struct Capabilities<'a> {
    parameters: &'a [u8],
    capabilities: &'a [u8],
}

impl<'a> Model for Capabilities<'a> {
    ghost use Rattle.std.specs.Prelude.{◌++◌, List};
    ghost use Rattle.bgp_open.specs.Triplet.{Triplet, triplets_of};
    ghost use Rattle.bgp_open.specs.Open.{capabilities_of};

    ghost Value = { List Triplet };

    ghost view = { λ s. triplets_of s.capabilities.now ++ capabilities_of s.parameters.now };
}

impl<'a> Capabilities<'a> {
    #[tactic(auto, using(crate::proofs::OneReading::triplets_of_nothing))]
    pub(crate) fn new(parameters: &'a [u8]) -> Capabilities<'a>
        ensures { result ≡ capabilities_of parameters.entry.now }
    {
        Capabilities {
            parameters,
            capabilities: &[],
        }
    }
}

/// The octets of capabilities in one parameter.
fn capabilities_octets<'a>(parameter: RawTriplet<'a>) -> &'a [u8]
    ensures { triplets_of result.now ≡ capabilities_in (triplet_of parameter.entry) }
{
    if parameter.code == CAPABILITIES {
        parameter.value
    } else {
        &[]
    }
}

impl<'a> Iterator for Capabilities<'a> {
    ghost use Rattle.std.specs.Prelude.{length};
    ghost use Rattle.std.specs.Iterator.{YieldsFirstBy, at_most};
    ghost use Rattle.bgp_open.specs.Capability.{capability_of};

    type Item = Capability<'a>;

    ghost next_gives = { YieldsFirstBy capability_of (λ s. s) };

    ghost remaining = { λ s. at_most (length s) };

    fn next(&mut self) -> Option<Capability<'a>> {
        loop {
            if let Some((capability, rest)) = first_triplet(self.capabilities) {
                self.capabilities = rest;
                return Some(Capability {
                    code: capability.code,
                    value: capability.value,
                });
            }
            let (parameter, rest) = first_triplet(self.parameters)?;
            self.parameters = rest;
            self.capabilities = capabilities_octets(parameter);
        }
    }
}
