//! The AS number of who sends a message, as a record's header has it.

ghost use Rattle.std.specs.Prelude.{◌≡◌};
ghost use Rattle.bgp_import.specs.AsNumber.{IsAsNumber, IsFieldNumber, number_in};
ghost use Rattle.bgp_open.specs.Capability.{capability_of};
ghost use Rattle.bgp_open.specs.Offer.{as_number_of, is_as4};
ghost use Rattle.bgp_open.specs.Open.{my_as_of};

use bgp_open::{Capability, Open, read_open};
use bgp_wire::{MessageType, message_body};
use byteorder::{BigEndian, ByteOrder};

/// How many octets the fixed fields in the body of an OPEN have (RFC 4271, 4.2).
const FIXED_LEN: usize = 10;

/// The Capability Code of four-octet AS numbers (RFC 6793, 3).
const FOUR_OCTET_AS: u8 = 65;

fn is_as4(capability: Capability<'_>) -> bool
    ensures { result ≡ is_as4 (capability_of capability.entry) }
{
    capability.code == FOUR_OCTET_AS && capability.value.len() == 4
}

/// The AS number in the first capability that has one.
fn number_in_capabilities(message: &Open<'_>) -> Option<u32>
    ensures { result ≡ as_number_of message.now.capabilities }
{
    for capability in message.caps() {
        if is_as4(capability) {
            return Some(BigEndian::read_u32(capability.value));
        }
    }
    None
}

/// The AS number that an OPEN tells: that of a capability, or else of the field.
fn number_in(message: &Open<'_>) -> u32
    ensures { result ≡ number_in message.now }
{
    match number_in_capabilities(message) {
        Some(number) => number,
        None => u32::from(message.my_as()),
    }
}

/// The field My Autonomous System (RFC 4271, 4.2).
#[tactic(auto, unfolding(bgp_open::specs::Open::my_as_of))]
fn my_as(fixed: &[u8; FIXED_LEN]) -> u16
    ensures { result ≡ my_as_of fixed.now }
{
    BigEndian::read_u16(&fixed[1..])
}

/// The field My Autonomous System of an OPEN, whatever is wrong in it, and 0 of another message.
fn number_in_field(octets: &[u8]) -> u32
    ensures { IsFieldNumber octets.now result }
{
    let Some(body) = message_body(MessageType::Open, octets) else {
        return 0;
    };
    let Some((fixed, _)) = body.split_first_chunk::<FIXED_LEN>() else {
        return 0;
    };
    u32::from(my_as(fixed))
}

/// The AS number of who sends a message: that of a well-formed OPEN by its first capability of
/// four-octet AS numbers, or else by its field My Autonomous System (RFC 6793, 3); of another OPEN
/// by that field; and 0 of another message.
#[tactic(auto, using(bgp_open::proofs::LeastFault::none_if_well_formed))]
pub fn as_number(octets: &[u8]) -> u32
    ensures { IsAsNumber octets.now result }
{
    match read_open(octets) {
        Ok(message) => number_in(&message),
        Err(_) => number_in_field(octets),
    }
}
