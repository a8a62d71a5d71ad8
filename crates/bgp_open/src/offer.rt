//! What the capabilities of an OPEN offer (RFC 4760, 8; RFC 6793, 3; RFC 8654, 3).
//!
//! ```text
//!  code 1, multiprotocol extensions       code 65, four-octet AS numbers
//!  0     2          3      4              0           4
//! +-----+----------+------+              +-----------+
//! | AFI | Reserved | SAFI |              | AS number |
//! +-----+----------+------+              +-----------+
//! ```
//!
//! That of extended messages, code 6, has no value.

ghost use Rattle.std.specs.Prelude.{◌≡◌};
ghost use Rattle.std.specs.List.{list_any};
ghost use Rattle.bgp_open.specs.Capability.{capability_of};
ghost use Rattle.bgp_open.specs.Offer.{afi_of, is_multiprotocol, names_family, families_of};
ghost use Rattle.bgp_open.specs.Offer.{is_as4, as_number_of, is_extended, offers_extended};

use crate::capability::Capability;
use crate::families::Families;
use crate::open::Open;
use bgp_prefix::Family;
use byteorder::{BigEndian, ByteOrder};

/// The Capability Code of multiprotocol extensions (RFC 4760, 8).
pub(crate) const MULTIPROTOCOL: u8 = 1;

/// The Capability Code of extended messages (RFC 8654, 3).
pub(crate) const EXTENDED_MESSAGE: u8 = 6;

/// The Capability Code of four-octet AS numbers (RFC 6793, 3).
pub(crate) const FOUR_OCTET_AS: u8 = 65;

/// The Subsequent Address Family Identifier of unicast (RFC 4760, 6).
pub(crate) const UNICAST: u8 = 1;

/// The Address Family Identifier.
pub(crate) fn afi(family: Family) -> u16
    ensures { result ≡ afi_of family }
{
    match family {
        Family::V4 => 1,
        Family::V6 => 2,
    }
}

fn is_multiprotocol(capability: Capability<'_>) -> bool
    ensures { result ≡ is_multiprotocol (capability_of capability.entry) }
{
    capability.code == MULTIPROTOCOL && capability.value.len() == 4
}

/// Whether the capability names the family. Its reserved octet means nothing.
fn names_family(capability: Capability<'_>, family: Family) -> bool
    ensures { result ≡ names_family family (capability_of capability.entry) }
{
    is_multiprotocol(capability)
        && BigEndian::read_u16(capability.value) == afi(family)
        && capability.value[3] == UNICAST
}

/// Whether a capability of the OPEN could name a family.
fn has_multiprotocol(message: &Open<'_>) -> bool
    ensures { result ≡ list_any is_multiprotocol message.now.capabilities }
{
    message.caps().any(is_multiprotocol)
}

/// Whether a capability of the OPEN names the family.
fn has_family(message: &Open<'_>, family: Family) -> bool
    ensures { result ≡ list_any (names_family family) message.now.capabilities }
{
    message
        .caps()
        .any(|capability| names_family(capability, family))
}

/// The families that an OPEN offers (RFC 4760, 8): IPv4 unicast alone where it has no capability
/// that could name one (profile; RFC 4271 knows IPv4 alone).
pub(crate) fn offered_families(message: &Open<'_>) -> Families
    ensures { result ≡ families_of message.now.capabilities }
{
    if !has_multiprotocol(message) {
        return Families::V4;
    }
    Families {
        v4: has_family(message, Family::V4),
        v6: has_family(message, Family::V6),
    }
}

fn is_as4(capability: Capability<'_>) -> bool
    ensures { result ≡ is_as4 (capability_of capability.entry) }
{
    capability.code == FOUR_OCTET_AS && capability.value.len() == 4
}

/// The four-octet AS number in the first capability that has one.
pub(crate) fn offered_as_number(message: &Open<'_>) -> Option<u32>
    ensures { result ≡ as_number_of message.now.capabilities }
{
    for capability in message.caps() {
        if is_as4(capability) {
            return Some(BigEndian::read_u32(capability.value));
        }
    }
    None
}

fn is_extended(capability: Capability<'_>) -> bool
    ensures { result ≡ is_extended (capability_of capability.entry) }
{
    capability.code == EXTENDED_MESSAGE && capability.value.is_empty()
}

/// Whether an OPEN offers extended messages: that its speaker can receive them (RFC 8654, 4).
pub(crate) fn offers_extended(message: &Open<'_>) -> bool
    ensures { result ≡ offers_extended message.now.capabilities }
{
    message.caps().any(is_extended)
}
