//! What the capabilities of an OPEN offer (RFC 4760, 8; RFC 6793, 3; RFC 8654, 3).

ghost use Rattle.std.specs.Prelude.{◌≡◌};
ghost use Rattle.bgp_open.specs.Capability.{capability_of};
ghost use Rattle.bgp_open.specs.Offer.{families_of, is_as4, as_number_of, offers_extended};

use bgp_open::{Capability, Config, ConfigParts, Families, Open, negotiate};
use byteorder::{BigEndian, ByteOrder};

/// The Capability Code of four-octet AS numbers (RFC 6793, 3).
const FOUR_OCTET_AS: u8 = 65;

/// Both families, IPv4 and IPv6 unicast.
const BOTH: Families = Families { v4: true, v6: true };

/// The same configuration, but offering both families.
fn with_both_families(config: &Config) -> Config
    ensures { result.parts.families ≡ BOTH }
{
    Config {
        parts: ConfigParts {
            families: BOTH,
            ..config.parts
        },
    }
}

/// The families that an OPEN offers (RFC 4760, 8): those that it settles with a system that offers
/// both.
pub(crate) fn offered_families(config: &Config, message: &Open<'_>) -> Families
    ensures { result ≡ families_of message.now.capabilities }
{
    negotiate(&with_both_families(config), message).families
}

/// Whether an OPEN offers extended messages (RFC 8654, 4).
pub(crate) fn offers_extended(config: &Config, message: &Open<'_>) -> bool
    ensures { result ≡ offers_extended message.now.capabilities }
{
    negotiate(config, message).extended
}

fn is_as4(capability: Capability<'_>) -> bool
    ensures { result ≡ is_as4 (capability_of capability.entry) }
{
    capability.code == FOUR_OCTET_AS && capability.value.len() == 4
}

/// The four-octet AS number in the first capability of an OPEN that has one (RFC 6793, 3).
pub fn offered_as_number(message: &Open<'_>) -> Option<u32>
    ensures { result ≡ as_number_of message.now.capabilities }
{
    for capability in message.caps() {
        if is_as4(capability) {
            return Some(BigEndian::read_u32(capability.value));
        }
    }
    None
}
