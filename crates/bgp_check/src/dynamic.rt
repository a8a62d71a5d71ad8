//! Dynamic capabilities: which OPENs offer to change capabilities within a session, by messages of
//! type 6.

ghost use Rattle.std.specs.Prelude.{◌≡◌};
ghost use Rattle.bgp_open.specs.Capability.{capability_of};
ghost use Rattle.bgp_check.specs.NotJudged.{is_dynamic, offers_dynamic};

use bgp_open::{Capability, Open};

/// The Capability Code of dynamic capabilities.
const DYNAMIC: u8 = 67;

/// Whether the capability is that of dynamic ones, whatever its value is.
fn is_dynamic(capability: Capability<'_>) -> bool
    ensures { result ≡ is_dynamic (capability_of capability.entry) }
{
    capability.code == DYNAMIC
}

/// Whether an OPEN offers dynamic capabilities.
pub(crate) fn offers_dynamic(message: &Open<'_>) -> bool
    ensures { result ≡ offers_dynamic message.now }
{
    message.caps().any(is_dynamic)
}
