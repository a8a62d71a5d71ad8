//! Sets of families.

ghost use Rattle.std.specs.Prelude.{◌≡◌};
ghost use Rattle.bgp_rib.specs.Routes.{only};

use bgp_prefix::Family;
use bgp_update::Families;

/// The family alone.
pub fn only(family: Family) -> Families
    ensures { result ≡ only family }
{
    match family {
        Family::V4 => Families {
            v4: true,
            v6: false,
        },
        Family::V6 => Families {
            v4: false,
            v6: true,
        },
    }
}
