//! What of a link decides how path attributes are read.

ghost use Rattle.std.specs.Prelude.{◌≡◌};
ghost use Rattle.bgp_update.specs.Found.{side_of};

use bgp_attr::Side;
use bgp_open::Link;

/// Returns the side of a link: whether AS numbers have four octets, and whether the peer is
/// internal.
pub fn side(link: &Link) -> Side
    ensures { result ≡ side_of link.now }
{
    Side {
        as4: link.as4,
        internal: link.internal,
    }
}
