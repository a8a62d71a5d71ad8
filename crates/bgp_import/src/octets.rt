//! How many octets a system sent.

ghost use Rattle.std.specs.Prelude.{◌≡◌};
ghost use Rattle.bgp_import.specs.Octets.{octets_from};

use streams::{Connection, Side};

/// How many octets this system sent.
pub fn octets_from(side: Side, connection: &Connection<'_>) -> usize
    ensures { result ≡ octets_from side connection.now }
{
    match side {
        Side::Local => connection.sent.octets.len(),
        Side::Peer => connection.received.octets.len(),
    }
}
