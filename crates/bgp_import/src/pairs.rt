//! Two addresses, and the session between them.

ghost use Rattle.std.specs.Prelude.{◌≡◌};
ghost use Rattle.segments.specs.Segment.{finding_of};
ghost use Rattle.bgp_import.specs.Pairs.{addresses_in, ordered, selection_of};

use crate::selection::Selection;
use bgp_prefix::{RouteRefresh, Session};
use segments::{Addresses, Found};
use std::cmp::Ordering;

/// The two addresses of what was found in a packet.
pub(crate) fn addresses_of(found: Found<'_>) -> Option<Addresses>
    ensures { result ≡ addresses_in (finding_of found.entry) }
{
    match found {
        Found::Nothing | Found::UnknownLink(_) => None,
        Found::Fragment(addresses) | Found::NoPorts(addresses) => Some(addresses),
        Found::CutHeader(ends) => Some(Addresses {
            from: ends.from.address,
            to: ends.to.address,
        }),
        Found::Segment(segment) => Some(Addresses {
            from: segment.ends.from.address,
            to: segment.ends.to.address,
        }),
    }
}

/// The same for both ways: the lesser address first.
pub(crate) fn ordered(addresses: Addresses) -> Addresses
    ensures { result ≡ ordered addresses }
{
    match addresses.from.cmp(&addresses.to) {
        Ordering::Less | Ordering::Equal => addresses,
        Ordering::Greater => Addresses {
            from: addresses.to,
            to: addresses.from,
        },
    }
}

/// The connections between two addresses at a port, the first being the local one. Between one
/// address and itself the local system is the one that has the port.
pub fn selection_of(addresses: Addresses, port: u16) -> Selection
    ensures { result ≡ selection_of addresses port }
{
    Selection {
        session: Session {
            local: addresses.from,
            peer: addresses.to,
            refresh: RouteRefresh::NotOffered,
            extended: false,
        },
        port,
        local_port: (addresses.from == addresses.to).then_some(port),
    }
}
