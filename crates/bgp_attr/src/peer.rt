//! Which paths are for a peer.

ghost use Rattle.std.specs.Prelude.{◌↔◌, IsTrue};
ghost use Rattle.bgp_attr.specs.ReadBack.{IsForPeer};

use crate::classes::Side;
use bgp_path::{Path, are_distinct};
use std::alloc::Allocator;

/// Whether the path may be sent to a peer of this side as it is. LOCAL_PREF, ORIGINATOR_ID and
/// CLUSTER_LIST are for an internal peer, and another would discard them (RFC 4271, 5.1.5;
/// RFC 4456, 8). A large community isn't sent twice (RFC 8092, 3).
pub fn is_for_peer<A: Allocator>(side: Side, path: &Path<A>) -> bool
    ensures for_peer { IsTrue result ↔ IsForPeer side path.now }
{
    let parts = path.parts();
    (side.internal
        || (parts.local_pref.is_none()
            && parts.originator_id.is_none()
            && parts.cluster_list.as_slice().is_empty()))
        && are_distinct(parts.large_communities.as_slice())
}
