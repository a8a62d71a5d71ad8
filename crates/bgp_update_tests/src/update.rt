//! UPDATEs with little memory, the greatest one, how long one may be that is sent, and next hops
//! and path identifiers by the form of each direction. (Outcomes are compared by the program
//! `real_captures`.)

mod extended;
mod forms;
mod identifiers;
mod memory;

use bgp_open::{Config, Link, negotiate, read_open};
use bgp_path::{NextHop, Origin, PathParts};
use bgp_prefix::read_prefix;
use bgp_update::{Changes, Destination, Put, is_clean, most_octets, read_update};
use bgp_vectors::SPEAKER_A;
use bgp_wire::vectors::OPEN_B;
use std::alloc::{AllocError, Allocator, Global};

/// What both OPENs settle, but for whether the peer offers extended messages.
fn link(extended: bool) -> Option<Link> {
    let config = Config::new(SPEAKER_A)?;
    let open = read_open(&OPEN_B).ok()?;
    let mut link = negotiate(&config, &open);
    link.extended = extended;
    Some(link)
}

/// Whether a path is IGP by AS 65002 and 192.0.2.2, without MULTI_EXIT_DISC.
fn is_plain<A: Allocator>(parts: &PathParts<A>) -> bool {
    let is_by_65002 = match parts.as_path.segments() {
        [first] => first.numbers() == [65002].as_slice(),
        _ => false,
    };
    is_by_65002
        && parts.origin == Origin::Igp
        && parts.next_hop == NextHop::V4(0xc000_0202)
        && parts.multi_exit_disc.is_none()
}

/// The destination of a prefix without a path identifier.
fn plain(text: &str) -> Option<Destination> {
    Some(Destination::plain(read_prefix(text)?))
}

/// Whether by that path the base fields put so many destinations, of which the last is 10.0.0.0/8,
/// and nothing else is changed.
fn are_put<A: Allocator>(changes: &Option<Changes<A>>, count: usize) -> bool {
    match changes {
        Some(
            Changes {
                remove,
                nlri: Some(Put { destinations, path }),
                mp_reach_nlri: None,
            },
        ) => {
            remove.is_empty()
                && destinations.len() == count
                && destinations.last().copied() == plain("10.0.0.0/8")
                && is_plain(path.parts())
        }
        _ => false,
    }
}
