//! A long row of changes beside a plain list, refused memory, and how tables are compared and
//! listed. What RFC 4271 and RFC 7606 ask of a peer's routes is told by sessions of `real_captures`
//! (`sessions.txt`), and of several UPDATEs in one call by drives of `speaker_drives`
//! (`drives-by-hand.txt`).

mod long_run;
mod memory;
mod tables;

use bgp_open::Families;
use bgp_path::{AsPath, Items, NextHop, Origin, Path, PathParts, Segment, SegmentKind};
use bgp_prefix::{Address, Family, Prefix};
use bgp_rib::*;
use bgp_update::{Changes, Destination, PathId, Put};
use std::alloc::{AllocError, Allocator, Global};

/// The set without a family.
const NONE: Families = Families {
    v4: false,
    v6: false,
};

/// Destinations: the number of the first, what each further one has more, and how many there are.
type Numbers = (u32, u32, u32);

/// The mark of a path, and destinations that have it.
type Group = (u32, Numbers);

/// What is to change: destinations to remove, and then groups to put.
type Told = (Numbers, Option<Group>, Option<Group>);

/// The number of the first destination that has a path identifier.
const IDENTIFIED: u32 = 10_000;

/// No destination.
const NOTHING: Numbers = (0, 0, 0);

/// The family of a number's destination.
fn family_of(number: u32) -> Family {
    if number % 2 == 0 {
        Family::V4
    } else {
        Family::V6
    }
}

/// The prefix of a number: those of a family ascend with it, some one inside another.
fn prefix_of(number: u32) -> Option<Prefix> {
    let network = number / 12;
    let more = u8::try_from(number % 12 / 2).ok()?;
    let (address, length) = match family_of(number) {
        Family::V4 => (Address::V4(network << 22), 10),
        Family::V6 => (Address::V6(u128::from(network) << 100), 28),
    };
    Prefix::new(address, more.saturating_add(length))
}

/// The destination of a number: one of four paths to a prefix from `IDENTIFIED` on, and below a
/// prefix alone. The identifiers differ in their highest octet that isn't 0.
fn destination_of(number: u32) -> Option<Destination> {
    let Some(place) = number.checked_sub(IDENTIFIED) else {
        return Some(Destination::plain(prefix_of(number)?));
    };
    let prefix = prefix_of(place / 8 * 2 + place % 2)?;
    let path = Some(PathId::new(1 << (place / 2 % 4 * 8)));
    Some(Destination { prefix, path })
}

/// The number of the destination at an index.
fn number_at((first, more, _): Numbers, index: u32) -> u32 {
    first.saturating_add(more.saturating_mul(index))
}

/// The destinations.
fn destinations<A: Allocator>(
    alloc: A,
    numbers: Numbers,
) -> Result<Vec<Destination, A>, AllocError> {
    let mut destinations = Vec::new(alloc);
    for index in 0..numbers.2 {
        let destination = destination_of(number_at(numbers, index)).ok_or(AllocError)?;
        destinations.push(destination)?;
    }
    Ok(destinations)
}

/// An AS_PATH that takes memory.
fn as_path<A: Allocator + Copy>(alloc: A) -> Result<AsPath<A>, AllocError> {
    let numbers = Vec::from_slice(alloc, &[65002, 70000])?;
    let segment = Segment::new(SegmentKind::Sequence, numbers).ok_or(AllocError)?;
    let mut as_path = AsPath::new(alloc);
    as_path.push(segment)?;
    Ok(as_path)
}

/// A path, told from others by its LOCAL_PREF.
fn path<A: Allocator + Copy>(alloc: A, mark: u32) -> Result<Path<A>, AllocError> {
    let parts = PathParts {
        origin: Origin::Igp,
        as_path: as_path(alloc)?,
        next_hop: NextHop::V4(0xc000_0202),
        multi_exit_disc: None,
        local_pref: Some(mark),
        atomic_aggregate: false,
        aggregator: None,
        communities: bgp_path::Numbers::new(),
        originator_id: None,
        cluster_list: Items::new(alloc),
        extended_communities: Items::new(alloc),
        large_communities: Items::new(alloc),
    };
    Path::new(alloc, parts)
}

/// A group, where there is one.
fn group<A: Allocator + Copy>(alloc: A, told: Option<Group>) -> Result<Option<Put<A>>, AllocError> {
    let Some((mark, numbers)) = told else {
        return Ok(None);
    };
    let destinations = destinations(alloc, numbers)?;
    let path = path(alloc, mark)?;
    Ok(Some(Put { path, destinations }))
}

/// The changes that are told of.
fn changes<A: Allocator + Copy>(alloc: A, told: &Told) -> Result<Changes<A>, AllocError> {
    let (numbers, first, second) = *told;
    let remove = destinations(alloc, numbers)?;
    let nlri = group(alloc, first)?;
    let mp_reach_nlri = group(alloc, second)?;
    Ok(Changes {
        remove,
        nlri,
        mp_reach_nlri,
    })
}

/// Makes the changes in memory of their own, and applies them.
fn change<A: Allocator + Copy>(
    rib: &mut RibIn<A>,
    alloc: A,
    told: &Told,
) -> Result<(), AllocError> {
    let changes = changes(alloc, told)?;
    rib.apply(&changes)
}

/// Whether the next route is that to the destination of this number, by a path of this mark.
fn is_next<A: Allocator>(routes: &mut RouteIter<'_, A>, number: u32, mark: u32) -> bool {
    match routes.next() {
        Some((destination, path)) => {
            destination_of(number) == Some(destination) && path.parts().local_pref == Some(mark)
        }
        None => false,
    }
}

/// The number of the destination at an index of all that groups have, and the mark of its path.
fn route_at(told: &[Group], index: u32) -> Option<(u32, u32)> {
    let mut left = index;
    for (mark, numbers) in told {
        if left < numbers.2 {
            return Some((number_at(*numbers, left), *mark));
        }
        left = left.saturating_sub(numbers.2);
    }
    None
}

/// Whether these are just the routes, in this order.
fn are<A: Allocator>(routes: RouteIter<'_, A>, told: &[Group]) -> bool {
    let mut index = 0u32;
    for (destination, path) in routes {
        let Some((number, mark)) = route_at(told, index) else {
            return false;
        };
        if destination_of(number) != Some(destination) || path.parts().local_pref != Some(mark) {
            return false;
        }
        index = index.saturating_add(1);
    }
    route_at(told, index).is_none()
}
