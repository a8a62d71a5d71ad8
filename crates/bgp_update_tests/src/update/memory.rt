//! Memory: enough of it, and growths that are refused.

use super::*;
use bgp_wire::vectors::{ANNOUNCES_10, MP_UNREACH_TWICE};
use linked_list_allocator::LocalHeap;

/// An UPDATE of 4096 octets up to its prefixes, of which the first is 0.0.0.0/0.
const BEGUN: [u8; 44] = [
    255, 255, 255, 255, 255, 255, 255, 255, 255, 255, 255, 255, 255, 255, 255, 255, // marker
    0x10, 0x00, // Length: 4096
    0x02, // Type: UPDATE
    0x00, 0x00, // Withdrawn Routes Length: 0
    0x00, 0x14, // Total Path Attribute Length: 20
    0x40, 0x01, 0x01, 0x00, // ORIGIN: IGP
    0x40, 0x02, 0x06, 0x02, 0x01, 0x00, 0x00, 0xfd, 0xea, // AS_PATH: a sequence of 65002
    0x40, 0x03, 0x04, 0xc0, 0x00, 0x02, 0x02, // NEXT_HOP: 192.0.2.2
    0x00, // NLRI: 0.0.0.0/0
];

/// That UPDATE: 2026 times 10.0.0.0/8 is put behind it.
fn longest(alloc: Global) -> Result<Vec<u8>, AllocError> {
    let mut octets = Vec::from_slice(alloc, &BEGUN)?;
    for _ in 0..2026 {
        octets.extend_from_slice(&[8, 10])?;
    }
    Ok(octets)
}

/// Whether 0.0.0.0/0 and all others are put: 4053 octets, and 4096 in all.
fn is_longest_put(alloc: Global) -> Option<bool> {
    let octets = longest(alloc).ok()?;
    let outcomes = read_update(alloc, &link(false)?, &octets).ok()?;
    Some(octets.len() == 4096 && are_put(&outcomes.changes, 2027))
}

#[test]
fn ample_memory(rt: HostRuntime) {
    assert!(rt; is_longest_put(rt.alloc()) == Some(true));
}

/// Whether an announcement of 10.0.0.0/8 is read so with this memory: `None` where that is refused.
fn is_put<A: Allocator + Copy>(alloc: A, link: &Link) -> Option<bool> {
    match read_update(alloc, link, &ANNOUNCES_10) {
        Ok(outcomes) => Some(outcomes.reset.is_empty() && are_put(&outcomes.changes, 1)),
        Err(_) => None,
    }
}

/// Whether with this memory two MP_UNREACH_NLRI are to be answered by subcode 1.
fn is_reset<A: Allocator + Copy>(alloc: A, link: &Link) -> bool {
    match read_update(alloc, link, &MP_UNREACH_TWICE) {
        Ok(outcomes) => outcomes.changes.is_none() && outcomes.reset.least() == Some(1),
        Err(_) => false,
    }
}

/// Whether with a heap of this size the announcement is read, or refused memory: no answer where
/// either is wrong.
fn is_put_in(alloc: Global, size: usize, link: &Link) -> Option<bool> {
    let heap = LocalHeap::new(alloc, size).ok()?;
    let put = is_put(&heap, link);
    (put != Some(false) && is_reset(&heap, link)).then_some(put.is_some())
}

/// Whether it is refused memory in small heaps, and read in larger ones.
fn is_refused_and_put(alloc: Global) -> Option<bool> {
    let link = link(false)?;
    let (mut refused, mut done) = (false, false);
    for step in 1usize..129 {
        let is_put = is_put_in(alloc, 16 * step, &link)?;
        refused = refused || !is_put;
        done = done || is_put;
    }
    Some(refused && done)
}

#[test]
fn a_refused_growth_is_told_and_a_reset_takes_no_memory(rt: HostRuntime) {
    assert!(rt; is_refused_and_put(rt.alloc()) == Some(true));
}
