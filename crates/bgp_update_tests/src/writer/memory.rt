//! Growths that are refused.

use super::*;
use linked_list_allocator::LocalHeap;

/// Whether these octets were written to a vector for an update, behind an octet, with so many
/// octets of this heap left. It is `None` where anything else came of it than that or a refusal
/// that leaves the vector as it was, so that they are written with memory.
fn writes(
    heap: &LocalHeap,
    left: usize,
    link: &Link,
    update: &Update<'_>,
    octets: &[u8],
) -> Option<bool> {
    let mut out = Vec::new(heap);
    out.push(9u8).ok()?;
    let ballast: Result<Vec<u8, _>, _> = Vec::with_capacity(heap, heap.free().saturating_sub(left));
    let first = write_update(link, update, &mut out);
    drop(ballast);
    let is_refused = is_right(first, &out, &[9], &Wanted::Fault(UpdateFault::Memory));
    let last = if is_refused {
        write_update(link, update, &mut out)
    } else {
        first
    };
    is_right(last, &out, &[9], &Wanted::Octets(octets)).then_some(!is_refused)
}

/// Whether an update is refused and then written, in these octets, as more and more of a heap is
/// left.
pub fn is_refused_and_then_written(
    alloc: Global,
    link: &Link,
    update: &Update<'_>,
    octets: &[u8],
) -> bool {
    let (mut refused, mut done) = (false, false);
    for left in (0usize..1024).step_by(16) {
        let Ok(heap) = LocalHeap::new(alloc, 1 << 12) else {
            return false;
        };
        match writes(&heap, left, link, update, octets) {
            Some(true) => done = true,
            // No more is too little.
            Some(false) if !done => refused = true,
            _ => return false,
        }
    }
    refused && done
}

/// The answers of an update that is written twice to a vector of this heap, which has room for one.
fn answers(heap: &LocalHeap, link: &Link, update: &Update<'_>) -> Option<[bool; 2]> {
    let mut out = Vec::with_capacity(heap, 45).ok()?;
    let first = write_update(link, update, &mut out) == Ok(()) && out.len() == 45;
    let then = write_update(link, update, &mut out) == Err(UpdateFault::Memory) && out.len() == 45;
    Some([first, then])
}

/// The answers of the announcement of 10.0.0.0/8 where the heap has memory for one vector of 45
/// octets, and for no larger one beside it.
fn answers_of_announcement(alloc: Global) -> Option<[bool; 2]> {
    let link = link_of(&ANNOUNCE)?;
    let path = path_of(alloc, &BY_V4).ok()?;
    let prefix = read_prefix("10.0.0.0/8")?;
    let announced = Update::Announce {
        family: Family::V4,
        prefixes: &[prefix],
        path: &path,
    };
    let heap = LocalHeap::new(alloc, 96).ok()?;
    answers(&heap, &link, &announced)
}

#[test]
fn room_that_is_there_is_enough(rt: HostRuntime) {
    assert!(rt; answers_of_announcement(rt.alloc()) == Some([true, true]));
}
