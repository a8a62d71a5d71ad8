//! Memory: enough of it, growths that are refused, and what is held.

use super::*;
use crate::judge::memory::{ENDS, TWO_ENDS};
use bgp_wire::vectors::KEEPALIVE;
use linked_list_allocator::LocalHeap;
use mrt::Record::{Change, In};

/// A tracker of router A.
fn started<A: Allocator + Copy, T: Tracker<A>>(alloc: A) -> Option<T> {
    T::start(alloc, &router_a()?).ok()
}

/// Whether a tracker takes each of the records.
fn takes_all<A: Allocator + Copy, T: Tracker<A>>(tracker: &mut T, records: &[Record<'_>]) -> bool {
    for shown in records {
        if tracker.take(shown) != Ok(true) {
            return false;
        }
    }
    true
}

/// Whether a tracker answers these ends.
fn has_ends<A: Allocator + Copy, T: Tracker<A>>(tracker: &T, expected: &[Expected<'_>]) -> bool {
    match tracker.ends() {
        Ok(ends) => are_ends(ends.as_slice(), expected),
        Err(_) => false,
    }
}

/// Takes all but so many octets of a heap, in small pieces, so that what is left lies together.
fn ballast<'a>(
    heap: &'a LocalHeap,
    ample: &'a LocalHeap,
    left: usize,
) -> Result<Vec<Vec<u8, &'a LocalHeap>, &'a LocalHeap>, AllocError> {
    let mut pieces = Vec::new(ample);
    for _ in 0..heap.size() / 16 {
        if heap.free() <= left {
            break;
        }
        let Ok(piece) = Vec::with_capacity(heap, 16) else {
            break;
        };
        pieces.push(piece)?;
    }
    Ok(pieces)
}

/// What comes of a record with so many octets left.
fn takes_beside<'a, T: Tracker<&'a LocalHeap>>(
    heap: &'a LocalHeap,
    ample: &'a LocalHeap,
    tracker: &mut T,
    left: usize,
    shown: &Record<'_>,
) -> Option<Result<bool, AllocError>> {
    let ballast = ballast(heap, ample, left).ok()?;
    let taken = tracker.take(shown);
    drop(ballast);
    Some(taken)
}

/// Whether the ends are refused with so many octets left.
fn are_ends_refused<'a, T: Tracker<&'a LocalHeap>>(
    heap: &'a LocalHeap,
    ample: &'a LocalHeap,
    tracker: &T,
    left: usize,
) -> Option<bool> {
    let ballast = ballast(heap, ample, left).ok()?;
    let is_refused = tracker.ends().is_err();
    drop(ballast);
    Some(is_refused)
}

/// Whether a record is refused with so many octets left: `None` where it isn't taken then or, with
/// memory, again. Before the last one is taken again, the ends are those without it.
fn is_refused<'a, T: Tracker<&'a LocalHeap>>(
    heap: &'a LocalHeap,
    ample: &'a LocalHeap,
    tracker: &mut T,
    left: usize,
    (shown, is_last): (&Record<'_>, bool),
) -> Option<bool> {
    if let Ok(alive) = takes_beside(heap, ample, tracker, left, shown)? {
        return alive.then_some(false);
    }
    let is_kept = !is_last || has_ends::<&LocalHeap, T>(tracker, &ENDS[..1]);
    (is_kept && tracker.take(shown) == Ok(true)).then_some(true)
}

/// How often memory is refused to a tracker of the session, with so many octets left at each record
/// and for the ends: `None` where a record isn't taken in the end, or the ends are others.
fn refusals_of<'a, T: Tracker<&'a LocalHeap>>(
    heap: &'a LocalHeap,
    ample: &'a LocalHeap,
    tracker: &mut T,
    left: usize,
) -> Option<usize> {
    let mut refused: usize = 0;
    for (place, shown) in TWO_ENDS.iter().enumerate() {
        if is_refused(heap, ample, tracker, left, (shown, place == 9))? {
            refused = refused.saturating_add(1);
        }
    }
    if are_ends_refused(heap, ample, tracker, left)? {
        refused = refused.saturating_add(1);
    }
    has_ends::<&LocalHeap, T>(tracker, &ENDS).then_some(refused)
}

/// The same of a tracker of its own.
fn refusals<'a, T: Tracker<&'a LocalHeap>>(
    heap: &'a LocalHeap,
    ample: &'a LocalHeap,
    left: usize,
) -> Option<usize> {
    let mut tracker = started::<&LocalHeap, T>(heap)?;
    refusals_of(heap, ample, &mut tracker, left)
}

/// How often it is refused to the plain tracker and to the compact one, with heaps of their own.
fn refusals_with(alloc: Global, left: usize) -> Option<(usize, usize)> {
    let ample = LocalHeap::new(alloc, 1 << 15).ok()?;
    let heap = LocalHeap::new(alloc, 1 << 13).ok()?;
    let plain = refusals::<PlainTracker<&LocalHeap>>(&heap, &ample, left)?;
    let compact = refusals::<CompactTracker<&LocalHeap>>(&heap, &ample, left)?;
    Some((plain, compact))
}

/// How often it is refused to them with no octets left, and then with more and more.
fn refusals_until_ample(alloc: Global) -> Option<((usize, usize), (usize, usize))> {
    let first = refusals_with(alloc, 0)?;
    let mut last = first;
    for left in (32usize..4096).step_by(32) {
        last = refusals_with(alloc, left)?;
    }
    Some((first, last))
}

/// Whether it is refused with no octets left for the list of ends, and for both UPDATEs with their
/// changes, and not at all with many.
fn are_taken_again(alloc: Global) -> bool {
    match refusals_until_ample(alloc) {
        Some((first, last)) => first.0 > 2 && first.1 > 2 && last == (0, 0),
        None => false,
    }
}

#[test]
fn a_refused_record_can_be_taken_again(rt: HostRuntime) {
    assert!(rt; are_taken_again(rt.alloc()));
}

/// Whether the plain tracker and the compact one judge the session with a heap of this size: `None`
/// where a verdict is wrong. With less memory there is no verdict.
fn are_judged(alloc: Global, size: usize) -> Option<(bool, bool)> {
    let heap = LocalHeap::new(alloc, size).ok()?;
    let plain = is_judged::<_, PlainTracker<&LocalHeap>>(&heap, &TWO_ENDS, &ENDS)?;
    let compact = is_judged::<_, CompactTracker<&LocalHeap>>(&heap, &TWO_ENDS, &ENDS)?;
    Some((plain, compact))
}

/// Whether each of them has no verdict with some heap and one with the largest: `None` where a
/// verdict is wrong.
fn are_judged_at_last(alloc: Global) -> Option<bool> {
    let mut is_refused = (false, false);
    let mut is_done = (false, false);
    for size in (16usize..1 << 14).step_by(16) {
        is_done = are_judged(alloc, size)?;
        is_refused = (is_refused.0 || !is_done.0, is_refused.1 || !is_done.1);
    }
    Some(is_refused == (true, true) && is_done == (true, true))
}

#[test]
fn a_refused_growth_gives_no_verdict(rt: HostRuntime) {
    assert!(rt; are_judged_at_last(rt.alloc()) == Some(true));
}

/// An UPDATE that announces 10.`high`.`low`.0/24.
fn announces(high: u8, low: u8) -> [u8; 47] {
    [
        255, 255, 255, 255, 255, 255, 255, 255, 255, 255, 255, 255, 255, 255, 255, 255, // marker
        0x00, 0x2f, // Length: 47
        0x02, // Type: UPDATE
        0x00, 0x00, // Withdrawn Routes Length: 0
        0x00, 0x14, // Total Path Attribute Length: 20
        0x40, 0x01, 0x01, 0x00, // ORIGIN: IGP
        0x40, 0x02, 0x06, 0x02, 0x01, 0x00, 0x00, 0xfd, 0xea, // AS_PATH: a sequence of 65002
        0x40, 0x03, 0x04, 0xc0, 0x00, 0x02, 0x02, // NEXT_HOP: 192.0.2.2
        0x18, 0x0a, high, low, // NLRI: 10.high.low.0/24
    ]
}

/// An UPDATE that withdraws 10.`high`.`low`.0/24.
fn withdraws(high: u8, low: u8) -> [u8; 27] {
    [
        255, 255, 255, 255, 255, 255, 255, 255, 255, 255, 255, 255, 255, 255, 255, 255, // marker
        0x00, 0x1b, // Length: 27
        0x02, // Type: UPDATE
        0x00, 0x04, // Withdrawn Routes Length: 4
        0x18, 0x0a, high, low, // 10.high.low.0/24
        0x00, 0x00, // Total Path Attribute Length: 0
    ]
}

/// Whether a tracker takes the records that open the session and holds nothing, since they have no
/// routes.
fn opens<'a>(heap: &'a LocalHeap, tracker: &mut CompactTracker<&'a LocalHeap>) -> bool {
    let mut holds_nothing = heap.used() == 0;
    for shown in TWO_ENDS.iter().take(8) {
        holds_nothing = holds_nothing && tracker.take(shown) == Ok(true) && heap.used() == 0;
    }
    holds_nothing
}

/// How much is held after so many rounds: a route is announced, it is kept, and it is withdrawn.
fn held_after<'a>(
    heap: &'a LocalHeap,
    tracker: &mut CompactTracker<&'a LocalHeap>,
    rounds: usize,
) -> Option<usize> {
    let (announces, withdraws) = (announces(0, 0), withdraws(0, 0));
    let round = [
        In(102, &announces),
        In(102, &KEEPALIVE),
        In(102, &withdraws),
    ];
    for _ in 0..rounds {
        if !takes_all::<&LocalHeap, CompactTracker<&LocalHeap>>(tracker, &round) {
            return None;
        }
    }
    Some(heap.used())
}

/// Whether many rounds hold no more than few, and the end of the session holds nothing.
fn holds_no_more<'a>(heap: &'a LocalHeap, tracker: &mut CompactTracker<&'a LocalHeap>) -> bool {
    let is_open = opens(heap, tracker);
    let few = held_after(heap, tracker, 2);
    let many = held_after(heap, tracker, 200);
    let is_down = tracker.take(&Change(103, 6, 1)) == Ok(true) && heap.used() == 0;
    is_open && few.is_some() && few == many && is_down
}

/// The same, of a heap of its own.
fn does_not_grow(alloc: Global) -> bool {
    let Ok(heap) = LocalHeap::new(alloc, 1 << 14) else {
        return false;
    };
    match started::<&LocalHeap, CompactTracker<&LocalHeap>>(&heap) {
        Some(mut tracker) => holds_no_more(&heap, &mut tracker),
        None => false,
    }
}

#[test]
fn what_is_held_does_not_grow(rt: HostRuntime) {
    assert!(rt; does_not_grow(rt.alloc()));
}

/// Whether a tracker takes 400 routes.
fn takes_routes<A: Allocator + Copy>(tracker: &mut CompactTracker<A>) -> bool {
    for high in 0..2 {
        for low in 0..200 {
            if tracker.take(&In(102, &announces(high, low))) != Ok(true) {
                return false;
            }
        }
    }
    true
}

/// Whether a tracker of 400 routes takes a round, and memory isn't enough for a copy of them.
fn copies_no_route<'a>(heap: &'a LocalHeap, tracker: &mut CompactTracker<&'a LocalHeap>) -> bool {
    tracker.table().copy().is_err()
        && held_after(heap, tracker, 1).is_some()
        && tracker.table().len() == 399
}

/// The same with 2048 octets left.
fn copies_none_beside<'a>(
    heap: &'a LocalHeap,
    ample: &'a LocalHeap,
    tracker: &mut CompactTracker<&'a LocalHeap>,
) -> Option<bool> {
    let ballast = ballast(heap, ample, 2048).ok()?;
    let is_right = copies_no_route(heap, tracker);
    drop(ballast);
    Some(is_right)
}

/// The same of a tracker of its own.
fn is_uncopied(heap: &LocalHeap, ample: &LocalHeap) -> Option<bool> {
    let mut tracker = started::<&LocalHeap, CompactTracker<&LocalHeap>>(heap)?;
    if opens(heap, &mut tracker) && takes_routes(&mut tracker) {
        copies_none_beside(heap, ample, &mut tracker)
    } else {
        None
    }
}

/// The same of heaps of its own.
fn is_uncopied_with(alloc: Global) -> Option<bool> {
    let ample = LocalHeap::new(alloc, 1 << 20).ok()?;
    let heap = LocalHeap::new(alloc, 1 << 18).ok()?;
    is_uncopied(&heap, &ample)
}

#[test]
fn a_record_copies_no_route(rt: HostRuntime) {
    assert!(rt; is_uncopied_with(rt.alloc()) == Some(true));
}
