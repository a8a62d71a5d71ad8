//! Memory: enough of it, and growths that are refused. (What a tracker does then is asked in
//! `compact`.)

use super::*;
use bgp_judge::{OpenedSteps, judge_with, openings};
use bgp_machine::{Head, HoldTimer};
use bgp_open::{negotiate, read_open};
use bgp_wire::vectors::{ANNOUNCES_10, KEEPALIVE, MP_REACH_TRANSITIVE, OPEN_A, OPEN_B};
use linked_list_allocator::LocalHeap;
use mrt::Reader;
use mrt::Record::{Change, In, Out};

/// A session whose last UPDATE may disable IPv6 or not.
pub(crate) static TWO_ENDS: [Record<'static>; 10] = [
    Change(100, 1, 2),
    Out(100, &OPEN_A),
    Change(100, 2, 4),
    In(101, &OPEN_B),
    Out(101, &KEEPALIVE),
    Change(101, 4, 5),
    In(101, &KEEPALIVE),
    Change(101, 5, 6),
    In(102, &ANNOUNCES_10),
    In(103, &MP_REACH_TRANSITIVE),
];

/// Its ends.
pub(crate) static ENDS: [Expected<'static>; 2] = [
    (Fsm::Established, NONE, &["10.0.0.0/8"]),
    (Fsm::Established, V6, &["10.0.0.0/8"]),
];

/// Whether a verdict is yes, with these ends.
fn is_yes<A: Allocator>(verdict: &Verdict<A>) -> bool {
    match verdict {
        Verdict::Yes(ends) => are_ends(ends.as_slice(), &ENDS),
        _ => false,
    }
}

/// The session before its last record.
fn up(config: &Config) -> Option<Head> {
    let open = read_open(&OPEN_B).ok()?;
    let timer = HoldTimer {
        since: 102,
        span: 90,
    };
    Some(Head::Established(negotiate(config, &open), timer))
}

/// How many of the steps stay in Established.
fn staying<A: Allocator>(opened: &OpenedSteps<A>) -> usize {
    opened
        .steps
        .iter()
        .filter(|step| step.after.head.fsm() == Fsm::Established)
        .count()
}

/// Whether memory for the steps that the last UPDATE opens is given: `None` where two of them
/// don't stay in Established.
fn opens_two<A: Allocator + Copy>(alloc: A) -> Option<bool> {
    let config = router_a()?;
    let up = up(&config)?;
    let opened: Result<OpenedSteps<A>, _> = openings(alloc, &config, up, &TWO_ENDS[9]);
    match opened {
        Ok(opened) => (staying(&opened) == 2).then_some(true),
        Err(_) => Some(false),
    }
}

/// Whether a capture is judged so, with a reader that is lent.
fn is_told_with(alloc: Global, config: &Config, capture: Vec<u8>) -> bool {
    let mut source = MemSource::new(capture);
    let mut reader = Reader::new(alloc);
    match judge_with::<_, PlainTracker, _>(&mut reader, alloc, config, &mut source) {
        Ok(verdict) => is_yes(&verdict),
        Err(_) => false,
    }
}

/// Whether a capture of the session is judged so, with a reader that is lent.
fn is_capture_told(alloc: Global) -> bool {
    let Some(config) = router_a() else {
        return false;
    };
    match capture_of(alloc, &config, &TWO_ENDS) {
        Some(capture) => is_told_with(alloc, &config, capture),
        None => false,
    }
}

/// Whether memory for the steps is given by a heap of this size: `None` where they are wrong.
fn opens_two_with(alloc: Global, size: usize) -> Option<bool> {
    let heap = LocalHeap::new(alloc, size).ok()?;
    opens_two(&heap)
}

/// Whether memory for the steps is refused on small heaps, and given by larger ones: `None` where
/// the steps are wrong.
fn are_refused_and_given(alloc: Global) -> Option<bool> {
    let (mut refused, mut given) = (false, false);
    for size in (16usize..2048).step_by(16) {
        let is_given = opens_two_with(alloc, size)?;
        refused = refused || !is_given;
        given = given || is_given;
    }
    Some(refused && given)
}

#[test]
fn refused_steps_are_no_steps(rt: HostRuntime) {
    assert!(rt; opens_two(rt.alloc()) == Some(true));
    assert!(rt; are_refused_and_given(rt.alloc()) == Some(true));
}

#[test]
fn a_capture_is_judged_with_a_reader_that_is_lent(rt: HostRuntime) {
    assert!(rt; is_capture_told(rt.alloc()));
}

/// Where the records of [`TWO_ENDS`] begin in its capture, and where that ends.
static PLACES: [u64; 11] = [0, 36, 117, 153, 234, 285, 321, 372, 408, 485, 582];

/// At which octet memory is refused for a capture of the session with a heap of this size, or that
/// it has the right verdict. It is `None` where it has another one, or is refused otherwise.
fn refused_on(alloc: Global, config: &Config, size: usize) -> Option<Option<u64>> {
    let heap = LocalHeap::new(alloc, size).ok()?;
    let mut source = MemSource::new(capture_of(alloc, config, &TWO_ENDS)?);
    match judge::<&LocalHeap, PlainTracker<&LocalHeap>, _>(&heap, config, &mut source) {
        Ok(verdict) => is_yes(&verdict).then_some(None),
        Err(fault) => (fault.kind == FaultKind::Memory).then_some(Some(fault.offset)),
    }
}

/// How many places at which memory is refused follow another one, with larger and larger heaps, of
/// which the first has no room for the reader's buffer of 65583 octets and the last is enough. It
/// is `None` where memory is refused elsewhere, or something else is answered.
fn places_until_ample(alloc: Global, config: &Config) -> Option<usize> {
    let mut last = None;
    let mut places = 0usize;
    for size in (57_408usize..90_160).step_by(16) {
        let refused = refused_on(alloc, config, size)?;
        if let Some(place) = refused {
            if !PLACES.contains(&place) {
                return None;
            }
            if refused != last {
                places = places.saturating_add(1);
            }
        }
        last = refused;
    }
    last.is_none().then_some(places)
}

/// The same of router A.
fn places(alloc: Global) -> Option<usize> {
    places_until_ample(alloc, &router_a()?)
}

#[test]
fn a_refused_growth_gives_no_verdict(rt: HostRuntime) {
    // That of the first record, and two behind it.
    assert!(rt; places(rt.alloc()) > Some(2));
}
