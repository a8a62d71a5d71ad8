//! What judging a capture does where a growth is refused. Verdicts are compared by the program
//! `real_captures`.

use super::*;
use bgp_compact::CompactTracker;
use bgp_judge::{PlainTracker, Tracker};
use bgp_open::Config;
use bgp_vectors::ROUTER_A;
use bgp_wire::vectors::{MP_REACH_TRANSITIVE, OPEN_A};
use mrt::Record::{self, Change, In, Out};
use mrt::{Sink, is_writable, write_record};

/// A session whose last UPDATE may disable IPv6 or not.
static RECORDS: [Record<'static>; 10] = [
    Change(100, 1, 2),
    Out(100, &OPEN_A),
    Change(100, 2, 4),
    In(101, &OPEN_B),
    Out(101, &KEEPALIVE),
    Change(101, 4, 5),
    In(101, &KEEPALIVE),
    Change(101, 5, 6),
    In(102, &ANNOUNCES_10),
    In(103, &MP_REACH_TRANSITIVE),
];

/// The verdict on [`RECORDS`].
const TEXT: &str = "\
yes
end Established disabled -
route 10.0.0.0/8 via 192.0.2.2 path 65002 origin 0
end Established disabled v6
route 10.0.0.0/8 via 192.0.2.2 path 65002 origin 0
";

/// Writes a record. Answers whether it could be.
fn put(sink: &mut MemSink, record: &Record<'_>) -> bool {
    sink.failures() < u64::MAX
        && is_writable(&ROUTER_A.session, record)
        && write_record(sink, &ROUTER_A.session, 65002, 65001, record).is_ok()
}

/// A capture of so many of [`RECORDS`], if they could be written.
fn capture_of(alloc: Global, count: usize) -> Option<Vec<u8>> {
    let mut sink = MemSink::new(alloc);
    for record in RECORDS.iter().take(count) {
        if !put(&mut sink, record) {
            return None;
        }
    }
    Some(sink.into_octets())
}

/// What judging [`RECORDS`] with this memory writes and answers.
fn judged<A: Allocator + Copy, T: Tracker<A>>(alloc: Global, memory: A) -> Option<(Vec<u8>, u8)> {
    let config = Config::new(ROUTER_A)?;
    let mut source = MemSource::new(capture_of(alloc, RECORDS.len())?);
    let mut sink = MemSink::new(alloc);
    let status = judge_capture::<A, T, _, _>(memory, &config, &mut source, &mut sink);
    Some((sink.into_octets(), status))
}

/// Where [`RECORDS`] begin in their capture, and where that ends.
static PLACES: [u64; 11] = [0, 36, 117, 153, 234, 285, 321, 372, 408, 485, 582];

/// The one of them at which this says that memory was refused.
fn place_of(alloc: Global, written: &[u8]) -> Option<u64> {
    for place in &PLACES {
        let refusal = format!(in alloc; "capture refused: 10 Memory at {place}\n").ok()?;
        if refusal.as_bytes() == written {
            return Some(*place);
        }
    }
    None
}

/// With a heap of this size: the place of the record or end at which memory was refused, or that
/// there is a verdict. It is `None` where something else is answered.
fn refused_at(alloc: Global, is_compact: bool, size: usize) -> Option<Option<u64>> {
    let heap = LocalHeap::new(alloc, size).ok()?;
    let (written, answer) = if is_compact {
        judged::<&LocalHeap, CompactTracker<&LocalHeap>>(alloc, &heap)?
    } else {
        judged::<&LocalHeap, PlainTracker<&LocalHeap>>(alloc, &heap)?
    };
    if answer == 4 {
        return Some(Some(place_of(alloc, &written)?));
    }
    same(&written, answer, TEXT.as_bytes(), 0).then_some(None)
}

/// Whether with each size of heap, from one that has no room for the reader's buffer of 65583
/// octets, memory is refused at such an octet, until the heap is large enough for the verdict.
fn is_refused_until_ample(alloc: Global, is_compact: bool) -> bool {
    let (mut first, mut last) = (None, None);
    for size in (57_392usize..1 << 17).step_by(16) {
        match refused_at(alloc, is_compact, size) {
            Some(None) => return first == Some(0) && last > Some(0),
            Some(place) => {
                first = first.or(place);
                last = place;
            }
            None => return false,
        }
    }
    false
}

#[test]
fn a_refused_growth_has_no_verdict(rt: HostRuntime) {
    assert!(rt; is_refused_until_ample(rt.alloc(), false));
    assert!(rt; is_refused_until_ample(rt.alloc(), true));
}
