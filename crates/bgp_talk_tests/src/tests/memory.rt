//! Growths that are refused, and what a peer that doesn't stop can make a speaker hold.

use super::*;
use linked_list_allocator::LocalHeap;

/// Whether a talk comes to what is wanted with a heap of this size, or memory is refused: `None`
/// where it comes to anything else.
fn is_done_with(alloc: Global, size: usize, talk: &Talk<'_>, wanted: &Came) -> Option<bool> {
    let heap = LocalHeap::new(alloc, size).ok()?;
    let came = came_of(&heap, alloc, talk)?;
    let is_done = is_whole(&came, wanted);
    (is_done || is_cut(&came, SpeakFault::Memory, wanted)).then_some(is_done)
}

/// Whether a talk is cut short for memory with small heaps, and comes to all with larger ones.
fn is_refused_by_some(alloc: Global, whole: &Came) -> Option<bool> {
    let (mut refused, mut done) = (false, false);
    for step in 1..512 {
        done = is_done_with(alloc, 16 * step, &whole_talk(), whole)?;
        refused = refused || !done;
    }
    Some(refused && done)
}

/// Whether it is so of the whole talk.
fn is_whole_refused_by_some(alloc: Global) -> Option<bool> {
    is_refused_by_some(alloc, &came_of(alloc, alloc, &whole_talk())?)
}

#[test]
fn refused_memory_leaves_a_beginning_of_the_capture(rt: HostRuntime) {
    assert!(rt; is_whole_refused_by_some(rt.alloc()) == Some(true));
}

/// What a peer says that opens a session, and then sends so many KEEPALIVEs.
fn flood(alloc: Global, count: usize) -> Option<Vec<u8>> {
    let mut octets = Vec::from_slice(alloc, &OPEN_B).ok()?;
    for _ in 0..count {
        octets.extend_from_slice(&KEEPALIVE).ok()?;
    }
    Some(octets)
}

/// Reads of these octets, 4096 at a time.
fn reads_of<'a>(alloc: Global, octets: &'a [u8]) -> Option<Vec<MemRead<'a>>> {
    let mut reads = Vec::new(alloc);
    for piece in octets.chunks(4096) {
        reads.push(MemRead::Bytes(piece)).ok()?;
    }
    Some(reads)
}

/// Pieces of octets, the second of which stands there so often.
fn repeated(alloc: Global, pieces: [&[u8]; 3], count: usize) -> Option<Vec<u8>> {
    let [front, middle, rest] = pieces;
    let mut octets = Vec::from_slice(alloc, front).ok()?;
    for _ in 0..count {
        octets.extend_from_slice(middle).ok()?;
    }
    octets.extend_from_slice(rest).ok()?;
    Some(octets)
}

/// What comes of so many KEEPALIVEs over so many reads, by the whole talk: the records up to
/// Established, the last of which but one is of the first KEEPALIVE, and those of the end. A change
/// of state takes 36 octets, a message 32 and its own (RFC 6396, 2 and 4.4). Nothing is announced.
fn flooded(alloc: Global, whole: &Came, count: usize, reads: usize) -> Option<Came> {
    let (capture, taken) = (whole.capture.as_slice(), whole.taken.as_slice());
    let pieces = [
        capture.get(..408)?,
        capture.get(321..372)?,
        capture.get(564..)?,
    ];
    Some(Came {
        answer: Ok((reads as u64, 0)),
        capture: repeated(alloc, pieces, count.checked_sub(1)?)?,
        // The OPEN and a KEEPALIVE, and a Cease.
        taken: repeated(alloc, [taken.get(..68)?, &[], taken.get(114..)?], 0)?,
        failures: (0, 0),
    })
}

/// Whether a heap of this size is enough where the peer sends so many KEEPALIVEs.
fn is_enough(alloc: Global, whole: &Came, size: usize, count: usize) -> Option<bool> {
    let octets = flood(alloc, count)?;
    let reads = reads_of(alloc, octets.as_slice())?;
    let wanted = flooded(alloc, whole, count, reads.len())?;
    let talk = Talk {
        reads: reads.as_slice(),
        announces: false,
        ..whole_talk()
    };
    is_done_with(alloc, size, &talk, &wanted)
}

/// A heap that is enough for what one read of 4096 octets shows; half of it isn't.
const HEAP: usize = 1 << 15;

/// Whether it is, for any number of them.
fn is_bounded(alloc: Global) -> Option<bool> {
    let whole = came_of(alloc, alloc, &whole_talk())?;
    let is_half_refused = is_enough(alloc, &whole, HEAP / 2, 1_000) == Some(false);
    let is_so = is_half_refused
        && is_enough(alloc, &whole, HEAP, 1_000) == Some(true)
        && is_enough(alloc, &whole, HEAP, 100_000) == Some(true);
    Some(is_so)
}

#[test]
fn what_is_held_does_not_grow_with_the_reads(rt: HostRuntime) {
    assert!(rt; is_bounded(rt.alloc()) == Some(true));
}
