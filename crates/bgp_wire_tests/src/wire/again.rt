//! A piece that is refused can be fed again.

use super::*;
use linked_list_allocator::LocalHeap;

/// Whether a splitter holds these two messages, and no more.
fn holds_both(frames: &mut Frames<&LocalHeap>) -> bool {
    gives(frames, MessageType::Keepalive, &KEEPALIVE)
        && gives(frames, MessageType::Update, &ANNOUNCES_2001_DB8)
        && waits(frames, 0)
}

/// Whether an UPDATE is refused to a splitter that holds a KEEPALIVE, with so many octets of its
/// heap left: `None` where what it holds then is wrong. Refused, it is fed again, with memory.
fn is_refused(heap: &LocalHeap, left: usize) -> Option<bool> {
    let mut frames = Frames::new(heap, Limit::Plain);
    frames.feed(&KEEPALIVE).ok()?;
    let ballast: Result<Vec<u8, _>, _> = Vec::with_capacity(heap, heap.free().saturating_sub(left));
    let is_refused = frames.feed(&ANNOUNCES_2001_DB8).is_err();
    drop(ballast);
    let is_fed = !is_refused || frames.len() == 19 && frames.feed(&ANNOUNCES_2001_DB8).is_ok();
    (is_fed && holds_both(&mut frames)).then_some(is_refused)
}

/// The same of a heap of its own.
fn is_refused_with(alloc: Global, left: usize) -> Option<bool> {
    let heap = LocalHeap::new(alloc, 1 << 10).ok()?;
    is_refused(&heap, left)
}

/// Whether it is refused with little memory, and at last is not.
fn is_refused_at_first(alloc: Global) -> Option<bool> {
    let (mut refused, mut done) = (false, false);
    for step in 0..32 {
        done = !is_refused_with(alloc, 16 * step)?;
        refused = refused || !done;
    }
    Some(refused && done)
}

#[test]
fn a_refused_piece_can_be_fed_again(rt: HostRuntime) {
    assert!(rt; is_refused_at_first(rt.alloc()) == Some(true));
}
