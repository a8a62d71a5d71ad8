//! Memory: enough of it, growths that are refused, and what a splitter takes.

use super::*;
use linked_list_allocator::LocalHeap;
use std::test::Fail;

/// Whether a splitter and its copy both give what was fed.
fn copies(alloc: Global) -> Result<bool, AllocError> {
    let mut frames = Frames::new(alloc, Limit::Plain);
    frames.feed(&ANNOUNCES_10)?;
    let mut copy = frames.copy()?;
    let is_copied = gives(&mut copy, MessageType::Update, &ANNOUNCES_10);
    Ok(is_copied && gives(&mut frames, MessageType::Update, &ANNOUNCES_10))
}

/// Whether a KEEPALIVE is put.
fn puts_keepalive(alloc: Global) -> bool {
    let mut out = Vec::new(alloc);
    put_keepalive(&mut out).is_ok() && out.as_slice() == KEEPALIVE.as_slice()
}

#[test]
fn ample_memory(rt: HostRuntime) {
    assert!(rt; matches!(copies(rt.alloc()), Ok(true)) && puts_keepalive(rt.alloc()));
}

/// Whether a KEEPALIVE that has no room isn't begun.
fn begins_nothing(alloc: Global) -> Option<bool> {
    let heap = LocalHeap::new(alloc, 16).ok()?;
    let mut out = Vec::new(&heap);
    Some(put_keepalive(&mut out).is_err() && out.is_empty())
}

#[test]
fn a_keepalive_that_has_no_room_is_not_begun(rt: HostRuntime) {
    assert!(rt; begins_nothing(rt.alloc()) == Some(true));
}

/// Whether a splitter holds a KEEPALIVE first, and so many octets after it.
fn begins_with_keepalive(frames: &mut Frames<&LocalHeap>, rest: usize) -> bool {
    gives(frames, MessageType::Keepalive, &KEEPALIVE) && frames.len() == rest
}

/// At which call a splitter's growth was refused.
#[derive(Clone, Copy, PartialEq, Eq)]
enum Refused {
    FirstPiece,
    SecondPiece,
    Copy,
    Nothing,
    /// At one, and not all is as before.
    Wrongly,
}

/// The same, if what is held is right.
fn refused_if(is_right: bool, refused: Refused) -> Refused {
    if is_right { refused } else { Refused::Wrongly }
}

/// Copies a splitter that holds a KEEPALIVE, and so many octets after it.
fn copies_or_keeps(frames: &mut Frames<&LocalHeap>, rest: usize) -> Refused {
    match frames.copy() {
        Ok(mut copy) => refused_if(begins_with_keepalive(&mut copy, rest), Refused::Nothing),
        Err(_) => Refused::Copy,
    }
}

/// Feeds a large piece to a splitter that holds a KEEPALIVE, and copies it.
fn feeds_or_keeps(frames: &mut Frames<&LocalHeap>, piece: &[u8]) -> Refused {
    let is_fed = frames.feed(piece).is_ok();
    let rest = if is_fed { PIECE_LEN } else { 0 };
    let copied = copies_or_keeps(frames, rest);
    let is_right = begins_with_keepalive(frames, rest) && copied != Refused::Wrongly;
    let refused = if is_fed { copied } else { Refused::SecondPiece };
    refused_if(is_right, refused)
}

/// Feeds a KEEPALIVE and then a large piece to a splitter on a heap that may be too small, and
/// copies it.
fn begins_or_keeps(heap: &LocalHeap, piece: &[u8]) -> Refused {
    let mut frames = Frames::new(heap, Limit::Plain);
    if frames.feed(&KEEPALIVE).is_ok() {
        feeds_or_keeps(&mut frames, piece)
    } else {
        refused_if(waits(&mut frames, 0), Refused::FirstPiece)
    }
}

/// The same on a heap of so many octets.
fn begins_or_keeps_in(alloc: Global, size: usize, piece: &[u8]) -> Refused {
    match LocalHeap::new(alloc, size) {
        Ok(heap) => begins_or_keeps(&heap, piece),
        Err(_) => Refused::Wrongly,
    }
}

/// Whether at each call a growth is refused, in heaps from 16 octets on, each larger than the one
/// before, until nothing is.
fn is_each_refused(alloc: Global) -> Option<bool> {
    let piece = longest_messages(alloc).ok()?;
    let (mut first, mut second, mut copy) = (false, false, false);
    for step in 1usize..200 {
        match begins_or_keeps_in(alloc, 16 * step * step, &piece) {
            Refused::FirstPiece => first = true,
            Refused::SecondPiece => second = true,
            Refused::Copy => copy = true,
            Refused::Nothing => return Some(first && second && copy),
            Refused::Wrongly => return None,
        }
    }
    None
}

#[test]
fn a_refused_growth_leaves_what_was_held(rt: HostRuntime) {
    assert!(rt; is_each_refused(rt.alloc()) == Some(true));
}

/// Whether a splitter on a heap takes memory for a piece alone.
fn takes_no_more(heap: &LocalHeap) -> Option<bool> {
    let before = heap.used();
    let mut frames = Frames::new(heap, Limit::Plain);
    let made = heap.used();
    frames.feed(&KEEPALIVE).ok()?;
    let fed = heap.used();
    let is_whole = begins_with_keepalive(&mut frames, 0) && waits(&mut frames, 0);
    Some(made == before && is_whole && heap.used() == fed)
}

/// Whether a splitter gives a message that it is fed.
fn gives_announcement(frames: &mut Frames<&LocalHeap>) -> bool {
    frames.feed(&ANNOUNCES_10).is_ok() && gives(frames, MessageType::Update, &ANNOUNCES_10)
}

/// Whether what a splitter on a heap holds does not grow with the stream.
fn gives_announcements(heap: &LocalHeap) -> bool {
    let mut frames = Frames::new(heap, Limit::Plain);
    let mut are_given = true;
    for _ in 0..20_000 {
        are_given = are_given && gives_announcement(&mut frames);
    }
    are_given
}

#[test]
fn a_splitter_takes_no_memory_but_for_a_piece(rt: HostRuntime) -> Result<(), Fail> {
    let heap = LocalHeap::new(rt.alloc(), 1 << 17)?;
    assert!(rt; takes_no_more(&heap) == Some(true) && gives_announcements(&heap));
    Ok(())
}
