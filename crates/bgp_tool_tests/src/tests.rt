//! What refused memory leaves, and what calls of a source or a sink do that no file and no pipe
//! makes. (Lines, verdicts, devices that fail and what is told then are compared by the program
//! `real_captures`.)

mod captures;
mod fronts;
mod great;
mod json;
mod judging;
mod opened;
mod words;

use bgp_json::OutputForm;
use bgp_lines::LineForm;
use bgp_tool::*;
use bgp_wire::Limit;
use bgp_wire::vectors::{
    ADMINISTRATIVE_SHUTDOWN, ANNOUNCES_10, KEEPALIVE, KEEPALIVE_OF_18, OPEN_B,
};
use linked_list_allocator::LocalHeap;
use mrt::{MemSink, MemSource, SinkUpset, SourceUpset};
use std::alloc::{AllocError, Allocator, Global};
use std::num::NonZeroUsize;

/// The front of a message: part of its marker.
const FIVE_OCTETS: [u8; 5] = [255; 5];

/// Streams of messages of 4096 octets at the most, without words.
static PLAIN: StreamOptions = StreamOptions {
    limit: Limit::Plain,
    form: OutputForm::Text(LineForm::Plain),
};

/// A session's opening and end, and the front of a message that never came whole.
static SESSION: [&[u8]; 4] = [&OPEN_B, &ADMINISTRATIVE_SHUTDOWN, &KEEPALIVE, &FIVE_OCTETS];

/// The text of [`SESSION`].
const SESSION_TEXT: &str = "\
open as 65002 hold 90 id 192.0.2.2 caps 1:00010001 1:00020001 65:0000fdea
notification 6/2 -
keepalive
rest 5
";

/// Whether that was written and answered.
fn same(written: &[u8], answer: u8, text: &[u8], status: u8) -> bool {
    written == text && answer == status
}

/// Messages as a stream, one after another.
fn joined(alloc: Global, messages: &[&[u8]]) -> Result<Vec<u8>, AllocError> {
    let mut octets = Vec::new(alloc);
    for message in messages {
        octets.extend_from_slice(message)?;
    }
    Ok(octets)
}

/// What decoding octets with this memory writes and answers, where a read gives at most so many.
fn decoded<A: Allocator + Copy>(
    memory: A,
    alloc: Global,
    octets: Vec<u8>,
    most: NonZeroUsize,
) -> (Vec<u8>, u8) {
    let mut source = MemSource::new(octets).in_pieces_of(most);
    let mut sink = MemSink::new(alloc);
    let answer = decode_raw(PLAIN, memory, &mut source, &mut sink);
    (sink.into_octets(), answer)
}

/// Whether decoding [`SESSION`] writes its text where one read and one write are short.
fn is_told_in_short_calls(alloc: Global) -> bool {
    let Ok(octets) = joined(alloc, &SESSION) else {
        return false;
    };
    let mut source = MemSource::new(octets).upset_at(0, SourceUpset::Short(NonZeroUsize::MIN));
    let mut sink = MemSink::new(alloc).upset_at(1, SinkUpset::Short(NonZeroUsize::MIN));
    let answer = decode_raw(PLAIN, alloc, &mut source, &mut sink);
    same(sink.octets(), answer, SESSION_TEXT.as_bytes(), 2)
}

#[test]
fn a_short_call_changes_nothing(rt: HostRuntime) {
    assert!(rt; is_told_in_short_calls(rt.alloc()));
}

/// Short messages, and then a longer one, for which the splitter's room may have to grow.
static SHUTDOWN_BEFORE_OPEN: [&[u8]; 4] = [
    &KEEPALIVE,
    &ADMINISTRATIVE_SHUTDOWN,
    &OPEN_B,
    &FIVE_OCTETS,
];

/// The text of [`SHUTDOWN_BEFORE_OPEN`].
const SHUTDOWN_BEFORE_OPEN_TEXT: &str = "\
keepalive
notification 6/2 -
open as 65002 hold 90 id 192.0.2.2 caps 1:00010001 1:00020001 65:0000fdea
rest 5
";

/// What decoding these messages on a heap of this size writes and answers.
fn decoded_on(
    alloc: Global,
    size: usize,
    messages: &[&[u8]],
    most: NonZeroUsize,
) -> Result<(Vec<u8>, u8), AllocError> {
    let octets = joined(alloc, messages)?;
    let heap = LocalHeap::new(alloc, size)?;
    Ok(decoded(&heap, alloc, octets, most))
}

/// What came of [`SHUTDOWN_BEFORE_OPEN`] on a heap of this size: its text, or memory was refused
/// behind a beginning of it that is so long. It is `None` where something else was written.
fn told_on(alloc: Global, size: usize) -> Option<Result<(), usize>> {
    let (written, answer) = decoded_on(alloc, size, &SHUTDOWN_BEFORE_OPEN, NonZeroUsize::MIN).ok()?;
    let text = SHUTDOWN_BEFORE_OPEN_TEXT.as_bytes();
    if answer == 4 {
        return text.starts_with(&written).then_some(Err(written.len()));
    }
    same(&written, answer, text, 2).then_some(Ok(()))
}

/// Whether memory is refused, at last behind some octets, until a heap is large enough.
fn is_told_on_some(alloc: Global) -> bool {
    let mut longest = 0;
    for size in (16usize..1 << 16).step_by(16) {
        match told_on(alloc, size) {
            Some(Ok(())) => return 0 < longest,
            Some(Err(length)) => longest = length.max(longest),
            None => return false,
        }
    }
    false
}

#[test]
fn a_refused_growth_leaves_a_beginning_of_the_text(rt: HostRuntime) {
    assert!(rt; is_told_on_some(rt.alloc()));
}

/// The status of a message in memory, where there is room for it.
fn status_on(heap: &LocalHeap, message: &[u8]) -> Option<u8> {
    let stream = Vec::from_slice(heap, message).ok()?;
    let (_, answer) = text_and_status(PLAIN, heap, stream);
    Some(answer)
}

/// The same of a KEEPALIVE, with a heap of this size.
fn status_with(alloc: Global, size: usize) -> Option<u8> {
    let heap = LocalHeap::new(alloc, size).ok()?;
    status_on(&heap, &KEEPALIVE)
}

/// Whether the statuses of a KEEPALIVE, with larger and larger heaps, are these.
fn are_statuses(alloc: Global, statuses: &[u8]) -> bool {
    let (mut count, mut last) = (0usize, None);
    for size in (16usize..1 << 13).step_by(16) {
        let answer = status_with(alloc, size);
        if answer.is_some() && answer != last {
            if statuses.get(count) != answer.as_ref() {
                return false;
            }
            count = count.saturating_add(1);
            last = answer;
        }
    }
    count == statuses.len()
}

/// Memory is refused to the splitter first, and where that has enough to the text.
#[test]
fn refused_memory_has_the_status_of_what_wanted_it(rt: HostRuntime) {
    assert!(rt; are_statuses(rt.alloc(), &[4, 5, 0]));
}

/// So many copies of a message.
fn copies_of(alloc: Global, message: &[u8], count: usize) -> Result<Vec<u8>, AllocError> {
    let mut octets = Vec::new(alloc);
    for _ in 0..count {
        octets.extend_from_slice(message)?;
    }
    Ok(octets)
}

/// How much text a stream of 10,000 UPDATEs has on a heap, if its status is 0.
fn length_on(alloc: Global, size: usize) -> Result<Option<usize>, AllocError> {
    let octets = copies_of(alloc, &ANNOUNCES_10, 10_000)?;
    let heap = LocalHeap::new(alloc, size)?;
    let (written, answer) = decoded(&heap, alloc, octets, NonZeroUsize::MAX);
    Ok((answer == 0).then_some(written.len()))
}

/// The line of [`ANNOUNCES_10`].
const ANNOUNCES_10_LINE: &str = "\
update - | 64.1:00 64.2:02010000fdea 64.3:c0000202 | 10.0.0.0/8
";

#[test]
fn memory_does_not_grow_with_the_stream(rt: HostRuntime) {
    let length = 10_000 * ANNOUNCES_10_LINE.len();
    assert!(rt; length_on(rt.alloc(), 1 << 19) == Ok(Some(length)));
}
