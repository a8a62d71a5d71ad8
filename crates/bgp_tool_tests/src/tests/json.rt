//! What memory that is refused for a line in JSON leaves. The lines are compared by the program
//! `real_captures`.

use super::captures::CHANGE;
use super::*;
use bgp_json::OutputForm;
use bgp_prefix::{Address, RouteRefresh, Session};
use mrt::Reader;

/// Streams of messages of 4096 octets at the most, in JSON.
static JSON: StreamOptions = StreamOptions {
    limit: Limit::Plain,
    form: OutputForm::Json { as2: false },
};

/// The text of [`SHUTDOWN_BEFORE_OPEN`] in JSON.
const SHUTDOWN_BEFORE_OPEN_JSON: &str = "\
{\"type\":\"keepalive\",\"at\":0}
{\"type\":\"notification\",\"at\":19,\"code\":6,\"subcode\":2,\
\"name\":\"Cease, Administrative Shutdown\",\"data\":\"\"}
{\"type\":\"open\",\"at\":40,\"as\":65002,\"hold\":90,\"id\":\"192.0.2.2\",\"capabilities\":[\
{\"code\":1,\"name\":\"Multiprotocol\",\"value\":{\"afi\":1,\"safi\":1}},\
{\"code\":1,\"name\":\"Multiprotocol\",\"value\":{\"afi\":2,\"safi\":1}},\
{\"code\":65,\"name\":\"Four-octet AS\",\"value\":65002}]}
{\"type\":\"rest\",\"at\":89,\"count\":5,\"octets\":\"ffffffffff\"}
";

/// What came of [`SHUTDOWN_BEFORE_OPEN`], given in one read, on a heap of this size: its text, or
/// memory was refused behind some whole lines of it, which are so long. It is `None` where
/// something else was written.
fn told_on(alloc: Global, size: usize) -> Option<Result<(), usize>> {
    let octets = joined(alloc, &SHUTDOWN_BEFORE_OPEN).ok()?;
    let heap = LocalHeap::new(alloc, size).ok()?;
    let mut source = MemSource::new(octets);
    let mut sink = MemSink::new(alloc);
    let answer = decode_raw(JSON, &heap, &mut source, &mut sink);
    let (written, text) = (sink.octets(), SHUTDOWN_BEFORE_OPEN_JSON.as_bytes());
    if answer == 4 {
        let are_lines = written.is_empty() || written.ends_with(b"\n");
        return (text.starts_with(written) && are_lines).then_some(Err(written.len()));
    }
    same(written, answer, text, 2).then_some(Ok(()))
}

/// Whether memory is refused, at last behind some lines, until a heap is large enough.
fn is_told_on_some(alloc: Global) -> bool {
    let mut longest = 0;
    for size in (16usize..1 << 16).step_by(16) {
        match told_on(alloc, size) {
            Some(Ok(())) => return 0 < longest,
            Some(Err(length)) => longest = length.max(longest),
            None => return false,
        }
    }
    false
}

#[test]
fn a_refused_line_leaves_those_before_it(rt: HostRuntime) {
    assert!(rt; is_told_on_some(rt.alloc()));
}

/// The records of a session between 192.0.2.2 and 192.0.2.1, in JSON.
const OPTIONS: SessionOptions = SessionOptions {
    session: Session {
        peer: Address::V4(0xc000_0202),
        local: Address::V4(0xc000_0201),
        refresh: RouteRefresh::NotOffered,
        extended: false,
    },
    form: OutputForm::Json { as2: false },
};

/// What a change is decoded as with more and more memory: it is refused to the reader and to the
/// line that says so, then to the reader alone, then to the line of the change, and then it
/// suffices.
static TEXTS: [(u8, &str); 4] = [
    (4, ""),
    (
        4,
        "{\"type\":\"refused\",\"what\":\"capture\",\"number\":10,\"name\":\"Memory\",\"at\":0}\n",
    ),
    (4, ""),
    (
        0,
        "{\"type\":\"change\",\"record\":1,\"second\":100,\"old\":\"Idle\",\"new\":\"Connect\"}\n",
    ),
];

/// Whether a change, decoded with a heap of this size, has this status and this text.
fn is_text(alloc: Global, size: usize, (status, text): &(u8, &str)) -> Result<bool, AllocError> {
    let heap = LocalHeap::new(alloc, size)?;
    let mut source = MemSource::new(copies_of(alloc, &CHANGE, 1)?);
    let mut sink = MemSink::new(alloc);
    let mut reader = Reader::new(&heap);
    let answer = decode_capture(&heap, &mut reader, &OPTIONS, &mut source, &mut sink);
    Ok(same(sink.octets(), answer, text.as_bytes(), *status))
}

/// Sizes of heaps, larger and larger: some about the room of 1024 octets that a line begins with, and
/// some about the reader's buffer, which has room for 65535 octets and more, alone and beside a line.
fn size_at(step: usize) -> usize {
    let size = step.saturating_mul(16);
    if step < 80 {
        size
    } else {
        size.saturating_add((1 << 16) - 1280)
    }
}

/// Whether larger and larger heaps lead from each text to the next.
fn are_texts(alloc: Global) -> Result<bool, AllocError> {
    let mut count = 0usize;
    for step in 1..160 {
        let size = size_at(step);
        let (Some(row), next) = (TEXTS.get(count), TEXTS.get(count.saturating_add(1))) else {
            return Ok(false);
        };
        if is_text(alloc, size, row)? {
            continue;
        }
        let Some(next) = next else {
            return Ok(false);
        };
        if !is_text(alloc, size, next)? {
            return Ok(false);
        }
        count = count.saturating_add(1);
    }
    Ok(count == 3)
}

#[test]
fn memory_is_refused_to_a_reader_or_to_a_line(rt: HostRuntime) {
    assert!(rt; are_texts(rt.alloc()) == Ok(true));
}
