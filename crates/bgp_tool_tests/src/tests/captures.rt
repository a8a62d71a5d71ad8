//! What decoding a capture asks of its devices, and refused memory. Its lines are compared by the
//! program `real_captures`.

use super::*;
use bgp_json::OutputForm;
use bgp_lines::LineForm;
use bgp_prefix::{Address, RouteRefresh, Session};
use bgp_tool::SessionOptions;
use mrt::Reader;

/// The lines in numbers of a session between 192.0.2.2 and 192.0.2.1.
const OPTIONS: SessionOptions = SessionOptions {
    session: Session {
        peer: Address::V4(0xc000_0202),
        local: Address::V4(0xc000_0201),
        refresh: RouteRefresh::NotOffered,
        extended: false,
    },
    form: OutputForm::Text(LineForm::Plain),
};

/// A change from Idle to Connect at second 100.
pub(super) const CHANGE: [u8; 36] = [
    0x00, 0x00, 0x00, 0x64, // timestamp: 100
    0x00, 0x10, 0x00, 0x05, // BGP4MP, BGP4MP_STATE_CHANGE_AS4
    0x00, 0x00, 0x00, 0x18, // length: 24
    0x00, 0x00, 0xfd, 0xea, // peer AS number: 65002
    0x00, 0x00, 0xfd, 0xe9, // local AS number: 65001
    0x00, 0x00, 0x00, 0x01, // interface index 0, AFI 1
    0xc0, 0x00, 0x02, 0x02, // peer address: 192.0.2.2
    0xc0, 0x00, 0x02, 0x01, // local address: 192.0.2.1
    0x00, 0x01, 0x00, 0x02, // from state 1 to state 2
];

/// What decoding a capture with this memory writes and answers, whether the reader has answered a
/// record then, and how many octets the source had given, which fails at this call.
fn decoded<A: Allocator + Copy>(
    memory: A,
    alloc: Global,
    capture: Vec<u8>,
    (read, write): (u64, u64),
) -> ((Vec<u8>, u8), (bool, usize)) {
    let mut source = MemSource::new(capture).upset_at(read, SourceUpset::Fail);
    let mut sink = MemSink::new(alloc).upset_at(write, SinkUpset::Fail);
    let mut reader = Reader::new(memory);
    let status = decode_capture(memory, &mut reader, &OPTIONS, &mut source, &mut sink);
    (
        (sink.into_octets(), status),
        (reader.has_answered(), source.given()),
    )
}

/// The number of no call.
const NEVER: u64 = u64::MAX;

/// Whether the failure of a source is told, and the reader has answered.
fn is_source_told(alloc: Global) -> Result<bool, AllocError> {
    let capture = copies_of(alloc, &CHANGE, 2)?;
    let ((text, status), (has_answered, _)) = decoded(alloc, alloc, capture, (2, NEVER));
    let known = b"@100 change 1 2\ncapture refused: 9 Device at 36\n";
    Ok(same(&text, status, known, 5) && has_answered)
}

/// Whether the failure of a sink is told, and not all was read.
fn is_sink_told(alloc: Global) -> Result<bool, AllocError> {
    let capture = copies_of(alloc, &CHANGE, 5000)?;
    let ((text, status), (_, given)) = decoded(alloc, alloc, capture, (NEVER, 0));
    Ok(same(&text, status, b"", 5) && given < 5000 * CHANGE.len())
}

#[test]
fn a_failing_device_ends_the_reading(rt: HostRuntime) {
    assert!(rt; is_source_told(rt.alloc()) == Ok(true) && is_sink_told(rt.alloc()) == Ok(true));
}

/// Sizes of heaps, and the status and the text of a change that is decoded with one.
static SIZES: [(usize, u8, &str); 3] = [
    (64, 4, "capture refused: 10 Memory at 0\n"),
    (65536, 4, "capture refused: 10 Memory at 0\n"),
    (1 << 17, 0, "@100 change 1 2\n"),
];

/// Whether a change is decoded so with a heap of this size.
fn is_told_on(alloc: Global, (size, status, text): &(usize, u8, &str)) -> Result<bool, AllocError> {
    let heap = LocalHeap::new(alloc, *size)?;
    let capture = copies_of(alloc, &CHANGE, 1)?;
    let ((written, answer), _) = decoded(&heap, alloc, capture, (NEVER, NEVER));
    Ok(same(&written, answer, text.as_bytes(), *status))
}

#[test]
fn refused_memory_is_told_and_ample_memory_is_not(rt: HostRuntime) {
    for row in &SIZES {
        assert!(rt; is_told_on(rt.alloc(), row) == Ok(true));
    }
}
