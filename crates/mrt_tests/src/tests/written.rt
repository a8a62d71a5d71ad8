//! Records that are written, octet by octet, and read again.

use super::captures::{CHANGE, KEPT_ALIVE, RECEIVED, SESSION};
use super::*;
use bgp_prefix::{Address, RouteRefresh, Session};
use bgp_wire::vectors::KEEPALIVE;

/// The first octets of a KEEPALIVE that is sent over IPv6 at second 7, up to its message.
static SENT: [u8; 56] = [
    0x00, 0x00, 0x00, 0x07, // Timestamp
    0x00, 0x10, 0x00, 0x07, // BGP4MP, MESSAGE_AS4_LOCAL
    0x00, 0x00, 0x00, 0x3f, // Length
    0x00, 0x00, 0xfd, 0xea, 0x00, 0x00, 0xfd, 0xe9, // AS numbers
    0x00, 0x00, 0x00, 0x02, // interface index, AFI
    0x20, 0x01, 0x0d, 0xb8, 0x00, 0x00, 0x00, 0x00, // address of the peer
    0x00, 0x00, 0x00, 0x00, 0x00, 0x00, 0x00, 0x02, // address of the peer
    0x20, 0x01, 0x0d, 0xb8, 0x00, 0x00, 0x00, 0x00, // local address
    0x00, 0x00, 0x00, 0x00, 0x00, 0x00, 0x00, 0x01, // local address
];

pub(crate) static OVER_IPV6: Session = Session {
    peer: Address::V6(0x2001_0db8_0000_0000_0000_0000_0000_0002),
    local: Address::V6(0x2001_0db8_0000_0000_0000_0000_0000_0001),
    refresh: RouteRefresh::NotOffered,
    extended: false,
};

/// Whether that is answered to a record that can be written.
pub(crate) fn answers<A: Allocator>(
    sink: &mut MemSink<A>,
    session: &Session,
    shown: &Record<'_>,
    wanted: Result<(), WriteFault>,
) -> bool {
    if sink.failures() == u64::MAX || !is_writable(session, shown) {
        return false;
    }
    write_record(sink, session, 65002, 65001, shown) == wanted
}

/// Whether what begins with these parts, one behind another, has nothing else.
fn is_joined(octets: &[u8], parts: &[&[u8]]) -> bool {
    let mut left = octets;
    for part in parts {
        let Some(rest) = left.strip_prefix(part) else {
            return false;
        };
        left = rest;
    }
    left.is_empty()
}

/// Whether three records are written octet by octet.
fn are_written(alloc: Global) -> bool {
    let mut sink = MemSink::new(alloc);
    let change = Record::Change(100, 1, 2);
    let sent = Record::Out(7, &KEEPALIVE);
    let wanted: [&[u8]; 4] = [&CHANGE, &RECEIVED, &SENT, &KEEPALIVE];
    answers(&mut sink, &SESSION, &change, Ok(()))
        && answers(&mut sink, &SESSION, &KEPT_ALIVE, Ok(()))
        && answers(&mut sink, &OVER_IPV6, &sent, Ok(()))
        && is_joined(sink.octets(), &wanted)
}

/// Whether a record's beginning is written, up to the octet that the sink refuses.
fn is_begun(alloc: Global, call: u64) -> bool {
    let mut sink = MemSink::new(alloc)
        .in_pieces_of(NonZeroUsize::MIN)
        .upset_at(call, SinkUpset::Fail);
    let is_refused = answers(&mut sink, &SESSION, &KEPT_ALIVE, Err(WriteFault::Device));
    let taken = sink.octets();
    is_refused && sink.failures() == 1 && taken.len() as u64 == call && RECEIVED.starts_with(taken)
}

/// And a sink that fails has a beginning.
#[test]
fn records_are_written_octet_by_octet(rt: HostRuntime) {
    assert!(rt; are_written(rt.alloc()));
    for call in 0..51 {
        assert!(rt; is_begun(rt.alloc(), call), "{call}");
    }
}

/// Whether a record is written where so many octets of the heap are left.
fn is_written_beside(heap: &LocalHeap, sink: &mut MemSink<&LocalHeap>, left: usize) -> bool {
    let ballast: Result<Vec<u8, _>, _> = Vec::with_capacity(heap, heap.free().saturating_sub(left));
    let is_written = answers(sink, &SESSION, &KEPT_ALIVE, Ok(()));
    drop(ballast);
    is_written
}

/// Whether a sink that refused a record has a beginning of it, and takes the whole one after it,
/// with memory.
fn is_taken_again(sink: &mut MemSink<&LocalHeap>) -> bool {
    let Some(begun) = RECEIVED.get(..sink.octets().len()) else {
        return false;
    };
    sink.failures() == 1
        && sink.octets() == begun
        && answers(sink, &SESSION, &KEPT_ALIVE, Ok(()))
        && is_joined(sink.octets(), &[begun, &RECEIVED])
}

/// Whether a record was refused by a sink with so many octets of its heap left: `None` where what
/// it holds then is wrong.
fn is_refused_beside(heap: &LocalHeap, left: usize) -> Option<bool> {
    let mut sink = MemSink::new(heap);
    let is_written = is_written_beside(heap, &mut sink, left);
    let is_right = if is_written {
        sink.octets() == RECEIVED.as_slice()
    } else {
        is_taken_again(&mut sink)
    };
    is_right.then_some(!is_written)
}

/// The same of a heap of its own.
fn is_refused_with(alloc: Global, left: usize) -> Option<bool> {
    let heap = LocalHeap::new(alloc, 1 << 10).ok()?;
    is_refused_beside(&heap, left)
}

/// Whether each of some is told of, one of which is refused, and the last one written.
fn is_refused_or_written(alloc: Global) -> bool {
    let (mut was_refused, mut is_written) = (false, false);
    for step in 0..16 {
        let Some(is_refused) = is_refused_with(alloc, 16 * step) else {
            return false;
        };
        was_refused = was_refused || is_refused;
        is_written = !is_refused;
    }
    was_refused && is_written
}

#[test]
fn a_refused_record_can_be_written_again(rt: HostRuntime) {
    assert!(rt; is_refused_or_written(rt.alloc()));
}
