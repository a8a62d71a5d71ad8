//! What a reader answers call by call, and with memory refused. What each record shows, each rule,
//! and each read that fails, is compared by the program `real_captures`.

use super::*;
use bgp_prefix::{Address, RouteRefresh, Session};
use bgp_wire::vectors::KEEPALIVE;

/// The session of 192.0.2.1 with 192.0.2.2, which may have route refresh.
pub(crate) static SESSION: Session = Session {
    peer: Address::V4(0xc000_0202),
    local: Address::V4(0xc000_0201),
    refresh: RouteRefresh::Refused,
    extended: false,
};

/// A change from Idle to Connect at second 100.
pub(crate) static CHANGE: [u8; 36] = [
    0x00, 0x00, 0x00, 0x64, // Timestamp
    0x00, 0x10, 0x00, 0x05, // BGP4MP, STATE_CHANGE_AS4
    0x00, 0x00, 0x00, 0x18, // Length
    0x00, 0x00, 0xfd, 0xea, 0x00, 0x00, 0xfd, 0xe9, // AS numbers
    0x00, 0x00, 0x00, 0x01, // interface index, AFI
    0xc0, 0x00, 0x02, 0x02, 0xc0, 0x00, 0x02, 0x01, // peer and local address
    0x00, 0x01, 0x00, 0x02, // states
];

/// A KEEPALIVE that was received at second 101.
pub(crate) static RECEIVED: [u8; 51] = [
    0x00, 0x00, 0x00, 0x65, 0x00, 0x10, 0x00, 0x04, 0x00, 0x00, 0x00, 0x27, // header
    0x00, 0x00, 0xfd, 0xea, 0x00, 0x00, 0xfd, 0xe9, 0x00, 0x00, 0x00, 0x01, // numbers
    0xc0, 0x00, 0x02, 0x02, 0xc0, 0x00, 0x02, 0x01, // addresses
    0xff, 0xff, 0xff, 0xff, 0xff, 0xff, 0xff, 0xff, // marker
    0xff, 0xff, 0xff, 0xff, 0xff, 0xff, 0xff, 0xff, // marker
    0x00, 0x13, 0x04, // Length and type of the message
];

/// What a reader answers.
pub(crate) type Next<'a> = Result<Option<Record<'a>>, CaptureFault>;

/// The record of [`RECEIVED`].
pub(crate) static KEPT_ALIVE: Record<'static> = Record::In(101, &KEEPALIVE);

/// The record of [`CHANGE`].
pub(crate) static CHANGED: Next<'static> = Ok(Some(Record::Change(100, 1, 2)));

/// Whether that is the next answer, of a reader and a source that belong together.
pub(crate) fn is_next<A: Allocator + Copy>(
    reader: &mut Reader<A>,
    source: &mut MemSource,
    session: &Session,
    wanted: &Next<'_>,
) -> bool {
    source.failures() < u64::MAX
        && reader.passed() <= source.given() as u64
        && reader.next_record(source, session) == *wanted
}

/// Whether that is the next answer, of the record at this octet, and so many octets were taken.
fn is_next_at(
    reader: &mut Reader,
    source: &mut MemSource,
    wanted: &Next<'_>,
    place: u64,
    given: usize,
) -> bool {
    is_next(reader, source, &SESSION, wanted) && reader.place() == place && source.given() == given
}

/// Whether no octet is taken beyond the record that is answered.
fn are_taken_by_record(reader: &mut Reader, source: &mut MemSource) -> bool {
    reader.place() == 0
        && is_next_at(reader, source, &CHANGED, 0, 36)
        && is_next_at(reader, source, &Ok(Some(KEPT_ALIVE)), 36, 87)
        && is_next_at(reader, source, &Ok(None), 87, 87)
        && reader.has_answered()
        && reader.first_other().is_none()
}

/// Whether a reader of [`CHANGE`] and [`RECEIVED`] takes no octet after the record that it answers.
fn are_read_one_by_one(alloc: Global) -> bool {
    match joined(alloc, &[&CHANGE, &RECEIVED]) {
        Some(capture) => are_taken_by_record(&mut Reader::new(alloc), &mut MemSource::new(capture)),
        None => false,
    }
}

/// Whether a reader of another session tells the addresses of the first record that it skips.
fn keeps_the_first_other(reader: &mut Reader, source: &mut MemSource) -> bool {
    let exchanged = Session {
        peer: SESSION.local,
        local: SESSION.peer,
        refresh: RouteRefresh::NotOffered,
        extended: false,
    };
    let ends = Endpoints {
        peer: SESSION.peer,
        local: SESSION.local,
    };
    is_next(reader, source, &exchanged, &Ok(None))
        && !reader.has_answered()
        && reader.first_other() == Some(ends)
}

/// Whether it does, of a capture of [`CHANGE`] and [`RECEIVED`].
fn is_the_first_other_kept(alloc: Global) -> bool {
    match joined(alloc, &[&CHANGE, &RECEIVED]) {
        Some(capture) => keeps_the_first_other(
            &mut Reader::new(alloc),
            &mut MemSource::new(capture),
        ),
        None => false,
    }
}

/// The record of [`CHANGE`], of the peer 192.0.2.N.
fn change_of(peer: u8) -> [u8; 36] {
    let mut change = CHANGE;
    change[27] = peer;
    change
}

/// The records of these peers; `None` where memory is refused.
fn changes_of(alloc: Global, peers: &[u8]) -> Option<Vec<u8>> {
    let mut capture = Vec::new(alloc);
    for peer in peers {
        capture.extend_from_slice(&change_of(*peer)).ok()?;
    }
    Some(capture)
}

/// The addresses of this peer's record.
fn ends_of(peer: Option<&u8>) -> Option<Endpoints> {
    match peer {
        Some(peer) => Some(Endpoints {
            peer: Address::V4(0xc000_0200 + u32::from(*peer)),
            local: SESSION.local,
        }),
        None => None,
    }
}

/// Whether just these peers' addresses are in the first places.
fn are_kept(others: &[Option<Endpoints>], kept: &[u8]) -> bool {
    for (index, other) in others.iter().enumerate() {
        if *other != ends_of(kept.get(index)) {
            return false;
        }
    }
    true
}

/// Whether a reader of [`SESSION`] that has skipped the records of a capture, all of other peers,
/// has kept these first ones, each once, in their order.
fn keeps(reader: &mut Reader, source: &mut MemSource, kept: &[u8]) -> bool {
    is_next(reader, source, &SESSION, &Ok(None)) && are_kept(&reader.others(), kept)
}

/// Whether a reader does, of the records of these peers.
fn keeps_others(alloc: Global, peers: &[u8], kept: &[u8]) -> bool {
    match changes_of(alloc, peers) {
        Some(capture) => keeps(&mut Reader::new(alloc), &mut MemSource::new(capture), kept),
        None => false,
    }
}

/// The first nine different pairs are kept.
#[test]
fn the_first_nine_others_are_kept(rt: HostRuntime) {
    let few = keeps_others(rt.alloc(), &[9, 7, 9, 8, 7], &[9, 7, 8]);
    let many = keeps_others(
        rt.alloc(),
        &[11, 12, 13, 14, 15, 16, 17, 18, 11, 19, 20, 18, 21],
        &[11, 12, 13, 14, 15, 16, 17, 18, 19],
    );
    assert!(rt; few && many && keeps_others(rt.alloc(), &[], &[]));
}

/// And the addresses of the first record that is skipped are kept.
#[test]
fn no_octet_beyond_the_record_is_taken(rt: HostRuntime) {
    assert!(rt; are_read_one_by_one(rt.alloc()) && is_the_first_other_kept(rt.alloc()));
}

/// Whether so many reads are each answered so, and have taken so many octets.
fn are_answered(
    heap: &LocalHeap,
    source: &mut MemSource,
    reads: usize,
    wanted: &Next<'_>,
    given: usize,
) -> bool {
    let mut reader = Reader::new(heap);
    for _ in 0..reads {
        let is_answered = is_next(&mut reader, source, &SESSION, wanted);
        if !is_answered || source.given() != given {
            return false;
        }
    }
    true
}

/// The same of reads of [`CHANGE`] with a heap of this size.
fn are_answered_with(
    alloc: Global,
    size: usize,
    reads: usize,
    wanted: &Next<'_>,
    given: usize,
) -> bool {
    let Ok(capture) = CHANGE.to_vec(alloc) else {
        return false;
    };
    match LocalHeap::new(alloc, size) {
        Ok(heap) => are_answered(&heap, &mut MemSource::new(capture), reads, wanted, given),
        Err(_) => false,
    }
}

/// A refused buffer is told for good. And [`CHANGE`] is read with ample memory.
#[test]
fn a_buffer_that_is_refused_is_told_for_good(rt: HostRuntime) {
    let refused = Err(CaptureFault {
        kind: FaultKind::Memory,
        offset: 0,
    });
    for size in &[64, 8192, 65536] {
        assert!(rt;
            are_answered_with(rt.alloc(), *size, 3, &refused, 0),
            "{size}"
        );
    }
    assert!(rt; are_answered_with(rt.alloc(), 1 << 17, 1, &CHANGED, 36));
}

/// Whether that is the text of a fault.
fn is_text(alloc: Global, fault: &CaptureFault, wanted: &str) -> bool {
    match format!(in alloc; "{fault}") {
        Ok(text) => text.as_str() == wanted,
        Err(_) => false,
    }
}

#[test]
fn faults_have_numbers_and_names(rt: HostRuntime) {
    let fault = CaptureFault {
        kind: FaultKind::TimeBack,
        offset: 36,
    };
    let wanted = "the time of a record is before that of the record before (at octet 36)";
    let is_named = fault.kind.number() == 6 && fault.kind.name() == "TimeBack";
    assert!(rt; is_named && is_text(rt.alloc(), &fault, wanted));
}
