//! Files made by hand: what their packets tell, reads that fail, and refused memory. Each fault of
//! a file, and files that are cut short, are cases of the program `real_recordings`.

mod fractions;
mod memory;
mod pcap;
mod pcapng;

use linked_list_allocator::LocalHeap;
use mrt::{MemSource, Source, SourceUpset};
use packets::*;
use pcap::*;
use pcapng::*;
use std::alloc::{AllocError, Allocator, Global};
use std::num::NonZeroUsize;

/// A file in pieces, the microseconds of each packet that it tells, and the fault that comes after
/// them, or the end.
type Row = (
    &'static [&'static [u8]],
    &'static [Option<u32>],
    Option<FaultKind>,
);

/// The microseconds of a packet of pcap and of one of pcapng.
const LAST: Option<u32> = Some(999_999);

const AT_911: Option<u32> = Some(998_911);

/// The octets of each packet.
const OCTETS: [u8; 3] = *b"abc";

/// The packet of this number with these microseconds: the rest of each is the same.
fn packet(number: u64, micro: Option<u32>) -> Packet<'static> {
    Packet {
        number,
        second: 100,
        micro,
        link_type: 101,
        octets: &OCTETS,
        wire_count: 5,
    }
}

/// The octets of these pieces.
fn joined(alloc: Global, pieces: &[&[u8]]) -> Result<Vec<u8>, AllocError> {
    let mut octets = Vec::new(alloc);
    for piece in pieces {
        octets.extend_from_slice(piece)?;
    }
    Ok(octets)
}

/// What a reader answers.
type Next<'a> = Result<Option<Packet<'a>>, FileFault>;

/// Whether that is the next answer.
fn is_next<A: Allocator + Copy>(
    reader: &mut Reader<A>,
    source: &mut MemSource,
    wanted: &Next<'_>,
) -> bool {
    source.failures() < u64::MAX
        && reader.number() <= source.given() as u64
        && reader.next_packet(source) == *wanted
}

/// The end, or a fault after these packets.
fn last_answer(micros: &[Option<u32>], fault: Option<FaultKind>) -> Next<'static> {
    match fault {
        Some(kind) => Err(FileFault {
            kind,
            packet: micros.len() as u64 + 1,
        }),
        None => Ok(None),
    }
}

/// Whether a file is told to be over by this answer, three times, with no more octets taken.
fn is_last<A: Allocator + Copy>(
    reader: &mut Reader<A>,
    source: &mut MemSource,
    last: &Next<'_>,
) -> bool {
    if !is_next(reader, source, last) {
        return false;
    }
    let (given, failures) = (source.given(), source.failures());
    is_next(reader, source, last)
        && is_next(reader, source, last)
        && source.given() == given
        && source.failures() == failures
        && !reader.is_cut_short()
}

/// Whether packets with these microseconds are read, and then this fault or the end.
fn are_next<A: Allocator + Copy>(
    reader: &mut Reader<A>,
    source: &mut MemSource,
    micros: &[Option<u32>],
    fault: Option<FaultKind>,
) -> bool {
    for (before, micro) in micros.iter().enumerate() {
        let wanted = packet(before as u64 + 1, *micro);
        if !is_next(reader, source, &Ok(Some(wanted))) {
            return false;
        }
    }
    is_last(reader, source, &last_answer(micros, fault))
}

/// Files whose packets are told, one of which ends with a fault.
static ROWS: [Row; 15] = [
    (&[&LITTLE, &PCAP_PACKET, &PCAP_PACKET], &[LAST, LAST], None),
    (
        &[&BIG, &BIG_PCAP_PACKET, &BIG_PCAP_PACKET],
        &[LAST, LAST],
        None,
    ),
    (&[&LITTLE_NANOSECONDS, &PCAP_PACKET], &[Some(999)], None),
    (&[&BIG_NANOSECONDS, &BIG_PCAP_PACKET], &[Some(999)], None),
    (&[&MARKED_LINK, &BIG_PCAP_PACKET], &[LAST], None),
    (
        &[&SECTION, &INTERFACE, &PACKET, &PACKET],
        &[AT_911, AT_911],
        None,
    ),
    (
        &[&BIG_SECTION, &BIG_INTERFACE, &BIG_PACKET],
        &[AT_911],
        None,
    ),
    (&[&SECTION, &SECONDS, &TENTH], &[Some(0)], None),
    (&[&SECTION, &HALVES, &AT_201], &[Some(500_000)], None),
    (&[&SECTION, &EARLIER, &AT_201], &[Some(0)], None),
    (&[&SECTION, &FINE, &AT_201], &[Some(0)], None),
    (
        &[&SECTION, &INTERFACE, &SECONDS, &PACKET, &SECOND_INTERFACE],
        &[AT_911, Some(0)],
        None,
    ),
    (
        &[
            &SECTION, &OTHER, &OTHER_16, &INTERFACE, &OTHER_20, &PACKET, &OTHER,
        ],
        &[AT_911],
        None,
    ),
    (
        &[
            &SECTION,
            &INTERFACE,
            &PACKET,
            &BIG_SECTION,
            &BIG_INTERFACE,
            &BIG_PACKET,
        ],
        &[AT_911, AT_911],
        None,
    ),
    (
        &[&SECTION, &INTERFACE, &PACKET, &SIMPLE],
        &[AT_911],
        Some(FaultKind::Block),
    ),
];

/// Whether a file is read so, in one piece and octet by octet.
fn is_read(alloc: Global, (pieces, micros, fault): &Row) -> bool {
    let (Ok(whole), Ok(again)) = (joined(alloc, pieces), joined(alloc, pieces)) else {
        return false;
    };
    let mut source = MemSource::new(whole);
    let mut slow = MemSource::new(again).in_pieces_of(NonZeroUsize::MIN);
    are_next(&mut Reader::new(alloc), &mut source, micros, *fault)
        && are_next(&mut Reader::new(alloc), &mut slow, micros, *fault)
}

#[test]
fn each_file_tells_its_packets(rt: HostRuntime) {
    for (count, row) in ROWS.iter().enumerate() {
        assert!(rt; is_read(rt.alloc(), row), "{count}");
    }
}

/// A file in pieces, reads of one octet from this one up to that one, and the microseconds of each
/// packet that is read where one of them fails.
type FailingRow = (&'static [&'static [u8]], u64, u64, &'static [Option<u32>]);

/// Each read fails once: those of the headers, the blocks and the packets, and the last, which
/// tells the end.
static FAILING_ROWS: [FailingRow; 5] = [
    (&[&LITTLE, &PCAP_PACKET, &PCAP_PACKET], 0, 43, &[]),
    (&[&LITTLE, &PCAP_PACKET, &PCAP_PACKET], 43, 62, &[LAST]),
    (
        &[&LITTLE, &PCAP_PACKET, &PCAP_PACKET],
        62,
        63,
        &[LAST, LAST],
    ),
    (&[&SECTION, &INTERFACE, &PACKET], 0, 92, &[]),
    (&[&SECTION, &INTERFACE, &PACKET], 92, 93, &[AT_911]),
];

/// Whether a file is read so where the read of this number fails.
fn fails_at(alloc: Global, pieces: &[&[u8]], call: u64, micros: &[Option<u32>]) -> bool {
    let Ok(octets) = joined(alloc, pieces) else {
        return false;
    };
    let mut source = MemSource::new(octets)
        .in_pieces_of(NonZeroUsize::MIN)
        .upset_at(call, SourceUpset::Fail);
    let fault = Some(FaultKind::Device);
    are_next(&mut Reader::new(alloc), &mut source, micros, fault)
}

/// Whether it is, of each of these reads.
fn fails_at_each(alloc: Global, (pieces, from, to, micros): &FailingRow) -> bool {
    for call in *from..*to {
        if !fails_at(alloc, pieces, call, micros) {
            return false;
        }
    }
    true
}

#[test]
fn each_read_that_fails_is_told(rt: HostRuntime) {
    for (count, row) in FAILING_ROWS.iter().enumerate() {
        assert!(rt; fails_at_each(rt.alloc(), row), "{count}");
    }
}
