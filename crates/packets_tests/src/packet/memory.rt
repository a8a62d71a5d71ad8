//! What a reader holds, and memory that is refused.

use super::*;

/// The first and last octets of a Section Header and of a block of another type, of some
/// 400000 octets.
const LONG_SECTION: [u8; 16] = [
    0x0a, 0x0d, 0x0d, 0x0a, 0x14, 0, 6, 0, 0x4d, 0x3c, 0x2b, 0x1a, 1, 0, 0, 0,
];

const LONG_SECTION_END: [u8; 4] = [0x14, 0, 6, 0];

const LONG_OTHER: [u8; 12] = [5, 0, 0, 0, 0x10, 0, 6, 0, 1, 2, 3, 4];

const LONG_OTHER_END: [u8; 4] = [0x10, 0, 6, 0];

/// Those of an Interface Description of 65536 octets.
const LONG_INTERFACE: [u8; 16] = [1, 0, 0, 0, 0, 0, 1, 0, 101, 0, 0, 0, 0, 0, 4, 0];

const LONG_INTERFACE_END: [u8; 4] = [0, 0, 1, 0];

/// The header of a packet of which 262144 octets were kept.
const LONG_PACKET: [u8; 16] = [100, 0, 0, 0, 0, 0, 0, 0, 0, 0, 4, 0, 0, 0, 4, 0];

/// The first and last octets of an Enhanced Packet of 327680 octets, of which 262144 are the
/// packet's.
const LONG_ENHANCED: [u8; 28] = [
    6, 0, 0, 0, 0, 0, 5, 0, 0, 0, 0, 0, // type, total length, interface
    0, 0, 0, 0, 0, 0xe1, 0xf5, 0x05, // ticks: 100000000
    0, 0, 4, 0, 0, 0, 4, 0, // kept, wire
];

const LONG_ENHANCED_END: [u8; 4] = [0, 0, 5, 0];

/// How much memory a reader takes for its buffer, as a heap counts it.
const BUFFER: usize = 327680;

/// How much it takes more for up to four interfaces, and for up to eight, while it still has the
/// room for four.
const FOUR: usize = 96;

const EIGHT: usize = 288;

/// A heap's size; the octets of a file before so many zeros, how many zeros, and the octets after
/// them; the microseconds of each packet that it tells with that much memory, and the fault that
/// comes then, or the end.
type Row = (
    usize,
    &'static [&'static [u8]],
    usize,
    &'static [&'static [u8]],
    &'static [Option<u32>],
    Option<FaultKind>,
);

/// Each growth is refused: the buffer's, and each of the list of interfaces. No block but that of a
/// packet and that of an interface is held: blocks that are longer than all that the reader holds,
/// and the longest of an interface; then an interface, if there is none, and a packet.
static ROWS: [Row; 11] = [
    (1024, &[&LITTLE, &PCAP_PACKET], 0, &[], &[], MEMORY),
    (BUFFER - 16, &[&SECTION], 0, &[], &[], MEMORY),
    (BUFFER, &[&LITTLE, &PCAP_PACKET], 0, &[], &[LAST], None),
    (BUFFER, &[&SECTION], 0, &[], &[], None),
    (
        BUFFER,
        &[&SECTION, &INTERFACE, &PACKET],
        0,
        &[],
        &[],
        MEMORY,
    ),
    (
        BUFFER + FOUR,
        &[
            &SECTION, &INTERFACE, &INTERFACE, &INTERFACE, &INTERFACE, &PACKET,
        ],
        0,
        &[&SECTION, &INTERFACE, &PACKET],
        &[AT_911, AT_911],
        None,
    ),
    (
        BUFFER + FOUR,
        &[&SECTION, &INTERFACE, &INTERFACE, &INTERFACE, &PACKET],
        0,
        &[&INTERFACE, &INTERFACE, &PACKET],
        &[AT_911],
        MEMORY,
    ),
    (
        BUFFER + EIGHT,
        &[
            &SECTION, &INTERFACE, &INTERFACE, &INTERFACE, &INTERFACE, &INTERFACE, &PACKET,
        ],
        0,
        &[],
        &[AT_911],
        None,
    ),
    (
        BUFFER + FOUR,
        &[&LONG_SECTION],
        393216,
        &[&LONG_SECTION_END, &INTERFACE, &PACKET],
        &[AT_911],
        None,
    ),
    (
        BUFFER + FOUR,
        &[&SECTION, &LONG_OTHER],
        393216,
        &[&LONG_OTHER_END, &INTERFACE, &PACKET],
        &[AT_911],
        None,
    ),
    (
        BUFFER + FOUR,
        &[&SECTION, &LONG_INTERFACE],
        65516,
        &[&LONG_INTERFACE_END, &PACKET],
        &[AT_911],
        None,
    ),
];

const MEMORY: Option<FaultKind> = Some(FaultKind::Memory);

/// A source of a file with so many zeros between these pieces.
fn source_of(
    alloc: Global,
    front: &[&[u8]],
    zeros: usize,
    back: &[&[u8]],
) -> Result<MemSource, AllocError> {
    let mut octets = joined(alloc, front)?;
    let len = octets.len();
    octets.resize(len.saturating_add(zeros), 0)?;
    for piece in back {
        octets.extend_from_slice(piece)?;
    }
    Ok(MemSource::new(octets))
}

/// Whether a file is read so with that much memory.
fn is_read_with(alloc: Global, (size, front, zeros, back, micros, fault): &Row) -> bool {
    match (
        LocalHeap::new(alloc, *size),
        source_of(alloc, front, *zeros, back),
    ) {
        (Ok(heap), Ok(mut source)) => {
            are_next(&mut Reader::new(&heap), &mut source, micros, *fault)
        }
        _ => false,
    }
}

#[test]
fn a_reader_holds_a_buffer_and_its_interfaces(rt: HostRuntime) {
    for (count, row) in ROWS.iter().enumerate() {
        assert!(rt; is_read_with(rt.alloc(), row), "{count}");
    }
}

/// Whether the first answer is a packet of 262144 octets.
fn is_long_packet(reader: &mut Reader<&LocalHeap>, source: &mut MemSource) -> bool {
    if source.failures() == u64::MAX || reader.number() > source.given() as u64 {
        return false;
    }
    match reader.next_packet(source) {
        Ok(Some(packet)) => packet.second == 100 && packet.octets.len() == 262144,
        _ => false,
    }
}

/// Whether a file of so many zeros between these pieces tells such a packet first.
fn has_long_packet(alloc: Global, front: &[&[u8]], zeros: usize, back: &[&[u8]]) -> bool {
    match (
        LocalHeap::new(alloc, BUFFER + FOUR),
        source_of(alloc, front, zeros, back),
    ) {
        (Ok(heap), Ok(mut source)) => is_long_packet(&mut Reader::new(&heap), &mut source),
        _ => false,
    }
}

/// A packet of which 262144 octets were kept: of pcap, and in a block of 327680 octets.
#[test]
fn the_longest_packets_are_read(rt: HostRuntime) {
    let is_in_pcap = has_long_packet(rt.alloc(), &[&LITTLE, &LONG_PACKET], 262144, &[]);
    let is_in_pcapng = has_long_packet(
        rt.alloc(),
        &[&SECTION, &INTERFACE, &LONG_ENHANCED],
        327648,
        &[&LONG_ENHANCED_END],
    );
    assert!(rt; is_in_pcap && is_in_pcapng);
}

/// What no file tells.
#[test]
fn faults_of_a_reader_have_numbers_and_names(rt: HostRuntime) {
    let (device, memory) = (FaultKind::Device, FaultKind::Memory);
    let are_numbers = device.number() == 16 && memory.number() == 17;
    assert!(rt; are_numbers && device.name() == "Device" && memory.name() == "Memory");
}
