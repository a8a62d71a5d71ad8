//! The fraction of a record's second (RFC 6396, 3), as a reader tells it and a record of a file.

use super::captures::{CHANGE, CHANGED, SESSION, is_next};
use super::*;
use mrt_sessions::{FileRecords, records_in};

/// The header of [`CHANGE`] as a record of type BGP4MP_ET.
const HEADER: [u8; 12] = [
    0x00, 0x00, 0x00, 0x64, // Timestamp
    0x00, 0x11, 0x00, 0x05, // BGP4MP_ET, STATE_CHANGE_AS4
    0x00, 0x00, 0x00, 0x1c, // Length
];

/// That record with these microseconds, and then [`CHANGE`].
fn two_changes(alloc: Global, microseconds: u32) -> Option<Vec<u8>> {
    let micro = microseconds.to_be_bytes();
    joined(alloc, &[&HEADER, &micro, &CHANGE[12..], &CHANGE])
}

/// Microseconds of a record, and its fraction.
static FRACTIONS: [(u32, Option<u32>); 5] = [
    (0, Some(0)),
    (66_051, Some(66_051)),
    (999_999, Some(999_999)),
    (1_000_000, None),
    (u32::MAX, None),
];

/// Whether a reader has this fraction after the first record, and none after the second one.
fn has_fractions(reader: &mut Reader, source: &mut MemSource, micro: Option<u32>) -> bool {
    reader.micro().is_none()
        && is_next(reader, source, &SESSION, &CHANGED)
        && reader.micro() == micro
        && is_next(reader, source, &SESSION, &CHANGED)
        && reader.micro().is_none()
}

/// Whether the records of a file have the same.
fn have_fractions(file: &FileRecords<'_>, micro: Option<u32>) -> bool {
    match file.records.as_slice() {
        [first, second] => first.micro() == micro && second.micro().is_none(),
        _ => false,
    }
}

/// Whether both are so, of a reader of these octets and of the file that they are.
fn is_told(alloc: Global, octets: Vec<u8>, micro: Option<u32>) -> bool {
    let is_in_file = match records_in(alloc, octets.as_slice()) {
        Ok(file) => have_fractions(&file, micro),
        Err(AllocError) => false,
    };
    is_in_file && has_fractions(&mut Reader::new(alloc), &mut MemSource::new(octets), micro)
}

/// Whether both are, where a record has so many microseconds.
fn are_told(alloc: Global, (microseconds, micro): &(u32, Option<u32>)) -> bool {
    match two_changes(alloc, *microseconds) {
        Some(octets) => is_told(alloc, octets, *micro),
        None => false,
    }
}

#[test]
fn a_record_of_type_17_has_a_fraction(rt: HostRuntime) {
    for (row, fraction) in FRACTIONS.iter().enumerate() {
        assert!(rt; are_told(rt.alloc(), fraction), "row {row}");
    }
}
