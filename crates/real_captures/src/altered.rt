//! Captures that are made of others by small changes.

use rand_core::utils::NextWord;
use rand_pcg::Pcg32;
use std::alloc::{AllocError, Global};

/// How many octets the first record has (RFC 6396, 2).
fn length_of(octets: &[u8]) -> Option<usize> {
    let [_, _, _, _, _, _, _, _, a, b, c, d, ..] = *octets else {
        return None;
    };
    let body = u32::from_be_bytes([a, b, c, d]);
    usize::try_from(body).ok()?.checked_add(12)
}

/// The records of a capture, as far as they are whole.
fn records_of(alloc: Global, capture: &[u8]) -> Result<Vec<&[u8]>, AllocError> {
    let mut records = Vec::new(alloc);
    let mut rest = capture;
    for _ in 0..capture.len() {
        let Some(length) = length_of(rest) else {
            break;
        };
        let Some((record, others)) = rest.split_at_checked(length) else {
            break;
        };
        records.push(record)?;
        rest = others;
    }
    Ok(records)
}

/// A number below this one, which isn't 0.
pub(crate) fn below(random: &mut Pcg32, count: usize) -> usize {
    let word = random.next_word() as usize;
    word.checked_rem(count).unwrap_or(0)
}

/// What is done to a capture.
#[derive(Clone, Copy, Debug, PartialEq, Eq)]
enum Change {
    /// A record is left out.
    LeavesOut,
    /// A record is repeated.
    Repeats,
    /// A record is moved behind the next.
    Moves,
    /// An octet is another, wherever it stands.
    Alters,
}

/// One of them.
fn change_of(random: &mut Pcg32) -> Change {
    match below(random, 4) {
        0 => Change::LeavesOut,
        1 => Change::Repeats,
        2 => Change::Moves,
        _ => Change::Alters,
    }
}

/// The octets of these records, of which that at a place is left out or repeated.
fn joined(
    alloc: Global,
    records: &[&[u8]],
    place: usize,
    change: Change,
) -> Result<Vec<u8>, AllocError> {
    let mut octets = Vec::new(alloc);
    for (index, record) in records.iter().enumerate() {
        let times = match change {
            Change::LeavesOut if index == place => 0,
            Change::Repeats if index == place => 2,
            _ => 1,
        };
        for _ in 0..times {
            octets.extend_from_slice(record)?;
        }
    }
    Ok(octets)
}

/// The capture with one change.
pub(crate) fn altered(
    alloc: Global,
    capture: &[u8],
    random: &mut Pcg32,
) -> Result<Vec<u8>, AllocError> {
    let mut records = records_of(alloc, capture)?;
    let place = below(random, records.len());
    let change = change_of(random);
    let next = place.saturating_add(1);
    if change == Change::Moves && next < records.len() {
        records.swap(place, next);
    }
    let mut octets = joined(alloc, records.as_slice(), place, change)?;
    let octet_place = below(random, octets.len());
    let mask = u8::try_from(below(random, 256)).unwrap_or(1);
    if change == Change::Alters {
        if let Some(octet) = octets.get_mut(octet_place) {
            *octet ^= mask;
        }
    }
    Ok(octets)
}
