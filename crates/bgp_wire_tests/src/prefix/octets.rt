//! Prefixes as octets (RFC 4271, 4.3): read, written, and where memory is refused.

use bgp_prefix::*;
use linked_list_allocator::LocalHeap;
use std::alloc::{Allocator, Global};

/// What octets begin with: an address, how many bits of it, and how many octets spell them.
type Begins = Result<(Address, u8, usize), PrefixFault>;

/// Octets, and what they begin with.
static READ: [(Family, &[u8], Begins); 11] = [
    (
        Family::V4,
        &[
            9, // length
            0x0a, 0xff, // nine bits of them, and seven that mean nothing
        ],
        Ok((Address::V4(0x0a80_0000), 9, 3)),
    ),
    (Family::V4, &[0], Ok((Address::V4(0), 0, 1))),
    (Family::V4, &[33, 0x0a], Err(PrefixFault::TooLong)),
    (Family::V4, &[24, 0x0a, 0x00], Err(PrefixFault::Short)),
    (Family::V4, &[], Err(PrefixFault::Short)),
    (Family::V6, &[], Err(PrefixFault::Short)),
    (
        Family::V4,
        &[
            32, // length
            192, 0, 2, 1, // all of them
            8, 10, // the next prefix
        ],
        Ok((Address::V4(0xc000_0201), 32, 5)),
    ),
    (
        Family::V6,
        &[
            33, // length, which IPv4 hasn't
            0x20, 0x01, 0x0d, 0xb8, 0xff, // one bit of the last
        ],
        Ok((Address::V6(0x2001_0db8_8000 << 80), 33, 6)),
    ),
    (Family::V6, &[129; 18], Err(PrefixFault::TooLong)),
    (Family::V6, &[128; 16], Err(PrefixFault::Short)),
    (
        Family::V6,
        &[128; 17],
        Ok((Address::V6(u128::MAX / 255 * 128), 128, 17)),
    ),
];

/// Whether octets begin with this.
fn begin_with(family: Family, octets: &[u8], expected: &Begins) -> bool {
    match Prefix::read(family, octets) {
        Ok((prefix, taken)) => match expected {
            Ok((address, length, count)) => {
                prefix.address() == *address && prefix.length() == *length && taken == *count
            }
            Err(_) => false,
        },
        Err(fault) => matches!(expected, Err(wanted) if fault == *wanted),
    }
}

#[test]
fn octets_begin_with_a_prefix_or_have_a_fault(rt: HostRuntime) {
    for (family, octets, expected) in &READ {
        assert!(rt; begin_with(*family, octets, expected));
    }
}

/// How three prefixes are written: 10.128.0.0/9, 0.0.0.0/0 and the highest address of IPv6.
const WRITTEN: [u8; 21] = [
    9, 0x0a, 0x80, // nine bits, and zeros
    0, // no bits
    128, // all of 16 octets
    255, 255, 255, 255, 255, 255, 255, 255, 255, 255, 255, 255, 255, 255, 255, 255,
];

/// An address of each, its length, and where it ends there.
static THREE: [(Address, u8, usize); 3] = [
    (Address::V4(0x0aff_ffff), 9, 3),
    (Address::V4(0), 0, 4),
    (Address::V6(u128::MAX), 128, 21),
];

/// Writes the three into a vector that may be refused memory. Answers how many octets were written
/// till then, if it holds just them.
fn written<A: Allocator>(out: &mut Vec<u8, A>) -> Option<usize> {
    let mut end = 0;
    for (address, length, next_end) in &THREE {
        match Prefix::new(*address, *length) {
            Some(prefix) if prefix.write(out).is_ok() => end = *next_end,
            _ => break,
        }
    }
    if WRITTEN.get(..end) == Some(out.as_slice()) {
        Some(end)
    } else {
        None
    }
}

#[test]
fn ample_memory(rt: HostRuntime) {
    assert!(rt; written(&mut Vec::new(rt.alloc())) == Some(WRITTEN.len()));
}

/// How many octets are written in a heap of this size.
fn written_in(alloc: Global, size: usize) -> Option<usize> {
    let heap = LocalHeap::new(alloc, size).ok()?;
    written(&mut Vec::new(&heap))
}

/// Whether all are written once a heap is large enough, and not in each before.
fn are_refused_and_written(alloc: Global) -> bool {
    let (mut refused, mut done) = (false, false);
    for step in 1usize..64 {
        match written_in(alloc, 16 * step) {
            Some(end) if end == WRITTEN.len() => done = true,
            Some(_) => refused = true,
            None => return false,
        }
    }
    refused && done
}

#[test]
fn a_refused_growth_appends_nothing(rt: HostRuntime) {
    assert!(rt; are_refused_and_written(rt.alloc()));
}

/// Whether a prefix of this length is written in the fewest octets, its length first.
fn is_written_short(alloc: Global, prefix: Prefix, length: u8) -> bool {
    let mut out = Vec::new(alloc);
    let count = 1 + usize::from(length).div_ceil(8);
    prefix.write(&mut out).is_ok()
        && out.len() == count
        && prefix.octet_len() == count
        && out.first() == Some(&length)
}

/// Whether the prefixes of zeros, of each length up to this, are.
fn are_written_short(alloc: Global, zeros: Address, most: u8) -> bool {
    let mut are_written = true;
    for length in 0..=most {
        are_written &= match Prefix::new(zeros, length) {
            Some(prefix) => is_written_short(alloc, prefix, length),
            None => false,
        };
    }
    are_written
}

#[test]
fn prefixes_of_every_length_are_written(rt: HostRuntime) {
    let alloc = rt.alloc();
    assert!(rt;
        are_written_short(alloc, Address::V4(0), 32)
            && are_written_short(alloc, Address::V6(0), 128)
    );
}

/// Whether a fault has this number and this text.
fn tells(alloc: Global, fault: PrefixFault, number: u8, text: &str) -> bool {
    let is_shown = match format!(in alloc; "{fault}") {
        Ok(shown) => shown.as_str() == text,
        Err(_) => false,
    };
    is_shown && fault.number() == number
}

#[test]
fn faults_have_their_numbers_and_texts(rt: HostRuntime) {
    let (long, short) = (PrefixFault::TooLong, PrefixFault::Short);
    let alloc = rt.alloc();
    assert!(rt;
        tells(alloc, long, 1, "a prefix has more bits than an address")
            && tells(alloc, short, 2, "the octets end inside a prefix")
    );
}
