//! Prefixes as bits: what of an address they keep, and their order.

use bgp_prefix::*;
use std::cmp::Ordering;
use std::hash::{DefaultHasher, Hash, Hasher};

/// Addresses with a length, and the lowest address of their prefix.
static MASKED: [(Address, u8, Address, Family); 3] = [
    (
        Address::V4(0x0a01_0203),
        8,
        Address::V4(0x0a00_0000),
        Family::V4,
    ),
    (Address::V4(u32::MAX), 0, Address::V4(0), Family::V4),
    (
        Address::V6(u128::MAX),
        127,
        Address::V6(u128::MAX - 1),
        Family::V6,
    ),
];

/// Whether the first so many bits of an address are a prefix of this lowest address.
fn is_masked(address: Address, length: u8, lowest: Address, family: Family) -> bool {
    match Prefix::new(address, length) {
        Some(masked) => {
            masked.family() == family
                && masked.address() == lowest
                && masked.length() == length
                && Prefix::new(lowest, length) == Some(masked)
        }
        None => false,
    }
}

#[test]
fn a_prefix_is_masked_and_has_no_more_bits_than_an_address(rt: HostRuntime) {
    for (address, length, lowest, family) in &MASKED {
        assert!(rt; is_masked(*address, *length, *lowest, *family));
    }
    assert!(rt;
        Prefix::new(Address::V4(0), 33).is_none() && Prefix::new(Address::V6(0), 129).is_none()
    );
}

/// Prefixes, each before the next.
static ORDERED: [(Address, u8); 11] = [
    (Address::V4(0), 0),
    (Address::V4(0), 1),
    (Address::V4(0x0a00_0000), 8),
    (Address::V4(0x0a00_0000), 9),
    (Address::V4(0x0a80_0000), 9),
    (Address::V4(0x0b00_0000), 8),
    (Address::V4(u32::MAX), 32),
    (Address::V6(0), 0),
    (Address::V6(1), 128),
    (Address::V6(0x2001_0db8 << 96), 32),
    (Address::V6(0x2001_0db8 << 96), 64),
];

/// What std's hasher makes of a prefix.
fn hash_of(prefix: &Prefix) -> u64 {
    let mut hasher = DefaultHasher::new();
    prefix.hash(&mut hasher);
    hasher.finish()
}

/// Whether two prefixes compare like that in all ways.
fn compare(first: &Prefix, second: &Prefix, order: Ordering) -> bool {
    let is_same = order == Ordering::Equal;
    first.cmp(second) == order
        && first.partial_cmp(second) == Some(order)
        && (first == second) == is_same
        && (hash_of(first) == hash_of(second)) == is_same
}

/// Whether the prefix in this place stands so to each of them.
fn is_in_order(place: usize, first: &Prefix) -> bool {
    let mut is_in_order = true;
    for (other, (address, length)) in ORDERED.iter().enumerate() {
        is_in_order &= match Prefix::new(*address, *length) {
            Some(second) => compare(first, &second, place.cmp(&other)),
            None => false,
        };
    }
    is_in_order
}

#[test]
fn prefixes_are_in_order_of_family_address_and_length(rt: HostRuntime) {
    for (place, (address, length)) in ORDERED.iter().enumerate() {
        let are_in_order = match Prefix::new(*address, *length) {
            Some(prefix) => is_in_order(place, &prefix),
            None => false,
        };
        assert!(rt; are_in_order);
    }
}
