//! The attribute table, and single attributes (RFC 4271, 5; RFC 7606, 3 g; RFC 8092).

use super::*;

/// The types, as the standards number and name them, with their bits.
static TYPES: [(u8, &str, u8, AttrType); 16] = [
    (1, "ORIGIN", 64, AttrType::Origin),
    (2, "AS_PATH", 64, AttrType::AsPath),
    (3, "NEXT_HOP", 64, AttrType::NextHop),
    (4, "MULTI_EXIT_DISC", 128, AttrType::MultiExitDisc),
    (5, "LOCAL_PREF", 64, AttrType::LocalPref),
    (6, "ATOMIC_AGGREGATE", 64, AttrType::AtomicAggregate),
    (7, "AGGREGATOR", 192, AttrType::Aggregator),
    (8, "COMMUNITIES", 192, AttrType::Communities),
    (9, "ORIGINATOR_ID", 128, AttrType::OriginatorId),
    (10, "CLUSTER_LIST", 128, AttrType::ClusterList),
    (14, "MP_REACH_NLRI", 128, AttrType::MpReachNlri),
    (15, "MP_UNREACH_NLRI", 128, AttrType::MpUnreachNlri),
    (
        16,
        "EXTENDED COMMUNITIES",
        192,
        AttrType::ExtendedCommunities,
    ),
    (17, "AS4_PATH", 192, AttrType::As4Path),
    (18, "AS4_AGGREGATOR", 192, AttrType::As4Aggregator),
    (32, "LARGE_COMMUNITY", 192, AttrType::LargeCommunities),
];

/// Whether the type has this number, name and bits.
fn is_row(attr_type: AttrType, number: u8, name: &str, bits: u8) -> bool {
    let row = attr_type.row();
    let is_told = AttrType::of(number) == Some(attr_type);
    is_told && row.number == number && row.name == name && row.bits == bits
}

#[test]
fn the_table_is_the_standards(rt: HostRuntime) {
    let mut all = AttrType::ALL.iter();
    for (number, name, bits, attr_type) in &TYPES {
        let is_next = all.next() == Some(attr_type);
        assert!(rt; is_next && is_row(*attr_type, *number, name, *bits));
    }
}

/// Whether no type has one of these numbers.
fn are_of_no_type(numbers: &[u8]) -> bool {
    let mut are_of_none = true;
    for number in numbers {
        are_of_none = are_of_none && AttrType::of(*number).is_none();
    }
    are_of_none
}

/// How many types are multiprotocol.
fn multiprotocol_types() -> u8 {
    let mut count = 0u8;
    for attr_type in &AttrType::ALL {
        if attr_type.is_multiprotocol() {
            count = count.saturating_add(1);
        }
    }
    count
}

#[test]
fn other_numbers_have_no_type_and_two_types_are_multiprotocol(rt: HostRuntime) {
    let are_of_none = are_of_no_type(&[0, 11, 12, 13, 19, 31, 33, 255]);
    let is_multiprotocol = AttrType::MpReachNlri.is_multiprotocol();
    assert!(rt; are_of_none && multiprotocol_types() == 2 && is_multiprotocol);
}

/// Whether the first attribute of these octets has no class of its own.
fn has_no_class(octets: &[u8]) -> bool {
    match Attrs::new(octets).next() {
        Some(attr) => class(WIDE, &attr).is_none(),
        None => false,
    }
}

/// MP_REACH_NLRI of FRR for 2001:db8:2::/48
const MP_REACH_NLRI: &[u8] = &[
    0x90, 14, 0, 44, // MP_REACH_NLRI
    0, 2, 1, 32, // IPv6 unicast, a next hop of 32 octets
    0x20, 1, 0x0d, 0xb8, 0, 0, 0, 0, 0, 0, 0, 0, 0, 0, 0, 2, // 2001:db8::2
    0xfe, 0x80, 0, 0, 0, 0, 0, 0, 0x4c, 0xbc, 0x1e, 0xff, 0xfe, 0xee, 0x7f, 0xed, // link-local
    0, 48, 0x20, 1, 0x0d, 0xb8, 0, 2, // reserved, 2001:db8:2::/48
];

#[test]
fn multiprotocol_attributes_are_judged_elsewhere(rt: HostRuntime) {
    assert!(rt;
        has_no_class(&[0x40, 14, 0])
            && has_no_class(&[0xc0, 15, 1, 0])
            && has_no_class(&[0x80, 15, 3, 0, 2, 1])
            && has_no_class(MP_REACH_NLRI)
    );
}

/// Whether an ORIGIN with these flags has the bits of its type.
fn has_bits(flags: u8) -> bool {
    let origin = Attr {
        flags,
        kind: 1,
        value: &[0],
    };
    origin.has_bits_of(AttrType::Origin)
}

#[test]
fn the_bits_of_a_type_are_told(rt: HostRuntime) {
    assert!(rt;
        has_bits(0x40) && has_bits(0x70) && !has_bits(0xc0) && !has_bits(0x80) && !has_bits(0)
    );
}
