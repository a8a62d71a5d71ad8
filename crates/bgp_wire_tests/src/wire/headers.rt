//! Headers, and their faults. (That each octet of a marker counts is a row of `real_captures`.)

use super::*;

/// A limit and a type, Lengths that such a message can have, and some that it can't (RFC 4271, 4.1
/// to 4.5; RFC 8654, 4: all but OPEN and KEEPALIVE may be extended).
type LengthsRow = (Limit, MessageType, &'static [u16], &'static [u16]);

static LENGTHS: [LengthsRow; 8] = [
    (
        Limit::Plain,
        MessageType::Open,
        &[29, 4096],
        &[0, 28, 4097, u16::MAX],
    ),
    (
        Limit::Plain,
        MessageType::Update,
        &[23, 4096],
        &[0, 22, 4097, u16::MAX],
    ),
    (
        Limit::Plain,
        MessageType::Notification,
        &[21, 4096],
        &[0, 20, 4097, u16::MAX],
    ),
    (
        Limit::Plain,
        MessageType::Keepalive,
        &[19],
        &[0, 18, 20, u16::MAX],
    ),
    (
        Limit::Extended,
        MessageType::Open,
        &[29, 4096],
        &[0, 28, 4097, u16::MAX],
    ),
    (
        Limit::Extended,
        MessageType::Update,
        &[23, 4096, 4097, u16::MAX],
        &[0, 22],
    ),
    (
        Limit::Extended,
        MessageType::Notification,
        &[21, 4096, 4097, u16::MAX],
        &[0, 20],
    ),
    (
        Limit::Extended,
        MessageType::Keepalive,
        &[19],
        &[0, 18, 20, 4096, 4097, u16::MAX],
    ),
];

/// Whether a header of this type and Length is judged as whole, or its Length as bad.
fn is_judged(limit: Limit, kind: MessageType, length: u16, is_whole: bool) -> bool {
    let wanted = if is_whole {
        HeaderVerdict::Whole(length, kind)
    } else {
        HeaderVerdict::Faulty(bad_length(length))
    };
    check_header(&header(length, kind.code()), limit) == wanted
}

/// Whether headers of this type and these Lengths are all judged so.
fn are_judged(limit: Limit, kind: MessageType, lengths: &[u16], is_whole: bool) -> bool {
    let mut are_judged = true;
    for length in lengths {
        are_judged &= is_judged(limit, kind, *length, is_whole);
    }
    are_judged
}

#[test]
fn each_type_has_its_least_and_its_greatest_length(rt: HostRuntime) {
    for (limit, kind, good, bad) in &LENGTHS {
        assert!(rt; are_judged(*limit, *kind, good, true) && are_judged(*limit, *kind, bad, false));
    }
}

/// Whether a type that isn't known is all that is bad of a header.
fn is_bad_type(code: u8) -> bool {
    let faults = HeaderFaults {
        marker: false,
        length: None,
        kind: Some(code),
    };
    let header = header(19, code);
    check_header(&header, Limit::Plain) == HeaderVerdict::Faulty(faults)
        && read_type(&header) == code
}

/// All three faults, of zeros.
const OF_ZEROS: HeaderFaults = HeaderFaults {
    marker: true,
    length: Some(0),
    kind: Some(0),
};

#[test]
fn a_type_that_is_not_known_is_bad_by_itself_and_zeros_in_all(rt: HostRuntime) {
    let are_bad = is_bad_type(0) && is_bad_type(5) && is_bad_type(128) && is_bad_type(255);
    let verdict = check_header(&[0; 19], Limit::Plain);
    assert!(rt; are_bad && !OF_ZEROS.is_empty() && verdict == HeaderVerdict::Faulty(OF_ZEROS));
}

/// The header of RFC 4271, 6.1, with a bad Length.
const BAD_LENGTH: HeaderFaults = HeaderFaults {
    marker: false,
    length: Some(18),
    kind: None,
};

/// One of a type that isn't known. Where the marker is at fault, no data are asked for.
const BAD_TYPE: HeaderFaults = HeaderFaults {
    marker: true,
    length: None,
    kind: Some(9),
};

/// Faults, a subcode with data, and whether it names one of them.
static NAMES: [(HeaderFaults, u8, &[u8], bool); 10] = [
    (BAD_LENGTH, 2, &[0x00, 0x12], true),
    (BAD_LENGTH, 2, &[], false),
    (BAD_LENGTH, 2, &[0x00, 0x13], false),
    (BAD_LENGTH, 1, &[], false),
    (BAD_LENGTH, 3, &[0x12], false),
    (BAD_TYPE, 3, &[9], true),
    (BAD_TYPE, 3, &[0, 9], false),
    (BAD_TYPE, 1, &[], true),
    (BAD_TYPE, 1, &[1, 2], true),
    (BAD_TYPE, 0, &[], false),
];

#[test]
fn a_fault_is_named_by_its_subcode_and_the_field(rt: HostRuntime) {
    for (faults, subcode, detail, is_named) in &NAMES {
        assert!(rt; faults.contains(*subcode, detail) == *is_named);
    }
}

/// Sets of header faults, and of each the subcode and the data that are named first.
static LEAST: [(HeaderFaults, Option<(u8, &[u8])>); 5] = [
    (OF_ZEROS, Some((1, &[]))),
    (
        HeaderFaults {
            marker: false,
            length: Some(4097),
            kind: Some(9),
        },
        Some((2, &[0x10, 0x01])),
    ),
    (
        HeaderFaults {
            marker: false,
            length: None,
            kind: Some(9),
        },
        Some((3, &[9])),
    ),
    (
        HeaderFaults {
            marker: true,
            length: None,
            kind: Some(9),
        },
        Some((1, &[])),
    ),
    (
        HeaderFaults {
            marker: false,
            length: None,
            kind: None,
        },
        None,
    ),
];

/// Whether it is this subcode of Message Header Error with these data that is named first.
fn names_first(faults: &HeaderFaults, wanted: &Option<(u8, &[u8])>) -> bool {
    match (faults.least(), wanted) {
        (Some(fault), Some((subcode, detail))) => {
            fault.code == 1 && fault.subcode == *subcode && fault.detail.as_slice() == *detail
        }
        (fault, wanted) => fault.is_none() && wanted.is_none(),
    }
}

#[test]
fn the_least_fault_is_named_with_the_field(rt: HostRuntime) {
    for (faults, wanted) in &LEAST {
        assert!(rt; names_first(faults, wanted));
    }
}
