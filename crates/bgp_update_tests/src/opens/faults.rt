//! The faults of a peer's OPEN as sets. (Which it has is compared by the program `real_captures`.)

use super::*;
use bgp_open::OpenFaults;
use bgp_wire::vectors::OPEN_B;

const ALL_BUT_1: u16 = 1 | 1 << 2 | 1 << 3 | 1 << 4 | 1 << 6 | 1 << 7 | 1 << 11;

/// A set of each subcode alone.
static ONE_EACH: [OpenSubcodes; 8] = [
    OpenSubcodes {
        unspecific: true,
        ..OpenSubcodes::NONE
    },
    OF_VERSION,
    OpenSubcodes {
        peer_as: true,
        ..OpenSubcodes::NONE
    },
    OpenSubcodes {
        identifier: true,
        ..OpenSubcodes::NONE
    },
    OpenSubcodes {
        parameter: true,
        ..OpenSubcodes::NONE
    },
    OpenSubcodes {
        hold: true,
        ..OpenSubcodes::NONE
    },
    OpenSubcodes {
        capability: true,
        ..OpenSubcodes::NONE
    },
    OpenSubcodes {
        role: true,
        ..OpenSubcodes::NONE
    },
];

/// The subcodes of [`ONE_EACH`], and the data that a NOTIFICATION gives with them: the version that
/// is spoken, and else none.
static NAMED: [(u8, &[u8]); 8] = [
    (0, &[]),
    (1, &[0x00, 0x04]),
    (2, &[]),
    (3, &[]),
    (4, &[]),
    (6, &[]),
    (7, &[]),
    (11, &[]),
];

const OF_VERSION: OpenSubcodes = OpenSubcodes {
    version: true,
    ..OpenSubcodes::NONE
};

const OF_6_AND_7: OpenSubcodes = OpenSubcodes {
    hold: true,
    capability: true,
    ..OpenSubcodes::NONE
};

const ALL_BUT_VERSION: OpenSubcodes = OpenSubcodes {
    unspecific: true,
    version: false,
    peer_as: true,
    identifier: true,
    parameter: true,
    hold: true,
    capability: true,
    role: true,
};

/// Whether this subcode of OPEN Message Error is named first, with these data.
fn names_first(errors: &OpenSubcodes, subcode: u8, detail: &[u8]) -> bool {
    match errors.least() {
        Some(fault) => {
            fault.code == 2 && fault.subcode == subcode && fault.detail.as_slice() == detail
        }
        None => false,
    }
}

/// Whether the subcode of a set is named first, and beside 6 and 7 the least.
fn is_named(errors: &OpenSubcodes, subcode: u8, detail: &[u8]) -> bool {
    let with_others = errors.union(OF_6_AND_7);
    names_first(errors, subcode, detail) && names_first(&with_others, subcode.min(6), detail)
}

#[test]
fn the_least_subcode_is_named_with_its_data(rt: HostRuntime) {
    for (errors, (subcode, detail)) in ONE_EACH.iter().zip(&NAMED) {
        assert!(rt; is_named(errors, *subcode, detail));
    }
    assert!(rt; OpenSubcodes::NONE.least().is_none());
}

/// Whether the faults differ from those with another set of either kind.
fn differ(faults: OpenFaults, other: OpenSubcodes) -> bool {
    let must = OpenFaults {
        must: other,
        ..faults
    };
    let may = OpenFaults {
        may: other,
        ..faults
    };
    faults != must && faults != may && other == other && other != OpenSubcodes::NONE
}

/// Whether equal faults have equal sets.
fn are_equal(faults: OpenFaults, again: OpenFaults) -> bool {
    let mut are_right = faults == again
        && faults.must == OpenSubcodes::NONE
        && faults.may != OpenSubcodes::NONE;
    for other in &ONE_EACH {
        are_right = are_right && differ(faults, *other);
    }
    are_right
}

#[test]
fn equal_faults_have_equal_fields(rt: HostRuntime) {
    let is_right = match Config::new(ROUTER_A) {
        Some(config) => are_equal(open_faults(&config, &OPEN_B), open_faults(&config, &OPEN_B)),
        None => false,
    };
    assert!(rt; is_right);
}

#[test]
fn a_union_has_the_subcodes_of_both_sets(rt: HostRuntime) {
    let with_none = OpenSubcodes::NONE.union(OF_VERSION);
    let with_itself = ALL_BUT_VERSION.union(ALL_BUT_VERSION);
    let all = ALL_BUT_VERSION.union(OF_VERSION);
    assert!(rt;
        has_just(&with_none, 1 << 1)
            && has_just(&with_itself, ALL_BUT_1)
            && has_just(&all, ALL_BUT_1 | 1 << 1)
    );
}
