//! Which fault of a set a NOTIFICATION names first (RFC 4271, 6.1 to 6.3).

use bgp_machine::FaultSet;
use bgp_open::OpenSubcodes;
use bgp_update::Subcodes;
use bgp_wire::HeaderFaults;

/// The header of a KEEPALIVE of 18 octets.
const BAD_LENGTH: FaultSet = FaultSet::Header(HeaderFaults {
    marker: false,
    length: Some(18),
    kind: None,
});

/// An OPEN of another version.
const BAD_VERSION: FaultSet = FaultSet::Open(OpenSubcodes {
    version: true,
    ..OpenSubcodes::NONE
});

/// What any speaker may refuse an OPEN for: its Hold Time, that a capability is missing, or its
/// role.
const ANY_SPEAKERS: FaultSet = FaultSet::Open(OpenSubcodes {
    hold: true,
    capability: true,
    role: true,
    ..OpenSubcodes::NONE
});

/// Role Mismatch alone.
const BAD_ROLE: FaultSet = FaultSet::Open(OpenSubcodes {
    role: true,
    ..OpenSubcodes::NONE
});

/// An UPDATE's Invalid ORIGIN Attribute and Malformed AS_PATH.
const BAD_ATTRIBUTES: FaultSet = FaultSet::Update(Subcodes {
    invalid_origin: true,
    malformed_as_path: true,
    ..Subcodes::NONE
});

/// Sets of faults, and of each the code, the subcode and the data that are named first.
static LEAST: [(FaultSet, Option<(u8, u8, &[u8])>); 7] = [
    (BAD_LENGTH, Some((1, 2, &[0x00, 0x12]))),
    (BAD_VERSION, Some((2, 1, &[0x00, 0x04]))),
    (ANY_SPEAKERS, Some((2, 6, &[]))),
    (BAD_ROLE, Some((2, 11, &[]))),
    (BAD_ATTRIBUTES, Some((3, 6, &[]))),
    (FaultSet::Open(OpenSubcodes::NONE), None),
    (FaultSet::Update(Subcodes::NONE), None),
];

/// Whether that is named first.
fn names_first(faults: &FaultSet, wanted: &Option<(u8, u8, &[u8])>) -> bool {
    match (faults.least(), wanted) {
        (Some(fault), Some((code, subcode, detail))) => {
            fault.code == *code && fault.subcode == *subcode && fault.detail.as_slice() == *detail
        }
        (fault, wanted) => fault.is_none() && wanted.is_none(),
    }
}

#[test]
fn the_least_fault_is_named_with_its_data(rt: HostRuntime) {
    for (faults, wanted) in &LEAST {
        assert!(rt; names_first(faults, wanted), "of {faults:?}");
    }
}
