//! Messages that aren't in `bgp_wire::vectors`.

/// An UPDATE that announces 11.0.0.0/8 and 12.0.0.0/8.
pub(crate) const ANNOUNCES_11_AND_12: [u8; 47] = [
    255, 255, 255, 255, 255, 255, 255, 255, 255, 255, 255, 255, 255, 255, 255, 255, // marker
    0x00, 0x2f, // Length: 47
    0x02, // Type: UPDATE
    0x00, 0x00, // Withdrawn Routes Length: 0
    0x00, 0x14, // Total Path Attribute Length: 20
    0x40, 0x01, 0x01, 0x00, // ORIGIN: IGP
    0x40, 0x02, 0x06, 0x02, 0x01, 0x00, 0x00, 0xfd, 0xea, // AS_PATH: a sequence of 65002
    0x40, 0x03, 0x04, 0xc0, 0x00, 0x02, 0x02, // NEXT_HOP: 192.0.2.2
    0x08, 0x0b, 0x08, 0x0c, // NLRI: 11.0.0.0/8, 12.0.0.0/8
];

/// An UPDATE that withdraws 10.0.0.0/8 and 12.0.0.0/8.
pub(crate) const WITHDRAWS_10_AND_12: [u8; 27] = [
    255, 255, 255, 255, 255, 255, 255, 255, 255, 255, 255, 255, 255, 255, 255, 255, // marker
    0x00, 0x1b, // Length: 27
    0x02, // Type: UPDATE
    0x00, 0x04, 0x08, 0x0a, 0x08, 0x0c, // Withdrawn Routes: 10.0.0.0/8, 12.0.0.0/8
    0x00, 0x00, // Total Path Attribute Length: 0
];

/// An UPDATE that withdraws 2001:db8::/32.
pub(crate) const WITHDRAWS_2001_DB8: [u8; 34] = [
    255, 255, 255, 255, 255, 255, 255, 255, 255, 255, 255, 255, 255, 255, 255, 255, // marker
    0x00, 0x22, // Length: 34
    0x02, // Type: UPDATE
    0x00, 0x00, // Withdrawn Routes Length: 0
    0x00, 0x0b, // Total Path Attribute Length: 11
    0x80, 0x0f, 0x08, // MP_UNREACH_NLRI, 8 octets
    0x00, 0x02, 0x01, // IPv6 unicast
    0x20, 0x20, 0x01, 0x0d, 0xb8, // 2001:db8::/32
];

/// A NOTIFICATION of malformed path attributes.
pub(crate) const MALFORMED_ATTRIBUTE_LIST: [u8; 21] = [
    255, 255, 255, 255, 255, 255, 255, 255, 255, 255, 255, 255, 255, 255, 255, 255, // marker
    0x00, 0x15, // Length: 21
    0x03, // Type: NOTIFICATION
    0x03, // Error code: UPDATE Message Error
    0x01, // Error subcode: Malformed Attribute List
];

/// A NOTIFICATION of a message that OpenSent doesn't expect (RFC 6608).
pub(crate) const UNEXPECTED_IN_OPENSENT: [u8; 21] = [
    255, 255, 255, 255, 255, 255, 255, 255, 255, 255, 255, 255, 255, 255, 255, 255, // marker
    0x00, 0x15, // Length: 21
    0x03, // Type: NOTIFICATION
    0x05, // Error code: Finite State Machine Error
    0x01, // Error subcode: Receive Unexpected Message in OpenSent State
];

/// A NOTIFICATION of a message that OpenConfirm doesn't expect (RFC 6608).
pub(crate) const UNEXPECTED_IN_OPENCONFIRM: [u8; 21] = [
    255, 255, 255, 255, 255, 255, 255, 255, 255, 255, 255, 255, 255, 255, 255, 255, // marker
    0x00, 0x15, // Length: 21
    0x03, // Type: NOTIFICATION
    0x05, // Error code: Finite State Machine Error
    0x02, // Error subcode: Receive Unexpected Message in OpenConfirm State
];
