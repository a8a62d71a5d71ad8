//! Messages that tests of several crates share, field by field (RFC 4271, 4; RFC 4760; RFC 5492).
//!
//! Two routers speak: A is AS 65001 at 192.0.2.1, and B is AS 65002 at 192.0.2.2.

/// A KEEPALIVE.
pub const KEEPALIVE: [u8; 19] = [
    255, 255, 255, 255, 255, 255, 255, 255, 255, 255, 255, 255, 255, 255, 255, 255, // marker
    0x00, 0x13, // Length: 19
    0x04, // Type: KEEPALIVE
];

/// A KEEPALIVE whose Length is 18: Bad Message Length.
pub const KEEPALIVE_OF_18: [u8; 19] = [
    255, 255, 255, 255, 255, 255, 255, 255, 255, 255, 255, 255, 255, 255, 255, 255, // marker
    0x00, 0x12, // Length: 18
    0x04, // Type: KEEPALIVE
];

/// The OPEN of AS 65001, 192.0.2.1, with both families and four-octet AS numbers.
pub const OPEN_A: [u8; 49] = [
    255, 255, 255, 255, 255, 255, 255, 255, 255, 255, 255, 255, 255, 255, 255, 255, // marker
    0x00, 0x31, // Length: 49
    0x01, // Type: OPEN
    0x04, // version 4
    0xfd, 0xe9, // My Autonomous System: 65001
    0x00, 0x5a, // Hold Time: 90
    0xc0, 0x00, 0x02, 0x01, // BGP Identifier: 192.0.2.1
    0x14, // Optional Parameters Length: 20
    0x02, 0x12, // Capabilities, 18 octets
    0x01, 0x04, 0x00, 0x01, 0x00, 0x01, // multiprotocol: IPv4 unicast
    0x01, 0x04, 0x00, 0x02, 0x00, 0x01, // multiprotocol: IPv6 unicast
    0x41, 0x04, 0x00, 0x00, 0xfd, 0xe9, // four-octet AS number: 65001
];

/// The OPEN of AS 65002, 192.0.2.2, with both families and four-octet AS numbers.
pub const OPEN_B: [u8; 49] = [
    255, 255, 255, 255, 255, 255, 255, 255, 255, 255, 255, 255, 255, 255, 255, 255, // marker
    0x00, 0x31, // Length: 49
    0x01, // Type: OPEN
    0x04, // version 4
    0xfd, 0xea, // My Autonomous System: 65002
    0x00, 0x5a, // Hold Time: 90
    0xc0, 0x00, 0x02, 0x02, // BGP Identifier: 192.0.2.2
    0x14, // Optional Parameters Length: 20
    0x02, 0x12, // Capabilities, 18 octets
    0x01, 0x04, 0x00, 0x01, 0x00, 0x01, // multiprotocol: IPv4 unicast
    0x01, 0x04, 0x00, 0x02, 0x00, 0x01, // multiprotocol: IPv6 unicast
    0x41, 0x04, 0x00, 0x00, 0xfd, 0xea, // four-octet AS number: 65002
];

/// [`OPEN_B`] with Hold Time 0: no periodic KEEPALIVE is sent, and the hold timer never expires.
pub const OPEN_B_HOLD_0: [u8; 49] = [
    255, 255, 255, 255, 255, 255, 255, 255, 255, 255, 255, 255, 255, 255, 255, 255, // marker
    0x00, 0x31, // Length: 49
    0x01, // Type: OPEN
    0x04, // version 4
    0xfd, 0xea, // My Autonomous System: 65002
    0x00, 0x00, // Hold Time: 0
    0xc0, 0x00, 0x02, 0x02, // BGP Identifier: 192.0.2.2
    0x14, // Optional Parameters Length: 20
    0x02, 0x12, // Capabilities, 18 octets
    0x01, 0x04, 0x00, 0x01, 0x00, 0x01, // multiprotocol: IPv4 unicast
    0x01, 0x04, 0x00, 0x02, 0x00, 0x01, // multiprotocol: IPv6 unicast
    0x41, 0x04, 0x00, 0x00, 0xfd, 0xea, // four-octet AS number: 65002
];

/// The OPEN of AS 65002, 192.0.2.2, without parameters.
pub const OPEN_WITHOUT_PARAMETERS: [u8; 29] = [
    255, 255, 255, 255, 255, 255, 255, 255, 255, 255, 255, 255, 255, 255, 255, 255, // marker
    0x00, 0x1d, // Length: 29
    0x01, // Type: OPEN
    0x04, // version 4
    0xfd, 0xea, // My Autonomous System: 65002
    0x00, 0x5a, // Hold Time: 90
    0xc0, 0x00, 0x02, 0x02, // BGP Identifier: 192.0.2.2
    0x00, // Optional Parameters Length: 0
];

/// The OPEN of AS 65002, 192.0.2.2, with one capability, which has no value (RFC 2918, 2).
pub const OPEN_WITH_ROUTE_REFRESH: [u8; 33] = [
    255, 255, 255, 255, 255, 255, 255, 255, 255, 255, 255, 255, 255, 255, 255, 255, // marker
    0x00, 0x21, // Length: 33
    0x01, // Type: OPEN
    0x04, // version 4
    0xfd, 0xea, // My Autonomous System: 65002
    0x00, 0x5a, // Hold Time: 90
    0xc0, 0x00, 0x02, 0x02, // BGP Identifier: 192.0.2.2
    0x04, // Optional Parameters Length: 4
    0x02, 0x02, // Capabilities, 2 octets
    0x02, 0x00, // route refresh, no value
];

/// A NOTIFICATION of an expired hold timer.
pub const HOLD_TIMER_EXPIRED: [u8; 21] = [
    255, 255, 255, 255, 255, 255, 255, 255, 255, 255, 255, 255, 255, 255, 255, 255, // marker
    0x00, 0x15, // Length: 21
    0x03, // Type: NOTIFICATION
    0x04, // Error code: Hold Timer Expired
    0x00, // Error subcode: none
];

/// A NOTIFICATION of an invalid ORIGIN.
pub const INVALID_ORIGIN: [u8; 21] = [
    255, 255, 255, 255, 255, 255, 255, 255, 255, 255, 255, 255, 255, 255, 255, 255, // marker
    0x00, 0x15, // Length: 21
    0x03, // Type: NOTIFICATION
    0x03, // Error code: UPDATE Message Error
    0x06, // Error subcode: Invalid ORIGIN Attribute
];

/// A NOTIFICATION of a faulty optional attribute.
pub const OPTIONAL_ATTRIBUTE_ERROR: [u8; 21] = [
    255, 255, 255, 255, 255, 255, 255, 255, 255, 255, 255, 255, 255, 255, 255, 255, // marker
    0x00, 0x15, // Length: 21
    0x03, // Type: NOTIFICATION
    0x03, // Error code: UPDATE Message Error
    0x09, // Error subcode: Optional Attribute Error
];

/// A Cease, as at an operator's stop (RFC 4486, 3).
pub const ADMINISTRATIVE_SHUTDOWN: [u8; 21] = [
    255, 255, 255, 255, 255, 255, 255, 255, 255, 255, 255, 255, 255, 255, 255, 255, // marker
    0x00, 0x15, // Length: 21
    0x03, // Type: NOTIFICATION
    0x06, // Error code: Cease
    0x02, // Error subcode: Administrative Shutdown
];

/// A NOTIFICATION of [`KEEPALIVE_OF_18`], with its Length field as data.
pub const BAD_LENGTH_18: [u8; 23] = [
    255, 255, 255, 255, 255, 255, 255, 255, 255, 255, 255, 255, 255, 255, 255, 255, // marker
    0x00, 0x17, // Length: 23
    0x03, // Type: NOTIFICATION
    0x01, // Error code: Message Header Error
    0x02, // Error subcode: Bad Message Length
    0x00, 0x12, // data: the Length field
];

/// A NOTIFICATION of a bad message length that lacks its data.
pub const BAD_LENGTH_WITHOUT_DATA: [u8; 21] = [
    255, 255, 255, 255, 255, 255, 255, 255, 255, 255, 255, 255, 255, 255, 255, 255, // marker
    0x00, 0x15, // Length: 21
    0x03, // Type: NOTIFICATION
    0x01, // Error code: Message Header Error
    0x02, // Error subcode: Bad Message Length
];

/// An UPDATE that announces 10.0.0.0/8.
pub const ANNOUNCES_10: [u8; 45] = [
    255, 255, 255, 255, 255, 255, 255, 255, 255, 255, 255, 255, 255, 255, 255, 255, // marker
    0x00, 0x2d, // Length: 45
    0x02, // Type: UPDATE
    0x00, 0x00, // Withdrawn Routes Length: 0
    0x00, 0x14, // Total Path Attribute Length: 20
    0x40, 0x01, 0x01, 0x00, // ORIGIN: IGP
    0x40, 0x02, 0x06, 0x02, 0x01, 0x00, 0x00, 0xfd, 0xea, // AS_PATH: a sequence of 65002
    0x40, 0x03, 0x04, 0xc0, 0x00, 0x02, 0x02, // NEXT_HOP: 192.0.2.2
    0x08, 0x0a, // NLRI: 10.0.0.0/8
];

/// [`ANNOUNCES_10`] with an ORIGIN that isn't 0 to 2, so 10.0.0.0/8 is withdrawn (RFC 7606, 7.1).
pub const ORIGIN_OF_3: [u8; 45] = [
    255, 255, 255, 255, 255, 255, 255, 255, 255, 255, 255, 255, 255, 255, 255, 255, // marker
    0x00, 0x2d, // Length: 45
    0x02, // Type: UPDATE
    0x00, 0x00, // Withdrawn Routes Length: 0
    0x00, 0x14, // Total Path Attribute Length: 20
    0x40, 0x01, 0x01, 0x03, // ORIGIN: 3, undefined
    0x40, 0x02, 0x06, 0x02, 0x01, 0x00, 0x00, 0xfd, 0xea, // AS_PATH: a sequence of 65002
    0x40, 0x03, 0x04, 0xc0, 0x00, 0x02, 0x02, // NEXT_HOP: 192.0.2.2
    0x08, 0x0a, // NLRI: 10.0.0.0/8
];

/// An UPDATE whose MP_REACH_NLRI has an IPv6 next hop of 5 octets.
pub const NEXT_HOP_OF_5: [u8; 54] = [
    255, 255, 255, 255, 255, 255, 255, 255, 255, 255, 255, 255, 255, 255, 255, 255, // marker
    0x00, 0x36, // Length: 54
    0x02, // Type: UPDATE
    0x00, 0x00, // Withdrawn Routes Length: 0
    0x00, 0x1f, // Total Path Attribute Length: 31
    0x40, 0x01, 0x01, 0x00, // ORIGIN: IGP
    0x40, 0x02, 0x06, 0x02, 0x01, 0x00, 0x00, 0xfd, 0xea, // AS_PATH: a sequence of 65002
    0x80, 0x0e, 0x0f, // MP_REACH_NLRI, 15 octets
    0x00, 0x02, 0x01, // IPv6 unicast
    0x05, 0x20, 0x01, 0x0d, 0xb8, 0x00, // a next hop of 5 octets
    0x00, // reserved
    0x20, 0x20, 0x01, 0x0d, 0xb8, // NLRI: 2001:db8::/32
];

/// An UPDATE that announces 2001:db8::/32.
pub const ANNOUNCES_2001_DB8: [u8; 65] = [
    255, 255, 255, 255, 255, 255, 255, 255, 255, 255, 255, 255, 255, 255, 255, 255, // marker
    0x00, 0x41, // Length: 65
    0x02, // Type: UPDATE
    0x00, 0x00, // Withdrawn Routes Length: 0
    0x00, 0x2a, // Total Path Attribute Length: 42
    0x40, 0x01, 0x01, 0x00, // ORIGIN: IGP
    0x40, 0x02, 0x06, 0x02, 0x01, 0x00, 0x00, 0xfd, 0xea, // AS_PATH: a sequence of 65002
    0x80, 0x0e, 0x1a, // MP_REACH_NLRI, 26 octets
    0x00, 0x02, 0x01, // IPv6 unicast
    0x10, // next hop of 16 octets
    0x20, 0x01, 0x0d, 0xb8, 0x00, 0x00, 0x00, 0x00, // 2001:db8::2, its first half
    0x00, 0x00, 0x00, 0x00, 0x00, 0x00, 0x00, 0x02, // and its second
    0x00, // reserved
    0x20, 0x20, 0x01, 0x0d, 0xb8, // NLRI: 2001:db8::/32
];

/// [`ANNOUNCES_10`] with MULTI_EXIT_DISC 7 and then 9.
pub const MED_TWICE: [u8; 59] = [
    255, 255, 255, 255, 255, 255, 255, 255, 255, 255, 255, 255, 255, 255, 255, 255, // marker
    0x00, 0x3b, // Length: 59
    0x02, // Type: UPDATE
    0x00, 0x00, // Withdrawn Routes Length: 0
    0x00, 0x22, // Total Path Attribute Length: 34
    0x40, 0x01, 0x01, 0x00, // ORIGIN: IGP
    0x40, 0x02, 0x06, 0x02, 0x01, 0x00, 0x00, 0xfd, 0xea, // AS_PATH: a sequence of 65002
    0x40, 0x03, 0x04, 0xc0, 0x00, 0x02, 0x02, // NEXT_HOP: 192.0.2.2
    0x80, 0x04, 0x04, 0x00, 0x00, 0x00, 0x07, // MULTI_EXIT_DISC: 7
    0x80, 0x04, 0x04, 0x00, 0x00, 0x00, 0x09, // MULTI_EXIT_DISC: 9
    0x08, 0x0a, // NLRI: 10.0.0.0/8
];

/// An UPDATE that has MP_UNREACH_NLRI twice.
pub const MP_UNREACH_TWICE: [u8; 35] = [
    255, 255, 255, 255, 255, 255, 255, 255, 255, 255, 255, 255, 255, 255, 255, 255, // marker
    0x00, 0x23, // Length: 35
    0x02, // Type: UPDATE
    0x00, 0x00, // Withdrawn Routes Length: 0
    0x00, 0x0c, // Total Path Attribute Length: 12
    0x80, 0x0f, 0x03, 0x00, 0x02, 0x01, // MP_UNREACH_NLRI: IPv6 unicast, no prefix
    0x80, 0x0f, 0x03, 0x00, 0x02, 0x01, // MP_UNREACH_NLRI: IPv6 unicast, no prefix
];

/// [`ANNOUNCES_2001_DB8`] with the Transitive bit of MP_REACH_NLRI set, which has to be clear.
pub const MP_REACH_TRANSITIVE: [u8; 65] = [
    255, 255, 255, 255, 255, 255, 255, 255, 255, 255, 255, 255, 255, 255, 255, 255, // marker
    0x00, 0x41, // Length: 65
    0x02, // Type: UPDATE
    0x00, 0x00, // Withdrawn Routes Length: 0
    0x00, 0x2a, // Total Path Attribute Length: 42
    0x40, 0x01, 0x01, 0x00, // ORIGIN: IGP
    0x40, 0x02, 0x06, 0x02, 0x01, 0x00, 0x00, 0xfd, 0xea, // AS_PATH: a sequence of 65002
    0xc0, 0x0e, 0x1a, // MP_REACH_NLRI, 26 octets, Transitive set
    0x00, 0x02, 0x01, // IPv6 unicast
    0x10, // next hop of 16 octets
    0x20, 0x01, 0x0d, 0xb8, 0x00, 0x00, 0x00, 0x00, // 2001:db8::2, its first half
    0x00, 0x00, 0x00, 0x00, 0x00, 0x00, 0x00, 0x02, // and its second
    0x00, // reserved
    0x20, 0x20, 0x01, 0x0d, 0xb8, // NLRI: 2001:db8::/32
];

/// An UPDATE whose MP_REACH_NLRI announces 10.0.0.0/8, with wrong attribute flags alone.
pub const MP_REACH_FOR_IPV4: [u8; 50] = [
    255, 255, 255, 255, 255, 255, 255, 255, 255, 255, 255, 255, 255, 255, 255, 255, // marker
    0x00, 0x32, // Length: 50
    0x02, // Type: UPDATE
    0x00, 0x00, // Withdrawn Routes Length: 0
    0x00, 0x1b, // Total Path Attribute Length: 27
    0x40, 0x01, 0x01, 0x00, // ORIGIN: IGP
    0x40, 0x02, 0x06, 0x02, 0x01, 0x00, 0x00, 0xfd, 0xea, // AS_PATH: a sequence of 65002
    0xc0, 0x0e, 0x0b, // MP_REACH_NLRI, 11 octets, Transitive set
    0x00, 0x01, 0x01, // IPv4 unicast
    0x04, 0xc0, 0x00, 0x02, 0x02, // next hop 192.0.2.2
    0x00, // reserved
    0x08, 0x0a, // NLRI: 10.0.0.0/8
];
