//! Messages are read. (What an OPEN says, and what is none, is compared by the program
//! `real_captures`.)

use super::*;
use bgp_open::{Capability, Notification, read_notification};
use bgp_wire::vectors::{ADMINISTRATIVE_SHUTDOWN, BAD_LENGTH_18, KEEPALIVE, OPEN_A};

pub(super) const IPV4_UNICAST: Capability<'static> = Capability {
    code: 1,
    value: &[0x00, 0x01, 0x00, 0x01], // AFI 1, reserved, SAFI 1
};

pub(super) const IPV6_UNICAST: Capability<'static> = Capability {
    code: 1,
    value: &[0x00, 0x02, 0x00, 0x01], // AFI 2, reserved, SAFI 1
};

/// Four-octet AS numbers, and the sender's is 65001.
pub(super) const AS_65001: Capability<'static> = Capability {
    code: 65,
    value: &[0x00, 0x00, 0xfd, 0xe9],
};

/// My Autonomous System, Hold Time and BGP Identifier.
type Fields = (u16, u16, u32);

/// Whether the octets are an OPEN with these fields and capabilities.
pub(super) fn reads_as(octets: &[u8], fields: Fields, capabilities: &[Capability<'_>]) -> bool {
    let Ok(message) = read_open(octets) else {
        return false;
    };
    let mut is_same = (message.my_as(), message.hold(), message.id()) == fields;
    let mut read = message.caps();
    for capability in capabilities {
        is_same = is_same && read.next() == Some(*capability);
    }
    is_same && read.next().is_none()
}

/// Octets that are no NOTIFICATION.
static NO_NOTIFICATIONS: [&[u8]; 5] = [
    // no subcode
    message![20, 3, 6],
    // a marker octet of 254
    &[
        254, 255, 255, 255, 255, 255, 255, 255, 255, 255, 255, 255, 255, 255, 255, 255, 0, 21, 3,
        6, 2,
    ],
    // cut short
    message![23, 3, 1, 2, 0x00],
    &KEEPALIVE,
    &OPEN_A,
];

/// Whether octets are a NOTIFICATION with these octets and data to the end.
fn is_notification(octets: &[u8], code: u8, subcode: u8, detail: &[u8]) -> bool {
    let wanted = Notification {
        code,
        subcode,
        detail,
    };
    read_notification(octets) == Some(wanted)
}

#[test]
fn a_notification_has_two_octets_and_data_to_the_end(rt: HostRuntime) {
    for octets in &NO_NOTIFICATIONS {
        assert!(rt; read_notification(octets).is_none());
    }
    assert!(rt;
        is_notification(&ADMINISTRATIVE_SHUTDOWN, 6, 2, &[])
            && is_notification(&BAD_LENGTH_18, 1, 2, &[0x00, 0x12])
    );
}
