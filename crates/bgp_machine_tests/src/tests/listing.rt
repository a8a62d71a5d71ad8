//! How many steps a state has, and which messages one sends.

use super::*;
use arrayvec::ArrayVec;
use bgp_machine::{HiddenRow, Want, hidden_step, hidden_steps, list_message_steps, meets};
use bgp_wire::vectors::{
    ADMINISTRATIVE_SHUTDOWN, ANNOUNCES_10, KEEPALIVE, MP_REACH_TRANSITIVE, MP_UNREACH_TWICE,
    NEXT_HOP_OF_5, ORIGIN_OF_3,
};
use std::alloc::Global;

/// A state as a table names it: the link is what routers A and B settle.
#[derive(Clone, Copy)]
enum Place {
    Before(Head),
    Confirm,
    Up(HoldTimer),
}

/// Its head.
fn head_of(place: Place, link: Link) -> Head {
    match place {
        Place::Before(head) => head,
        Place::Confirm => Head::OpenConfirm(link, TIMER),
        Place::Up(timer) => Head::Established(link, timer),
    }
}

const IDLE: Place = Place::Before(Head::Idle);

const CONNECT: Place = Place::Before(Head::Connect(false));

const CONNECT_DELAYED: Place = Place::Before(Head::Connect(true));

const ACTIVE_DELAYED: Place = Place::Before(Head::Active(true));

const SENT: Place = Place::Before(Head::OpenSent(LARGE));

const UP: Place = Place::Up(TIMER);

/// With a Hold Time of 0.
const STOPPED: HoldTimer = HoldTimer {
    since: 102,
    span: 0,
};

const STOPPED_SENT: Place = Place::Before(Head::OpenSent(STOPPED));

const STOPPED_UP: Place = Place::Up(STOPPED);

/// Whether the OPEN may be delayed, a state, a second, and how many steps there are.
static HIDDEN: [(bool, Place, u32, usize); 11] = [
    (false, IDLE, 100, 3),
    (false, CONNECT, 100, 3),
    (true, ACTIVE_DELAYED, 100, 5),
    (false, SENT, 339, 3),
    (false, SENT, 340, 4),
    (false, STOPPED_SENT, 340, 3),
    (false, Place::Confirm, 191, 4),
    (false, Place::Confirm, 192, 5),
    (false, UP, 191, 6),
    (false, UP, 192, 7),
    (false, STOPPED_UP, 192, 4),
];

#[test]
fn each_state_has_as_many_steps_as_its_rows_say(rt: HostRuntime) {
    let link = link_of_a_and_b(&rt);
    for (may, place, second, count) in &HIDDEN {
        let head = head_of(*place, link);
        let steps = hidden_steps(&router_a(&rt, *may), head, *second);
        assert!(rt; steps.len() == *count, "{head:?} at {second}");
    }
}

/// A state, a message, how many steps there are, and whether changes stand beside them.
type Row = (Place, &'static [u8], usize, bool);

/// The NOTIFICATION Unsupported Version Number, 2/1.
const VERSION: [u8; 23] = [
    255, 255, 255, 255, 255, 255, 255, 255, 255, 255, 255, 255, 255, 255, 255, 255, // marker
    0x00, 0x17, // Length: 23
    0x03, // Type: NOTIFICATION
    0x02, 0x01, // Unsupported Version Number
    0x00, 0x04, // data: 4
];

/// The NOTIFICATION Bad Peer AS, 2/2.
const PEER: [u8; 21] = [
    255, 255, 255, 255, 255, 255, 255, 255, 255, 255, 255, 255, 255, 255, 255, 255, // marker
    0x00, 0x15, // Length: 21
    0x03, // Type: NOTIFICATION
    0x02, 0x02, // Bad Peer AS
];

/// Fewer octets than a header has are no message.
const SHORT_OF_A_HEADER: [u8; 18] = [
    255, 255, 255, 255, 255, 255, 255, 255, 255, 255, 255, 255, 255, 255, 255, 255, // marker
    0x00, 0x13, // Length: 19
];

/// Idle ignores what is no message too. In no other state than Established is an UPDATE applied,
/// and no other message is.
static ROWS: [Row; 15] = [
    (SENT, &OPEN_B, 3, false),
    (SENT, &ADMINISTRATIVE_SHUTDOWN, 2, false),
    (SENT, &VERSION, 1, false),
    (Place::Confirm, &OPEN_B, 4, false),
    (CONNECT_DELAYED, &OPEN_B, 3, false),
    (CONNECT, &OPEN_B, 2, false),
    (SENT, &SHORT_OF_A_HEADER, 0, false),
    (IDLE, &[], 1, false),
    (Place::Confirm, &ANNOUNCES_10, 1, false),
    (IDLE, &ANNOUNCES_10, 1, false),
    (IDLE, &VERSION, 1, false),
    (IDLE, &PEER, 1, false),
    (IDLE, &ADMINISTRATIVE_SHUTDOWN, 1, false),
    (UP, &KEEPALIVE, 1, false),
    (UP, &OPEN_B, 4, false),
];

/// The UPDATE of MP_REACH_TRANSITIVE, IPv6 with wrong flags alone, with an MP_UNREACH_NLRI of IPv4
/// whose flags are as wrong: either family may be disabled or not.
const WRONG_FLAGS_TWICE: [u8; 73] = [
    255, 255, 255, 255, 255, 255, 255, 255, 255, 255, 255, 255, 255, 255, 255, 255, // marker
    0x00, 0x49, // Length: 73
    0x02, // Type: UPDATE
    0x00, 0x00, // Withdrawn Routes Length: 0
    0x00, 0x32, // Total Path Attribute Length: 50
    0x40, 0x01, 0x01, 0x00, // ORIGIN: IGP
    0x40, 0x02, 0x06, 0x02, 0x01, 0x00, 0x00, 0xfd, 0xea, // AS_PATH: a sequence of 65002
    0xc0, 0x0e, 0x1a, // MP_REACH_NLRI, 26 octets, Transitive set
    0x00, 0x02, 0x01, // IPv6 unicast
    0x10, // next hop of 16 octets
    0x20, 0x01, 0x0d, 0xb8, 0x00, 0x00, 0x00, 0x00, // 2001:db8::2, its first half
    0x00, 0x00, 0x00, 0x00, 0x00, 0x00, 0x00, 0x02, // and its second
    0x00, // reserved
    0x20, 0x20, 0x01, 0x0d, 0xb8, // NLRI: 2001:db8::/32
    0xc0, 0x0f, 0x05, // MP_UNREACH_NLRI, 5 octets, Transitive set
    0x00, 0x01, 0x01, // IPv4 unicast
    0x08, 0x0a, // Withdrawn Routes: 10.0.0.0/8
];

/// An UPDATE is applied with each set of families that may be disabled, or refused.
static UPDATES: [Row; 6] = [
    (UP, &ANNOUNCES_10, 1, true),
    (UP, &ORIGIN_OF_3, 1, true),
    (UP, &NEXT_HOP_OF_5, 2, true),
    (UP, &MP_REACH_TRANSITIVE, 3, true),
    (UP, &MP_UNREACH_TWICE, 1, false),
    (UP, &WRONG_FLAGS_TWICE, 5, true),
];

/// Whether a state has so many steps about a message, at 120, and changes beside them or not.
fn has_steps(alloc: Global, config: &Config, link: Link, row: &'static Row) -> bool {
    let (place, message, count, has_changes) = *row;
    let head = head_of(place, link);
    let mut steps = ArrayVec::new();
    match list_message_steps(alloc, config, head, 120, message, &mut steps) {
        Ok(changes) => steps.len() == count && changes.is_some() == has_changes,
        Err(_) => false,
    }
}

#[test]
fn each_message_has_as_many_steps_as_its_rows_say(rt: HostRuntime) {
    let config = router_a(&rt, false);
    let link = link_of_a_and_b(&rt);
    for row in ROWS.iter().chain(&UPDATES) {
        assert!(rt; has_steps(rt.alloc(), &config, link, row), "{:?}", row.1);
    }
}

/// An UPDATE whose three fields are empty (RFC 4724, 2).
const EMPTY_UPDATE: [u8; 23] = [
    255, 255, 255, 255, 255, 255, 255, 255, 255, 255, 255, 255, 255, 255, 255, 255, // marker
    0, 23, // Length
    2, // Type: UPDATE
    0, 0, // Withdrawn Routes Length
    0, 0, // Total Path Attribute Length
];

/// A KEEPALIVE, and an octet behind it.
const BEHIND: [u8; 20] = [
    255, 255, 255, 255, 255, 255, 255, 255, 255, 255, 255, 255, 255, 255, 255, 255, // marker
    0, 19, // Length
    4, // Type: KEEPALIVE
    0, // behind it
];

#[test]
fn no_update_is_clean_without_a_link_and_no_octets_are_behind_a_message(rt: HostRuntime) {
    let config = router_a(&rt, false);
    assert!(rt; meets(&config, None, Want::KeepAlive, &KEEPALIVE));
    assert!(rt; !meets(&config, None, Want::KeepAlive, &BEHIND));
    assert!(rt; !meets(&config, None, Want::CleanUpdate, &EMPTY_UPDATE));
}

/// The NOTIFICATION with this code and subcode, and without data.
const fn notification(code: u8, subcode: u8) -> [u8; 21] {
    [
        255, 255, 255, 255, 255, 255, 255, 255, 255, 255, 255, 255, 255, 255, 255, 255, // marker
        0x00, 0x15, // Length: 21
        0x03, // Type: NOTIFICATION
        code, subcode,
    ]
}

/// Whether the SendHoldTimer may expire in a state.
fn may_expire(config: &Config, place: Place, link: Link) -> bool {
    let row = HiddenRow::SendHoldExpires;
    hidden_step(config, head_of(place, link), 102, row).is_some()
}

#[test]
fn the_send_hold_timer_expires_in_established_and_sends_8_0(rt: HostRuntime) {
    let config = router_a(&rt, false);
    let link = link_of_a_and_b(&rt);
    assert!(rt; may_expire(&config, UP, link));
    assert!(rt; !may_expire(&config, STOPPED_UP, link));
    assert!(rt; !may_expire(&config, Place::Confirm, link));
    assert!(rt; !may_expire(&config, SENT, link));
    let want = Want::SendHoldExpired;
    assert!(rt; meets(&config, Some(link), want, &notification(8, 0)));
    assert!(rt; !meets(&config, Some(link), want, &notification(8, 1)));
    assert!(rt; !meets(&config, Some(link), want, &notification(4, 0)));
    assert!(rt; !meets(&config, Some(link), Want::HoldExpired, &notification(8, 0)));
}
