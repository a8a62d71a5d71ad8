//! Steps that show no record: the rows DelayBegins, and RetryExpires in Connect.

use super::*;
use bgp_machine::silent_steps;

const CONNECT: Head = Head::Connect(false);

const CONNECT_DELAYED: Head = Head::Connect(true);

const ACTIVE: Head = Head::Active(false);

const ACTIVE_DELAYED: Head = Head::Active(true);

/// Whether the OPEN may be delayed, a head, and just the heads that are reached, in this order.
static REACHED: [(bool, Head, &'static [Head]); 10] = [
    (true, CONNECT, &[CONNECT, CONNECT_DELAYED]),
    (true, CONNECT_DELAYED, &[CONNECT, CONNECT_DELAYED]),
    (true, ACTIVE, &[ACTIVE, ACTIVE_DELAYED]),
    (true, ACTIVE_DELAYED, &[ACTIVE_DELAYED]),
    (false, CONNECT, &[CONNECT]),
    (false, CONNECT_DELAYED, &[CONNECT, CONNECT_DELAYED]),
    (false, ACTIVE, &[ACTIVE]),
    (false, ACTIVE_DELAYED, &[ACTIVE_DELAYED]),
    (false, Head::Idle, &[Head::Idle]),
    (false, Head::OpenSent(LARGE), &[Head::OpenSent(LARGE)]),
];

/// Whether just these heads are reached, in this order.
fn reaches(config: &Config, head: Head, heads: &[Head]) -> bool {
    silent_steps(config, head).as_slice() == heads
}

#[test]
fn silence_begins_or_ends_a_delay(rt: HostRuntime) {
    for (may, head, heads) in &REACHED {
        assert!(rt; reaches(&router_a(&rt, *may), *head, heads), "{head:?}");
    }
    let up = up(&rt);
    let may = reaches(&router_a(&rt, true), up, &[up]);
    assert!(rt; may && reaches(&router_a(&rt, false), up, &[up]));
}
