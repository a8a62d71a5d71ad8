//! Links as values. (Configurations, what both OPENs settle, and the local system's own OPEN are
//! compared by the program `real_captures`.)

use super::*;
use bgp_open::{Link, OpenFaults};
use bgp_wire::vectors::OPEN_B;

/// Only a `Copy` value can be given twice.
fn twice<T: Copy>(value: T) -> (T, T) {
    (value, value)
}

/// Whether a link differs from those with another value in one field.
fn differs(link: Link) -> bool {
    let (mut hold, mut as4, mut families) = (link, link, link);
    let (mut internal, mut extended) = (link, link);
    let (mut received, mut sent) = (link, link);
    hold.hold = 30;
    as4.as4 = false;
    families.families = Families::V4;
    internal.internal = true;
    extended.extended = true;
    received.received.ipv6_next_hops = true;
    sent.sent.identified = BOTH;
    let forms_differ = link != received && link != sent;
    link != hold
        && link != as4
        && link != families
        && link != internal
        && link != extended
        && forms_differ
}

/// Whether a link is copied and compared, and so is what is found in an OPEN.
fn are_copied(link: Link, again: Link, faults: OpenFaults) -> bool {
    let (one, other) = twice(link);
    let (first, second) = twice(faults);
    one == other && one == again && differs(one) && first == second
}

/// The same of what router A settles with the peer.
fn are_copied_of_b() -> bool {
    match (Config::new(ROUTER_A), read_open(&OPEN_B)) {
        (Some(config), Ok(open)) => are_copied(
            negotiate(&config, &open),
            negotiate(&config, &open),
            open_faults(&config, &OPEN_B),
        ),
        _ => false,
    }
}

#[test]
fn links_and_faults_are_small_copied_and_compared(rt: HostRuntime) {
    assert!(rt; are_copied_of_b() && size_of::<Link>() == 14 && size_of::<OpenFaults>() == 16);
}
