//! What a capture can't show of the session machine: how many steps a state has, where silence
//! leads, which fault of a set is named first, what a step leaves that no session takes, and
//! refused memory. What captures show, each row of docs/SESSION-MACHINE.md, is told by sessions of
//! `real_captures` (`rows-by-hand.txt`). Numbers of steps were written down by hand from those
//! tables.

mod faults;
mod listing;
mod silent;
mod taking;

use bgp_machine::{Head, HoldTimer};
use bgp_open::{Config, ConfigParts, Families, Link, negotiate, read_open};
use bgp_vectors::ROUTER_A;
use bgp_wire::vectors::OPEN_B;
use std::process::Abort;

/// The HoldTimer of a session, set at 102 for 90 seconds.
const TIMER: HoldTimer = HoldTimer {
    since: 102,
    span: 90,
};

/// The large HoldTimer of OpenSent, set at 100.
const LARGE: HoldTimer = HoldTimer {
    since: 100,
    span: 240,
};

/// Router A.
fn router_a(rt: &impl Abort, delay_open: bool) -> Config {
    let parts = ConfigParts {
        delay_open,
        ..ROUTER_A
    };
    Config::new(parts).expect(rt, "no configuration")
}

/// What routers A and B settle.
fn link_of_a_and_b(rt: &impl Abort) -> Link {
    let config = router_a(rt, false);
    negotiate(&config, &read_open(&OPEN_B).ok().expect(rt, "no OPEN"))
}

/// Established between routers A and B.
fn up(rt: &impl Abort) -> Head {
    Head::Established(link_of_a_and_b(rt), TIMER)
}
