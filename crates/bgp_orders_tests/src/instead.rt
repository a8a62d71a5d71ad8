//! What could have been sent in place of the first message of an exchange that isn't explained.

use crate::explained::{ROWS, Row, exchange_of, router_a};
use bgp_instead::{Sendable, sendable_instead};
use bgp_open::OpenSubcodes;
use bgp_orders::Explained;
use bgp_reason::FsmErrors;
use bgp_update::Subcodes;
use bgp_wire::HeaderFaults;
use std::alloc::Global;
use streams::Side;

/// No message.
pub(crate) const NOTHING: Sendable = Sendable {
    own_open: false,
    keepalive: false,
    update: false,
    header_errors: HeaderFaults {
        marker: false,
        length: None,
        kind: None,
    },
    open_errors: OpenSubcodes {
        unspecific: false,
        version: false,
        peer_as: false,
        identifier: false,
        parameter: false,
        hold: false,
        capability: false,
        role: false,
    },
    update_errors: Subcodes {
        malformed_attribute_list: false,
        unrecognized_well_known: false,
        missing_well_known: false,
        attribute_flags: false,
        attribute_length: false,
        invalid_origin: false,
        as_routing_loop: false,
        invalid_next_hop: false,
        optional_attribute: false,
        invalid_network_field: false,
        malformed_as_path: false,
    },
    hold_timer_expired: false,
    send_hold_timer_expired: false,
    fsm_errors: FsmErrors {
        unspecified: false,
        open_sent: false,
        open_confirm: false,
        established: false,
    },
    cease: false,
};

/// What is sent in Established by itself.
fn established() -> Sendable {
    Sendable {
        keepalive: true,
        update: true,
        send_hold_timer_expired: true,
        cease: true,
        ..NOTHING
    }
}

/// The same, with Malformed Attribute List.
fn with_malformed(sendable: Sendable) -> Sendable {
    Sendable {
        update_errors: Subcodes {
            malformed_attribute_list: true,
            ..sendable.update_errors
        },
        ..sendable
    }
}

/// The answers in Established to a header whose Length is 18: its fault, or that no such event is
/// expected there (RFC 4271, 8.2.2, event 21).
fn bad_length() -> Sendable {
    Sendable {
        header_errors: HeaderFaults {
            marker: false,
            length: Some(18),
            kind: None,
        },
        fsm_errors: FsmErrors {
            unspecified: true,
            established: true,
            ..NOTHING.fsm_errors
        },
        ..NOTHING
    }
}

/// What refuses any OPEN.
fn refused_open() -> Sendable {
    Sendable {
        open_errors: OpenSubcodes {
            hold: true,
            capability: true,
            role: true,
            ..NOTHING.open_errors
        },
        ..NOTHING
    }
}

/// What could have been sent in place of the first message of this row that isn't explained.
fn expected(index: usize) -> Option<Sendable> {
    match index {
        // The header with a bad length is overdue, and then the UPDATE at fault.
        1 => Some(bad_length()),
        4 => Some(with_malformed(NOTHING)),
        // Both UPDATEs are overdue, and the second can't be read before the first is answered.
        7 => Some(NOTHING),
        // The UPDATE at fault may be read or not.
        8 => Some(with_malformed(established())),
        // The HoldTimer was set again; a second OPEN.
        10 | 13 => Some(established()),
        // The OPEN is delayed, which isn't configured.
        15 => Some(refused_open()),
        _ => None,
    }
}

/// What could have been sent in place of the first message of a row that isn't explained, over a
/// connection that this side opened.
fn instead_of(alloc: Global, row: &Row, opened_by: Side) -> Option<Sendable> {
    let config = router_a(row.delays)?;
    let exchange = exchange_of(row, opened_by);
    let Explained::Only(before) = row.explained else {
        return None;
    };
    sendable_instead(alloc, &config, &exchange, row.within, before).ok()?
}

#[test]
fn messages_are_sendable_in_some_order(rt: HostRuntime) {
    for index in 0..ROWS.len() {
        let row = &ROWS[index];
        assert!(rt; instead_of(rt.alloc(), row, Side::Peer) == expected(index));
        assert!(rt; instead_of(rt.alloc(), row, Side::Local) == expected(index));
    }
}
