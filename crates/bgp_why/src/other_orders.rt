//! What could have been sent in the impossible record's place in other orders of a recording's
//! messages, beside what the order of its records allows.

ghost use Rattle.std.specs.Prelude.{◌≡◌};
ghost use Rattle.bgp_why.specs.OtherOrders.{beside, besides, count_beside, expiry_beside};
ghost use Rattle.bgp_why.specs.OtherOrders.{fsm_errors_beside, header_errors_beside};
ghost use Rattle.bgp_why.specs.OtherOrders.{open_errors_beside, update_errors_beside};

use bgp_open::OpenSubcodes;
use bgp_prefix::Seconds;
use bgp_update::Subcodes;
use bgp_why_parts::{FsmErrors, Possible, States};
use bgp_wire::HeaderFaults;

/// What is said of other orders of a recording's messages than that of its records.
#[derive(Clone, Copy, Debug, PartialEq, Eq)]
pub enum OtherOrders {
    /// Nothing.
    Unasked,
    /// That it isn't known what could have been sent in the impossible record's place.
    Unknown,
    /// Each of these could have been sent in its place in some order, and nothing else. Hold Timer
    /// Expired is so from the second of that record on.
    Known(Possible),
}

/// Checks whether the other one is so, and not the one.
fn beside(one: bool, other: bool) -> bool
    ensures { result ≡ beside one other }
{
    other && !one
}

/// Returns the length that the other one has, unless the one has the same.
fn length_beside(one: Option<u16>, other: Option<u16>) -> Option<u16>
    ensures { result ≡ count_beside one other }
{
    let Some(told) = one else {
        return other;
    };
    match other {
        None => None,
        Some(found) => { if told == found { None } else { Some(found) } }
    }
}

/// Returns the type that the other one has, unless the one has the same.
fn kind_beside(one: Option<u8>, other: Option<u8>) -> Option<u8>
    ensures { result ≡ count_beside one other }
{
    let Some(told) = one else {
        return other;
    };
    match other {
        None => None,
        Some(found) => { if told == found { None } else { Some(found) } }
    }
}

/// Returns the errors in a message's header that the other one has, and not the one.
fn header_errors_beside(one: HeaderFaults, other: HeaderFaults) -> HeaderFaults
    ensures { result ≡ header_errors_beside one other }
{
    HeaderFaults {
        marker: beside(one.marker, other.marker),
        length: length_beside(one.length, other.length),
        kind: kind_beside(one.kind, other.kind),
    }
}

/// Returns the errors in an OPEN that the other one has, and not the one.
fn open_errors_beside(one: OpenSubcodes, other: OpenSubcodes) -> OpenSubcodes
    ensures { result ≡ open_errors_beside one other }
{
    OpenSubcodes {
        unspecific: beside(one.unspecific, other.unspecific),
        version: beside(one.version, other.version),
        peer_as: beside(one.peer_as, other.peer_as),
        identifier: beside(one.identifier, other.identifier),
        parameter: beside(one.parameter, other.parameter),
        hold: beside(one.hold, other.hold),
        capability: beside(one.capability, other.capability),
        role: beside(one.role, other.role),
    }
}

/// Returns the errors in an UPDATE that the other one has, and not the one.
fn update_errors_beside(one: Subcodes, other: Subcodes) -> Subcodes
    ensures { result ≡ update_errors_beside one other }
{
    Subcodes {
        malformed_attribute_list: beside(
            one.malformed_attribute_list,
            other.malformed_attribute_list,
        ),
        unrecognized_well_known: beside(one.unrecognized_well_known, other.unrecognized_well_known),
        missing_well_known: beside(one.missing_well_known, other.missing_well_known),
        attribute_flags: beside(one.attribute_flags, other.attribute_flags),
        attribute_length: beside(one.attribute_length, other.attribute_length),
        invalid_origin: beside(one.invalid_origin, other.invalid_origin),
        as_routing_loop: beside(one.as_routing_loop, other.as_routing_loop),
        invalid_next_hop: beside(one.invalid_next_hop, other.invalid_next_hop),
        optional_attribute: beside(one.optional_attribute, other.optional_attribute),
        invalid_network_field: beside(one.invalid_network_field, other.invalid_network_field),
        malformed_as_path: beside(one.malformed_as_path, other.malformed_as_path),
    }
}

/// Returns the errors of the session's state that the other one has, and not the one.
fn fsm_errors_beside(one: FsmErrors, other: FsmErrors) -> FsmErrors
    ensures { result ≡ fsm_errors_beside one other }
{
    FsmErrors {
        unspecified: beside(one.unspecified, other.unspecified),
        open_sent: beside(one.open_sent, other.open_sent),
        open_confirm: beside(one.open_confirm, other.open_confirm),
        established: beside(one.established, other.established),
    }
}

/// Returns that Hold Timer Expired is due, if it is so from the second on that the other one has,
/// and the one doesn't have it then.
fn expiry_beside(one: Option<Seconds>, other: Option<Seconds>) -> Option<Seconds>
    ensures { result ≡ expiry_beside one other }
{
    let second = other?;
    let Some(from) = one else {
        return Some(0);
    };
    if from <= second { None } else { Some(0) }
}

/// Returns what the other one says could be sent, and the one doesn't.
pub(crate) fn besides(one: &Possible, other: &Possible) -> Possible
    ensures { result ≡ besides one.now other.now }
{
    Possible {
        state: one.state,
        message: false,
        own_open: beside(one.own_open, other.own_open),
        keepalive: beside(one.keepalive, other.keepalive),
        update: beside(one.update, other.update),
        header_errors: header_errors_beside(one.header_errors, other.header_errors),
        open_errors: open_errors_beside(one.open_errors, other.open_errors),
        update_errors: update_errors_beside(one.update_errors, other.update_errors),
        hold_timer_expired: expiry_beside(one.hold_timer_expired, other.hold_timer_expired),
        send_hold_timer_expired: beside(one.send_hold_timer_expired, other.send_hold_timer_expired),
        fsm_errors: fsm_errors_beside(one.fsm_errors, other.fsm_errors),
        cease: beside(one.cease, other.cease),
        changes: States {
            idle: false,
            connect: false,
            active: false,
            open_sent: false,
            open_confirm: false,
            established: false,
        },
    }
}
