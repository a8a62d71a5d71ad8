//! Kinds of messages.

use bgp_open::OpenSubcodes;
use bgp_reason::FsmErrors;
use bgp_update::Subcodes;
use bgp_wire::HeaderFaults;

/// Which messages could have been sent in a place, kind by kind: in some order that the packets
/// allow, with all that was sent before it.
#[derive(Clone, Copy, Debug, PartialEq, Eq)]
pub struct Sendable {
    /// The local system's OPEN (RFC 4271, 4.2).
    pub own_open: bool,
    /// A KEEPALIVE (RFC 4271, 4.4).
    pub keepalive: bool,
    /// An UPDATE without a fault of any kind (RFC 4271, 4.3).
    pub update: bool,
    /// A NOTIFICATION, Message Header Error with one of these (RFC 4271, 6.1).
    pub header_errors: HeaderFaults,
    /// OPEN Message Error with one of these (RFC 4271, 6.2).
    pub open_errors: OpenSubcodes,
    /// UPDATE Message Error with one of these (RFC 4271, 6.3).
    pub update_errors: Subcodes,
    /// Hold Timer Expired (RFC 4271, 6.5).
    pub hold_timer_expired: bool,
    /// Send Hold Timer Expired (RFC 9687, 4).
    pub send_hold_timer_expired: bool,
    /// Finite State Machine Error with one of these (RFC 4271, 6.6; RFC 6608, 3).
    pub fsm_errors: FsmErrors,
    /// Cease (RFC 4271, 6.7).
    pub cease: bool,
}
