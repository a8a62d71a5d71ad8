//! What may follow a session's records.

use bgp_machine::{Fsm, Subcodes};
use bgp_open::OpenSubcodes;
use bgp_prefix::Seconds;
use bgp_wire::HeaderFaults;

/// A set of states.
#[derive(Clone, Copy, Debug, PartialEq, Eq)]
pub struct States {
    pub idle: bool,
    pub connect: bool,
    pub active: bool,
    pub open_sent: bool,
    pub open_confirm: bool,
    pub established: bool,
}

/// A set of subcodes of Finite State Machine Error (RFC 6608, 3).
#[derive(Clone, Copy, Debug, PartialEq, Eq)]
pub struct FsmErrors {
    /// Unspecified Error (subcode 0).
    pub unspecified: bool,
    /// Receive Unexpected Message in OpenSent State (subcode 1).
    pub open_sent: bool,
    /// Receive Unexpected Message in OpenConfirm State (subcode 2).
    pub open_confirm: bool,
    /// Receive Unexpected Message in Established State (subcode 3).
    pub established: bool,
}

/// What may follow a session's records, kind by kind. A message may be sent at any second, but for
/// Hold Timer Expired.
#[derive(Clone, Copy, Debug, PartialEq, Eq)]
pub struct Possible {
    /// The state that is told, which each change leaves.
    pub state: Fsm,
    /// A message is received: whichever, since a session takes all.
    pub message: bool,
    /// The local system's OPEN is sent (RFC 4271, 4.2).
    pub own_open: bool,
    /// A KEEPALIVE is sent (RFC 4271, 4.4).
    pub keepalive: bool,
    /// An UPDATE is sent, without a fault of any kind (RFC 4271, 4.3).
    pub update: bool,
    /// A NOTIFICATION is sent, Message Header Error with one of these (RFC 4271, 6.1).
    pub header_errors: HeaderFaults,
    /// OPEN Message Error with one of these (RFC 4271, 6.2).
    pub open_errors: OpenSubcodes,
    /// UPDATE Message Error with one of these (RFC 4271, 6.3).
    pub update_errors: Subcodes,
    /// Hold Timer Expired, from this second on (RFC 4271, 6.5).
    pub hold_timer_expired: Option<Seconds>,
    /// Send Hold Timer Expired (RFC 9687, 4).
    pub send_hold_timer_expired: bool,
    /// Finite State Machine Error with one of these (RFC 4271, 6.6; RFC 6608, 3).
    pub fsm_errors: FsmErrors,
    /// Cease, with any subcode and data (RFC 4271, 6.7).
    pub cease: bool,
    /// The state changes to one of these, or is noted as it is.
    pub changes: States,
}
