//! How a session ended.

use bgp_open::Notification;
use bgp_recording::Moment;
use streams::{Closing, Side};

/// How a session ended.
#[derive(Clone, Copy, Debug, PartialEq, Eq)]
pub enum How<'a> {
    /// By a NOTIFICATION (RFC 4271, 4.5).
    Notified(Notification<'a>),
    /// By a FIN or a RST of TCP, without a NOTIFICATION.
    Closed(Closing),
    /// By a change from the state of this number (RFC 6396, 4.4.1) to Idle, without a NOTIFICATION:
    /// of a capture, whose records tell states.
    Fallen(u16),
}

/// The end of a session.
#[derive(Clone, Copy, Debug, PartialEq, Eq)]
pub struct Ended<'a> {
    /// The packet that shows it, or in a capture the record.
    pub moment: Moment,
    /// Who ended it.
    pub by: Side,
    /// How.
    pub how: How<'a>,
}

/// What is known of a connection once both of its streams are read.
#[derive(Clone, Copy, Debug, PartialEq, Eq)]
pub struct Outline<'a> {
    /// The AS number that the local system's OPEN tells, if it sent one.
    pub local_as: Option<u32>,
    /// That of the peer's.
    pub peer_as: Option<u32>,
    /// Its end, if the recording has one.
    pub ended: Option<Ended<'a>>,
}
