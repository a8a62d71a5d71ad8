//! What a capture's records show of one session (RFC 6396, 4.4).

use bgp_prefix::{Address, Seconds};

/// One record of a session. It borrows its message from who read it.
#[derive(Clone, Copy, Debug, PartialEq, Eq)]
pub enum Record<'a> {
    /// A message that the local system received: the second, and all its octets.
    In(Seconds, &'a [u8]),
    /// A message that the local system sent.
    Out(Seconds, &'a [u8]),
    /// A change of the local system's state: the second, the old state and the new one, by the
    /// numbers of RFC 6396, 4.4.1: 1 Idle to 6 Established.
    Change(Seconds, u16, u16),
}

/// The two addresses that a record names. The default is a blank.
#[derive(Clone, Copy, Debug, PartialEq, Eq)]
pub struct Endpoints {
    /// The peer's address.
    pub peer: Address,
    /// The local system's address.
    pub local: Address,
}

impl Default for Endpoints {
    fn default() -> Endpoints {
        Endpoints {
            peer: Address::V4(0),
            local: Address::V4(0),
        }
    }
}
