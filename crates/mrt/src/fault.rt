//! Why a capture is refused, and where.

ghost use Rattle.std.specs.Prelude.{◌≡◌};
ghost use Rattle.mrt.specs.Fault.{fault_number, fault_name};

use thiserror::Error;

/// Why a capture is refused (RFC 6396, 2 and 4.4).
#[derive(Clone, Copy, Debug, PartialEq, Eq, Error)]
pub enum FaultKind {
    /// The capture ends inside a record.
    #[error("the capture ends inside a record")]
    Truncated = 1,
    /// A record's Length is above [`PLAIN_BODY`](crate::PLAIN_BODY), or above
    /// [`LONGEST_BODY`](crate::LONGEST_BODY) where the session's messages may be extended ones
    /// (RFC 8654).
    #[error("a record is longer than any that is read")]
    TooLong = 2,
    /// A record's fields run over its body, its addresses are of no known family, or a change of
    /// state doesn't have two states.
    #[error("a record's body doesn't have its fields")]
    Body = 3,
    /// A state is none of the six.
    #[error("a change of state names an unknown state")]
    BadState = 4,
    /// What should be a message has fewer octets than a header, or another count than its sound
    /// header says.
    #[error("a record doesn't hold one whole message")]
    NotAMessage = 5,
    /// A record's second is below that of the session's record before.
    #[error("the time of a record is before that of the record before")]
    TimeBack = 6,
    /// A message is a ROUTE-REFRESH, and the session may have one and doesn't pass it over.
    #[error("a message is a ROUTE-REFRESH")]
    RouteRefresh = 7,
    /// The record's subtype is one of ADD-PATH.
    #[error("a record has additional paths")]
    AddPath = 8,
    /// A read failed.
    #[error("the capture can't be read")]
    Device = 9,
    /// The reader's buffer couldn't be made.
    #[error("out of memory")]
    Memory = 10,
}

impl FaultKind {
    /// Its number: 1 to 8 for what is wrong in the octets, 9 for a device and 10 for memory.
    pub fn number(self) -> u8
        ensures { result ≡ fault_number self }
    {
        self as u8
    }

    /// Its name, as `bgp` prints it.
    pub fn name(self) -> &'static str
        ensures { result.now ≡ fault_name self }
    {
        match self {
            FaultKind::Truncated => "Truncated",
            FaultKind::TooLong => "TooLong",
            FaultKind::Body => "Body",
            FaultKind::BadState => "BadState",
            FaultKind::NotAMessage => "NotAMessage",
            FaultKind::TimeBack => "TimeBack",
            FaultKind::RouteRefresh => "RouteRefresh",
            FaultKind::AddPath => "AddPath",
            FaultKind::Device => "Device",
            FaultKind::Memory => "Memory",
        }
    }
}

/// Why a capture is refused, and the offset of the first octet of the record that is at fault.
#[derive(Clone, Copy, Debug, PartialEq, Eq, Error)]
#[error("{kind} (at octet {offset})")]
pub struct CaptureFault {
    /// Why.
    pub kind: FaultKind,
    /// Where.
    pub offset: u64,
}
