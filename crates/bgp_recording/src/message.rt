//! Messages of a recorded session, each with the packet that shows it.

ghost use Rattle.std.specs.Prelude.{◌≡◌, ◌↔◌, Some, IsTrue};
ghost use Rattle.bgp_wire.specs.ErrorCode.{error_code as number_of};
ghost use Rattle.bgp_recording.specs.Changes.{answers_before_open, error_code, rejects};
ghost use Rattle.bgp_recording.specs.Moments.{moment_in};
ghost use Rattle.bgp_recording.specs.Waiting.{is_code};

use crate::pending::Moment;
use bgp_prefix::Seconds;
use bgp_wire::{ErrorCode, MessageType};

/// Where the Error code of a NOTIFICATION stands (RFC 4271, 4.5), after the header.
const ERROR_CODE: usize = 19;

/// A message of one direction.
#[derive(Clone, Copy, Debug, PartialEq, Eq)]
pub struct Message<'a> {
    /// Its octets, its header's too; those of the header alone where that is faulty.
    pub octets: &'a [u8],
    /// The type that its header says, or `None` where the header is faulty (RFC 4271, 6.1).
    pub kind: Option<MessageType>,
    /// A received message: the packet by which it was whole, with all octets before it. A sent one:
    /// the first packet that shows that it had been made.
    pub packet: u64,
    /// The packet's second.
    pub second: Seconds,
    /// The microseconds of that second's fraction, where the recording has one.
    pub micro: Option<u32>,
}

impl Message<'_> {
    /// Returns its packet.
    pub fn moment(&self) -> Moment
        ensures { result ≡ moment_in self.now }
    {
        Moment {
            packet: self.packet,
            second: self.second,
            micro: self.micro,
        }
    }

    /// Whether it is of this type.
    pub(crate) fn is(&self, kind: MessageType) -> bool
        ensures { IsTrue result ↔ (self.now.kind ≡ Some kind) }
    {
        self.kind == Some(kind)
    }

    /// The Error code, where it is a NOTIFICATION.
    pub(crate) fn error_code(&self) -> Option<u8>
        ensures { result ≡ error_code self.now }
    {
        if self.is(MessageType::Notification) {
            self.octets.get(ERROR_CODE).copied()
        } else {
            None
        }
    }

    /// Whether it is a NOTIFICATION with this Error code.
    pub(crate) fn has_code(&self, code: ErrorCode) -> bool
        ensures { result ≡ is_code (number_of code) (error_code self.now) }
    {
        match self.error_code() {
            Some(other) => other == code.code(),
            None => false,
        }
    }

    /// Whether it is a NOTIFICATION that rejects a connection before the own OPEN: Message Header
    /// Error or OPEN Message Error (RFC 4271, 6.1 and 6.2).
    fn rejects_opening(&self) -> bool
        ensures { result ≡ rejects (error_code self.now) }
    {
        match self.error_code() {
            Some(code) => {
                code == ErrorCode::MessageHeader.code() || code == ErrorCode::OpenMessage.code()
            }
            None => false,
        }
    }

    /// Whether it answers a message of this type that is received before the own OPEN: it rejects
    /// the connection, or both are OPENs, and the received one is accepted late (RFC 4271, 8.2.2,
    /// event 20).
    pub(crate) fn answers_before_open(&self, kind: Option<MessageType>) -> bool
        ensures { result ≡ answers_before_open kind self.now.kind (error_code self.now) }
    {
        match (kind, self.kind) {
            (Some(MessageType::Open), Some(MessageType::Open)) => true,
            _ => self.rejects_opening(),
        }
    }
}
