//! Why a packet is refused.

ghost use Rattle.std.specs.Prelude.{◌≡◌};
ghost use Rattle.segments.specs.Fault.{fault_number, fault_name};

use thiserror::Error;

/// Why a packet of a conversation is refused.
#[derive(Clone, Copy, Debug, PartialEq, Eq, Error)]
pub enum PacketFault {
    /// It was recorded on a link of this type, which is unknown.
    #[error("a packet is of an unknown link type")]
    Link(u16),
    /// It is a fragment.
    #[error("a packet is a fragment")]
    Fragment,
    /// Not enough of it was kept.
    #[error("a packet wasn't recorded whole")]
    Cut,
}

impl PacketFault {
    /// Its number: 6, 7 or 8, after those of a file.
    pub fn number(self) -> u8
        ensures { result ≡ fault_number self }
    {
        match self {
            PacketFault::Link(_) => 6,
            PacketFault::Fragment => 7,
            PacketFault::Cut => 8,
        }
    }

    /// Its name, as a program may print it.
    pub fn name(self) -> &'static str
        ensures { result.now ≡ fault_name self }
    {
        match self {
            PacketFault::Link(_) => "Link",
            PacketFault::Fragment => "Fragment",
            PacketFault::Cut => "Cut",
        }
    }
}
