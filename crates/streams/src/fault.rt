//! Why a connection is refused, and where.

ghost use Rattle.std.specs.Prelude.{◌≡◌};
ghost use Rattle.streams.specs.Fault.{fault_number, fault_name, packet_of};

use crate::passed::Side;
use thiserror::Error;

/// Why the segments of a recording aren't one connection with two streams. The packet is counted
/// from 1; `from` is who sends the stream, and `place` is the place of an octet in it, where 0 is
/// the first after the SYN.
#[derive(Clone, Copy, Debug, PartialEq, Eq, Error)]
pub enum Fault {
    /// A segment has data octets that the recording lacks.
    #[error("a segment was not recorded whole (packet {packet})")]
    Cut { packet: u64 },
    /// A packet's second is below that of the connection's packet before.
    #[error("the time of a packet is before that of the packet before (packet {packet})")]
    TimeBack { packet: u64 },
    /// No connection holds octets, or none has the number that was asked for: at the recording's
    /// last packet.
    #[error("there is no such connection (packet {packet})")]
    NoConnection { packet: u64 },
    /// Several connections hold octets, and none was named: at the first packet of the second.
    #[error("there are several connections (packet {packet})")]
    Several { packet: u64 },
    /// A segment has data or a FIN, and its side had no SYN; or a segment acknowledges what the
    /// other side sent, whose SYN isn't in the connection: half of it is in the recording.
    #[error("the recording doesn't have the start of a connection (packet {packet})")]
    NoStart { packet: u64 },
    /// An octet was given before with another value, or stands after the FIN; or a FIN stands
    /// elsewhere than the FIN before it, or isn't after all octets.
    #[error("a segment contradicts one before it (packet {packet}, octet {place})")]
    Conflict { packet: u64, from: Side, place: u64 },
    /// An octet was sent, as a packet shows, and isn't in the recording.
    #[error("the recording lacks an octet that was sent (packet {packet}, octet {place})")]
    Missing { packet: u64, from: Side, place: u64 },
    /// An octet was given for the first time after its side had sent a RST.
    #[error("an octet was sent after a RST (packet {packet}, octet {place})")]
    AfterReset { packet: u64, from: Side, place: u64 },
}

impl Fault {
    /// Its number: 8 to 15.
    pub fn number(self) -> u8
        ensures { result ≡ fault_number self }
    {
        match self {
            Fault::Cut { .. } => 8,
            Fault::TimeBack { .. } => 9,
            Fault::NoConnection { .. } => 10,
            Fault::Several { .. } => 11,
            Fault::NoStart { .. } => 12,
            Fault::Conflict { .. } => 13,
            Fault::Missing { .. } => 14,
            Fault::AfterReset { .. } => 15,
        }
    }

    /// Its name, as a program may print it.
    pub fn name(self) -> &'static str
        ensures { result.now ≡ fault_name self }
    {
        match self {
            Fault::Cut { .. } => "Cut",
            Fault::TimeBack { .. } => "TimeBack",
            Fault::NoConnection { .. } => "NoConnection",
            Fault::Several { .. } => "Several",
            Fault::NoStart { .. } => "NoStart",
            Fault::Conflict { .. } => "Conflict",
            Fault::Missing { .. } => "Missing",
            Fault::AfterReset { .. } => "AfterReset",
        }
    }

    /// The number of the packet at which it is told, counted from 1; 0 of a recording without
    /// packets.
    pub fn packet(self) -> u64
        ensures { result ≡ packet_of self }
    {
        match self {
            Fault::Cut { packet }
            | Fault::TimeBack { packet }
            | Fault::NoConnection { packet }
            | Fault::Several { packet }
            | Fault::NoStart { packet }
            | Fault::Conflict { packet, .. }
            | Fault::Missing { packet, .. }
            | Fault::AfterReset { packet, .. } => packet,
        }
    }
}
