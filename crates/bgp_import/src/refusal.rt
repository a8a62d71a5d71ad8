//! Why a recording is refused, and where.

ghost use Rattle.std.specs.Prelude.{◌≡◌};
ghost use Rattle.bgp_import.specs.Refusals.{refusal_number, refusal_name, refusal_packet};
ghost use Rattle.bgp_import.specs.Refusals.{cause_of, refusal_place, direction_text};

use packets::{FaultKind, FileFault};
use segments::PacketFault;
use std::fmt;
use streams::{Fault, Side};

/// The number of the refusal for a ROUTE-REFRESH.
const ROUTE_REFRESH: u8 = 18;

/// Why a recording is refused. Each refusal has a number and a name, and the number of a packet,
/// which is counted from 1.
#[derive(Clone, Copy, Debug, PartialEq, Eq)]
pub enum Refusal {
    /// The file can't be read on: what is wrong in it, a device that failed, or no memory.
    File(FileFault),
    /// A packet of the session can't be read.
    Packet {
        /// Why.
        fault: PacketFault,
        /// The number of the packet.
        packet: u64,
    },
    /// The session's connections, or the segments of one, aren't what is wanted.
    Connection(Fault),
    /// There was no memory for what is held.
    Memory {
        /// The number of the packet.
        packet: u64,
    },
    /// A ROUTE-REFRESH (RFC 2918) of a session that is to be judged and may have one.
    RouteRefresh {
        /// The number of the packet by which it came or was made.
        packet: u64,
        /// Who sent it.
        from: Side,
        /// The place of its first octet in the stream.
        place: u64,
    },
}

/// What a refusal is for.
#[derive(Clone, Copy, Debug, PartialEq, Eq)]
pub enum Cause {
    /// The octets of the file, or what its packets tell.
    Recording,
    /// Memory.
    Memory,
    /// A device.
    Device,
}

/// An octet of one of a connection's two streams.
#[derive(Clone, Copy, Debug, PartialEq, Eq)]
pub(crate) struct Place {
    pub(crate) from: Side,
    pub(crate) octet: u64,
}

impl Refusal {
    /// Its number, 1 to 18.
    pub fn number(self) -> u8
        ensures { result ≡ refusal_number self }
    {
        match self {
            Refusal::File(fault) => fault.kind.number(),
            Refusal::Packet { fault, .. } => fault.number(),
            Refusal::Connection(fault) => fault.number(),
            Refusal::Memory { .. } => FaultKind::Memory.number(),
            Refusal::RouteRefresh { .. } => ROUTE_REFRESH,
        }
    }

    /// Its name.
    pub fn name(self) -> &'static str
        ensures { result.now ≡ refusal_name self }
    {
        match self {
            Refusal::File(fault) => fault.kind.name(),
            Refusal::Packet { fault, .. } => fault.name(),
            Refusal::Connection(fault) => fault.name(),
            Refusal::Memory { .. } => FaultKind::Memory.name(),
            Refusal::RouteRefresh { .. } => "RouteRefresh",
        }
    }

    /// The number of the packet at which it is told: 0 of a recording without packets.
    pub fn packet(self) -> u64
        ensures { result ≡ refusal_packet self }
    {
        match self {
            Refusal::File(fault) => fault.packet,
            Refusal::Packet { packet, .. }
            | Refusal::Memory { packet }
            | Refusal::RouteRefresh { packet, .. } => packet,
            Refusal::Connection(fault) => fault.packet(),
        }
    }

    /// What it is for.
    pub fn cause(self) -> Cause
        ensures { result ≡ cause_of self }
    {
        match self {
            Refusal::File(
                FileFault {
                    kind: FaultKind::Device,
                    ..
                },
            ) => Cause::Device,
            Refusal::File(
                FileFault {
                    kind: FaultKind::Memory,
                    ..
                },
            )
            | Refusal::Memory { .. } => Cause::Memory,
            Refusal::File(_)
            | Refusal::Packet { .. }
            | Refusal::Connection(_)
            | Refusal::RouteRefresh { .. } => Cause::Recording,
        }
    }

    /// The octet that it names, if it names one.
    pub(crate) fn place(self) -> Option<Place>
        ensures { result ≡ refusal_place self }
    {
        match self {
            Refusal::Connection(
                Fault::Conflict { from, place, .. }
                | Fault::Missing { from, place, .. }
                | Fault::AfterReset { from, place, .. },
            )
            | Refusal::RouteRefresh { from, place, .. } => Some(Place { from, octet: place }),
            _ => None,
        }
    }
}

/// What the local system does with a stream that this system sends.
pub(crate) fn direction(from: Side) -> &'static str
    ensures { result.now ≡ direction_text from }
{
    match from {
        Side::Local => "sent",
        Side::Peer => "received",
    }
}

impl fmt::Display for Refusal {
    fn fmt<W: fmt::Write>(&self, f: &mut fmt::Formatter<W>) -> fmt::Result {
        let (number, name, packet) = (self.number(), self.name(), self.packet());
        write!(f, "recording refused: {number} {name} at packet {packet}")?;
        match self.place() {
            Some(Place { from, octet }) => write!(f, " {} octet {octet}", direction(from)),
            None => Ok(()),
        }
    }
}

impl From<FileFault> for Refusal {
    fn from(fault: FileFault) -> Refusal {
        Refusal::File(fault)
    }
}

impl From<Fault> for Refusal {
    fn from(fault: Fault) -> Refusal {
        Refusal::Connection(fault)
    }
}
