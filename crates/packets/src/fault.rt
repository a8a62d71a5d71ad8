//! Why a recording is refused, and where.

ghost use Rattle.std.specs.Prelude.{◌≡◌};
ghost use Rattle.packets.specs.Fault.{fault_number, fault_name};

use thiserror::Error;

/// Why a recording is refused.
#[derive(Clone, Copy, Debug, PartialEq, Eq, Error)]
pub enum FaultKind {
    /// It is no file of a known format, or one of another major version.
    #[error("the file is neither pcap nor pcapng")]
    Format = 1,
    /// The file ends inside a header, a packet or a block.
    #[error("the file ends inside a packet")]
    Truncated = 2,
    /// More octets were kept of a packet, or a block has more, than are read.
    #[error("a packet is longer than any that is read")]
    TooLong = 3,
    /// A block's lengths don't agree, its fields run over it, it names an interface that wasn't
    /// described, or it is a packet without a time.
    #[error("a block doesn't have its fields")]
    Block = 4,
    /// A packet's second is below 0 or above 4294967295.
    #[error("the time of a packet is out of range")]
    Time = 5,
    /// A read failed.
    #[error("the file can't be read")]
    Device = 16,
    /// There was no memory for the reader.
    #[error("out of memory")]
    Memory = 17,
}

impl FaultKind {
    /// Its number: 1 to 5 for what is wrong in the octets, 16 for a device and 17 for memory.
    pub fn number(self) -> u8
        ensures { result ≡ fault_number self }
    {
        self as u8
    }

    /// Its name, as a program may print it.
    pub fn name(self) -> &'static str
        ensures { result.now ≡ fault_name self }
    {
        match self {
            FaultKind::Format => "Format",
            FaultKind::Truncated => "Truncated",
            FaultKind::TooLong => "TooLong",
            FaultKind::Block => "Block",
            FaultKind::Time => "Time",
            FaultKind::Device => "Device",
            FaultKind::Memory => "Memory",
        }
    }
}

/// Why a recording is refused, and at which packet: the one that is read there, or that would be
/// the next.
#[derive(Clone, Copy, Debug, PartialEq, Eq, Error)]
#[error("{kind} (at packet {packet})")]
pub struct FileFault {
    /// Why.
    pub kind: FaultKind,
    /// The number of the packet, from 1.
    pub packet: u64,
}
