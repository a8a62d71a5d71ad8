//! How a reader goes on.

ghost use Rattle.std.specs.Prelude.{◌≡◌, ◌+◌, ◌<◌, List, Some, cond, true};
ghost use Rattle.packets.specs.Reading.{context_of};
ghost use Rattle.packets.specs.Recording.{CutShort, Fault, ending_at};
ghost use Rattle.packets.specs.Reader.{state_of, fresh_reader};
ghost use Rattle.packets.specs.declared.blocks.Interface.{Interface};

use crate::fault::{FaultKind, FileFault};
use crate::headers::Magic;
use crate::order::Order;

/// What a file was found to be.
#[derive(Clone, Copy)]
pub(crate) enum Format {
    /// Nothing was read yet.
    Unknown,
    /// Packets of pcap: what the magic number tells, and the type of the links.
    Pcap(Magic, u16),
    /// Blocks of pcapng: the order of numbers in the section.
    Pcapng(Order),
}

/// How far a reader is.
#[derive(Clone, Copy)]
pub(crate) struct Progress {
    pub(crate) format: Format,
    /// How many packets it answered.
    pub(crate) number: u64,
    /// Whether it told the end.
    pub(crate) is_ended: bool,
    /// Whether the recording was cut short there.
    pub(crate) is_cut: bool,
    /// The fault that it found.
    pub(crate) fault: Option<FileFault>,
}

impl Progress {
    pub(crate) fn new() -> Progress
        ensures { (interfaces : List Interface) → state_of result interfaces ≡ fresh_reader }
    {
        Progress {
            format: Format::Unknown,
            number: 0,
            is_ended: false,
            is_cut: false,
            fault: None,
        }
    }

    /// Whether a place that is refused so is the end of a recording that was cut short: the file's
    /// header is there, and what was begun after it isn't whole.
    pub(crate) fn is_cut_by(&self, kind: FaultKind) -> bool
        ensures { (interfaces : List Interface) →
            ending_at (context_of self.now.format interfaces) kind
            ≡ cond result CutShort (Fault kind) }
    {
        match (self.format, kind) {
            (Format::Unknown, _) => false,
            (_, FaultKind::Truncated) => true,
            _ => false,
        }
    }

    /// Keeps that the recording ends here, whole or cut short.
    pub(crate) fn end(&mut self, is_cut: bool)
        ensures { self.new ≡ record self.old { is_ended = true; is_cut = is_cut } }
    {
        self.is_ended = true;
        self.is_cut = is_cut;
    }

    /// Keeps a fault at the packet that would be next.
    pub(crate) fn refuse(&mut self, kind: FaultKind) -> FileFault
        requires { self.old.number < u64.MAX }
        ensures fault { result ≡ record { kind = kind; packet = self.old.number + 1 } }
        ensures state { self.new ≡ record self.old { fault = Some result } }
    {
        let fault = FileFault {
            kind,
            packet: self.number + 1,
        };
        self.fault = Some(fault);
        fault
    }
}
