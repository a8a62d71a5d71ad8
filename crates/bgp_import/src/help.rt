//! What helps where a recording is refused.

ghost use Rattle.std.specs.Prelude.{◌≡◌, ◌↔◌, IsNone, IfSome};
ghost use Rattle.bgp_import.specs.Refusals.{cause_of};
ghost use Rattle.bgp_import.specs.declared.refusal.Cause.TheVariants.{Device};

use crate::refusal::{Cause, Refusal};
use packets::FaultKind;
use segments::PacketFault;
use std::fmt;
use streams::Fault;

/// What helps where a recording is refused: one sentence.
#[derive(Clone, Copy, Debug, PartialEq, Eq)]
pub struct Help {
    /// Why it is refused.
    pub refusal: Refusal,
}

impl Refusal {
    /// What helps, if anything is known to: of a read that failed the device tells.
    pub fn help(self) -> Option<Help>
        ensures none { IsNone result ↔ (cause_of self ≡ Device) }
        ensures some { IfSome result (λ help. help.refusal ≡ self) }
    {
        match self.cause() {
            Cause::Device => None,
            Cause::Recording | Cause::Memory => Some(Help { refusal: self }),
        }
    }
}

/// Against a lack of memory.
const MEMORY: &str =
    "all connections of the session are held whole: try a file of fewer packets, or more memory";

/// Against what is wrong in a file.
fn file_help(kind: FaultKind) -> &'static str {
    match kind {
        FaultKind::Format => {
            "the file isn't pcap or pcapng of a known version: a compressed one has to be unpacked \
             first, as zcat does"
        }
        FaultKind::Truncated => "the file ends within its own header: nothing was recorded",
        FaultKind::TooLong => {
            "a packet or block is longer than any that is read: the file is damaged, or two were \
             joined by cat and not by mergecap"
        }
        FaultKind::Block => {
            "a block of the file is damaged, or has a packet without a time: try editcap -F pcap \
             IN OUT"
        }
        FaultKind::Time => {
            "a packet's time is before 1970 or after 2106: set the recorder's clock; editcap -t \
             shifts the times of a file"
        }
        FaultKind::Device => "the file can't be read",
        FaultKind::Memory => MEMORY,
    }
}

/// Against what is wrong in a session's connections.
fn connection_help(fault: Fault) -> &'static str {
    match fault {
        Fault::Cut { .. } => "a packet wasn't recorded whole: record with tcpdump -s 0",
        Fault::TimeBack { .. } => {
            "time goes back: if packets are out of order, reordercap IN OUT; if the clock was set, \
             record again"
        }
        Fault::NoConnection { .. } => {
            "no such connection holds octets: bgp list FILE tells which there are"
        }
        Fault::Several { .. } => {
            "the session has several connections: name one by --connection N, as bgp list FILE \
             counts them"
        }
        Fault::NoStart { .. } => {
            "a side's SYN isn't in the file: begin the recording before the session, in both \
             directions; mergecap joins files"
        }
        Fault::Conflict { .. } => {
            "octets of one place differ, or stand behind the end: two systems have one address, or \
             a packet was changed on its way"
        }
        Fault::Missing { .. } => {
            "packets are missing or out of order: record on the router, with a filter and tcpdump \
             -B 65536; reordercap IN OUT sorts"
        }
        Fault::AfterReset { .. } => {
            "a side sent octets after its RST: the RST wasn't its own, or packets are out of \
             order: reordercap IN OUT"
        }
    }
}

impl fmt::Display for Help {
    fn fmt<W: fmt::Write>(&self, f: &mut fmt::Formatter<W>) -> fmt::Result {
        match self.refusal {
            Refusal::File(fault) => f.write_str(file_help(fault.kind)),
            Refusal::Packet { fault, .. } => match fault {
                PacketFault::Link(link_type) => write!(
                    f,
                    "link type {link_type} isn't read (Ethernet, Linux cooked, loopback and raw IP \
                     are): record by tcpdump -i any on a Linux system"
                ),
                PacketFault::Fragment => f.write_str(
                    "a fragment of an IP packet can't be read: record where packets are still \
                     whole, or mend the path's MTU",
                ),
                PacketFault::Cut => {
                    f.write_str("a packet wasn't recorded whole: record with tcpdump -s 0")
                }
            },
            Refusal::Connection(fault) => f.write_str(connection_help(fault)),
            Refusal::Memory { .. } => f.write_str(MEMORY),
            Refusal::RouteRefresh { .. } => f.write_str(
                "a ROUTE-REFRESH isn't judged: --skip-refresh passes over it if nothing else is \
                 wrong in its header; --no-refresh says that the local system never offered it",
            ),
        }
    }
}
