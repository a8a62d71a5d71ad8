//! What is wrong with what is refused, in words.

ghost use Rattle.std.specs.Prelude.{◌≡◌};
ghost use Rattle.bgp_list.specs.Causes.{capture_cause, cause_text, connection_cause};
ghost use Rattle.bgp_list.specs.Causes.{file_cause, packet_cause};

use bgp_import::Refusal;
use mrt::FaultKind as CaptureFaultKind;
use packets::FaultKind;
use segments::PacketFault;
use streams::Fault;

/// What is wrong with a file of packets.
fn file_cause(kind: FaultKind) -> &'static str
    ensures { result.now ≡ file_cause kind }
{
    match kind {
        FaultKind::Format => "neither pcap nor pcapng",
        FaultKind::Truncated => "the file ends inside its own header",
        FaultKind::TooLong => "a packet or a block is too long",
        FaultKind::Block => "a block's lengths do not agree, or a packet has no time",
        FaultKind::Time => "its time is before 1970 or after 2106",
        FaultKind::Device => "a read failed",
        FaultKind::Memory => "out of memory",
    }
}

/// What is wrong with a packet.
fn packet_cause(fault: PacketFault) -> &'static str
    ensures { result.now ≡ packet_cause fault }
{
    match fault {
        PacketFault::Link(_) => "a link of a type that is not read",
        PacketFault::Fragment => "a fragment of an IP packet",
        PacketFault::Cut => "not all of the packet was recorded",
    }
}

/// What is wrong with a connection.
fn connection_cause(fault: Fault) -> &'static str
    ensures { result.now ≡ connection_cause fault }
{
    match fault {
        Fault::Cut { .. } => "not all of the packet was recorded",
        Fault::TimeBack { .. } => "its time is before that of the packet before",
        Fault::NoConnection { .. } => "no such connection",
        Fault::Several { .. } => "several connections",
        Fault::NoStart { .. } => "a side whose SYN is not in the file",
        Fault::Conflict { .. } => "one octet was sent with two values",
        Fault::Missing { .. } => "octets are missing before it",
        Fault::AfterReset { .. } => "octets after a RST",
    }
}

/// What is wrong with what is refused in a recording.
pub(crate) fn cause_of(refusal: Refusal) -> &'static str
    ensures { result.now ≡ cause_text refusal }
{
    match refusal {
        Refusal::File(fault) => file_cause(fault.kind),
        Refusal::Packet { fault, .. } => packet_cause(fault),
        Refusal::Connection(fault) => connection_cause(fault),
        Refusal::Memory { .. } => "out of memory",
        Refusal::RouteRefresh { .. } => "a ROUTE-REFRESH",
    }
}

/// What is wrong with a capture.
pub(crate) fn capture_cause(kind: CaptureFaultKind) -> &'static str
    ensures { result.now ≡ capture_cause kind }
{
    match kind {
        CaptureFaultKind::Truncated => "the file ends inside a record",
        CaptureFaultKind::TooLong => "a record's body is too long",
        CaptureFaultKind::Body => "a record's body lacks its fields",
        CaptureFaultKind::BadState => "a state that RFC 6396 does not have",
        CaptureFaultKind::NotAMessage => "not one whole message",
        CaptureFaultKind::TimeBack => "its time is before that of the record before",
        CaptureFaultKind::RouteRefresh => "a ROUTE-REFRESH",
        CaptureFaultKind::AddPath => "ADD-PATH (RFC 8050), which is not read",
        CaptureFaultKind::Device => "a read failed",
        CaptureFaultKind::Memory => "out of memory",
    }
}
