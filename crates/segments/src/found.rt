//! What is found in a packet.

use bgp_prefix::Address;

/// The addresses of a packet of IP.
#[derive(Clone, Copy, Debug, PartialEq, Eq, PartialOrd, Ord)]
pub struct Addresses {
    /// Who sent it.
    pub from: Address,
    /// Who it was sent to.
    pub to: Address,
}

/// One end of a TCP connection.
#[derive(Clone, Copy, Debug, PartialEq, Eq, PartialOrd, Ord)]
pub struct Endpoint {
    pub address: Address,
    pub port: u16,
}

/// The two ends between which a segment went.
#[derive(Clone, Copy, Debug, PartialEq, Eq, PartialOrd, Ord)]
pub struct Ends {
    /// Who sent it.
    pub from: Endpoint,
    /// Who it was sent to.
    pub to: Endpoint,
}

/// Three of the control bits of a segment (RFC 9293, 3.1).
#[derive(Clone, Copy, Debug, PartialEq, Eq)]
pub struct Flags {
    /// It begins a direction of a connection.
    pub syn: bool,
    /// It ends a direction. A segment with `rst` has no `fin` here.
    pub fin: bool,
    /// It breaks the connection off.
    pub rst: bool,
}

/// A TCP segment (RFC 9293, 3.1). It borrows its octets from the packet.
#[derive(Clone, Copy, Debug, PartialEq, Eq)]
pub struct Segment<'a> {
    pub ends: Ends,
    /// The sequence number of the first data octet, or of the SYN.
    pub sequence: u32,
    pub flags: Flags,
    /// The acknowledgment number, where the segment acknowledges.
    pub acknowledgment: Option<u32>,
    /// The data octets that were kept, from the first on. A segment with `rst` has none here.
    pub octets: &'a [u8],
    /// How many data octets it had on the wire: more than were kept where the recording cut it. A
    /// segment with `rst` has none here.
    pub wire_count: usize,
}

/// What is found in a packet.
#[derive(Clone, Copy, Debug, PartialEq, Eq)]
pub enum Found<'a> {
    /// No TCP segment, or too little of one to tell.
    Nothing,
    /// It was recorded on a link of this type, which is unknown.
    UnknownLink(u16),
    /// A fragment of an IP packet, of which a segment may be part. Its ports may not be in it.
    Fragment(Addresses),
    /// A TCP segment whose ports were not kept.
    NoPorts(Addresses),
    /// A TCP segment whose header was not kept to its end.
    CutHeader(Ends),
    /// A TCP segment.
    Segment(Segment<'a>),
}
