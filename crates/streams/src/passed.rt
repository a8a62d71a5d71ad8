//! A segment, and where in a recording it passed.

/// One of the two systems of a connection.
#[derive(Clone, Copy, Debug, PartialEq, Eq, PartialOrd, Ord)]
pub enum Side {
    /// The system that the recording is about.
    Local,
    /// The system at the other end.
    Peer,
}

/// A TCP segment that passed (RFC 9293, 3.1), and the packet that held it. It borrows its octets.
#[derive(Clone, Copy, Debug, PartialEq, Eq)]
pub struct Passed<'a> {
    /// The packet's number in the recording, counted from 1.
    pub packet: u64,
    /// The packet's second.
    pub second: u32,
    /// The microseconds of that second's fraction, where the recording has one.
    pub micro: Option<u32>,
    /// Who sent it.
    pub from: Side,
    /// The local system's port.
    pub local_port: u16,
    /// The peer's port.
    pub peer_port: u16,
    /// The sequence number of its first data octet, or of its SYN.
    pub sequence: u32,
    /// It has a SYN: it begins its direction.
    pub syn: bool,
    /// It has a FIN: it ends its direction. A segment with a RST has no FIN here.
    pub fin: bool,
    /// It has a RST: it breaks the connection off.
    pub rst: bool,
    /// The acknowledgment number, where it has an ACK.
    pub acknowledgment: Option<u32>,
    /// Its data octets, as many as the recording has. A segment with a RST has none here.
    pub octets: &'a [u8],
    /// The recording has all its data octets.
    pub is_whole: bool,
}
