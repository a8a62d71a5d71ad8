//! A connection's two streams, and what gave them.

use crate::passed::Side;

/// Octets of a stream, one after another, that one packet was the first to give.
#[derive(Clone, Copy, Debug, PartialEq, Eq)]
pub struct Run {
    /// How many they are: at least one.
    pub count: usize,
    /// The packet's number in the recording, counted from 1.
    pub packet: u64,
    /// The packet's second.
    pub second: u32,
    /// The microseconds of that second's fraction, where the recording has one.
    pub micro: Option<u32>,
}

/// One direction of a connection. It borrows from who gathered it.
#[derive(Clone, Copy, Debug, PartialEq, Eq)]
pub struct Stream<'a> {
    /// All its octets, the first after the SYN first.
    pub octets: &'a [u8],
    /// Who gave them, in the order of the octets: the runs' counts add up to the octets'.
    pub runs: &'a [Run],
}

/// How a segment ends a connection.
#[derive(Clone, Copy, Debug, PartialEq, Eq)]
pub enum Closing {
    /// By a FIN: its sender has no more to send (RFC 9293, 3.6).
    Fin,
    /// By a RST, with a FIN or without: the connection is broken off (RFC 9293, 3.5.3).
    Reset,
}

/// The end of a connection: its first packet with a FIN or a RST.
#[derive(Clone, Copy, Debug, PartialEq, Eq)]
pub struct End {
    /// The packet's number in the recording, counted from 1.
    pub packet: u64,
    /// The packet's second.
    pub second: u32,
    /// The microseconds of that second's fraction, where the recording has one.
    pub micro: Option<u32>,
    /// Who sent it.
    pub side: Side,
    /// By which of both.
    pub closing: Closing,
}

/// A connection that holds octets: a segment of it has data.
#[derive(Clone, Copy, Debug, PartialEq, Eq)]
pub struct Connection<'a> {
    /// Its place among those that hold octets, in the order of their first packets, counted from 1.
    pub number: usize,
    /// The local system's port.
    pub local_port: u16,
    /// The peer's port.
    pub peer_port: u16,
    /// Who opened it: the side of its first SYN, if that has no ACK, else the other side; without a
    /// SYN the side of its first packet.
    pub opened_by: Side,
    /// The number of its first packet in the recording, counted from 1.
    pub packet: u64,
    /// The second of its first packet.
    pub second: u32,
    /// The microseconds of that second's fraction, where the recording has one.
    pub micro: Option<u32>,
    /// What the peer sent.
    pub received: Stream<'a>,
    /// What the local system sent.
    pub sent: Stream<'a>,
    /// Its end, where the recording has one.
    pub end: Option<End>,
}

/// What is known of a connection without its streams, also of one that is refused. The fields are
/// those of [`Connection`].
#[derive(Clone, Copy, Debug, PartialEq, Eq)]
pub struct Opening {
    pub number: usize,
    pub local_port: u16,
    pub peer_port: u16,
    pub opened_by: Side,
    pub packet: u64,
    pub second: u32,
    pub micro: Option<u32>,
}
