//! What is told of a recording of packets.

/// What is told of a recording besides its session.
#[derive(Clone, Copy, Debug, PartialEq, Eq)]
pub struct RecordingOptions {
    /// The port on which BGP is awaited, 179 (RFC 4271, 2) unless told: each connection of the
    /// session has it at one of its ends. It isn't 0.
    pub port: u16,
    /// The local system's port, where only its connections at that port are meant. It isn't 0.
    pub local_port: Option<u16>,
    /// The number of the connection that is meant, from 1: `None` for each, or for the only one.
    pub connection: Option<usize>,
    /// How many seconds after it came a received message is handled at the latest.
    pub within: u16,
}
