//! How long the messages of a session may be.

/// Whether the messages of a session may be extended ones (RFC 8654), by direction: each is read by
/// what its receiver offered.
#[derive(Clone, Copy, Debug, PartialEq, Eq)]
pub struct ExtendedMessages {
    /// Those that the local system receives.
    pub received: bool,
    /// Those that it sends.
    pub sent: bool,
}
