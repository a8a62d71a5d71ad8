//! The AS number that a peer has to have.

/// The AS number that the peer has to have, in the configuration under which a verdict is told.
#[derive(Clone, Copy, Debug, PartialEq, Eq)]
pub enum PeerAs {
    /// Any: the peer sent no OPEN, or none whose fields can be told.
    Any,
    /// That of the peer's OPEN.
    Is(u32),
    /// Another than that.
    OtherThan(u32),
}
