//! What a speaker is told besides its configuration.

use bgp_prefix::Prefix;

/// How the connection of `speak` comes to be, on 127.0.0.1.
#[derive(Clone, Copy, Debug, PartialEq, Eq)]
pub enum Start {
    /// It is tried, at this port of the peer.
    Connect(u16),
    /// It is listened for, at this port of the local system.
    Listen(u16),
}

/// What `speak` is told besides the configuration.
#[derive(Clone, Copy, Debug, PartialEq, Eq)]
pub struct Speaking {
    /// How the connection comes to be; the port isn't 0.
    pub start: Start,
    /// The next hop of what is announced of IPv4.
    pub next_hop4: u32,
    /// The next hop of what is announced of IPv6.
    pub next_hop6: u128,
    /// The prefix that is announced, if any.
    pub announce: Option<Prefix>,
    /// Whether it was given with bits after its length, as 10.0.0.1/8: they are cleared.
    pub cleared: bool,
    /// How many turns are taken at most: fewer than 2 to the 63rd.
    pub turns: u64,
    /// Whether nothing is said on standard error while it speaks.
    pub quiet: bool,
}
