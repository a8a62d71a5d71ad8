//! The two systems of each session: AS 65001 at 192.0.2.1, the local one, and its peer, AS 65002 at
//! 192.0.2.2. Both offer both families and AS numbers of four octets.

use crate::broken;
use bgp_open::{Config, ConfigParts, Link, negotiate, read_open};
use bgp_prefix::{Address, RouteRefresh, Session};
use bgp_vectors::SPEAKER_A;
use bgp_wire::vectors::{OPEN_A, OPEN_B};
use std::io;

/// The AS number of the local system.
pub(crate) const LOCAL_AS: u32 = 65001;

/// The AS number of the peer.
pub(crate) const PEER_AS: u32 = 65002;

/// The local system's address, BGP Identifier and IPv4 next hop.
pub(crate) const LOCAL_ADDRESS: u32 = 0xc000_0201;

/// The address of the peer, which is its BGP Identifier, too.
pub(crate) const PEER_ADDRESS: u32 = 0xc000_0202;

/// The session, as the local system's records name it.
pub(crate) const SESSION: Session = Session {
    peer: Address::V4(PEER_ADDRESS),
    local: Address::V4(LOCAL_ADDRESS),
    refresh: RouteRefresh::NotOffered,
    extended: false,
};

/// A system's configuration: its AS number and BGP Identifier, and its peer's AS number.
fn config_of(local_as: u32, local_id: u32, peer_as: u32) -> io::Result<Config> {
    let config = Config::new(ConfigParts {
        local_as,
        peer_as,
        local_id,
        session: SESSION,
        ..SPEAKER_A
    });
    match config {
        Some(config) => Ok(config),
        None => Err(broken()),
    }
}

/// The configuration of the local system.
pub(crate) fn local_config() -> io::Result<Config> {
    config_of(LOCAL_AS, LOCAL_ADDRESS, PEER_AS)
}

/// What a configuration and the other system's OPEN settle.
fn link_of(config: &Config, open: &[u8]) -> io::Result<Link> {
    match read_open(open) {
        Ok(open) => Ok(negotiate(config, &open)),
        Err(_) => Err(broken()),
    }
}

/// What both OPENs settle, as the local system sees it.
pub(crate) fn local_link() -> io::Result<Link> {
    link_of(&local_config()?, &OPEN_B)
}

/// What both OPENs settle, as the peer sees it.
pub(crate) fn peer_link() -> io::Result<Link> {
    link_of(&config_of(PEER_AS, PEER_ADDRESS, LOCAL_AS)?, &OPEN_A)
}
