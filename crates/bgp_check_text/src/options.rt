//! How `bgp judge` is asked for a verdict.

use bgp_open::Config;

/// Which connection of a recording is meant, and how long a message of it may wait, as far as
/// `bgp judge` takes it to be otherwise. Of a capture nothing of it is told.
#[derive(Clone, Copy, Debug)]
pub struct Asked {
    /// The port on which BGP is awaited, where that isn't 179 (RFC 4271, 2).
    pub port: Option<u16>,
    /// The local system's port, where both systems have one address.
    pub local_port: Option<u16>,
    /// The connection's number, from 1, where there are several.
    pub connection: Option<usize>,
    /// How many seconds after it came a message is handled at the latest, where these aren't 10.
    pub within: Option<u16>,
}

/// How `bgp judge` is asked for a verdict.
#[derive(Clone, Copy, Debug)]
pub struct JudgeOptions {
    /// What the local system is configured to do, and the session's ends. What becomes of a
    /// ROUTE-REFRESH (RFC 2918) is told beside it.
    pub config: Config,
    /// ROUTE-REFRESH messages are passed over.
    pub skips_refresh: bool,
    /// The local system doesn't offer route refresh, so that such a message is a faulty header.
    pub no_refresh: bool,
    /// Which connection of a recording is meant.
    pub asked: Asked,
}
