//! How a recording is checked.

use bgp_check_lines::{Printing, Settings, VerdictForm};

/// How a recording is checked.
#[derive(Clone, Copy, Debug)]
pub struct CheckOptions {
    /// The port on which BGP is awaited: 179 (RFC 4271, 2), unless the systems have another.
    pub port: u16,
    /// How many seconds after it came a message is handled at the latest.
    pub within: u16,
    /// Which lines are printed.
    pub printing: Printing,
    /// Whether the `bgp judge` command is told that reproduces a verdict, if the file is read to
    /// its end.
    pub settings: Settings,
    /// In which form all is told.
    pub form: VerdictForm,
}
