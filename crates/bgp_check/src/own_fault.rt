//! Why an OPEN is no system's own.

/// A fault of a system's own OPEN, for which no configuration has it as its own.
#[derive(Clone, Copy, Debug, PartialEq, Eq)]
pub enum OwnFault {
    /// The AS number is 0 (RFC 7607, 2), or My Autonomous System isn't what stands for the one in
    /// the capability of four-octet AS numbers (RFC 6793, 9).
    AsNumber,
    /// The BGP Identifier is 0 (RFC 6286, 2.1).
    Identifier,
    /// The Hold Time is 1 or 2 seconds (RFC 4271, 4.2).
    Hold,
}
