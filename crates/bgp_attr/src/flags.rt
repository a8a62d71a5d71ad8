//! The bits of the Attribute Flags octet (RFC 4271, 4.3). Partial and the low four bits mean
//! nothing to this project.

/// Optional: it isn't well-known.
pub const OPTIONAL: u8 = 128;
/// Transitive.
pub const TRANSITIVE: u8 = 64;
/// Extended Length: the length has two octets.
pub const EXTENDED_LENGTH: u8 = 16;

/// Optional and Transitive, which the type fixes.
pub(crate) const OPTIONAL_TRANSITIVE: u8 = OPTIONAL | TRANSITIVE;
