//! Which session a record is of.

ghost use Rattle.std.specs.Prelude.{◌≡◌};

use bgp_prefix::Address;

/// The two addresses of a session, as its records name them.
#[derive(Clone, Copy, Debug, PartialEq, Eq, PartialOrd, Ord)]
pub struct Addresses {
    /// The peer's address.
    pub peer: Address,
    /// The local system's address.
    pub local: Address,
}
