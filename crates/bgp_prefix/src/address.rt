//! Addresses of either family, as the numbers that their octets spell, the first octet highest.

use crate::family::Family;

/// An IPv4 address of 32 bits or an IPv6 address of 128 bits.
#[derive(Clone, Copy, Debug, PartialEq, Eq, PartialOrd, Ord, Hash)]
pub enum Address {
    V4(u32),
    V6(u128),
}

impl Address {
    ghost use Rattle.std.specs.Prelude.{◌≡◌};
    ghost use Rattle.bgp_prefix.specs.Address.{family_of};

    /// The family of the address.
    pub fn family(self) -> Family
        ensures { result ≡ family_of self }
    {
        match self {
            Address::V4(_) => Family::V4,
            Address::V6(_) => Family::V6,
        }
    }
}
