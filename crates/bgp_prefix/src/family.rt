//! Address families that routes are exchanged for (RFC 4760, 3).

/// IPv4 unicast (AFI 1, SAFI 1) or IPv6 unicast (AFI 2, SAFI 1).
#[derive(Clone, Copy, Debug, PartialEq, Eq, PartialOrd, Ord, Hash)]
pub enum Family {
    V4,
    V6,
}

impl Family {
    ghost use Rattle.std.specs.Prelude.{◌≡◌};
    ghost use Rattle.bgp_prefix.specs.Address.{bit_count};

    /// How many bits an address of the family has.
    pub fn bits(self) -> u8
        ensures { result ≡ bit_count self }
    {
        match self {
            Family::V4 => 32,
            Family::V6 => 128,
        }
    }
}
