//! Items of one size, of which lists of capabilities and attributes consist.

ghost use Rattle.std.specs.Prelude.{◌≡◌, ◌<◌};
ghost use Rattle.bgp_values.specs.Items.{has_bits, item_size};

/// What an item of a list is.
#[derive(Clone, Copy, Debug, PartialEq, Eq)]
pub enum Item {
    /// A family and the AFI of its next hops (RFC 8950, 4).
    HopFamily,
    /// A family of Graceful Restart (RFC 4724, 3).
    RestartFamily,
    /// A family and what is done with its path identifiers (RFC 7911, 4).
    PathFamily,
    /// A family of Long-Lived Graceful Restart (RFC 9494, 3).
    LongLivedFamily,
    /// An AS number of two octets.
    AsNumber2,
    /// An AS number of four octets.
    AsNumber4,
    /// A community (RFC 1997).
    Community,
    /// An extended community (RFC 4360, 2).
    ExtendedCommunity,
    /// A large community (RFC 8092, 3).
    LargeCommunity,
    /// A cluster (RFC 4456, 8).
    Cluster,
}

impl Item {
    /// Returns how many octets an item has.
    pub fn size(self) -> usize
        ensures size { result ≡ item_size self }
        ensures some { 0 < result }
    {
        match self {
            Item::AsNumber2 => 2,
            Item::RestartFamily | Item::PathFamily => 4,
            Item::AsNumber4 | Item::Community | Item::Cluster => 4,
            Item::HopFamily => 6,
            Item::LongLivedFamily => 7,
            Item::ExtendedCommunity => 8,
            Item::LargeCommunity => 12,
        }
    }
}

/// Checks whether these bits of an octet of flags are set.
pub fn has_bits(flags: u8, bits: u8) -> bool
    ensures { result ≡ has_bits bits flags }
{
    flags & bits == bits
}
