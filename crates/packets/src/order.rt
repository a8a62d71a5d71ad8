//! Numbers in either order of octets.

ghost use Rattle.std.specs.Prelude.{◌≡◌, ◌≤◌, length};
ghost use Rattle.packets.specs.Order.{number_in, signed_in};

use byteorder::{BigEndian, ByteOrder, LittleEndian};

/// The order of a number's octets.
#[derive(Clone, Copy)]
pub(crate) enum Order {
    /// The highest first.
    Big,
    /// The lowest first.
    Little,
}

impl Order {
    pub(crate) fn read_u16(self, octets: &[u8]) -> u16
        requires { 2 ≤ length octets.now }
        ensures { result ≡ number_in self 2 octets.now }
    {
        match self {
            Order::Big => BigEndian::read_u16(octets),
            Order::Little => LittleEndian::read_u16(octets),
        }
    }

    pub(crate) fn read_u32(self, octets: &[u8]) -> u32
        requires { 4 ≤ length octets.now }
        ensures { result ≡ number_in self 4 octets.now }
    {
        match self {
            Order::Big => BigEndian::read_u32(octets),
            Order::Little => LittleEndian::read_u32(octets),
        }
    }

    pub(crate) fn read_i64(self, octets: &[u8]) -> i64
        requires { 8 ≤ length octets.now }
        ensures { result ≡ signed_in self octets.now }
    {
        match self {
            Order::Big => BigEndian::read_i64(octets),
            Order::Little => LittleEndian::read_i64(octets),
        }
    }
}
