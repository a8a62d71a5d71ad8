//! A text of bounded length, which lies in one place.

ghost use Rattle.std.specs.Prelude.{◌≡◌, ◌≤◌, ◌+◌, ◌*◌, ◌++◌, [], codes, length};
ghost use Rattle.std.specs.Fmt.{decimal};
ghost use Rattle.hex.specs.Hex.{encode_lower};
ghost use Rattle.bgp_prefix.specs.Text.{address_text};
ghost use Rattle.bgp_prefix.specs.declared.address.Address.TheVariants.{V4};

use crate::writing::{write_head, write_hex, write_ipv4, write_ipv4_prefix};
use std::marker::Model;

/// How many octets a room has.
const ROOM: usize = 1 << 16;

/// A text of at most 65536 octets, in a room of so many.
#[derive(Drop)]
pub struct Room {
    places: [u8; ROOM],
    len: usize,
}

impl Model for Room {
    ghost use Rattle.std.specs.Prelude.{◌≡◌, ◌≤◌, length, take};
    ghost use Rattle.bgp_text.specs.Room.{Room as Text};

    ghost Value = { Text };

    ghost view = { λ r. record { items = take r.len r.places } };

    ghost invariant = { λ r. (r.len ≤ 65536) × (length r.places ≡ 65536) };
}

impl Room {
    /// An empty text.
    pub fn new() -> Room
        ensures { result.items ≡ [] }
    {
        Room {
            places: [0; ROOM],
            len: 0,
        }
    }

    /// The text.
    pub fn as_slice(&self) -> &[u8]
        ensures { result.now ≡ self.now.items }
    {
        &self.places[..self.len]
    }

    /// Empties the text.
    pub fn clear(&mut self)
        ensures { self.new.items ≡ [] }
    {
        self.len = 0;
    }

    /// How many octets more there is room for.
    #[inline(always)]
    pub fn left(&self) -> usize
        ensures { result + length self.now.items ≡ 65536 }
    {
        ROOM - self.len
    }

    /// Appends octets. There must be room.
    #[inline(always)]
    pub fn push(&mut self, octets: &[u8])
        requires { length self.old.items + length octets.now ≤ 65536 }
        ensures { self.new.items ≡ self.old.items ++ octets.now }
    {
        let end = self.len + octets.len();
        self.places[self.len..end].copy_from_slice(octets);
        self.len = end;
    }

    /// Appends an IPv4 address in dotted decimal. There must be room for 16 octets.
    #[inline(always)]
    pub fn push_ipv4(&mut self, address: u32)
        requires { length self.old.items + 16 ≤ 65536 }
        ensures { self.new.items ≡ self.old.items ++ address_text (V4 address) }
    {
        self.len = write_ipv4(&mut self.places, self.len, address);
    }

    /// Appends an IPv4 address in dotted decimal, `/` and a count of bits. There must be room
    /// for 20 octets.
    #[inline(always)]
    pub fn push_ipv4_prefix(&mut self, address: u32, bits: u8)
        requires { length self.old.items + 20 ≤ 65536 }
        ensures { self.new.items ≡ self.old.items
            ++ (address_text (V4 address) ++ (codes "/" ++ decimal bits)) }
    {
        self.len = write_ipv4_prefix(&mut self.places, self.len, address, bits);
    }

    /// Appends two octets in decimal, with a dot between them and a colon behind them. There must
    /// be room for 8 octets.
    #[inline(always)]
    pub fn push_head(&mut self, first: u8, second: u8)
        requires { length self.old.items + 8 ≤ 65536 }
        ensures { self.new.items ≡ self.old.items
            ++ (decimal first ++ (codes "." ++ (decimal second ++ codes ":"))) }
    {
        self.len = write_head(&mut self.places, self.len, first, second);
    }

    /// Appends octets in hexadecimal. There must be room for twice as many.
    #[inline(always)]
    pub fn push_hex(&mut self, octets: &[u8])
        requires { length self.old.items + 2 * length octets.now ≤ 65536 }
        ensures { self.new.items ≡ self.old.items ++ encode_lower octets.now }
    {
        self.len = write_hex(&mut self.places, self.len, octets);
    }
}
