//! Destinations in the fewest octets, as keys of one family, with a path identifier or without.

ghost use Rattle.std.proofs.Common.{rules};
ghost use Rattle.std.specs.Prelude.{◌≡◌, ◌==◌, length};
ghost use Rattle.std.specs.Cmp.Rules.{comparing};
ghost use Rattle.std.specs.Cmp.{partial_order_from_own_ties};
ghost use Rattle.std.specs.Ordering.{as_partial_cmp, nat_cmp};
ghost use Rattle.bgp_prefix.specs.declared.address.Address.TheVariants as addresses;
ghost use Rattle.bgp_prefix.specs.declared.family.Family.TheVariants.{V4, V6};
ghost use Rattle.bgp_prefix.specs.Prefix.{prefix_of};
ghost use Rattle.bgp_rib.specs.Keys.{IsLowest, bits_cmp, bits_eq, bits_number};
ghost use Rattle.bgp_rib.specs.Keys.{v4_prefix, v6_prefix};

use bgp_prefix::{Address, Prefix};
use bgp_update::PathId;
use byteorder::{BigEndian, ByteOrder};
use std::alloc::AllocError;
use std::cmp::Ordering;
use std::marker::Model;

/// An IPv4 prefix.
#[derive(Debug, Drop)]
pub struct V4Key {
    /// The lowest address, highest octet first.
    octets: [u8; 4],
    /// How many bits the prefix has.
    length: u8,
}

/// An IPv6 prefix.
#[derive(Debug, Drop)]
pub struct V6Key {
    /// The lowest address, highest octet first.
    octets: [u8; 16],
    /// How many bits the prefix has.
    length: u8,
}

/// A prefix and a path identifier.
#[derive(Clone, Debug, PartialEq, Eq, PartialOrd, Ord, Drop)]
pub struct Identified<P> {
    pub prefix: P,
    pub id: PathId,
}

const _: () = prove!(size_of::<V4Key>() == 5);

const _: () = prove!(size_of::<V6Key>() == 17);

const _: () = prove!(size_of::<Identified<V4Key>>() == 9);

const _: () = prove!(size_of::<Identified<V6Key>>() == 21);

impl Model for V4Key {
    ghost use Rattle.std.specs.Prelude.{Bool, List};
    ghost use Rattle.byteorder.specs.Endian.{big_number};
    ghost use Rattle.bgp_prefix.specs.declared.address.Address.TheVariants.{V4};
    ghost use Rattle.bgp_prefix.specs.Prefix.{prefix_of};

    ghost Value = { List Bool };

    ghost use Rattle.bgp_rib.specs.Keys.{IsLowest};

    ghost view = { λ k. (prefix_of (V4 (big_number 4 k.octets)) k.length).bits };

    ghost invariant = { λ k. IsLowest (V4 (big_number 4 k.octets)) k.length };
}

impl V4Key {
    /// The key of the prefix with this lowest address and length.
    pub fn new(address: u32, length: u8) -> V4Key
        requires lowest { IsLowest (addresses.V4 address) length }
        ensures { result ≡ (prefix_of (addresses.V4 address) length).bits }
    {
        let mut octets = [0; 4];
        BigEndian::write_u32(&mut octets, address);
        V4Key { octets, length }
    }

    /// The prefix.
    pub fn prefix(&self) -> Prefix
        ensures { result ≡ v4_prefix self.now }
    {
        match Prefix::new(Address::V4(BigEndian::read_u32(&self.octets)), self.length) {
            Some(prefix) => prefix,
            None => unreachable!(),
        }
    }

    /// The number of the lowest address.
    fn number(&self) -> u32
        ensures { result ≡ bits_number V4 self.now }
    {
        BigEndian::read_u32(&self.octets)
    }

    /// How many bits the prefix has.
    fn length(&self) -> u8
        ensures { result ≡ length self.now }
    {
        self.length
    }
}

impl Clone for V4Key {
    ghost use Rattle.std.specs.Prelude.{◌≡◌, ⊤};

    ghost is_clone = { λ s r. r ≡ s };

    ghost is_infallible = { λ _. ⊤ };

    fn clone(&self) -> Result<V4Key, AllocError> {
        Ok(V4Key {
            octets: self.octets,
            length: self.length,
        })
    }
}

impl PartialEq for V4Key {
    ghost eq = { bits_eq V4 };

    ghost laws = { Prim.search (comparing, rules) };

    fn eq(&self, other: &V4Key) -> bool {
        self.number() == other.number() && self.length() == other.length()
    }
}

impl Eq for V4Key {
    ghost laws = { Prim.search (comparing, rules) };
}

impl PartialOrd for V4Key {
    ghost partial_cmp = { as_partial_cmp (bits_cmp V4) };

    ghost laws = { partial_order_from_own_ties
        (Prim.search (comparing, rules)) (Prim.search (comparing, rules)) };

    fn partial_cmp(&self, other: &V4Key) -> Option<Ordering> {
        Some(self.cmp(other))
    }
}

impl Ord for V4Key {
    ghost cmp = { bits_cmp V4 };

    ghost total = { Prim.search (comparing, rules) };

    ghost matches_partial_cmp = { Prim.search (comparing, rules) };

    ghost matches_eq = { Prim.search (comparing, rules) };

    fn cmp(&self, other: &V4Key) -> Ordering {
        let (number, other_number) = (self.number(), other.number());
        if number > other_number {
            Ordering::Greater
        } else if number < other_number {
            Ordering::Less
        } else {
            self.length().cmp(&other.length())
        }
    }
}

impl Model for V6Key {
    ghost use Rattle.std.specs.Prelude.{Bool, List};
    ghost use Rattle.byteorder.specs.Endian.{big_number};
    ghost use Rattle.bgp_prefix.specs.declared.address.Address.TheVariants.{V6};
    ghost use Rattle.bgp_prefix.specs.Prefix.{prefix_of};

    ghost Value = { List Bool };

    ghost use Rattle.bgp_rib.specs.Keys.{IsLowest};

    ghost view = { λ k. (prefix_of (V6 (big_number 16 k.octets)) k.length).bits };

    ghost invariant = { λ k. IsLowest (V6 (big_number 16 k.octets)) k.length };
}

impl V6Key {
    /// The key of the prefix with this lowest address and length.
    pub fn new(address: u128, length: u8) -> V6Key
        requires lowest { IsLowest (addresses.V6 address) length }
        ensures { result ≡ (prefix_of (addresses.V6 address) length).bits }
    {
        let mut octets = [0; 16];
        BigEndian::write_u128(&mut octets, address);
        V6Key { octets, length }
    }

    /// The prefix.
    pub fn prefix(&self) -> Prefix
        ensures { result ≡ v6_prefix self.now }
    {
        match Prefix::new(Address::V6(BigEndian::read_u128(&self.octets)), self.length) {
            Some(prefix) => prefix,
            None => unreachable!(),
        }
    }

    /// The number of the lowest address.
    fn number(&self) -> u128
        ensures { result ≡ bits_number V6 self.now }
    {
        BigEndian::read_u128(&self.octets)
    }

    /// How many bits the prefix has.
    fn length(&self) -> u8
        ensures { result ≡ length self.now }
    {
        self.length
    }
}

impl Clone for V6Key {
    ghost use Rattle.std.specs.Prelude.{◌≡◌, ⊤};

    ghost is_clone = { λ s r. r ≡ s };

    ghost is_infallible = { λ _. ⊤ };

    fn clone(&self) -> Result<V6Key, AllocError> {
        Ok(V6Key {
            octets: self.octets,
            length: self.length,
        })
    }
}

impl PartialEq for V6Key {
    ghost eq = { bits_eq V6 };

    ghost laws = { Prim.search (comparing, rules) };

    fn eq(&self, other: &V6Key) -> bool {
        self.number() == other.number() && self.length() == other.length()
    }
}

impl Eq for V6Key {
    ghost laws = { Prim.search (comparing, rules) };
}

impl PartialOrd for V6Key {
    ghost partial_cmp = { as_partial_cmp (bits_cmp V6) };

    ghost laws = { partial_order_from_own_ties
        (Prim.search (comparing, rules)) (Prim.search (comparing, rules)) };

    fn partial_cmp(&self, other: &V6Key) -> Option<Ordering> {
        Some(self.cmp(other))
    }
}

impl Ord for V6Key {
    ghost cmp = { bits_cmp V6 };

    ghost total = { Prim.search (comparing, rules) };

    ghost matches_partial_cmp = { Prim.search (comparing, rules) };

    ghost matches_eq = { Prim.search (comparing, rules) };

    fn cmp(&self, other: &V6Key) -> Ordering {
        let (number, other_number) = (self.number(), other.number());
        if number > other_number {
            Ordering::Greater
        } else if number < other_number {
            Ordering::Less
        } else {
            self.length().cmp(&other.length())
        }
    }
}
