//! Prefixes (RFC 4271, 4.3; RFC 4760, 5): the first bits of the addresses that a route leads to.
//!
//! ```text
//!  0        1
//! +--------+-----------------------------------------------------+
//! | Length | Prefix: its first Length bits, in the fewest octets |
//! +--------+-----------------------------------------------------+
//! ```

ghost use Rattle.std.specs.Prelude.{◌≡◌, ◌≤◌, ◌<◌, ◌*◌, ◌+◌, ◌/◌, ◌++◌, ◌↔◌, ℕ};
ghost use Rattle.std.specs.Prelude.{length, take, slice_index, IfOk, IfSome, IsSome, OnOk, OnErr};
ghost use Rattle.std.specs.Prelude.{Some};
ghost use Rattle.std.specs.Prelude.{vec_len, vec_capacity};
ghost use Rattle.bgp_prefix.specs.Bits.{bits_of_octets, octets_of};
ghost use Rattle.bgp_prefix.specs.Address.{family_of, bit_count, address_bits};
ghost use Rattle.bgp_prefix.specs.Prefix.{
  PrefixBits,
  prefix_length,
  IsPrefix,
  prefix_octets,
  BeginsWithPrefix,
  IsTooLong,
  EndsInPrefix,
  prefix_of,
  address_of,
};
ghost use Rattle.bgp_prefix.specs.PrefixFields.{IsKept, front_number, back_number};
ghost use Rattle.bgp_prefix.specs.Fault.{fault_number, fault_text};
ghost use Rattle.bgp_prefix.specs.declared.family.Family.{Family};
ghost use Rattle.bgp_prefix.specs.PrefixOrder.{prefix_number};

use crate::address::Address;
use crate::family::Family;
use byteorder::{BigEndian, ByteOrder};
use std::alloc::{AllocError, Allocator};
use std::error::Error;
use std::fmt;
use std::fmt::Display;
use std::marker::Model;

/// Why octets begin with no prefix.
#[derive(Clone, Copy, Debug, PartialEq, Eq)]
pub enum PrefixFault {
    /// The length is above that of an address.
    TooLong = 1,
    /// The length is missing, or octets that hold so many bits are.
    Short = 2,
}

impl PrefixFault {
    /// The fault's number: 1 for too many bits, 2 for too few octets.
    pub fn number(self) -> u8
        ensures { result ≡ fault_number self }
    {
        self as u8
    }
}

impl Display for PrefixFault {
    ghost output = { λ fault. Some (fault_text fault) };

    fn fmt<W: fmt::Write>(&self, f: &mut fmt::Formatter<W>) -> fmt::Result {
        f.write_str(match self {
            PrefixFault::TooLong => "a prefix has more bits than an address",
            PrefixFault::Short => "the octets end inside a prefix",
        })
    }
}

impl Error for PrefixFault {}

/// A family, and the bits with which some of its addresses begin: at most 32 or 128.
///
/// It is kept as the lowest of those addresses, whose further bits are zeros, in 18 octets.
#[derive(Clone, Copy, Debug)]
pub struct Prefix {
    family: Family,
    /// How many bits the prefix has.
    length: u8,
    /// The address, highest octet first: 4 octets or 16. The others are zeros.
    octets: [u8; 16],
}

const _: () = prove!(size_of::<Prefix>() == 18);

impl Model for Prefix {
    ghost use Rattle.bgp_prefix.specs.Bits.{octets_of};
    ghost use Rattle.bgp_prefix.specs.Prefix.{PrefixBits, prefix_length};
    ghost use Rattle.bgp_prefix.specs.PrefixFields.{kept_bits, IsKept};
    ghost use Rattle.bgp_prefix.specs.PrefixLaws.{length-kept_bits};
    ghost use Rattle.std.proofs.Common.{sym};

    ghost Value = { PrefixBits };

    ghost view = { λ p. record { family = p.family; bits = kept_bits p.length p.octets } };

    ghost invariant = { λ p. IsKept p.family p.length p.octets };

    ghost inverse = { λ v. record {
      family = v.family;
      length = prefix_length v;
      octets = octets_of 16 v.bits;
    } };

    ghost inverse_ok = { λ p kept i. record {
      family = p.family;
      length = length-kept_bits p.family p.length p.octets kept i;
      octets = sym kept.zeros i;
    } };
}

impl Prefix {
    /// The prefix of the first `length` bits of an address, or `None` where it has fewer.
    #[tactic(auto, using(crate::proofs::PrefixParts::made_prefix))]
    pub fn new(address: Address, length: u8) -> Option<Prefix>
        ensures fits { IsSome result ↔ (length ≤ bit_count (family_of address)) }
        ensures value { IfSome result (λ prefix. prefix ≡ prefix_of address length) }
    {
        let family = address.family();
        if length > family.bits() {
            return None;
        }
        Some(Prefix {
            family,
            length,
            octets: leading_octets(&octets_of_address(address), length),
        })
    }

    /// Reads the prefix with which the octets begin, and answers how many octets spell it: its
    /// length in bits, and then the fewest that hold so many. Their further bits mean nothing.
    #[inline(always)]
    #[tactic(auto, using(crate::proofs::PrefixParts::read_begins))]
    pub fn read(family: Family, octets: &[u8]) -> Result<(Prefix, usize), PrefixFault>
        ensures read { IfOk result (λ r. BeginsWithPrefix family octets.now r.0 r.1) }
        ensures exact { (prefix : PrefixBits) (count : ℕ)
            → BeginsWithPrefix family octets.now prefix count → result ≡ Ok (prefix, count) }
        ensures too_long { (result ≡ Err PrefixFault.TooLong) ↔ IsTooLong family octets.now }
        ensures short { (result ≡ Err PrefixFault.Short) ↔ EndsInPrefix family octets.now }
    {
        let Some(&length) = octets.first() else {
            return Err(PrefixFault::Short);
        };
        if length > family.bits() {
            return Err(PrefixFault::TooLong); // No address has so many bits (RFC 7606, 5.3).
        }
        let field = &octets[1..];
        let count = octet_count(length);
        if field.len() < count {
            return Err(PrefixFault::Short); // The prefix runs past the field (RFC 7606, 5.3).
        }
        let prefix = Prefix {
            family,
            length,
            octets: leading_octets(field, length),
        };
        Ok((prefix, 1 + count))
    }

    /// How many octets spell the prefix: one for its length, and the fewest that hold so many bits.
    #[tactic(auto, using(crate::proofs::PrefixParts::count_of_octets))]
    pub fn octet_len(&self) -> usize
        ensures value { result ≡ length (prefix_octets self.now) }
        ensures bound { result ≤ 17 }
    {
        1 + octet_count(self.length())
    }

    /// Appends the octets that spell the prefix, with zeros for the bits after it. It is `Err` only
    /// where there was too little room and memory for more was refused, and then `out` is as
    /// before.
    pub fn write<A: Allocator>(&self, out: &mut Vec<u8, A>) -> Result<(), AllocError>
        ensures ok { OnOk result (out.new.items ≡ out.old.items ++ prefix_octets self.now) }
        ensures err { OnErr result (out.new.items ≡ out.old.items) }
        ensures memory { OnErr result
            (vec_capacity out.old < vec_len out.old + length (prefix_octets self.now)) }
        ensures len { OnOk result
            (vec_len out.new ≡ vec_len out.old + length (prefix_octets self.now)) }
        ensures capacity { vec_capacity out.old ≤ vec_capacity out.new }
    {
        let mut octets = [0; 17]; // length 1, address 16
        octets[0] = self.length;
        octets[1..].copy_from_slice(&self.octets);
        out.extend_from_slice(&octets[..1 + octet_count(self.length)])
    }

    /// The family of the prefix.
    pub fn family(&self) -> Family
        ensures { result ≡ self.now.family }
    {
        self.family
    }

    /// How many bits the prefix has: at most 32 or 128.
    pub fn length(&self) -> u8
        ensures value { result ≡ prefix_length self.now }
        ensures fits { IsPrefix self.now }
    {
        self.length
    }

    /// The lowest address of the prefix: its bits, and then zeros.
    #[tactic(auto, using(crate::proofs::PrefixParts::lowest))]
    pub fn address(&self) -> Address
        ensures { result ≡ address_of self.now }
    {
        match self.family {
            Family::V4 => Address::V4(BigEndian::read_u32(&self.octets)),
            Family::V6 => Address::V6(BigEndian::read_u128(&self.octets)),
        }
    }

    /// The number of that address.
    pub(crate) fn number(&self) -> u128
        ensures { result ≡ prefix_number self.now }
    {
        match self.address() {
            Address::V4(number) => u128::from(number),
            Address::V6(number) => number,
        }
    }

    /// The number that the first eight of the sixteen octets spell.
    pub(crate) fn front(&self) -> u64
        ensures number { result ≡ front_number self.now }
        ensures fits { IsPrefix self.now }
    {
        BigEndian::read_u64(&self.octets)
    }

    /// The number that the others spell.
    pub(crate) fn back(&self) -> u64
        ensures { result ≡ back_number self.now }
    {
        BigEndian::read_u64(&self.octets[8..])
    }
}

/// How many octets hold so many bits.
fn octet_count(bits: u8) -> usize
    ensures { result ≡ (bits + 7) / 8 }
{
    usize::from(bits).div_ceil(8)
}

/// The first bits of the octets, and then zeros.
#[inline(always)]
#[tactic(auto, using(crate::proofs::Masks::leading))]
fn leading_octets(octets: &[u8], bits: u8) -> [u8; 16]
    requires enough { bits ≤ 8 * length octets.now }
    requires fits { bits ≤ 128 }
    ensures octets { result ≡ octets_of 16 (take bits (bits_of_octets octets.now)) }
    ensures kept { (family : Family) → bits ≤ bit_count family → IsKept family bits result }
{
    if bits <= 32 {
        return few_leading_octets(octets, bits); // Most prefixes: no copy of a length that varies.
    }
    let whole = usize::from(bits / 8);
    let mut leading = [0; 16];
    leading[..whole].copy_from_slice(&octets[..whole]);
    if bits % 8 != 0 {
        leading[whole] = octets[whole] & (u8::MAX << (8 - bits % 8));
    }
    leading
}

/// The same of at most 32 bits, which are put together octet by octet.
#[inline(always)]
fn few_leading_octets(octets: &[u8], bits: u8) -> [u8; 16]
    requires enough { bits ≤ 8 * length octets.now }
    requires few { bits ≤ 32 }
    ensures { result ≡ octets_of 16 (take bits (bits_of_octets octets.now)) }
{
    let first = leading_octet(octets, bits, 0);
    let second = leading_octet(octets, bits, 1);
    let third = leading_octet(octets, bits, 2);
    let fourth = leading_octet(octets, bits, 3);
    [
        first, second, third, fourth, 0, 0, 0, 0, 0, 0, 0, 0, 0, 0, 0, 0,
    ]
}

/// The octet at a place among the first bits and then zeros.
#[inline(always)]
#[tactic(auto, using(crate::proofs::Masks::leading_at))]
fn leading_octet(octets: &[u8], bits: u8, place: u8) -> u8
    requires enough { bits ≤ 8 * length octets.now }
    requires fits { bits ≤ 128 }
    requires within { place < 16 }
    ensures { result ≡ slice_index (octets_of 16 (take bits (bits_of_octets octets.now))) place }
{
    let whole = bits / 8;
    if place < whole {
        return octets[usize::from(place)];
    }
    if place > whole || bits % 8 == 0 {
        return 0;
    }
    octets[usize::from(whole)] & (u8::MAX << (8 - bits % 8))
}

/// The octets of an address, and then zeros.
fn octets_of_address(address: Address) -> [u8; 16]
    ensures { take (bit_count (family_of address)) (bits_of_octets result) ≡ address_bits address }
{
    let mut octets = [0; 16];
    match address {
        Address::V4(number) => BigEndian::write_u32(&mut octets, number),
        Address::V6(number) => BigEndian::write_u128(&mut octets, number),
    }
    octets
}
