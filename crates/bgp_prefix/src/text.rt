//! Texts of addresses and prefixes: dotted decimal for IPv4, the form of RFC 5952 for IPv6.

ghost use Rattle.std.specs.Prelude.{◌≡◌, ◌↔◌, ◌≤◌, ◌<◌, ◌⊎◌, ℕ, List, MatchOption, IsTrue};
ghost use Rattle.std.specs.Prelude.{Contains, slice_index, Some, decimal, length};
ghost use Rattle.bgp_prefix.specs.Address.{family_of};
ghost use Rattle.bgp_prefix.specs.Text.{address_text, prefix_text};
ghost use Rattle.bgp_prefix.specs.Notation.{IsAddressText, IsPrefixText};
ghost use Rattle.bgp_prefix.specs.Slash.{LacksSlash, IsAroundSlash};
ghost use Rattle.bgp_prefix.specs.Prefix.{PrefixBits};
ghost use Rattle.bgp_prefix.specs.declared.address.Address.{Address};

use crate::address::Address;
use crate::family::Family;
use crate::prefix::Prefix;
use std::fmt;
use std::fmt::Display;
use std::net::{Ipv4Addr, Ipv6Addr};

/// An IPv4 address as four decimals with dots between them, an IPv6 address as RFC 5952 has it.
///
/// Profile: an IPv6 address prints in hexadecimal alone, one of `::ffff:0:0/96` too.
impl Display for Address {
    ghost output = { λ address. Some (address_text address) };

    #[tactic(auto, using(crate::proofs::PrintedTexts::printed))]
    fn fmt<W: fmt::Write>(&self, f: &mut fmt::Formatter<W>) -> fmt::Result {
        match *self {
            Address::V4(number) => Display::fmt(&Ipv4Addr::from_bits(number), f),
            Address::V6(number) => Display::fmt(&Ipv6Addr::from_bits(number).hex_groups(), f),
        }
    }
}

/// The lowest address of the prefix, `/` and its length.
impl Display for Prefix {
    ghost output = { λ prefix. Some (prefix_text prefix) };

    #[tactic(auto, using(crate::proofs::PrintedTexts::printed))]
    fn fmt<W: fmt::Write>(&self, f: &mut fmt::Formatter<W>) -> fmt::Result {
        let address = self.address();
        let length = self.length();
        write!(f, "{address}/{length}")
    }
}

/// Reads an address: dotted decimal, or eight groups of one to four hexadecimal digits, of which
/// `::` may stand for one zero group or more (RFC 4291, 2.2).
///
/// Profile: the decimals have no leading zeros, and no IPv6 text has dotted decimal in it.
pub fn read_address(text: &str) -> Option<Address>
    ensures { (address : Address) → (result ≡ Some address) ↔ IsAddressText text.now address }
{
    if has_dot(text) {
        read_ipv4(text)
    } else {
        read_ipv6(text)
    }
}

/// Whether there is a dot in the text.
fn has_dot(text: &str) -> bool
    ensures { IsTrue result ↔ Contains text.now 46 }
{
    text.as_bytes().contains(&b'.')
}

/// Reads an IPv4 address.
#[tactic(auto, using(crate::proofs::ReadExits::ipv4_exit, crate::proofs::ReadExits::ipv4_none))]
fn read_ipv4(text: &str) -> Option<Address>
    ensures { (address : Address) → (result ≡ Some address)
        ↔ (IsAddressText text.now address × (family_of address ≡ Family.V4)) }
{
    match text.parse::<Ipv4Addr>() {
        Ok(address) => Some(Address::V4(address.to_bits())),
        Err(_) => None,
    }
}

/// Reads an IPv6 address from a text without dots.
fn read_ipv6(text: &str) -> Option<Address>
    requires { ¬ Contains text.now 46 }
    ensures { (address : Address) → (result ≡ Some address)
        ↔ (IsAddressText text.now address × (family_of address ≡ Family.V6)) }
{
    match text.parse::<Ipv6Addr>() {
        Ok(address) => Some(Address::V6(address.to_bits())),
        Err(_) => None,
    }
}

/// Reads a prefix: an address, `/` and a decimal length without leading zeros. The bits of the
/// address after so many are passed over.
pub fn read_prefix(text: &str) -> Option<Prefix>
    ensures { (prefix : PrefixBits) → (result ≡ Some prefix) ↔ IsPrefixText text.now prefix }
{
    let (address, length) = around_slash(text)?;
    Prefix::new(read_address(address)?, read_length(length)?)
}

/// What stands before the first slash, and after it.
fn around_slash(text: &str) -> Option<(&str, &str)>
    ensures { MatchOption result (LacksSlash text.entry.now)
        (λ parts. IsAroundSlash text.entry.now parts.0.now parts.1.now) }
{
    text.split_once('/')
}

/// Reads a decimal number of 8 bits without leading zeros.
fn read_length(text: &str) -> Option<u8>
    ensures { (number : ℕ) → (result ≡ Some number)
        ↔ ((number < 256) × (text.now ≡ decimal number)) }
{
    if has_sign_or_zero(text) {
        return None;
    }
    match text.parse::<u8>() {
        Ok(number) => Some(number),
        Err(_) => None,
    }
}

/// Whether something else than a digit from 1 to 9 stands before other characters.
fn has_sign_or_zero(text: &str) -> bool
    ensures { IsTrue result ↔ ((1 < length text.now)
        × ((slice_index text.now 0 < 49) ⊎ (57 < slice_index text.now 0))) }
{
    match text.as_bytes() {
        [first, _, ..] => *first < b'1' || b'9' < *first,
        _ => false,
    }
}
