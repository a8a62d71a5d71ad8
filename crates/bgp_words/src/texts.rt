//! Texts of numbers, a BGP Identifier, next hops and families.

ghost use Rattle.std.specs.Prelude.{◌≡◌, ◌≢◌, ◌<◌, ◌^◌, ◌↔◌, ℕ, Some, IsTrue, slice_index};
ghost use Rattle.bgp_open.specs.Config.{IsBadHold};
ghost use Rattle.bgp_open.specs.declared.families.Families.{Families as FamilySet};
ghost use Rattle.bgp_words.specs.Values.{IsNumberText, IsPositiveText, IsHoldText};
ghost use Rattle.bgp_words.specs.Values.{IsPortText, IsSecondsText, IsTurnsText};
ghost use Rattle.bgp_words.specs.Values.{IsIdentifierText, IsFamiliesText};
ghost use Rattle.bgp_words.specs.Values.{IsNextHop4Text, IsNextHop6Text, HasBitsAfter};

use bgp_open::Families;
use bgp_prefix::{Address, read_address, read_prefix};

/// Reads a number of 64 bits: decimal digits, with leading zeros or without, and no sign.
fn read_number(text: &str) -> Option<u64>
    ensures { (number : ℕ) → (result ≡ Some number)
        ↔ (IsNumberText text.now number × (number < 2 ^ 64)) }
{
    if has_plus(text) {
        return None;
    }
    match text.parse::<u64>() {
        Ok(number) => Some(number),
        Err(_) => None,
    }
}

/// Whether the text begins with a plus sign.
fn has_plus(text: &str) -> bool
    ensures { IsTrue result ↔ (slice_index text.now 0 ≡ 43) }
{
    match text.as_bytes() {
        [first, ..] => *first == b'+',
        _ => false,
    }
}

/// Reads a number of 32 bits that isn't 0.
pub(crate) fn read_positive(text: &str) -> Option<u32>
    ensures { (number : ℕ) → (result ≡ Some number) ↔ IsPositiveText text.now number }
{
    let number = read_number(text)?;
    if is_positive(number) {
        Some(number as u32)
    } else {
        None
    }
}

/// Whether a number has 32 bits and isn't 0.
fn is_positive(number: u64) -> bool
    ensures { IsTrue result ↔ ((number < 2 ^ 32) × (number ≢ 0)) }
{
    number <= u32::MAX as u64 && number != 0
}

/// Reads a TCP port: 1 to 65535.
pub(crate) fn read_port(text: &str) -> Option<u16>
    ensures { (port : ℕ) → (result ≡ Some port) ↔ IsPortText text.now port }
{
    let number = read_number(text)?;
    if is_port(number) {
        Some(number as u16)
    } else {
        None
    }
}

/// Whether a number is a TCP port.
fn is_port(number: u64) -> bool
    ensures { IsTrue result ↔ ((number < 2 ^ 16) × (number ≢ 0)) }
{
    number <= u16::MAX as u64 && number != 0
}

/// Reads a count of turns: fewer than 2 to the 63rd.
pub(crate) fn read_turns(text: &str) -> Option<u64>
    ensures { (turns : ℕ) → (result ≡ Some turns) ↔ IsTurnsText text.now turns }
{
    let number = read_number(text)?;
    if number <= i64::MAX as u64 {
        Some(number)
    } else {
        None
    }
}

/// Reads a count of seconds: 0 to 65535.
pub(crate) fn read_seconds(text: &str) -> Option<u16>
    ensures { (seconds : ℕ) → (result ≡ Some seconds) ↔ IsSecondsText text.now seconds }
{
    let number = read_number(text)?;
    if number <= u16::MAX as u64 {
        Some(number as u16)
    } else {
        None
    }
}

/// Reads a Hold Time: 0, or a number of seconds from 3 to 65535 (RFC 4271, 4.2).
pub(crate) fn read_hold(text: &str) -> Option<u16>
    ensures { (hold : ℕ) → (result ≡ Some hold) ↔ IsHoldText text.now hold }
{
    let number = read_number(text)?;
    if is_hold_time(number) {
        Some(number as u16)
    } else {
        None
    }
}

/// Whether a number is a Hold Time.
fn is_hold_time(number: u64) -> bool
    ensures { IsTrue result ↔ ((number < 2 ^ 16) × ¬ IsBadHold number) }
{
    number <= u16::MAX as u64 && number != 1 && number != 2
}

/// Reads a BGP Identifier: an IPv4 address that isn't 0.0.0.0 (RFC 6286, 2.1).
pub(crate) fn read_identifier(text: &str) -> Option<u32>
    ensures { (id : ℕ) → (result ≡ Some id) ↔ IsIdentifierText text.now id }
{
    match read_address(text)? {
        Address::V4(0) | Address::V6(_) => None,
        Address::V4(id) => Some(id),
    }
}

/// Reads an IPv4 address.
pub(crate) fn read_next_hop4(text: &str) -> Option<u32>
    ensures { (number : ℕ) → (result ≡ Some number) ↔ IsNextHop4Text text.now number }
{
    match read_address(text)? {
        Address::V4(number) => Some(number),
        Address::V6(_) => None,
    }
}

/// Reads an IPv6 address.
pub(crate) fn read_next_hop6(text: &str) -> Option<u128>
    ensures { (number : ℕ) → (result ≡ Some number) ↔ IsNextHop6Text text.now number }
{
    match read_address(text)? {
        Address::V6(number) => Some(number),
        Address::V4(_) => None,
    }
}

/// Reads a set of families: `v4`, `v6` or `both`.
pub(crate) fn read_families(text: &str) -> Option<Families>
    ensures { (families : FamilySet) → (result ≡ Some families)
        ↔ IsFamiliesText text.now families }
{
    if text == "v4" {
        Some(Families {
            v4: true,
            v6: false,
        })
    } else if text == "v6" {
        Some(Families {
            v4: false,
            v6: true,
        })
    } else if text == "both" {
        Some(Families { v4: true, v6: true })
    } else {
        None
    }
}

/// Whether the text is a prefix with bits after its length, as 10.0.0.1/8.
pub(crate) fn has_bits_after(text: &str) -> bool
    ensures { IsTrue result ↔ HasBitsAfter text.now }
{
    let Some(prefix) = read_prefix(text) else {
        return false;
    };
    let Some((address, _)) = text.split_once('/') else {
        return false;
    };
    match read_address(address) {
        Some(address) => address != prefix.address(),
        None => false,
    }
}
