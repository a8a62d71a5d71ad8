//! The text of addresses and prefixes (RFC 4632, 3.1; RFC 5952), piece by piece.

ghost use Rattle.std.specs.Prelude.{◌≡◌, ◌<◌, ◌≤◌, ◌+◌, ◌↔◌, IfSome, IsTrue, length, take};
ghost use Rattle.std.specs.Prelude.{replicate};
ghost use Rattle.std.specs.Char.{digit_char};
ghost use Rattle.std.specs.Net.Text.{leading_zero_digits};
ghost use Rattle.bgp_prefix.specs.Text.{address_text, prefix_text, group_text, colon_text};
ghost use Rattle.bgp_prefix.specs.Text.{first_zeros, longest_zeros};
ghost use Rattle.bgp_prefix.specs.declared.address.Address.TheVariants.{V6};
ghost use Rattle.bgp_text.specs.Lines.{Writes};

use crate::lines::Lines;
use bgp_prefix::{Address, Prefix};
use mrt::Sink;
use std::net::Ipv6Addr;

/// A hexadecimal digit.
fn hex_digit(value: u16) -> u8
    requires { value < 16 }
    ensures { result ≡ digit_char value }
{
    if value < 10 {
        b'0' + value as u8
    } else {
        b'a' + (value - 10) as u8
    }
}

/// How many of a group's four digits are leading zeros, its last digit apart.
fn leading_zeros(group: u16) -> usize
    ensures value { result ≡ leading_zero_digits group }
    ensures within { result < 4 }
{
    match group {
        0x1000.. => 0,
        0x100.. => 1,
        0x10.. => 2,
        _ => 3,
    }
}

/// A group without leading zeros (RFC 5952, 4.1).
fn put_group<W: Sink>(lines: &mut Lines<'_, W>, group: u16)
    ensures { Writes lines.old lines.new (group_text group) }
{
    let digits = [
        hex_digit(group / 0x1000),
        hex_digit(group / 0x100 % 16),
        hex_digit(group / 0x10 % 16),
        hex_digit(group % 16),
    ];
    let (_, shown) = digits.split_at(leading_zeros(group));
    lines.put(shown);
}

/// Groups with colons between them.
fn put_groups<W: Sink>(lines: &mut Lines<'_, W>, groups: &[u16])
    ensures { Writes lines.old lines.new (colon_text groups.now) }
{
    let Some((first, others)) = groups.split_first() else {
        return;
    };
    put_group(lines, *first);
    for group in others {
        lines.put(b":");
        put_group(lines, *group);
    }
}

/// Whether the first `count` groups are zeros, and there are so many.
fn begins_with_zeros(groups: &[u16], count: usize) -> bool
    ensures { IsTrue result ↔ (take count groups.now ≡ replicate count 0) }
{
    count <= groups.len() && groups[..count].iter().all(|group| *group == 0)
}

/// The first place where so many groups in a row are zero.
fn first_zeros(groups: &[u16], count: usize) -> Option<usize>
    requires { 0 < count }
    ensures value { result ≡ first_zeros count groups.now }
    ensures within { IfSome result (λ place. place + count ≤ length groups.now) }
{
    let Some((_, others)) = groups.split_first() else {
        return None;
    };
    if begins_with_zeros(groups, count) {
        return Some(0);
    }
    match first_zeros(others, count) {
        Some(place) => Some(place + 1),
        None => None,
    }
}

/// The place and the length of the first of the longest runs of two zero groups or more (RFC 5952,
/// 4.2).
fn longest_zeros(groups: &[u16], most: usize) -> Option<(usize, usize)>
    ensures value { result ≡ longest_zeros most groups.now }
    ensures within { IfSome result (λ run. run.0 + run.1 ≤ length groups.now) }
{
    if most < 2 {
        return None;
    }
    match first_zeros(groups, most) {
        Some(place) => Some((place, most)),
        None => longest_zeros(groups, most - 1),
    }
}

/// An IPv6 address in the form of RFC 5952, in hexadecimal alone.
fn put_ipv6<W: Sink>(lines: &mut Lines<'_, W>, number: u128)
    ensures { Writes lines.old lines.new (address_text (V6 number)) }
{
    let groups = Ipv6Addr::from_bits(number).segments();
    match longest_zeros(&groups, 8) {
        None => put_groups(lines, &groups),
        Some((place, count)) => {
            put_groups(lines, groups.split_at(place).0);
            lines.put(b"::");
            put_groups(lines, groups.split_at(place + count).1);
        }
    }
}

/// An address: dotted decimal, or the form of RFC 5952.
pub fn put_address<W: Sink>(lines: &mut Lines<'_, W>, address: Address)
    ensures { Writes lines.old lines.new (address_text address) }
{
    match address {
        Address::V4(number) => lines.put_ipv4(number),
        Address::V6(number) => put_ipv6(lines, number),
    }
}

/// A prefix: its address, `/` and its length.
pub fn put_prefix<W: Sink>(lines: &mut Lines<'_, W>, prefix: Prefix)
    ensures { Writes lines.old lines.new (prefix_text prefix) }
{
    match prefix.address() {
        Address::V4(number) => lines.put_ipv4_prefix(number, prefix.length()),
        Address::V6(number) => {
            put_ipv6(lines, number);
            lines.put(b"/");
            lines.put_decimal(prefix.length());
        }
    }
}
