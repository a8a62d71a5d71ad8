//! The text of IPv6 addresses (RFC 5952), in hexadecimal alone, written where it stands.

ghost use Rattle.std.specs.Prelude.{◌≡◌, ◌<◌, ◌≤◌, ◌+◌, ◌*◌, ◌↔◌, IfSome, IsTrue, length, replicate, take};
ghost use Rattle.bgp_prefix.specs.Text.{address_text, colon_text, first_zeros, group_text};
ghost use Rattle.bgp_prefix.specs.Text.{longest_zeros};
ghost use Rattle.bgp_prefix.specs.declared.address.Address.TheVariants.{V6};
ghost use Rattle.json_writer.specs.Places.{Puts};
ghost use Rattle.json_writer.specs.ZeroGroups.{zero_groups};

use crate::escaping::hex_digit;
use crate::places::{write_one, write_text};
use std::net::Ipv6Addr;

/// Writes a group without leading zeros (RFC 5952, 4.1).
#[inline(always)]
fn write_group(places: &mut [u8], at: usize, group: u16) -> usize
    requires { at + 4 ≤ length places.old }
    ensures written { Puts places.old at places.new result (group_text group) }
    ensures within { result ≤ at + 4 }
{
    let first = hex_digit((group / 0x1000) as u8);
    let second = hex_digit((group / 0x100 % 16) as u8);
    let third = hex_digit((group / 0x10 % 16) as u8);
    let fourth = hex_digit((group % 16) as u8);
    match group {
        0x1000.. => write_text(places, at, &[first, second, third, fourth]),
        0x100.. => write_text(places, at, &[second, third, fourth]),
        0x10.. => write_text(places, at, &[third, fourth]),
        _ => write_text(places, at, &[fourth]),
    }
}

/// Writes groups with colons between them.
fn write_groups(places: &mut [u8], at: usize, groups: &[u16]) -> usize
    requires { at + 5 * length groups.now ≤ length places.old }
    ensures written { Puts places.old at places.new result (colon_text groups.now) }
    ensures within { result ≤ at + 5 * length groups.now }
{
    let Some((first, others)) = groups.split_first() else {
        return at;
    };
    let mut end = write_group(places, at, *first);
    for group in others {
        end = write_one(places, end, b':');
        end = write_group(places, end, *group);
    }
    end
}

/// Checks whether the first `count` groups are zeros, and there are so many.
fn begins_with_zeros(groups: &[u16], count: usize) -> bool
    ensures { IsTrue result ↔ (take count groups.now ≡ replicate count 0) }
{
    count <= groups.len() && groups[..count].iter().all(|group| *group == 0)
}

/// Returns the first place where so many groups in a row are zero.
fn first_zeros(groups: &[u16], count: usize) -> Option<usize>
    requires { 0 < count }
    ensures value { result ≡ first_zeros count groups.now }
    ensures within { IfSome result (λ place. place + count ≤ length groups.now) }
{
    let Some((_, others)) = groups.split_first() else {
        return None;
    };
    if begins_with_zeros(groups, count) {
        return Some(0);
    }
    match first_zeros(others, count) {
        Some(place) => Some(place + 1),
        None => None,
    }
}

/// Returns the place and the length of the first of the longest runs of two zero groups or more
/// (RFC 5952, 4.2).
fn longest_zeros(groups: &[u16], most: usize) -> Option<(usize, usize)>
    ensures value { result ≡ longest_zeros most groups.now }
    ensures within { IfSome result (λ run. run.0 + run.1 ≤ length groups.now) }
{
    if most < 2 {
        return None;
    }
    match first_zeros(groups, most) {
        Some(place) => Some((place, most)),
        None => longest_zeros(groups, most - 1),
    }
}

/// Returns how many groups are zero: no run is longer.
fn zero_count(groups: &[u16]) -> usize
    ensures { result ≡ zero_groups groups.now }
{
    let mut zeros = 0;
    for group in groups {
        if *group == 0 {
            zeros += 1;
        }
    }
    zeros
}

/// Writes an IPv6 address in the form of RFC 5952, in hexadecimal alone.
pub(crate) fn write_ipv6(places: &mut [u8], at: usize, number: u128) -> usize
    requires { at + 42 ≤ length places.old }
    ensures written { Puts places.old at places.new result (address_text (V6 number)) }
    ensures within { result ≤ at + 42 }
{
    let groups = Ipv6Addr::from_bits(number).segments();
    match longest_zeros(&groups, zero_count(&groups)) {
        None => write_groups(places, at, &groups),
        Some((place, count)) => {
            let at = write_groups(places, at, groups.split_at(place).0);
            let at = write_one(places, at, b':');
            let at = write_one(places, at, b':');
            write_groups(places, at, groups.split_at(place + count).1)
        }
    }
}
