//! The names of address families (RFC 4760, 3 and 6).

ghost use Rattle.std.specs.Prelude.{◌≡◌, ℕ, List, option_map};
ghost use Rattle.std.specs.Borrow.{Bor};
ghost use Rattle.bgp_text.specs.Lines.{Writes};
ghost use Rattle.bgp_names.specs.Naming.{name_in, name_of_two_in};
ghost use Rattle.bgp_names.specs.Families.{afi_name, afi_names, family_name, family_names};
ghost use Rattle.bgp_names.specs.Families.{families_name, family_numbers};

use crate::naming::put_named;
use bgp_text::{Families, Lines, Sink};

/// Returns the name of an Address Family Identifier, if it has one.
fn name_of_afi(afi: u16) -> Option<&'static str>
    ensures { option_map (λ (name : Bor (List ℕ)). name.now) result ≡ name_in afi_names afi }
{
    match afi {
        1 => Some("IPv4"),
        2 => Some("IPv6"),
        _ => None,
    }
}

/// Returns the name of a family, if it has one.
fn name_of_family(afi: u16, safi: u8) -> Option<&'static str>
    ensures { option_map (λ (name : Bor (List ℕ)). name.now) result
        ≡ name_of_two_in family_names afi safi }
{
    Some(match (afi, safi) {
        (1, 1) => "IPv4 unicast",
        (1, 2) => "IPv4 multicast",
        (1, 4) => "IPv4 labeled",
        (1, 128) => "IPv4 VPN",
        (1, 132) => "route target",
        (1, 133) => "IPv4 flow",
        (2, 1) => "IPv6 unicast",
        (2, 2) => "IPv6 multicast",
        (2, 4) => "IPv6 labeled",
        (2, 128) => "IPv6 VPN",
        (2, 133) => "IPv6 flow",
        (25, 65) => "VPLS",
        (25, 70) => "EVPN",
        (16388, 71) => "BGP-LS",
        _ => return None,
    })
}

/// Puts the name of an Address Family Identifier, or `afi N`.
pub fn put_afi_name<W: Sink>(lines: &mut Lines<'_, W>, afi: u16)
    ensures { Writes lines.old lines.new (afi_name afi) }
{
    put_named(lines, b"afi ", afi, name_of_afi(afi));
}

/// Puts a family by its numbers.
fn put_family_numbers<W: Sink>(lines: &mut Lines<'_, W>, afi: u16, safi: u8)
    ensures { Writes lines.old lines.new (family_numbers afi safi) }
{
    lines.put(b"afi ");
    lines.put_decimal(afi);
    lines.put(b" safi ");
    lines.put_decimal(safi);
}

/// Puts the name of a family, or `afi N safi N`.
pub fn put_family_name<W: Sink>(lines: &mut Lines<'_, W>, afi: u16, safi: u8)
    ensures { Writes lines.old lines.new (family_name afi safi) }
{
    match name_of_family(afi, safi) {
        Some(name) => lines.put(name.as_bytes()),
        None => put_family_numbers(lines, afi, safi),
    }
}

/// Returns the names of families that are in use: `IPv4`, `IPv6`, `IPv4 and IPv6` or `none`.
pub fn families_name(families: Families) -> &'static str
    ensures { result.now ≡ families_name families }
{
    match (families.v4, families.v6) {
        (false, false) => "none",
        (true, false) => "IPv4",
        (false, true) => "IPv6",
        (true, true) => "IPv4 and IPv6",
    }
}
