//! The names of capabilities (RFC 5492), and of what two of them say.

ghost use Rattle.std.specs.Prelude.{◌≡◌, ℕ, List, option_map};
ghost use Rattle.std.specs.Borrow.{Bor};
ghost use Rattle.bgp_text.specs.Lines.{Writes};
ghost use Rattle.bgp_names.specs.Naming.{name_in};
ghost use Rattle.bgp_names.specs.Capabilities.{capability_name, capability_names, role_names};
ghost use Rattle.bgp_names.specs.Capabilities.{way_names};

use crate::naming::put_named;
use bgp_text::{Lines, Sink};

/// Returns the name of a capability, if it has one.
pub fn name_of_capability(code: u8) -> Option<&'static str>
    ensures { option_map (λ (name : Bor (List ℕ)). name.now) result
        ≡ name_in capability_names code }
{
    Some(match code {
        1 => "Multiprotocol",
        2 => "Route Refresh",
        5 => "Extended Next Hop",
        6 => "Extended Message",
        9 => "Role",
        64 => "Graceful Restart",
        65 => "Four-octet AS",
        69 => "ADD-PATH",
        70 => "Enhanced Route Refresh",
        71 => "Long-Lived Graceful Restart",
        73 => "FQDN",
        128 => "Prestandard Route Refresh",
        _ => return None,
    })
}

/// Puts the name of a capability, or `capability N`.
pub fn put_capability_name<W: Sink>(lines: &mut Lines<'_, W>, code: u8)
    ensures { Writes lines.old lines.new (capability_name code) }
{
    put_named(lines, b"capability ", code, name_of_capability(code));
}

/// Returns the name of a role (RFC 9234, 4.1), if it has one.
pub fn name_of_role(role: u8) -> Option<&'static str>
    ensures { option_map (λ (name : Bor (List ℕ)). name.now) result ≡ name_in role_names role }
{
    Some(match role {
        0 => "Provider",
        1 => "RS",
        2 => "RS-Client",
        3 => "Customer",
        4 => "Peer",
        _ => return None,
    })
}

/// Returns the name of what a system does with path identifiers (RFC 7911, 4), if it has one.
pub fn name_of_way(way: u8) -> Option<&'static str>
    ensures { option_map (λ (name : Bor (List ℕ)). name.now) result ≡ name_in way_names way }
{
    Some(match way {
        1 => "receive",
        2 => "send",
        3 => "both",
        _ => return None,
    })
}
