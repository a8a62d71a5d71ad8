//! The names of what a NOTIFICATION says: its error code and subcode (RFC 4271, 4.5).

ghost use Rattle.std.specs.Prelude.{◌≡◌, ◌||◌, ◌==◌, not, ℕ, List, is_some, option_map};
ghost use Rattle.std.specs.Borrow.{Bor};
ghost use Rattle.bgp_text.specs.Lines.{Writes};
ghost use Rattle.bgp_names.specs.Naming.{name_in};
ghost use Rattle.bgp_names.specs.Errors.{code_name, code_names, error_name, short_error_name};
ghost use Rattle.bgp_names.specs.Errors.{subcode_name, subcode_names, header_error_names};
ghost use Rattle.bgp_names.specs.Errors.{open_error_names, update_error_names, cease_names};
ghost use Rattle.bgp_names.specs.Errors.{fsm_error_names, refresh_error_names, has_subcode};

use crate::naming::put_named;
use bgp_text::{Lines, Sink};

/// Returns the name of an error code, if it has one.
pub fn name_of_code(code: u8) -> Option<&'static str>
    ensures { option_map (λ (name : Bor (List ℕ)). name.now) result ≡ name_in code_names code }
{
    Some(match code {
        1 => "Message Header Error",
        2 => "OPEN Message Error",
        3 => "UPDATE Message Error",
        4 => "Hold Timer Expired",
        5 => "Finite State Machine Error",
        6 => "Cease",
        7 => "ROUTE-REFRESH Message Error",
        8 => "Send Hold Timer Expired",
        _ => return None,
    })
}

/// Returns the name of a subcode of Message Header Error, if it has one.
fn name_of_header_error(subcode: u8) -> Option<&'static str>
    ensures { option_map (λ (name : Bor (List ℕ)). name.now) result
        ≡ name_in header_error_names subcode }
{
    Some(match subcode {
        0 => "Unspecific",
        1 => "Connection Not Synchronized",
        2 => "Bad Message Length",
        3 => "Bad Message Type",
        _ => return None,
    })
}

/// Returns the name of a subcode of OPEN Message Error, if it has one.
fn name_of_open_error(subcode: u8) -> Option<&'static str>
    ensures { option_map (λ (name : Bor (List ℕ)). name.now) result
        ≡ name_in open_error_names subcode }
{
    Some(match subcode {
        0 => "Unspecific",
        1 => "Unsupported Version Number",
        2 => "Bad Peer AS",
        3 => "Bad BGP Identifier",
        4 => "Unsupported Optional Parameter",
        6 => "Unacceptable Hold Time",
        7 => "Unsupported Capability",
        11 => "Role Mismatch",
        _ => return None,
    })
}

/// Returns the name of a subcode of UPDATE Message Error, if it has one.
fn name_of_update_error(subcode: u8) -> Option<&'static str>
    ensures { option_map (λ (name : Bor (List ℕ)). name.now) result
        ≡ name_in update_error_names subcode }
{
    Some(match subcode {
        0 => "Unspecific",
        1 => "Malformed Attribute List",
        2 => "Unrecognized Well-known Attribute",
        3 => "Missing Well-known Attribute",
        4 => "Attribute Flags Error",
        5 => "Attribute Length Error",
        6 => "Invalid ORIGIN Attribute",
        8 => "Invalid NEXT_HOP Attribute",
        9 => "Optional Attribute Error",
        10 => "Invalid Network Field",
        11 => "Malformed AS_PATH",
        _ => return None,
    })
}

/// Returns the name of a subcode of Finite State Machine Error, if it has one.
fn name_of_fsm_error(subcode: u8) -> Option<&'static str>
    ensures { option_map (λ (name : Bor (List ℕ)). name.now) result
        ≡ name_in fsm_error_names subcode }
{
    Some(match subcode {
        0 => "Unspecified Error",
        1 => "Receive Unexpected Message in OpenSent State",
        2 => "Receive Unexpected Message in OpenConfirm State",
        3 => "Receive Unexpected Message in Established State",
        _ => return None,
    })
}

/// Returns the name of a subcode of Cease, if it has one.
fn name_of_cease(subcode: u8) -> Option<&'static str>
    ensures { option_map (λ (name : Bor (List ℕ)). name.now) result
        ≡ name_in cease_names subcode }
{
    Some(match subcode {
        1 => "Maximum Number of Prefixes Reached",
        2 => "Administrative Shutdown",
        3 => "Peer De-configured",
        4 => "Administrative Reset",
        5 => "Connection Rejected",
        6 => "Other Configuration Change",
        7 => "Connection Collision Resolution",
        8 => "Out of Resources",
        9 => "Hard Reset",
        10 => "BFD Down",
        _ => return None,
    })
}

/// Returns the name of a subcode of ROUTE-REFRESH Message Error, if it has one.
fn name_of_refresh_error(subcode: u8) -> Option<&'static str>
    ensures { option_map (λ (name : Bor (List ℕ)). name.now) result
        ≡ name_in refresh_error_names subcode }
{
    match subcode {
        1 => Some("Invalid Message Length"),
        _ => None,
    }
}

/// Returns the name of a subcode of this error code, if it has one.
pub fn name_of_subcode(code: u8, subcode: u8) -> Option<&'static str>
    ensures { option_map (λ (name : Bor (List ℕ)). name.now) result
        ≡ name_in (subcode_names code) subcode }
{
    match code {
        1 => name_of_header_error(subcode),
        2 => name_of_open_error(subcode),
        3 => name_of_update_error(subcode),
        5 => name_of_fsm_error(subcode),
        6 => name_of_cease(subcode),
        7 => name_of_refresh_error(subcode),
        _ => None,
    }
}

/// Checks whether the subcode says something: it has a name, or isn't 0.
pub fn has_subcode(code: u8, subcode: u8) -> bool
    ensures { result ≡ has_subcode code subcode }
{
    name_of_subcode(code, subcode).is_some() || subcode != 0
}

/// Puts the name of an error code, or `code N`.
pub fn put_code_name<W: Sink>(lines: &mut Lines<'_, W>, code: u8)
    ensures { Writes lines.old lines.new (code_name code) }
{
    put_named(lines, b"code ", code, name_of_code(code));
}

/// Puts the name of a subcode of this error code, or `subcode N`.
pub fn put_subcode_name<W: Sink>(lines: &mut Lines<'_, W>, code: u8, subcode: u8)
    ensures { Writes lines.old lines.new (subcode_name code subcode) }
{
    put_named(lines, b"subcode ", subcode, name_of_subcode(code, subcode));
}

/// Puts both names, as in `Cease, Administrative Reset`. A subcode 0 without a name is left out.
pub fn put_error_name<W: Sink>(lines: &mut Lines<'_, W>, code: u8, subcode: u8)
    ensures { Writes lines.old lines.new (error_name code subcode) }
{
    put_code_name(lines, code);
    if has_subcode(code, subcode) {
        lines.put(b", ");
        put_subcode_name(lines, code, subcode);
    } else {
        lines.put(b"");
    }
}

/// Puts the name of the subcode alone, as in `Administrative Reset`. For a subcode 0 without a name
/// that is the name of the code.
pub fn put_short_error_name<W: Sink>(lines: &mut Lines<'_, W>, code: u8, subcode: u8)
    ensures { Writes lines.old lines.new (short_error_name code subcode) }
{
    if has_subcode(code, subcode) {
        put_subcode_name(lines, code, subcode);
    } else {
        put_code_name(lines, code);
    }
}
