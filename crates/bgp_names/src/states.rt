//! The names of the states of a session (RFC 4271, 8.2.2).

ghost use Rattle.std.specs.Prelude.{◌≡◌, ℕ, List, option_map};
ghost use Rattle.std.specs.Borrow.{Bor};
ghost use Rattle.bgp_text.specs.Lines.{Writes};
ghost use Rattle.bgp_names.specs.Naming.{name_in};
ghost use Rattle.bgp_names.specs.States.{state_name, state_names};

use crate::naming::put_named;
use bgp_text::{Lines, Sink};

/// Returns the name of a state, by its number in captures (RFC 6396, 4.4.1), if it has one.
pub fn name_of_state(number: u16) -> Option<&'static str>
    ensures { option_map (λ (name : Bor (List ℕ)). name.now) result ≡ name_in state_names number }
{
    Some(match number {
        1 => "Idle",
        2 => "Connect",
        3 => "Active",
        4 => "OpenSent",
        5 => "OpenConfirm",
        6 => "Established",
        _ => return None,
    })
}

/// Puts the name of a state, or `state N`.
pub fn put_state_name<W: Sink>(lines: &mut Lines<'_, W>, number: u16)
    ensures { Writes lines.old lines.new (state_name number) }
{
    put_named(lines, b"state ", number, name_of_state(number));
}
