//! The names of message types (RFC 4271, 4.1).

ghost use Rattle.std.specs.Prelude.{◌≡◌, ℕ, List, option_map};
ghost use Rattle.std.specs.Borrow.{Bor};
ghost use Rattle.bgp_text.specs.Lines.{Writes};
ghost use Rattle.bgp_names.specs.Naming.{name_in};
ghost use Rattle.bgp_names.specs.Messages.{after_blank, type_names, type_text};

use bgp_text::{Lines, Sink};

/// Returns the name of a message type, if it has one.
fn name_of_type(number: u8) -> Option<&'static str>
    ensures { option_map (λ (name : Bor (List ℕ)). name.now) result ≡ name_in type_names number }
{
    Some(match number {
        1 => "OPEN",
        2 => "UPDATE",
        3 => "NOTIFICATION",
        4 => "KEEPALIVE",
        5 => "ROUTE-REFRESH",
        _ => return None,
    })
}

/// Puts a name after a blank, if there is one.
fn put_after_blank<W: Sink>(lines: &mut Lines<'_, W>, name: Option<&'static str>)
    ensures { Writes lines.old lines.new
        (after_blank (option_map (λ (text : Bor (List ℕ)). text.now) name.entry)) }
{
    match name {
        Some(name) => {
            lines.put(b" ");
            lines.put(name.as_bytes());
        }
        None => lines.put(b""),
    }
}

/// Puts the number of a message type, and its name if it has one: `5 ROUTE-REFRESH`.
pub fn put_type_text<W: Sink>(lines: &mut Lines<'_, W>, number: u8)
    ensures { Writes lines.old lines.new (type_text number) }
{
    lines.put_decimal(number);
    put_after_blank(lines, name_of_type(number));
}
