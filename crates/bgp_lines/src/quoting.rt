//! Texts from the wire, as JSON spells them between quotation marks.

ghost use Rattle.std.specs.Prelude.{◌≡◌, ◌<◌};
ghost use Rattle.std.specs.Char.{digit_char};
ghost use Rattle.json.specs.Print.{escape, escape_byte};
ghost use Rattle.bgp_text.specs.Lines.{Writes};
ghost use Rattle.bgp_lines.specs.Quoting.{quoted_text};

use bgp_text::Lines;
use mrt::Sink;

/// Returns a hexadecimal digit.
fn hex_digit(value: u8) -> u8
    requires { value < 16 }
    ensures { result ≡ digit_char value }
{
    if value < 10 {
        b'0' + value
    } else {
        b'a' + (value - 10)
    }
}

/// Puts an octet of a text as JSON spells it between quotation marks.
#[tactic(auto, unfolding(json::specs::Print::escape_byte))]
fn put_escaped<W: Sink>(lines: &mut Lines<'_, W>, octet: u8)
    ensures { Writes lines.old lines.new (escape_byte octet) }
{
    match octet {
        b'"' => lines.put(b"\\\""),
        b'\\' => lines.put(b"\\\\"),
        8 => lines.put(b"\\b"),
        9 => lines.put(b"\\t"),
        10 => lines.put(b"\\n"),
        12 => lines.put(b"\\f"),
        13 => lines.put(b"\\r"),
        0..=31 => lines.put(&[
            b'\\',
            b'u',
            b'0',
            b'0',
            hex_digit(octet / 16),
            hex_digit(octet % 16),
        ]),
        _ => lines.put(&[octet]),
    }
}

/// Puts the octets of a text as JSON spells them between quotation marks.
fn put_all_escaped<W: Sink>(lines: &mut Lines<'_, W>, text: &[u8])
    ensures { Writes lines.old lines.new (escape text.now) }
{
    for octet in text {
        put_escaped(lines, *octet);
    }
}

/// Puts a text between quotation marks, as JSON has it.
pub fn put_quoted<W: Sink>(lines: &mut Lines<'_, W>, text: &str)
    ensures { Writes lines.old lines.new (quoted_text text.now) }
{
    lines.put(b"\"");
    put_all_escaped(lines, text.as_bytes());
    lines.put(b"\"");
}
