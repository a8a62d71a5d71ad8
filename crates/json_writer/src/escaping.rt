//! Texts between quotation marks, with escapes if they need some.

ghost use Rattle.std.specs.Prelude.{◌≡◌, ◌<◌, ◌≤◌, ◌++◌, ◌∷◌, [], length, take, OnErr, OnOk};
ghost use Rattle.std.specs.Bool.{OnTrue};
ghost use Rattle.std.specs.Char.{digit_char};
ghost use Rattle.json.specs.Print.{escape, escape_byte};
ghost use Rattle.json_writer.specs.Places.{comma_text};

use crate::buffer::Buffer;
use std::alloc::{AllocError, Allocator};

/// How many places an octet of a text needs at the most, and one for a comma.
const ESCAPE: usize = 7;

/// Returns a hexadecimal digit.
#[inline(always)]
pub(crate) fn hex_digit(value: u8) -> u8
    requires { value < 16 }
    ensures { result ≡ digit_char value }
{
    if value < 10 {
        b'0' + value
    } else {
        b'a' + (value - 10)
    }
}

/// Puts an octet of a text as it stands between quotation marks.
#[tactic(auto, unfolding(json::specs::Print::escape_byte))]
fn put_octet<A: Allocator>(out: &mut Buffer<A>, octet: u8) -> Result<(), AllocError>
    ensures ok { OnOk result (out.new.items ≡ out.old.items ++ escape_byte octet) }
    ensures err { OnErr result (out.new.items ≡ out.old.items) }
{
    out.make_room(ESCAPE)?;
    match octet {
        b'"' => out.put(false, b"\\\""),
        b'\\' => out.put(false, b"\\\\"),
        8 => out.put(false, b"\\b"),
        9 => out.put(false, b"\\t"),
        10 => out.put(false, b"\\n"),
        12 => out.put(false, b"\\f"),
        13 => out.put(false, b"\\r"),
        0..=31 => out.put(
            false,
            &[
                b'\\',
                b'u',
                b'0',
                b'0',
                hex_digit(octet / 16),
                hex_digit(octet % 16),
            ],
        ),
        _ => out.put(false, &[octet]),
    }
    Ok(())
}

/// Puts the octets of a text as they stand between quotation marks. A failure leaves some of them.
fn put_octets<A: Allocator>(out: &mut Buffer<A>, text: &[u8]) -> Result<(), AllocError>
    ensures ok { OnOk result (out.new.items ≡ out.old.items ++ escape text.now) }
    ensures front { take (length out.old.items) out.new.items ≡ out.old.items }
{
    for octet in text {
        put_octet(out, *octet)?;
    }
    Ok(())
}

/// Puts a comma, if one is wanted, and then a text.
fn put_fixed<A: Allocator>(out: &mut Buffer<A>, comma: bool, text: &[u8]) -> Result<(), AllocError>
    ensures ok { OnOk result (out.new.items ≡ out.old.items ++ (comma_text comma ++ text.now)) }
    ensures front { take (length out.old.items) out.new.items ≡ out.old.items }
{
    out.make_room(text.len() + 1)?;
    out.put(comma, text);
    Ok(())
}

/// Puts a text between quotation marks, and a text behind these. A failure leaves some of it.
fn put_all<A: Allocator>(
    out: &mut Buffer<A>,
    comma: bool,
    text: &[u8],
    close: &[u8],
) -> Result<(), AllocError>
    ensures ok { OnOk result (out.new.items
        ≡ out.old.items ++ (comma_text comma ++ 34 ∷ (escape text.now ++ close.now))) }
    ensures front { take (length out.old.items) out.new.items ≡ out.old.items }
{
    put_fixed(out, comma, b"\"")?;
    put_octets(out, text)?;
    put_fixed(out, false, close)
}

/// Puts a text that needs escapes, or leaves what was put before.
#[cold]
#[inline(never)]
fn put_escaped<A: Allocator>(
    out: &mut Buffer<A>,
    comma: bool,
    text: &[u8],
    close: &[u8],
) -> Result<(), AllocError>
    ensures ok { OnOk result (out.new.items
        ≡ out.old.items ++ (comma_text comma ++ 34 ∷ (escape text.now ++ close.now))) }
    ensures err { OnErr result (out.new.items ≡ out.old.items) }
{
    let len = out.len();
    let done = put_all(out, comma, text, close);
    if done.is_err() {
        out.cut(len);
    }
    done
}

/// Checks whether a text needs no escape. For a literal nothing is left of it in the program.
#[inline(always)]
fn is_plain(text: &[u8]) -> bool
    ensures { OnTrue result (escape text.now ≡ text.now) }
{
    for octet in text {
        if *octet == b'"' || *octet == b'\\' || *octet < 0x20 {
            return false;
        }
    }
    true
}

/// Puts a text between quotation marks, or leaves what was put before.
#[inline(always)]
pub(crate) fn put_quoted<A: Allocator>(
    out: &mut Buffer<A>,
    comma: bool,
    text: &[u8],
) -> Result<(), AllocError>
    ensures ok { OnOk result (out.new.items
        ≡ out.old.items ++ (comma_text comma ++ 34 ∷ (escape text.now ++ 34 ∷ []))) }
    ensures err { OnErr result (out.new.items ≡ out.old.items) }
{
    if !is_plain(text) {
        return put_escaped(out, comma, text, b"\"");
    }
    out.make_room(text.len() + 3)?;
    out.put_quoted(comma, text);
    Ok(())
}

/// Puts a text between quotation marks and a colon, or leaves what was put before.
#[inline(always)]
pub(crate) fn put_key<A: Allocator>(
    out: &mut Buffer<A>,
    comma: bool,
    text: &[u8],
) -> Result<(), AllocError>
    ensures ok { OnOk result (out.new.items
        ≡ out.old.items ++ (comma_text comma ++ 34 ∷ (escape text.now ++ 34 ∷ 58 ∷ []))) }
    ensures err { OnErr result (out.new.items ≡ out.old.items) }
{
    if !is_plain(text) {
        return put_escaped(out, comma, text, b"\":");
    }
    out.make_room(text.len() + 4)?;
    out.put_key(comma, text);
    Ok(())
}
