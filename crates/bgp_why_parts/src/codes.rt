//! An error code and a subcode, with their names.

ghost use Rattle.bgp_names.specs.Lines.{Writes};
ghost use Rattle.bgp_why_parts.specs.Codes.{code_text, full_code_text};

use bgp_names::{Lines, put_error_name, put_short_error_name};
use mrt::Sink;

/// Puts an error code and a subcode with the subcode's name: `6/4 (Administrative Reset)`.
pub fn put_code<W: Sink>(lines: &mut Lines<'_, W>, code: u8, subcode: u8)
    ensures { Writes lines.old lines.new (code_text code subcode) }
{
    lines.put_decimal(code);
    lines.put(b"/");
    lines.put_decimal(subcode);
    lines.put(b" (");
    put_short_error_name(lines, code, subcode);
    lines.put(b")");
}

/// Puts an error code and a subcode with both names: `6/4 (Cease, Administrative Reset)`.
pub fn put_full_code<W: Sink>(lines: &mut Lines<'_, W>, code: u8, subcode: u8)
    ensures { Writes lines.old lines.new (full_code_text code subcode) }
{
    lines.put_decimal(code);
    lines.put(b"/");
    lines.put_decimal(subcode);
    lines.put(b" (");
    put_error_name(lines, code, subcode);
    lines.put(b")");
}
