//! The line of a message in words.

ghost use Rattle.std.specs.Prelude.{◌≡◌, ℕ, List, take};
ghost use Rattle.bgp_text.specs.Lines.{Writes};
ghost use Rattle.bgp_why.specs.MessageLine.{data_line, message_line};

use bgp_text::Lines;
use bgp_why_parts::put_cut;
use mrt::Sink;

/// Puts `message: LINE`, 200 octets of a line at the most, of which these are the first 256: its
/// line of `bgp decode --names`.
pub fn put_message_line<W: Sink>(lines: &mut Lines<'_, W>, front: &[u8])
    ensures { (text : List ℕ) → front.now ≡ take 256 text
        → Writes lines.old lines.new (message_line text) }
{
    lines.put(b"  message: ");
    put_cut(lines, front);
    lines.put(b"\n");
}

/// Puts `data: TEXT`, 200 octets of a text at the most, of which these are the first 256: what the
/// data of a NOTIFICATION say.
pub fn put_data_line<W: Sink>(lines: &mut Lines<'_, W>, front: &[u8])
    ensures { (text : List ℕ) → front.now ≡ take 256 text
        → Writes lines.old lines.new (data_line text) }
{
    lines.put(b"  data: ");
    put_cut(lines, front);
    lines.put(b"\n");
}
