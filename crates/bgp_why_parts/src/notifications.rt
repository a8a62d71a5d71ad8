//! What a NOTIFICATION lacks of those that are possible (RFC 4271, 4.5).

ghost use Rattle.std.specs.Prelude.{◌≡◌, ◌∷◌, [], codes};
ghost use Rattle.bgp_names.specs.Lines.{Writes};
ghost use Rattle.bgp_why_parts.specs.Pieces.{separated, next_separator};
ghost use Rattle.bgp_why_parts.specs.Notifications.{word_text, word_piece, early_piece};
ghost use Rattle.bgp_why_parts.specs.Notifications.{notification_parts_text};

use crate::codes::put_code;
use bgp_names::Lines;
use bgp_parts::{NotificationPart, NotificationParts};
use bgp_prefix::Seconds;
use mrt::Sink;

/// Its code with its subcode, or its data.
fn put_word<W: Sink>(lines: &mut Lines<'_, W>, code: u8, part: NotificationPart<'_>)
    ensures { Writes lines.old lines.new (word_text code part.entry) }
{
    match part {
        NotificationPart::Subcode(subcode) => put_code(lines, code, subcode),
        NotificationPart::Data(octets) => {
            lines.put(b"data ");
            lines.put_hex(octets);
        }
    }
}

/// The subcode or the data, if there is such a part. Answers the next separator.
fn put_first<W: Sink>(
    lines: &mut Lines<'_, W>,
    code: u8,
    part: Option<NotificationPart<'_>>,
) -> &'static [u8]
    ensures writes { Writes lines.old lines.new
        (separated (codes "; ") [] (word_piece code part.entry ∷ [])) }
    ensures next { result.now
        ≡ next_separator (codes "; ") [] (word_piece code part.entry) }
{
    let Some(part) = part else {
        return b"";
    };
    put_word(lines, code, part);
    b"; "
}

/// That it was sent before it is possible.
fn put_early<W: Sink>(lines: &mut Lines<'_, W>, before: &'static [u8], early: Option<Seconds>)
    ensures { Writes lines.old lines.new
        (separated (codes "; ") before.now (early_piece early ∷ [])) }
{
    if let Some(_) = early {
        lines.put(before);
        lines.put(b"too early");
    }
}

/// Puts what a NOTIFICATION of this code lacks of those that are possible: its code with its
/// subcode, or its data, and that it is too early.
pub(crate) fn put_notification_parts<W: Sink>(
    lines: &mut Lines<'_, W>,
    code: u8,
    parts: &NotificationParts<'_>,
)
    ensures { Writes lines.old lines.new (notification_parts_text code parts.now) }
{
    let next = put_first(lines, code, parts.part);
    put_early(lines, next, parts.early);
}
