//! The text of why an OPEN has to be refused.

ghost use Rattle.std.specs.Prelude.{◌≡◌, ◌∷◌, [], codes};
ghost use Rattle.bgp_text.specs.Lines.{Writes};
ghost use Rattle.bgp_why_parts.specs.Pieces.{separated, next_separator};
ghost use Rattle.bgp_why.specs.Reasons.{configured_text, parameter_piece};
ghost use Rattle.bgp_why.specs.Reasons.{as_piece, identifier_piece, hold_piece};
ghost use Rattle.bgp_why.specs.Reasons.{fields_text, reasons_text};

use crate::refusal::{FieldReasons, OpenReasons};
use bgp_text::Lines;
use mrt::Sink;

/// That a parameter isn't of type 2, after a separator. Answers the next separator, as the three
/// below.
fn put_parameter<W: Sink>(
    lines: &mut Lines<'_, W>,
    before: &'static [u8],
    is_other: bool,
) -> &'static [u8]
    ensures writes { Writes lines.old lines.new
        (separated (codes "; ") before.now (parameter_piece is_other ∷ [])) }
    ensures next { result.now ≡ next_separator (codes "; ") before.now (parameter_piece is_other) }
{
    if !is_other {
        return before;
    }
    lines.put(before);
    lines.put(b"a parameter of another type than 2");
    b"; "
}

/// The number that is configured, or `another` if it is free.
fn put_configured<W: Sink>(lines: &mut Lines<'_, W>, is_free: bool, number: u32)
    ensures { Writes lines.old lines.new (configured_text is_free number) }
{
    if is_free {
        lines.put(b"another");
    } else {
        lines.put_decimal(number);
    }
}

/// The AS number that the peer says it has, and the one that is configured.
fn put_peer_as<W: Sink>(
    lines: &mut Lines<'_, W>,
    is_free: bool,
    before: &'static [u8],
    peer_as: Option<u32>,
    configured: u32,
) -> &'static [u8]
    ensures writes { Writes lines.old lines.new
        (separated (codes "; ") before.now (as_piece is_free configured peer_as ∷ [])) }
    ensures next { result.now
        ≡ next_separator (codes "; ") before.now (as_piece is_free configured peer_as) }
{
    let Some(number) = peer_as else {
        return before;
    };
    lines.put(before);
    lines.put(b"AS ");
    lines.put_decimal(number);
    lines.put(b", configured ");
    put_configured(lines, is_free, configured);
    b"; "
}

/// The BGP Identifier.
fn put_identifier<W: Sink>(
    lines: &mut Lines<'_, W>,
    before: &'static [u8],
    identifier: Option<u32>,
) -> &'static [u8]
    ensures writes { Writes lines.old lines.new
        (separated (codes "; ") before.now (identifier_piece identifier ∷ [])) }
    ensures next { result.now
        ≡ next_separator (codes "; ") before.now (identifier_piece identifier) }
{
    let Some(id) = identifier else {
        return before;
    };
    lines.put(before);
    lines.put(b"BGP Identifier ");
    lines.put_ipv4(id);
    b"; "
}

/// The Hold Time.
fn put_hold<W: Sink>(lines: &mut Lines<'_, W>, before: &'static [u8], hold: Option<u16>)
    ensures { Writes lines.old lines.new
        (separated (codes "; ") before.now (hold_piece hold ∷ [])) }
{
    if let Some(hold) = hold {
        lines.put(before);
        lines.put(b"Hold Time ");
        lines.put_decimal(hold);
    }
}

/// The fields that are at fault.
fn put_fields<W: Sink>(lines: &mut Lines<'_, W>, is_free: bool, reasons: &FieldReasons)
    ensures { Writes lines.old lines.new (fields_text is_free reasons.now) }
{
    let first = put_parameter(lines, b"", reasons.other_parameter);
    let (peer_as, configured) = (reasons.peer_as, reasons.configured_as);
    let second = put_peer_as(lines, is_free, first, peer_as, configured);
    let third = put_identifier(lines, second, reasons.identifier);
    put_hold(lines, third, reasons.hold);
}

/// Puts why an OPEN has to be refused, where the peer's AS number may be free.
pub(crate) fn put_reasons<W: Sink>(lines: &mut Lines<'_, W>, is_free: bool, reasons: &OpenReasons)
    ensures { Writes lines.old lines.new (reasons_text is_free reasons.now) }
{
    match reasons {
        OpenReasons::Version(number) => {
            lines.put(b"version ");
            lines.put_decimal(*number);
        }
        OpenReasons::Malformed => lines.put(b"a length that does not fit"),
        OpenReasons::Fields(reasons) => put_fields(lines, is_free, reasons),
    }
}
