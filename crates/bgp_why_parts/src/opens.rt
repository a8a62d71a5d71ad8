//! What an OPEN lacks of the local system's own (RFC 4271, 4.2).

ghost use Rattle.std.specs.Prelude.{◌≡◌, ◌∷◌, [], codes};
ghost use Rattle.bgp_names.specs.Lines.{Writes};
ghost use Rattle.bgp_why_parts.specs.Pieces.{separated, next_separator};
ghost use Rattle.bgp_why_parts.specs.Opens.{number_piece, id_piece, families_piece};
ghost use Rattle.bgp_why_parts.specs.Opens.{as_number_text, as_number_piece, extended_piece};
ghost use Rattle.bgp_why_parts.specs.Opens.{extended_text, differences_text, offers_piece};
ghost use Rattle.bgp_why_parts.specs.Opens.{open_fault_text, open_parts_text};

use crate::codes::put_code;
use crate::offers::put_offer;
use bgp_names::{Lines, families_name};
use bgp_open::{Families, OpenFault, RouteOffer};
use bgp_parts::{Differing, OpenDifferences, OwnOpenParts};
use mrt::Sink;

/// A number that differs, after a separator and a word. Answers the next separator, as those below.
fn put_number<W: Sink>(
    lines: &mut Lines<'_, W>,
    before: &'static [u8],
    word: &[u8],
    number: Option<Differing<u16>>,
) -> &'static [u8]
    ensures writes { Writes lines.old lines.new
        (separated (codes "; ") before.now (number_piece word.now number ∷ [])) }
    ensures next { result.now
        ≡ next_separator (codes "; ") before.now (number_piece word.now number) }
{
    let Some(number) = number else {
        return before;
    };
    lines.put(before);
    lines.put(word);
    lines.put_decimal(number.sent);
    lines.put(b", configured ");
    lines.put_decimal(number.configured);
    b"; "
}

/// The BGP Identifier.
fn put_id<W: Sink>(
    lines: &mut Lines<'_, W>,
    before: &'static [u8],
    id: Option<Differing<u32>>,
) -> &'static [u8]
    ensures writes { Writes lines.old lines.new
        (separated (codes "; ") before.now (id_piece id ∷ [])) }
    ensures next { result.now ≡ next_separator (codes "; ") before.now (id_piece id) }
{
    let Some(id) = id else {
        return before;
    };
    lines.put(before);
    lines.put(b"BGP Identifier ");
    lines.put_ipv4(id.sent);
    lines.put(b", configured ");
    lines.put_ipv4(id.configured);
    b"; "
}

/// The families that are offered.
fn put_families<W: Sink>(
    lines: &mut Lines<'_, W>,
    before: &'static [u8],
    families: Option<Differing<Families>>,
) -> &'static [u8]
    ensures writes { Writes lines.old lines.new
        (separated (codes "; ") before.now (families_piece families ∷ [])) }
    ensures next { result.now
        ≡ next_separator (codes "; ") before.now (families_piece families) }
{
    let Some(families) = families else {
        return before;
    };
    lines.put(before);
    lines.put(b"families ");
    lines.put(families_name(families.sent).as_bytes());
    lines.put(b", configured ");
    lines.put(families_name(families.configured).as_bytes());
    b"; "
}

/// A four-octet AS number, or `none`.
fn put_number_or_none<W: Sink>(lines: &mut Lines<'_, W>, number: Option<u32>)
    ensures { Writes lines.old lines.new (as_number_text number) }
{
    match number {
        Some(number) => lines.put_decimal(number),
        None => lines.put(b"none"),
    }
}

/// The AS number in the capability of four-octet AS numbers.
fn put_as_number<W: Sink>(
    lines: &mut Lines<'_, W>,
    before: &'static [u8],
    number: Option<Differing<Option<u32>>>,
) -> &'static [u8]
    ensures writes { Writes lines.old lines.new
        (separated (codes "; ") before.now (as_number_piece number ∷ [])) }
    ensures next { result.now
        ≡ next_separator (codes "; ") before.now (as_number_piece number) }
{
    let Some(number) = number else {
        return before;
    };
    lines.put(before);
    lines.put(b"four-octet AS ");
    put_number_or_none(lines, number.sent);
    lines.put(b", configured ");
    put_number_or_none(lines, number.configured);
    b"; "
}

/// That extended messages are offered or not, unlike what is configured.
fn extended_text(sent: bool) -> &'static [u8]
    ensures { result.now ≡ extended_text sent }
{
    if sent {
        b"Extended Message offered, not configured"
    } else {
        b"Extended Message not offered, configured"
    }
}

/// Whether extended messages are offered.
fn put_extended<W: Sink>(
    lines: &mut Lines<'_, W>,
    before: &'static [u8],
    extended: Option<Differing<bool>>,
) -> &'static [u8]
    ensures writes { Writes lines.old lines.new
        (separated (codes "; ") before.now (extended_piece extended ∷ [])) }
    ensures next { result.now
        ≡ next_separator (codes "; ") before.now (extended_piece extended) }
{
    let Some(extended) = extended else {
        return before;
    };
    lines.put(before);
    lines.put(extended_text(extended.sent));
    b"; "
}

/// What is offered about how routes are spelled.
fn put_offers<W: Sink>(
    lines: &mut Lines<'_, W>,
    before: &'static [u8],
    offers: Option<Differing<RouteOffer>>,
)
    ensures { Writes lines.old lines.new
        (separated (codes "; ") before.now (offers_piece offers ∷ [])) }
{
    if let Some(offers) = offers {
        lines.put(before);
        lines.put(b"offers ");
        put_offer(lines, offers.sent);
        lines.put(b", configured ");
        put_offer(lines, offers.configured);
    }
}

/// Each field that differs.
fn put_differences<W: Sink>(lines: &mut Lines<'_, W>, told: &OpenDifferences)
    ensures { Writes lines.old lines.new (differences_text told.now) }
{
    let first = put_number(lines, b"", b"My AS ", told.my_as);
    let second = put_number(lines, first, b"Hold Time ", told.hold);
    let third = put_id(lines, second, told.id);
    let fourth = put_families(lines, third, told.families);
    let fifth = put_as_number(lines, fourth, told.as_number);
    let sixth = put_extended(lines, fifth, told.extended);
    put_offers(lines, sixth, told.offers);
}

/// The fault of an OPEN's form.
fn put_open_fault<W: Sink>(lines: &mut Lines<'_, W>, fault: OpenFault)
    ensures { Writes lines.old lines.new (open_fault_text fault) }
{
    match fault {
        OpenFault::Version => put_code(lines, 2, 1),
        OpenFault::Malformed => lines.put(b"a length that does not fit"),
        OpenFault::Parameter => put_code(lines, 2, 4),
    }
}

/// Puts what an OPEN lacks of the local system's own: the fault of its form, or each field that
/// differs, as in `Hold Time 90, configured 180`.
pub(crate) fn put_open_parts<W: Sink>(lines: &mut Lines<'_, W>, parts: &OwnOpenParts)
    ensures { Writes lines.old lines.new (open_parts_text parts.now) }
{
    match parts {
        OwnOpenParts::Malformed(fault) => put_open_fault(lines, *fault),
        OwnOpenParts::Differing(told) => put_differences(lines, told),
    }
}
