//! A path attribute in words (RFC 4271, 4.3 and 5).

ghost use Rattle.std.specs.Prelude.{◌≡◌, ◌++◌, codes, option_map};
ghost use Rattle.std.specs.Fmt.{decimal};
ghost use Rattle.bgp_attr.specs.Segments.{number_width};
ghost use Rattle.bgp_text.specs.Lines.{Writes};
ghost use Rattle.bgp_lines.specs.Joined.{each_behind};
ghost use Rattle.bgp_values.specs.PathSegments.{segment_of, segments_of};
ghost use Rattle.bgp_values.specs.AttributeValue.{aggregator, attribute_value_of};
ghost use Rattle.bgp_lines.specs.AttributeLine.{are_right_flags, as_item, attribute_value_text};
ghost use Rattle.bgp_lines.specs.AttributeLine.{between, bits_of_type, closing, flags_text, opening};
ghost use Rattle.bgp_lines.specs.AttributeLine.{octets_text, origin_text, path_text, segment_text};
ghost use Rattle.bgp_lines.specs.AttributeLine.{unknown_text, value_or_octets};

use crate::items::put_joined;
use bgp_names::name_of_origin;
use bgp_text::Lines;
use bgp_values::{AttributeValue, Item, Segment, first_segment};
use mrt::Sink;

/// Every bit of an Attribute Flags octet but Extended Length.
const BUT_EXTENDED_LENGTH: u8 = 239;

/// Returns the Optional and Transitive bits that a type has, if it is known.
pub(crate) fn bits_of_type(kind: u8) -> Option<u8>
    ensures { result ≡ bits_of_type kind }
{
    match kind {
        1 | 2 | 3 | 5 | 6 => Some(64),
        4 | 9 | 10 | 14 | 15 | 26 => Some(128),
        7 | 8 | 16 | 17 | 18 | 32 | 35 => Some(192),
        _ => None,
    }
}

/// Checks whether flags are those of the type, whatever Extended Length is.
pub(crate) fn are_right_flags(bits: u8, flags: u8) -> bool
    ensures { result ≡ are_right_flags bits flags }
{
    flags & BUT_EXTENDED_LENGTH == bits
}

/// Puts flags.
fn put_some_flags<W: Sink>(lines: &mut Lines<'_, W>, flags: u8)
    ensures { Writes lines.old lines.new (codes " flags " ++ decimal flags) }
{
    lines.put(b" flags ");
    lines.put_decimal(flags);
}

/// Puts flags that aren't those of the type.
pub(crate) fn put_flags<W: Sink>(lines: &mut Lines<'_, W>, bits: u8, flags: u8)
    ensures { Writes lines.old lines.new (flags_text bits flags) }
{
    if are_right_flags(bits, flags) {
        lines.put(b"");
    } else {
        put_some_flags(lines, flags);
    }
}

/// Returns what stands before the numbers of a segment.
fn opening(kind: u8) -> &'static [u8]
    ensures { result.now ≡ opening kind }
{
    match kind {
        1 => b"{",
        3 => b"(",
        4 => b"[",
        _ => b"",
    }
}

/// Returns what stands between the numbers of a segment.
fn between(kind: u8) -> &'static [u8]
    ensures { result.now ≡ between kind }
{
    match kind {
        1 | 4 => b",",
        _ => b" ",
    }
}

/// Returns what stands behind the numbers of a segment.
fn closing(kind: u8) -> &'static [u8]
    ensures { result.now ≡ closing kind }
{
    match kind {
        1 => b"}",
        3 => b")",
        4 => b"]",
        _ => b"",
    }
}

/// Returns what an AS number of four octets, or of two, is as an item.
fn as_item(as4: bool) -> Item
    ensures { result ≡ as_item as4 }
{
    if as4 {
        Item::AsNumber4
    } else {
        Item::AsNumber2
    }
}

/// Puts a segment of a path.
fn put_segment<W: Sink>(lines: &mut Lines<'_, W>, as4: bool, segment: Segment<'_>)
    ensures { Writes lines.old lines.new (segment_text as4 (segment_of segment.entry)) }
{
    lines.put(opening(segment.kind));
    put_joined(lines, between(segment.kind), as_item(as4), segment.numbers);
    lines.put(closing(segment.kind));
}

/// Puts the segments that octets are, each behind a blank.
fn put_more_segments<W: Sink>(lines: &mut Lines<'_, W>, as4: bool, octets: &[u8])
    ensures { Writes lines.old lines.new (each_behind (codes " ") (segment_text as4)
        (segments_of (number_width as4) octets.now)) }
{
    let mut rest = octets;
    while let Some((segment, others)) = first_segment(as4, rest) {
        lines.put(b" ");
        put_segment(lines, as4, segment);
        rest = others;
    }
}

/// Puts the segments that octets are, with blanks between them, or a dash for none.
fn put_path<W: Sink>(lines: &mut Lines<'_, W>, as4: bool, octets: &[u8])
    ensures { Writes lines.old lines.new
        (path_text as4 (segments_of (number_width as4) octets.now)) }
{
    let Some((first, others)) = first_segment(as4, octets) else {
        return lines.put(b"-");
    };
    put_segment(lines, as4, first);
    put_more_segments(lines, as4, others);
}

/// Puts the name of a value of ORIGIN.
fn put_origin<W: Sink>(lines: &mut Lines<'_, W>, number: u8)
    ensures { Writes lines.old lines.new (origin_text number) }
{
    lines.put(name_of_origin(number).unwrap_or("").as_bytes());
}

/// Puts the AS number and the address of an aggregator.
fn put_aggregator<W: Sink>(lines: &mut Lines<'_, W>, as_number: u32, router: u32)
    ensures { Writes lines.old lines.new (attribute_value_text (aggregator as_number router)) }
{
    lines.put(b" ");
    lines.put_decimal(as_number);
    lines.put(b" ");
    lines.put_ipv4(router);
}

/// Puts a value behind the word of its attribute.
#[tactic(auto, unfolding(crate::specs::AttributeLine::attribute_value_text))]
fn put_value<W: Sink>(lines: &mut Lines<'_, W>, value: AttributeValue<'_>)
    ensures { Writes lines.old lines.new (attribute_value_text (attribute_value_of value.entry)) }
{
    match value {
        AttributeValue::Origin(number) => {
            lines.put(b" ");
            put_origin(lines, number);
        }
        AttributeValue::Path(as4, octets) => {
            lines.put(b" ");
            put_path(lines, as4, octets);
        }
        AttributeValue::Address(number) => {
            lines.put(b" ");
            lines.put_ipv4(number);
        }
        AttributeValue::Number(number) => {
            lines.put(b" ");
            lines.put_decimal(number);
        }
        AttributeValue::Atomic => lines.put(b""),
        AttributeValue::Aggregator(as_number, router) => put_aggregator(lines, as_number, router),
        AttributeValue::Items(kind, octets) => {
            lines.put(b" ");
            put_joined(lines, b" ", kind, octets);
        }
        AttributeValue::Metric(number) => {
            lines.put(b" ");
            lines.put_decimal(number);
        }
    }
}

/// Puts octets without a value.
pub(crate) fn put_octets<W: Sink>(lines: &mut Lines<'_, W>, octets: &[u8])
    ensures { Writes lines.old lines.new (octets_text octets.now) }
{
    lines.put(b" octets ");
    lines.put_hex(octets);
}

/// Puts a value behind the word of its attribute, or its octets.
pub(crate) fn put_value_or_octets<W: Sink>(
    lines: &mut Lines<'_, W>,
    value: Option<AttributeValue<'_>>,
    octets: &[u8],
)
    ensures { Writes lines.old lines.new
        (value_or_octets (option_map attribute_value_of value.entry) octets.now) }
{
    match value {
        None => put_octets(lines, octets),
        Some(value) => put_value(lines, value),
    }
}

/// Puts the flags and the octets of an attribute whose type isn't known.
pub(crate) fn put_unknown<W: Sink>(lines: &mut Lines<'_, W>, flags: u8, octets: &[u8])
    ensures { Writes lines.old lines.new (unknown_text flags octets.now) }
{
    lines.put(b" flags ");
    lines.put_decimal(flags);
    lines.put(b" ");
    lines.put_hex(octets);
}
