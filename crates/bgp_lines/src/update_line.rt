//! The line of an UPDATE in words (RFC 4271, 4.3).

ghost use Rattle.std.specs.Prelude.{◌++◌, ◌≡◌, ◌∷◌, [], codes};
ghost use Rattle.bgp_attr.specs.Field.{attribute_of};
ghost use Rattle.bgp_text.specs.Parts.{parts_of};
ghost use Rattle.bgp_names.specs.Families.{family_name};
ghost use Rattle.bgp_text.specs.Lines.{Writes};
ghost use Rattle.bgp_text.specs.Text.{destinations_text};
ghost use Rattle.bgp_lines.specs.Joined.{each_behind};
ghost use Rattle.bgp_lines.specs.UpdateLine.{alone, behind_word, is_marker, named_attribute};
ghost use Rattle.bgp_lines.specs.UpdateLine.{named_update, parts_body, said_by};

use crate::attribute_line::{
    are_right_flags, bits_of_type, put_flags, put_unknown, put_value_or_octets,
};
use crate::routes_line::{put_listed, put_routes_or_octets};
use bgp_attr::{Attr, Attrs};
use bgp_names::{put_attribute_word, put_family_name};
use bgp_text::{Destination, Destinations, Lines, Parts};
use bgp_values::{AttributeValue, Reading, RoutesValue};
use byteorder::{BigEndian, ByteOrder};
use mrt::Sink;

/// The Attribute Type Code of MP_REACH_NLRI.
const MP_REACH_NLRI: u8 = 14;

/// The Attribute Type Code of MP_UNREACH_NLRI.
const MP_UNREACH_NLRI: u8 = 15;

/// The Optional and Transitive bits of MP_UNREACH_NLRI.
const OPTIONAL: u8 = 128;

/// Puts what an attribute says behind its word, or its octets.
#[tactic(auto, unfolding(crate::specs::UpdateLine::said_by))]
fn put_said<W: Sink>(lines: &mut Lines<'_, W>, reading: Reading, attr: Attr<'_>)
    ensures { Writes lines.old lines.new (said_by reading (attribute_of attr.entry)) }
{
    match attr.kind {
        MP_REACH_NLRI => {
            let value = RoutesValue::of_reach(reading.form, attr.value);
            put_routes_or_octets(lines, value, attr.value);
        }
        MP_UNREACH_NLRI => {
            let value = RoutesValue::of_unreach(reading.form, attr.value);
            put_routes_or_octets(lines, value, attr.value);
        }
        kind => {
            let value = AttributeValue::of(reading.as4, kind, attr.value);
            put_value_or_octets(lines, value, attr.value);
        }
    }
}

/// Puts what stands behind the word of an attribute, by the bits that its type has.
#[tactic(auto, unfolding(crate::specs::UpdateLine::behind_word))]
fn put_behind_word<W: Sink>(
    lines: &mut Lines<'_, W>,
    reading: Reading,
    attr: Attr<'_>,
    bits: Option<u8>,
)
    ensures { Writes lines.old lines.new (behind_word reading (attribute_of attr.entry) bits) }
{
    match bits {
        None => put_unknown(lines, attr.flags, attr.value),
        Some(bits) => {
            put_said(lines, reading, attr);
            put_flags(lines, bits, attr.flags);
        }
    }
}

/// Puts an attribute.
fn put_attribute<W: Sink>(lines: &mut Lines<'_, W>, reading: Reading, attr: Attr<'_>)
    ensures { Writes lines.old lines.new (named_attribute reading (attribute_of attr.entry)) }
{
    put_attribute_word(lines, attr.kind);
    put_behind_word(lines, reading, attr, bits_of_type(attr.kind));
}

/// Puts attributes, each behind a bar.
fn put_attributes<W: Sink>(lines: &mut Lines<'_, W>, reading: Reading, attributes: Attrs<'_>)
    ensures { Writes lines.old lines.new
        (each_behind (codes " | ") (named_attribute reading) attributes.entry.attributes) }
{
    for attr in attributes {
        lines.put(b" | ");
        put_attribute(lines, reading, attr);
    }
}

/// Checks whether an attribute is MP_UNREACH_NLRI without prefixes.
fn is_marker(attr: Attr<'_>) -> bool
    ensures { result ≡ is_marker (attribute_of attr.entry) }
{
    attr.kind == MP_UNREACH_NLRI && are_right_flags(OPTIONAL, attr.flags) && attr.value.len() == 3
}

/// Puts the family whose routes have all been sent.
fn put_end_of_rib<W: Sink>(lines: &mut Lines<'_, W>, afi: u16, safi: u8)
    ensures { Writes lines.old lines.new (codes "End-of-RIB " ++ family_name afi safi) }
{
    lines.put(b"End-of-RIB ");
    put_family_name(lines, afi, safi);
}

/// Puts an attribute that is all that an UPDATE has.
fn put_only<W: Sink>(lines: &mut Lines<'_, W>, reading: Reading, attr: Attr<'_>)
    ensures { Writes lines.old lines.new (parts_body reading (alone (attribute_of attr.entry ∷ []))) }
{
    if is_marker(attr) {
        put_end_of_rib(lines, BigEndian::read_u16(attr.value), attr.value[2]);
    } else {
        put_attribute(lines, reading, attr);
    }
}

/// Puts the attributes of an UPDATE that neither withdraws nor announces anything besides.
fn put_alone<W: Sink>(lines: &mut Lines<'_, W>, reading: Reading, mut attributes: Attrs<'_>)
    ensures { Writes lines.old lines.new (parts_body reading (alone attributes.entry.attributes)) }
{
    let Some(first) = attributes.next() else {
        return put_end_of_rib(lines, 1, 1);
    };
    let Some(second) = attributes.next() else {
        return put_only(lines, reading, first);
    };
    put_attribute(lines, reading, first);
    lines.put(b" | ");
    put_attribute(lines, reading, second);
    put_attributes(lines, reading, attributes);
}

/// Puts destinations behind a word, of which the first is taken out.
fn put_part<W: Sink>(
    lines: &mut Lines<'_, W>,
    word: &[u8],
    first: Destination,
    others: Destinations<'_>,
)
    ensures { Writes lines.old lines.new
        (word.now ++ destinations_text (first ∷ others.entry)) }
{
    lines.put(word);
    put_listed(lines, first, others);
}

/// Puts what an UPDATE says behind its word.
fn put_body<W: Sink>(lines: &mut Lines<'_, W>, reading: Reading, parts: Parts<'_>)
    ensures { Writes lines.old lines.new (parts_body reading (parts_of parts.entry)) }
{
    let Parts {
        mut withdrawn,
        attributes,
        mut nlri,
    } = parts;
    match (withdrawn.next(), nlri.next()) {
        (None, None) => put_alone(lines, reading, attributes),
        (Some(first), None) => {
            put_part(lines, b"withdrawn ", first, withdrawn);
            put_attributes(lines, reading, attributes);
        }
        (None, Some(first)) => {
            put_part(lines, b"announced ", first, nlri);
            put_attributes(lines, reading, attributes);
        }
        (Some(gone), Some(first)) => {
            put_part(lines, b"withdrawn ", gone, withdrawn);
            lines.put(b" | ");
            put_part(lines, b"announced ", first, nlri);
            put_attributes(lines, reading, attributes);
        }
    }
}

/// Puts the line of an UPDATE that has these parts, without its end.
pub fn put_update<W: Sink>(lines: &mut Lines<'_, W>, reading: Reading, parts: Parts<'_>)
    ensures { Writes lines.old lines.new (named_update reading (parts_of parts.entry)) }
{
    lines.put(b"update ");
    put_body(lines, reading, parts);
}
