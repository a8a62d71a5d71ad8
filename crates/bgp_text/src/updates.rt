//! The text of an UPDATE (RFC 4271, 4.3), written while its fields are gone through.

ghost use Rattle.bgp_update.specs.AttrField.{attribute_of};
ghost use Rattle.bgp_update.specs.Parts.{parts_of};
ghost use Rattle.bgp_text.specs.Lines.{Writes};
ghost use Rattle.bgp_text.specs.Text.{attribute_text, attributes_text, destination_text};
ghost use Rattle.bgp_text.specs.Text.{destinations_text, path_id_text, update_text};

use crate::addresses::put_prefix;
use crate::lines::Lines;
use bgp_update::{Attr, Attrs, Destination, Destinations, Parts, PathId};
use mrt::Sink;

/// Puts the identifier of a path behind `#`, or nothing if it has none.
#[tactic(auto, unfolding(crate::specs::Text::path_id_text))]
fn put_path_id<W: Sink>(lines: &mut Lines<'_, W>, path: Option<PathId>)
    ensures { Writes lines.old lines.new (path_id_text path) }
{
    if let Some(id) = path {
        lines.put(b"#");
        lines.put_decimal(id.number());
    }
}

/// Puts a destination: its prefix, and the identifier of the path if it has one.
pub fn put_destination<W: Sink>(lines: &mut Lines<'_, W>, destination: Destination)
    ensures { Writes lines.old lines.new (destination_text destination) }
{
    put_prefix(lines, destination.prefix);
    put_path_id(lines, destination.path);
}

/// Puts destinations with blanks between them, or a dash for none.
fn put_destinations<W: Sink>(lines: &mut Lines<'_, W>, mut destinations: Destinations<'_>)
    ensures { Writes lines.old lines.new (destinations_text destinations.entry) }
{
    let Some(first) = destinations.next() else {
        return lines.put(b"-");
    };
    put_destination(lines, first);
    for destination in destinations {
        lines.put(b" ");
        put_destination(lines, destination);
    }
}

/// An attribute: its flags, its type and its value.
fn put_attribute<W: Sink>(lines: &mut Lines<'_, W>, attr: Attr<'_>)
    ensures { Writes lines.old lines.new (attribute_text (attribute_of attr.entry)) }
{
    lines.put_head(attr.flags, attr.kind);
    lines.put_hex(attr.value);
}

/// Attributes with blanks between them, or a dash for none.
fn put_attributes<W: Sink>(lines: &mut Lines<'_, W>, mut attributes: Attrs<'_>)
    ensures { Writes lines.old lines.new (attributes_text attributes.entry.attributes) }
{
    let Some(first) = attributes.next() else {
        return lines.put(b"-");
    };
    put_attribute(lines, first);
    for attr in attributes {
        lines.put(b" ");
        put_attribute(lines, attr);
    }
}

/// The text of an UPDATE that has these parts.
pub fn put_update<W: Sink>(lines: &mut Lines<'_, W>, parts: Parts<'_>)
    ensures { Writes lines.old lines.new (update_text (parts_of parts.entry)) }
{
    lines.put(b"update ");
    put_destinations(lines, parts.withdrawn);
    lines.put(b" | ");
    put_attributes(lines, parts.attributes);
    lines.put(b" | ");
    put_destinations(lines, parts.nlri);
}
