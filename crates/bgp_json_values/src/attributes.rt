//! Path attributes (RFC 4271, 4.3 and 5).

ghost use Rattle.std.specs.Prelude.{◌≡◌, codes, option_map};
ghost use Rattle.json.specs.Tree.{json_tokens};
ghost use Rattle.bgp_attr.specs.Field.{attribute_of};
ghost use Rattle.bgp_attr.specs.Segments.{number_width};
ghost use Rattle.bgp_values.specs.AttributeValue.{aggregator, attribute_value};
ghost use Rattle.bgp_values.specs.AttributeValue.{attribute_value_of, path};
ghost use Rattle.bgp_values.specs.PathSegments.{segment_of, segments_of};
ghost use Rattle.bgp_json_values.specs.Adding.{Adds};
ghost use Rattle.bgp_json_values.specs.AttributeJson.{as_item, attribute_json};
ghost use Rattle.bgp_json_values.specs.AttributeJson.{attribute_value_json, attributes_json};
ghost use Rattle.bgp_json_values.specs.AttributeJson.{origin_json, plain_members, segment_json};
ghost use Rattle.bgp_json_values.specs.Heads.{attribute_with};
ghost use Rattle.bgp_json_values.specs.Octets.{octets_members, value_or_octets};
ghost use Rattle.bgp_json_values.specs.RoutesJson.{routes_json, spelled_routes};
ghost use Rattle.bgp_values.specs.RoutesValue.{reach_value, unreach_value};

use crate::heads::{put_front, put_head, put_segment_head};
use crate::items::put_items;
use crate::octets::put_octets_member;
use crate::routes::put_routes;
use crate::texts::{put_address, put_number};
use bgp_attr::{Attr, Attrs};
use bgp_open::RouteForm;
use bgp_prefix::Address;
use bgp_values::{AttributeValue, Item, Reading, RoutesValue, Segment, first_segment};
use json_writer::Writer;
use std::alloc::{AllocError, Allocator};

/// The Attribute Type Code of MP_REACH_NLRI.
const MP_REACH_NLRI: u8 = 14;

/// The Attribute Type Code of MP_UNREACH_NLRI.
const MP_UNREACH_NLRI: u8 = 15;

/// Puts the name of a value of ORIGIN.
fn put_origin<A: Allocator>(writer: &mut Writer<A>, number: u8) -> Result<(), AllocError>
    ensures { Adds result writer.old writer.new (json_tokens (origin_json number)) }
{
    match number {
        0 => writer.word("IGP"),
        1 => writer.word("EGP"),
        2 => writer.word("INCOMPLETE"),
        _ => writer.word(""),
    }
}

/// Returns what an AS number of four octets, or of two, is as an item.
fn as_item(as4: bool) -> Item
    ensures { result ≡ as_item as4 }
{
    if as4 {
        Item::AsNumber4
    } else {
        Item::AsNumber2
    }
}

/// Puts a segment of a path.
fn put_segment<A: Allocator + Copy>(
    writer: &mut Writer<A>,
    alloc: A,
    as4: bool,
    segment: Segment<'_>,
) -> Result<(), AllocError>
    ensures { Adds result writer.old writer.new
        (json_tokens (segment_json as4 (segment_of segment.entry))) }
{
    put_segment_head(writer, segment.kind)?;
    put_items(writer, alloc, as_item(as4), segment.numbers)?;
    writer.end_object()
}

/// Puts the segments that octets are, as an array.
fn put_path<A: Allocator + Copy>(
    writer: &mut Writer<A>,
    alloc: A,
    as4: bool,
    octets: &[u8],
) -> Result<(), AllocError>
    ensures { Adds result writer.old writer.new (json_tokens
        (attribute_value_json (path as4 (segments_of (number_width as4) octets.now)))) }
{
    writer.begin_array()?;
    let mut rest = octets;
    while let Some((segment, others)) = first_segment(as4, rest) {
        put_segment(writer, alloc, as4, segment)?;
        rest = others;
    }
    writer.end_array()
}

/// Puts the AS number and the address of an aggregator.
fn put_aggregator<A: Allocator + Copy>(
    writer: &mut Writer<A>,
    alloc: A,
    as_number: u32,
    router: u32,
) -> Result<(), AllocError>
    ensures { Adds result writer.old writer.new
        (json_tokens (attribute_value_json (aggregator as_number router))) }
{
    writer.begin_object()?;
    put_number(writer, "as", u64::from(as_number))?;
    writer.key("address")?;
    put_address(writer, alloc, Address::V4(router))?;
    writer.end_object()
}

/// Puts what an attribute says.
fn put_value<A: Allocator + Copy>(
    writer: &mut Writer<A>,
    alloc: A,
    value: AttributeValue<'_>,
) -> Result<(), AllocError>
    ensures { Adds result writer.old writer.new
        (json_tokens (attribute_value_json (attribute_value_of value.entry))) }
{
    match value {
        AttributeValue::Origin(number) => put_origin(writer, number),
        AttributeValue::Path(as4, octets) => put_path(writer, alloc, as4, octets),
        AttributeValue::Address(number) => writer.ipv4(number),
        AttributeValue::Number(number) => writer.u32(number),
        AttributeValue::Atomic => writer.boolean(true),
        AttributeValue::Aggregator(as_number, router) => {
            put_aggregator(writer, alloc, as_number, router)
        }
        AttributeValue::Items(kind, octets) => put_items(writer, alloc, kind, octets),
        AttributeValue::Metric(number) => writer.quoted_u64(number),
    }
}

/// Puts an attribute that says nothing that is read: its octets.
#[cold]
#[inline(never)]
fn put_unread<A: Allocator + Copy>(
    writer: &mut Writer<A>,
    alloc: A,
    kind: u8,
    flags: u8,
    octets: &[u8],
) -> Result<(), AllocError>
    ensures { Adds result writer.old writer.new
        (json_tokens (attribute_with kind flags (octets_members octets.now))) }
{
    put_head(writer, alloc, kind)?;
    writer.u8(flags)?;
    put_octets_member(writer, alloc, octets)?;
    writer.end_object()
}

/// Puts an attribute without routes: what it says, or its octets.
#[inline(always)]
fn put_plain<A: Allocator + Copy>(
    writer: &mut Writer<A>,
    alloc: A,
    as4: bool,
    kind: u8,
    flags: u8,
    octets: &[u8],
    value: Option<AttributeValue<'_>>,
) -> Result<(), AllocError>
    requires { option_map attribute_value_of value ≡ attribute_value as4 kind octets.now }
    ensures { Adds result writer.old writer.new (json_tokens (attribute_with kind flags
        (plain_members as4 kind octets.now (option_map attribute_value_of value.entry)))) }
{
    match value {
        None => put_unread(writer, alloc, kind, flags, octets),
        Some(value) => {
            put_front(writer, alloc, as4, kind, flags)?;
            put_value(writer, alloc, value)?;
            writer.end_object()
        }
    }
}

/// Puts MP_REACH_NLRI: what it says, or its octets, or both if the octets aren't those of the value.
#[inline(never)]
fn put_reach<A: Allocator + Copy>(
    writer: &mut Writer<A>,
    alloc: A,
    form: RouteForm,
    flags: u8,
    octets: &[u8],
) -> Result<(), AllocError>
    ensures { Adds result writer.old writer.new (json_tokens (attribute_with 14 flags
        (value_or_octets (routes_json (codes "nlri") form) spelled_routes
        (reach_value form octets.now) octets.now))) }
{
    let value = RoutesValue::of_reach(form, octets);
    put_head(writer, alloc, MP_REACH_NLRI)?;
    writer.u8(flags)?;
    put_routes(writer, alloc, "nlri", form, octets, value)?;
    writer.end_object()
}

/// Puts MP_UNREACH_NLRI: what it says, or its octets, or both if the octets aren't those of the
/// value.
#[inline(never)]
fn put_unreach<A: Allocator + Copy>(
    writer: &mut Writer<A>,
    alloc: A,
    form: RouteForm,
    flags: u8,
    octets: &[u8],
) -> Result<(), AllocError>
    ensures { Adds result writer.old writer.new (json_tokens (attribute_with 15 flags
        (value_or_octets (routes_json (codes "withdrawn") form) spelled_routes
        (unreach_value form octets.now) octets.now))) }
{
    let value = RoutesValue::of_unreach(form, octets);
    put_head(writer, alloc, MP_UNREACH_NLRI)?;
    writer.u8(flags)?;
    put_routes(writer, alloc, "withdrawn", form, octets, value)?;
    writer.end_object()
}

/// Puts a path attribute.
#[inline(always)]
fn put_attribute<A: Allocator + Copy>(
    writer: &mut Writer<A>,
    alloc: A,
    reading: Reading,
    attr: Attr<'_>,
) -> Result<(), AllocError>
    ensures { Adds result writer.old writer.new
        (json_tokens (attribute_json reading (attribute_of attr.entry))) }
{
    match attr.kind {
        MP_REACH_NLRI => put_reach(writer, alloc, reading.form, attr.flags, attr.value),
        MP_UNREACH_NLRI => put_unreach(writer, alloc, reading.form, attr.flags, attr.value),
        kind => {
            let value = AttributeValue::of(reading.as4, kind, attr.value);
            put_plain(
                writer,
                alloc,
                reading.as4,
                kind,
                attr.flags,
                attr.value,
                value,
            )
        }
    }
}

/// Puts path attributes, as an array. AS numbers and routes are read so.
pub fn put_attributes<A: Allocator + Copy>(
    writer: &mut Writer<A>,
    alloc: A,
    reading: Reading,
    attributes: Attrs<'_>,
) -> Result<(), AllocError>
    ensures { Adds result writer.old writer.new
        (json_tokens (attributes_json reading attributes.entry.attributes)) }
{
    writer.begin_array()?;
    for attr in attributes {
        put_attribute(writer, alloc, reading, attr)?;
    }
    writer.end_array()
}
