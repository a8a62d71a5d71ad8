//! The object of an UPDATE (RFC 4271, 4.3).

ghost use Rattle.std.specs.Prelude.{◌≡◌, ◌++◌, ◌∷◌, ◌&&◌, IfOk, OnOk, bytes_eq, false};
ghost use Rattle.json.specs.Token as tokens;
ghost use Rattle.json.specs.Tree.{json_tokens};
ghost use Rattle.bgp_prefix.specs.declared.family.Family.TheVariants.{V4};
ghost use Rattle.bgp_update.specs.Destinations.{is_identified};
ghost use Rattle.bgp_update.specs.Parts.{SpellsParts, parts_of};
ghost use Rattle.bgp_update.specs.Sections.{IsUpdate, Sections};
ghost use Rattle.bgp_json_values.specs.Adding.{Adds};
ghost use Rattle.bgp_json_values.specs.Objects.{members_tokens};
ghost use Rattle.bgp_json_values.specs.RoutesJson.{spelled_destinations};
ghost use Rattle.bgp_json.specs.MessageJson.{are_lists_spelled, malformed_update_json, paths_json};
ghost use Rattle.bgp_json.specs.MessageJson.{paths_members, said_members, update_json};
ghost use Rattle.bgp_json.specs.MessageJson.{update_members};
ghost use Rattle.bgp_json.specs.Parts.{parts_with, update_type};
ghost use Rattle.bgp_json.specs.Place.{place_members};
ghost use Rattle.bgp_json.specs.declared.place.Place.TheVariants.{InStream};

use crate::members::begin;
use crate::place::{Place, put_place};
use bgp_attr::Attrs;
use bgp_json_values::{
    Writer, are_spelled, listed, put_attributes, put_destinations, put_octets_member, put_path_ids,
    put_spelled, put_unless,
};
use bgp_open::RouteForm;
use bgp_prefix::Family;
use bgp_update::{Destination, Parts, split_update};
use bgp_values::Reading;
use std::alloc::{AllocError, Allocator};

/// Begins the object of an UPDATE that stands at this offset of a stream.
#[inline(always)]
fn begin_at<A: Allocator>(writer: &mut Writer<A>, offset: u64) -> Result<(), AllocError>
    ensures { Adds result writer.old writer.new (tokens.begin_object
        ∷ members_tokens (update_type ∷ place_members (InStream offset))) }
{
    writer.piece("{\"type\":\"update\",\"at\":")?;
    writer.u64(offset)
}

/// Begins the object of an UPDATE that stands here.
#[inline(always)]
fn begin_update<A: Allocator>(writer: &mut Writer<A>, place: Place) -> Result<(), AllocError>
    ensures { Adds result writer.old writer.new (tokens.begin_object
        ∷ members_tokens (update_type ∷ place_members place)) }
{
    match place {
        Place::InStream(offset) => begin_at(writer, offset),
        Place::InRecord(..) => {
            begin(writer, "update")?;
            put_place(writer, place)
        }
    }
}

/// Puts two lists of destinations, and the attributes between them.
fn put_said<A: Allocator + Copy>(
    writer: &mut Writer<A>,
    alloc: A,
    reading: Reading,
    withdrawn: &[Destination],
    attributes: Attrs<'_>,
    nlri: &[Destination],
) -> Result<(), AllocError>
    ensures { Adds result writer.old writer.new (members_tokens (said_members reading
        (parts_with withdrawn.now attributes.entry.attributes nlri.now))) }
{
    writer.key("withdrawn")?;
    put_destinations(writer, alloc, withdrawn)?;
    writer.key("attributes")?;
    put_attributes(writer, alloc, reading, attributes)?;
    writer.key("nlri")?;
    put_destinations(writer, alloc, nlri)
}

/// Puts the path identifiers of both lists.
fn put_identifiers<A: Allocator>(
    writer: &mut Writer<A>,
    withdrawn: &[Destination],
    nlri: &[Destination],
) -> Result<(), AllocError>
    ensures { Adds result writer.old writer.new
        (json_tokens (paths_json withdrawn.now nlri.now)) }
{
    writer.begin_object()?;
    writer.key("withdrawn")?;
    put_path_ids(writer, withdrawn)?;
    writer.key("nlri")?;
    put_path_ids(writer, nlri)?;
    writer.end_object()
}

/// Puts the path identifiers of both lists, if IPv4 routes are identified.
fn put_paths<A: Allocator>(
    writer: &mut Writer<A>,
    form: RouteForm,
    withdrawn: &[Destination],
    nlri: &[Destination],
) -> Result<(), AllocError>
    ensures { Adds result writer.old writer.new
        (members_tokens (paths_members (is_identified form V4) withdrawn.now nlri.now)) }
{
    if !form.identified.contains(Family::V4) {
        return Ok(());
    }
    writer.key("paths")?;
    put_identifiers(writer, withdrawn, nlri)
}

/// Returns whether both are so.
fn both(first: bool, second: bool) -> bool
    ensures { result ≡ (first && second) }
{
    first && second
}

/// Checks whether zeros stand behind the bits of each prefix in the two lists of an UPDATE.
fn is_spelled(withdrawn: &[Destination], nlri: &[Destination], octets: &[u8]) -> bool
    requires { (s : Sections) × IsUpdate octets.now s }
    ensures { result ≡ are_lists_spelled withdrawn.now nlri.now octets.now }
{
    let Some(fields) = split_update(octets) else {
        unreachable!();
    };
    let first = are_spelled(withdrawn, fields.withdrawn);
    let second = are_spelled(nlri, fields.nlri);
    both(first, second)
}

/// Puts the members of an UPDATE that has these two lists and these octets.
fn put_lists<A: Allocator + Copy>(
    writer: &mut Writer<A>,
    alloc: A,
    reading: Reading,
    withdrawn: &[Destination],
    attributes: Attrs<'_>,
    nlri: &[Destination],
    octets: &[u8],
) -> Result<(), AllocError>
    requires { (s : Sections) × IsUpdate octets.now s }
    ensures { Adds result writer.old writer.new (members_tokens (update_members reading
        (parts_with withdrawn.now attributes.entry.attributes nlri.now) octets.now)) }
{
    let is_spelled = is_spelled(withdrawn, nlri, octets);
    put_said(writer, alloc, reading, withdrawn, attributes, nlri)?;
    put_paths(writer, reading.form, withdrawn, nlri)?;
    put_unless(writer, alloc, is_spelled, octets)
}

/// Puts the members of an UPDATE that has these parts and these octets, if IPv4 routes are
/// identified.
#[inline(never)]
fn put_identified<A: Allocator + Copy>(
    writer: &mut Writer<A>,
    alloc: A,
    reading: Reading,
    parts: Parts<'_>,
    octets: &[u8],
) -> Result<(), AllocError>
    requires { (s : Sections) × IsUpdate octets.now s }
    ensures { Adds result writer.old writer.new
        (members_tokens (update_members reading (parts_of parts.entry) octets.now)) }
{
    let Parts {
        withdrawn,
        attributes,
        nlri,
    } = parts;
    let withdrawn = listed(alloc, withdrawn)?;
    let nlri = listed(alloc, nlri)?;
    put_lists(
        writer,
        alloc,
        reading,
        withdrawn.as_slice(),
        attributes,
        nlri.as_slice(),
        octets,
    )
}

/// Puts the parts of an UPDATE. Returns whether these are the octets that its two lists spell.
#[inline(always)]
fn put_checked<A: Allocator + Copy>(
    writer: &mut Writer<A>,
    alloc: A,
    reading: Reading,
    parts: Parts<'_>,
    first: &[u8],
    second: &[u8],
) -> Result<bool, AllocError>
    ensures tokens { OnOk result (writer.new.tokens ≡ writer.old.tokens
        ++ members_tokens (said_members reading (parts_of parts.entry))) }
    ensures before { OnOk result (writer.new.before ≡ writer.old.before) }
    ensures spelled { IfOk result (λ is_spelled. is_spelled
        ≡ (bytes_eq (spelled_destinations (parts_of parts.entry).withdrawn) first.now
        && bytes_eq (spelled_destinations (parts_of parts.entry).nlri) second.now)) }
{
    let Parts {
        withdrawn,
        attributes,
        nlri,
    } = parts;
    writer.key("withdrawn")?;
    let is_first = put_spelled(writer, alloc, withdrawn, Some(first))?;
    writer.key("attributes")?;
    put_attributes(writer, alloc, reading, attributes)?;
    writer.key("nlri")?;
    let is_second = put_spelled(writer, alloc, nlri, Some(second))?;
    Ok(both(is_first, is_second))
}

/// Puts the members of an UPDATE that has these parts and these octets, if IPv4 routes aren't
/// identified.
#[inline(always)]
fn put_plain<A: Allocator + Copy>(
    writer: &mut Writer<A>,
    alloc: A,
    reading: Reading,
    parts: Parts<'_>,
    octets: &[u8],
) -> Result<(), AllocError>
    requires form { is_identified reading.form V4 ≡ false }
    requires update { (s : Sections) × IsUpdate octets.now s }
    ensures { Adds result writer.old writer.new
        (members_tokens (update_members reading (parts_of parts.entry) octets.now)) }
{
    let Some(fields) = split_update(octets) else {
        unreachable!();
    };
    let is_spelled = put_checked(writer, alloc, reading, parts, fields.withdrawn, fields.nlri)?;
    put_unless(writer, alloc, is_spelled, octets)
}

/// Puts the members of an UPDATE that has these parts and these octets.
#[inline(always)]
fn put_parts<A: Allocator + Copy>(
    writer: &mut Writer<A>,
    alloc: A,
    reading: Reading,
    parts: Parts<'_>,
    octets: &[u8],
) -> Result<(), AllocError>
    requires { (s : Sections) × IsUpdate octets.now s }
    ensures { Adds result writer.old writer.new
        (members_tokens (update_members reading (parts_of parts.entry) octets.now)) }
{
    if reading.form.identified.contains(Family::V4) {
        put_identified(writer, alloc, reading, parts, octets)
    } else {
        put_plain(writer, alloc, reading, parts, octets)
    }
}

/// Writes the object of an UPDATE that has these parts and these octets.
pub(crate) fn write_update<A: Allocator + Copy>(
    writer: &mut Writer<A>,
    alloc: A,
    reading: Reading,
    place: Place,
    parts: Parts<'_>,
    octets: &[u8],
) -> Result<(), AllocError>
    requires { SpellsParts reading.form octets.now (parts_of parts) }
    ensures { Adds result writer.old writer.new
        (json_tokens (update_json reading place (parts_of parts.entry) octets.now)) }
{
    begin_update(writer, place)?;
    put_parts(writer, alloc, reading, parts, octets)?;
    writer.end_object()
}

/// Writes the object of an UPDATE whose form is wrong.
pub(crate) fn write_malformed_update<A: Allocator + Copy>(
    writer: &mut Writer<A>,
    alloc: A,
    place: Place,
    octets: &[u8],
) -> Result<(), AllocError>
    ensures { Adds result writer.old writer.new
        (json_tokens (malformed_update_json place octets.now)) }
{
    begin(writer, "malformed_update")?;
    put_place(writer, place)?;
    put_octets_member(writer, alloc, octets)?;
    writer.end_object()
}
