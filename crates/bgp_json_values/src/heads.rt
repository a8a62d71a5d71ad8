//! What the objects of path attributes and of segments of paths begin with.

ghost use Rattle.std.specs.Prelude.{◌≡◌, ◌++◌, ◌==◌, ◌||◌, ◌∷◌, IfSome};
ghost use Rattle.std.specs.Fmt.{decimal};
ghost use Rattle.json.specs.Token.{number};
ghost use Rattle.json.specs.Tree.{json_tokens};
ghost use Rattle.json_writer.specs.Piece.{IsPiece};
ghost use Rattle.bgp_json_values.specs.Adding.{Adds};
ghost use Rattle.bgp_json_values.specs.AttributeJson.{segment_name_json};
ghost use Rattle.bgp_json_values.specs.Heads.{front_tokens, head_tokens};
ghost use Rattle.bgp_json_values.specs.Heads.{segment_head_tokens, width_tokens};
ghost use Rattle.bgp_json_values.specs.AttributeJson.{width_member};
ghost use Rattle.bgp_json_values.specs.Objects.{members_tokens};

use crate::texts::{put_name, put_number};
use bgp_names::{name_of_attribute, name_of_segment};
use json_writer::Writer;
use std::alloc::{AllocError, Allocator};

/// Returns the text of the tokens up to the flags, for the types that are common.
#[inline(always)]
fn head_of(kind: u8) -> Option<&'static str>
    ensures { IfSome result (λ text. IsPiece (head_tokens kind) text.now) }
{
    match kind {
        1 => Some("{\"type\":1,\"name\":\"ORIGIN\",\"flags\":"),
        2 => Some("{\"type\":2,\"name\":\"AS_PATH\",\"flags\":"),
        3 => Some("{\"type\":3,\"name\":\"NEXT_HOP\",\"flags\":"),
        4 => Some("{\"type\":4,\"name\":\"MULTI_EXIT_DISC\",\"flags\":"),
        5 => Some("{\"type\":5,\"name\":\"LOCAL_PREF\",\"flags\":"),
        6 => Some("{\"type\":6,\"name\":\"ATOMIC_AGGREGATE\",\"flags\":"),
        7 => Some("{\"type\":7,\"name\":\"AGGREGATOR\",\"flags\":"),
        8 => Some("{\"type\":8,\"name\":\"COMMUNITIES\",\"flags\":"),
        9 => Some("{\"type\":9,\"name\":\"ORIGINATOR_ID\",\"flags\":"),
        10 => Some("{\"type\":10,\"name\":\"CLUSTER_LIST\",\"flags\":"),
        14 => Some("{\"type\":14,\"name\":\"MP_REACH_NLRI\",\"flags\":"),
        15 => Some("{\"type\":15,\"name\":\"MP_UNREACH_NLRI\",\"flags\":"),
        16 => Some("{\"type\":16,\"name\":\"EXTENDED_COMMUNITIES\",\"flags\":"),
        32 => Some("{\"type\":32,\"name\":\"LARGE_COMMUNITY\",\"flags\":"),
        _ => None,
    }
}

/// Puts what the object of an attribute of this type begins with, up to its flags.
pub(crate) fn put_head<A: Allocator + Copy>(
    writer: &mut Writer<A>,
    alloc: A,
    kind: u8,
) -> Result<(), AllocError>
    ensures { Adds result writer.old writer.new (head_tokens kind) }
{
    match head_of(kind) {
        Some(text) => writer.piece(text),
        None => put_rare_head(writer, alloc, kind),
    }
}

/// Puts what the object of an attribute of any type begins with, up to its flags.
fn put_rare_head<A: Allocator + Copy>(
    writer: &mut Writer<A>,
    alloc: A,
    kind: u8,
) -> Result<(), AllocError>
    ensures { Adds result writer.old writer.new (head_tokens kind) }
{
    writer.begin_object()?;
    put_number(writer, "type", u64::from(kind))?;
    writer.key("name")?;
    put_name(
        writer,
        alloc,
        "attribute ",
        u64::from(kind),
        name_of_attribute(kind),
    )?;
    writer.key("flags")
}

/// Checks whether OPENs settle how many octets AS numbers have in a value of this type.
#[inline(always)]
fn has_width(kind: u8) -> bool
    ensures { result ≡ ((kind == 2) || (kind == 7)) }
{
    kind == 2 || kind == 7
}

/// Puts how many octets AS numbers have in a value of this type, if OPENs settle it.
fn put_width<A: Allocator>(writer: &mut Writer<A>, as4: bool, kind: u8) -> Result<(), AllocError>
    ensures { Adds result writer.old writer.new (members_tokens (width_member as4 kind)) }
{
    match kind {
        2 | 7 => put_number(writer, "width", if as4 { 4 } else { 2 }),
        _ => Ok(()),
    }
}

/// Puts what the object of an attribute begins with whose type has this text, up to a value that
/// has a width.
#[inline(always)]
fn put_width_front<A: Allocator>(
    writer: &mut Writer<A>,
    head: &'static str,
    as4: bool,
    kind: u8,
    flags: u8,
) -> Result<(), AllocError>
    requires { IsPiece (head_tokens kind) head.now }
    ensures { Adds result writer.old writer.new
        (head_tokens kind ++ number (decimal flags) ∷ width_tokens as4) }
{
    if as4 {
        writer.around_u8(head, flags, "\"width\":4,\"value\":")
    } else {
        writer.around_u8(head, flags, "\"width\":2,\"value\":")
    }
}

/// Puts what the object of an attribute begins with whose type has this text, up to its value.
#[inline(always)]
fn put_common_front<A: Allocator>(
    writer: &mut Writer<A>,
    head: &'static str,
    as4: bool,
    kind: u8,
    flags: u8,
) -> Result<(), AllocError>
    requires { IsPiece (head_tokens kind) head.now }
    ensures { Adds result writer.old writer.new (front_tokens as4 kind flags) }
{
    if has_width(kind) {
        put_width_front(writer, head, as4, kind, flags)
    } else {
        writer.around_u8(head, flags, "\"value\":")
    }
}

/// Puts what the object of an attribute of any type begins with, up to its value.
#[cold]
#[inline(never)]
fn put_rare_front<A: Allocator + Copy>(
    writer: &mut Writer<A>,
    alloc: A,
    as4: bool,
    kind: u8,
    flags: u8,
) -> Result<(), AllocError>
    ensures { Adds result writer.old writer.new (front_tokens as4 kind flags) }
{
    put_rare_head(writer, alloc, kind)?;
    writer.u8(flags)?;
    put_width(writer, as4, kind)?;
    writer.key("value")
}

/// Puts what the object of an attribute with these flags begins with, up to its value.
#[inline(always)]
pub(crate) fn put_front<A: Allocator + Copy>(
    writer: &mut Writer<A>,
    alloc: A,
    as4: bool,
    kind: u8,
    flags: u8,
) -> Result<(), AllocError>
    ensures { Adds result writer.old writer.new (front_tokens as4 kind flags) }
{
    match head_of(kind) {
        Some(head) => put_common_front(writer, head, as4, kind, flags),
        None => put_rare_front(writer, alloc, as4, kind, flags),
    }
}

/// Returns the text of the tokens up to the AS numbers, for the types of segments that are common.
fn segment_head_of(kind: u8) -> Option<&'static str>
    ensures { IfSome result (λ text. IsPiece (segment_head_tokens kind) text.now) }
{
    match kind {
        1 => Some("{\"kind\":\"AS_SET\",\"as\":"),
        2 => Some("{\"kind\":\"AS_SEQUENCE\",\"as\":"),
        _ => None,
    }
}

/// Puts what the object of a segment of this type begins with, up to its AS numbers.
pub(crate) fn put_segment_head<A: Allocator>(
    writer: &mut Writer<A>,
    kind: u8,
) -> Result<(), AllocError>
    ensures { Adds result writer.old writer.new (segment_head_tokens kind) }
{
    match segment_head_of(kind) {
        Some(text) => writer.piece(text),
        None => put_rare_segment_head(writer, kind),
    }
}

/// Puts the name of a type of segment.
fn put_segment_name<A: Allocator>(writer: &mut Writer<A>, kind: u8) -> Result<(), AllocError>
    ensures { Adds result writer.old writer.new (json_tokens (segment_name_json kind)) }
{
    writer.string(name_of_segment(kind).unwrap_or(""))
}

/// Puts what the object of a segment of any type begins with, up to its AS numbers.
fn put_rare_segment_head<A: Allocator>(writer: &mut Writer<A>, kind: u8) -> Result<(), AllocError>
    ensures { Adds result writer.old writer.new (segment_head_tokens kind) }
{
    writer.begin_object()?;
    writer.key("kind")?;
    put_segment_name(writer, kind)?;
    writer.key("as")
}
