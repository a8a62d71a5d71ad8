//! The errors that NOTIFICATIONs tell (RFC 4271, 4.5).

ghost use Rattle.std.specs.Prelude.{◌≡◌, ◌++◌, IfOk, Some, codes, option_map};
ghost use Rattle.std.specs.String.{string_bytes};
ghost use Rattle.json.specs.Json.{string};
ghost use Rattle.json.specs.Tree.{json_tokens};
ghost use Rattle.bgp_names.specs.Errors.{code_name, subcode_name};
ghost use Rattle.bgp_values.specs.ErrorData.{data_of, error_of, maximum};
ghost use Rattle.bgp_json_values.specs.Adding.{Adds};
ghost use Rattle.bgp_json_values.specs.ErrorJson.{cause_members, data_members, error_members};
ghost use Rattle.bgp_json_values.specs.ErrorJson.{error_name_json, plain_error_members};
ghost use Rattle.bgp_json_values.specs.Objects.{members_tokens};

use crate::items::put_family;
use crate::texts::{put_name, put_number, put_octets};
use bgp_names::{has_subcode, name_of_code, name_of_subcode};
use bgp_open::Notification;
use bgp_values::{ErrorData, cause_of};
use json_writer::Writer;
use std::alloc::{AllocError, Allocator};

/// Returns the name of an error code, or `code N`.
fn code_text<A: Allocator>(alloc: A, code: u8) -> Result<String<A>, AllocError>
    ensures { IfOk result (λ text. string_bytes text ≡ code_name code) }
{
    match name_of_code(code) {
        Some(name) => name.to_string(alloc),
        None => format!(in alloc; "code {code}"),
    }
}

/// Returns the name of a subcode of this error code, or `subcode N`.
fn subcode_text<A: Allocator>(alloc: A, code: u8, subcode: u8) -> Result<String<A>, AllocError>
    ensures { IfOk result (λ text. string_bytes text ≡ subcode_name code subcode) }
{
    match name_of_subcode(code, subcode) {
        Some(name) => name.to_string(alloc),
        None => format!(in alloc; "subcode {subcode}"),
    }
}

/// Puts both names, as in `Cease, Administrative Reset`.
fn put_both_names<A: Allocator + Copy>(
    writer: &mut Writer<A>,
    alloc: A,
    code: u8,
    subcode: u8,
) -> Result<(), AllocError>
    ensures { Adds result writer.old writer.new (json_tokens
        (string (code_name code ++ (codes ", " ++ subcode_name code subcode)))) }
{
    let first = code_text(alloc, code)?;
    let second = subcode_text(alloc, code, subcode)?;
    let text = format!(in alloc; "{first}, {second}")?;
    writer.string(text.as_str())
}

/// Puts both names of an error as one text, as in `Cease, Administrative Reset`. A subcode 0
/// without a name is left out.
pub fn put_error_name<A: Allocator + Copy>(
    writer: &mut Writer<A>,
    alloc: A,
    code: u8,
    subcode: u8,
) -> Result<(), AllocError>
    ensures { Adds result writer.old writer.new (json_tokens (error_name_json code subcode)) }
{
    if has_subcode(code, subcode) {
        put_both_names(writer, alloc, code, subcode)
    } else {
        put_name(writer, alloc, "code ", u64::from(code), name_of_code(code))
    }
}

/// Puts a maximum: a family, and how many prefixes of it may be announced.
fn put_maximum<A: Allocator>(
    writer: &mut Writer<A>,
    afi: u16,
    safi: u8,
    prefixes: u32,
) -> Result<(), AllocError>
    ensures { Adds result writer.old writer.new
        (members_tokens (data_members (Some (maximum afi safi prefixes)))) }
{
    writer.key("maximum")?;
    writer.begin_object()?;
    put_family(writer, afi, u16::from(safi))?;
    put_number(writer, "prefixes", u64::from(prefixes))?;
    writer.end_object()
}

/// Puts what data say: one member.
fn put_data<A: Allocator>(writer: &mut Writer<A>, said: ErrorData<'_>) -> Result<(), AllocError>
    ensures { Adds result writer.old writer.new
        (members_tokens (data_members (Some (data_of said.entry)))) }
{
    match said {
        ErrorData::Communication(text) => {
            writer.key("communication")?;
            writer.string(text)
        }
        ErrorData::Maximum {
            afi,
            safi,
            prefixes,
        } => put_maximum(writer, afi, safi, prefixes),
    }
}

/// Puts what data say, if they say something.
fn put_said<A: Allocator>(
    writer: &mut Writer<A>,
    said: Option<ErrorData<'_>>,
) -> Result<(), AllocError>
    ensures { Adds result writer.old writer.new
        (members_tokens (data_members (option_map data_of said.entry))) }
{
    match said {
        None => Ok(()),
        Some(said) => put_data(writer, said),
    }
}

/// Puts the members of an error but for the cause of a Hard Reset.
fn put_plain_error<A: Allocator + Copy>(
    writer: &mut Writer<A>,
    alloc: A,
    error: Notification<'_>,
) -> Result<(), AllocError>
    ensures { Adds result writer.old writer.new
        (members_tokens (plain_error_members (error_of error.entry))) }
{
    put_number(writer, "code", u64::from(error.code))?;
    put_number(writer, "subcode", u64::from(error.subcode))?;
    writer.key("name")?;
    put_error_name(writer, alloc, error.code, error.subcode)?;
    writer.key("data")?;
    put_octets(writer, alloc, error.detail)?;
    put_said(writer, ErrorData::of(error))
}

/// Puts the cause of a Hard Reset: one member, or none.
fn put_cause<A: Allocator + Copy>(
    writer: &mut Writer<A>,
    alloc: A,
    cause: Option<Notification<'_>>,
) -> Result<(), AllocError>
    ensures { Adds result writer.old writer.new
        (members_tokens (cause_members (option_map error_of cause.entry))) }
{
    match cause {
        None => Ok(()),
        Some(cause) => {
            writer.key("cause")?;
            writer.begin_object()?;
            put_plain_error(writer, alloc, cause)?;
            writer.end_object()
        }
    }
}

/// Puts the members of an error: its codes and their names, its data, and what these say.
pub fn put_error<A: Allocator + Copy>(
    writer: &mut Writer<A>,
    alloc: A,
    error: Notification<'_>,
) -> Result<(), AllocError>
    ensures { Adds result writer.old writer.new
        (members_tokens (error_members (error_of error.entry))) }
{
    put_plain_error(writer, alloc, error)?;
    put_cause(writer, alloc, cause_of(error))
}
