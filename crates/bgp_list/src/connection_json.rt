//! The objects of a connection, and of what is refused in a recording.

ghost use Rattle.json.specs.Tree.{json_tokens};
ghost use Rattle.bgp_ended.specs.Values.{outline_value};
ghost use Rattle.bgp_json_values.specs.Adding.{Adds};
ghost use Rattle.bgp_json_values.specs.Objects.{members_tokens};
ghost use Rattle.bgp_list.specs.ConnectionJson.{addresses_members, as_members, connection_json};
ghost use Rattle.bgp_list.specs.ConnectionJson.{ends_members, first_members, opening_members};
ghost use Rattle.bgp_list.specs.ConnectionJson.{outlined_members, refused_between_json};
ghost use Rattle.bgp_list.specs.ConnectionJson.{refused_connection_json, refused_members};

use crate::connection::{as_of, endpoint_of};
use crate::ended_json::put_end_member;
use crate::members::{put_as_number, put_end_members, put_pair};
use bgp_ended::Outline;
use bgp_import::{Refusal, other_side};
use bgp_json::{begin, put_text};
use bgp_json_values::{Writer, put_address, put_number, put_time};
use bgp_prefix::Session;
use segments::Addresses;
use std::alloc::{AllocError, Allocator};
use streams::Opening;

/// Both ends, whoever opened it first.
fn put_ends<A: Allocator + Copy>(
    writer: &mut Writer<A>,
    alloc: A,
    session: &Session,
    opening: Opening,
) -> Result<(), AllocError>
    ensures { Adds result writer.old writer.new
        (members_tokens (ends_members session.now opening)) }
{
    let opener = opening.opened_by;
    let from = endpoint_of(opener, session, opening);
    let to = endpoint_of(other_side(opener), session, opening);
    put_end_members(writer, alloc, "from", "from_port", &from)?;
    put_end_members(writer, alloc, "to", "to_port", &to)
}

/// The time and the number of its first packet.
fn put_first_members<A: Allocator>(
    writer: &mut Writer<A>,
    opening: Opening,
) -> Result<(), AllocError>
    ensures { Adds result writer.old writer.new (members_tokens (first_members opening)) }
{
    put_time(writer, opening.second, opening.micro)?;
    put_number(writer, "packet", opening.packet)
}

/// Its number, its ends, and its first packet.
fn put_opening_members<A: Allocator + Copy>(
    writer: &mut Writer<A>,
    alloc: A,
    session: &Session,
    opening: Opening,
) -> Result<(), AllocError>
    ensures { Adds result writer.old writer.new
        (members_tokens (opening_members session.now opening)) }
{
    put_number(writer, "connection", opening.number as u64)?;
    put_ends(writer, alloc, session, opening)?;
    put_first_members(writer, opening)
}

/// The AS numbers of both ends, whoever opened it first.
fn put_as_members<A: Allocator>(
    writer: &mut Writer<A>,
    opening: Opening,
    outline: &Outline<'_>,
) -> Result<(), AllocError>
    ensures { Adds result writer.old writer.new
        (members_tokens (as_members opening (outline_value outline.now))) }
{
    let opener = opening.opened_by;
    put_as_number(writer, "as", as_of(opener, outline))?;
    put_as_number(writer, "to_as", as_of(other_side(opener), outline))
}

/// What is known of one that isn't refused.
fn put_outlined_members<A: Allocator + Copy>(
    writer: &mut Writer<A>,
    alloc: A,
    session: &Session,
    opening: Opening,
    outline: &Outline<'_>,
    first: usize,
    second: usize,
) -> Result<(), AllocError>
    ensures { Adds result writer.old writer.new (members_tokens
        (outlined_members session.now opening (outline_value outline.now) first second)) }
{
    put_as_members(writer, opening, outline)?;
    put_pair(writer, "octets", first as u64, second as u64)?;
    put_end_member(writer, alloc, session, opening, outline.ended)
}

/// Writes the object of a connection that isn't refused.
pub(crate) fn write_connection<A: Allocator + Copy>(
    writer: &mut Writer<A>,
    alloc: A,
    session: &Session,
    opening: Opening,
    outline: &Outline<'_>,
    first: usize,
    second: usize,
) -> Result<(), AllocError>
    ensures { Adds result writer.old writer.new (json_tokens
        (connection_json session.now opening (outline_value outline.now) first second)) }
{
    begin(writer, "connection")?;
    put_opening_members(writer, alloc, session, opening)?;
    put_outlined_members(writer, alloc, session, opening, outline, first, second)?;
    writer.end_object()
}

/// A refusal.
fn put_refused_member<A: Allocator>(
    writer: &mut Writer<A>,
    refusal: Refusal,
) -> Result<(), AllocError>
    ensures { Adds result writer.old writer.new (members_tokens (refused_members refusal)) }
{
    writer.key("refused")?;
    writer.begin_object()?;
    put_number(writer, "number", u64::from(refusal.number()))?;
    put_text(writer, "name", refusal.name())?;
    put_number(writer, "packet", refusal.packet())?;
    writer.end_object()
}

/// Writes the object of a connection that is refused.
pub(crate) fn write_refused_connection<A: Allocator + Copy>(
    writer: &mut Writer<A>,
    alloc: A,
    session: &Session,
    opening: Opening,
    refusal: Refusal,
) -> Result<(), AllocError>
    ensures { Adds result writer.old writer.new
        (json_tokens (refused_connection_json session.now opening refusal)) }
{
    begin(writer, "connection")?;
    put_opening_members(writer, alloc, session, opening)?;
    put_refused_member(writer, refusal)?;
    writer.end_object()
}

/// Two addresses.
fn put_addresses<A: Allocator + Copy>(
    writer: &mut Writer<A>,
    alloc: A,
    addresses: Addresses,
) -> Result<(), AllocError>
    ensures { Adds result writer.old writer.new
        (members_tokens (addresses_members addresses)) }
{
    writer.key("addresses")?;
    writer.begin_array()?;
    put_address(writer, alloc, addresses.from)?;
    put_address(writer, alloc, addresses.to)?;
    writer.end_array()
}

/// Writes the object of two addresses of whose connections none can be told.
pub(crate) fn write_refused_between<A: Allocator + Copy>(
    writer: &mut Writer<A>,
    alloc: A,
    addresses: Addresses,
    refusal: Refusal,
) -> Result<(), AllocError>
    ensures { Adds result writer.old writer.new
        (json_tokens (refused_between_json addresses refusal)) }
{
    begin(writer, "session")?;
    put_addresses(writer, alloc, addresses)?;
    put_refused_member(writer, refusal)?;
    writer.end_object()
}
