//! The object of a capture's session.

ghost use Rattle.std.specs.Prelude.{map};
ghost use Rattle.json.specs.Tree.{json_tokens};
ghost use Rattle.mrt_sessions.specs.Located.{located};
ghost use Rattle.bgp_json_values.specs.Adding.{Adds};
ghost use Rattle.bgp_json_values.specs.Objects.{members_tokens};
ghost use Rattle.bgp_list.specs.SessionJson.{addresses_members, counts_members, seconds_members};
ghost use Rattle.bgp_list.specs.SessionJson.{session_json};

use crate::members::put_pair;
use crate::session::{first_second, last_second};
use bgp_json::begin;
use bgp_json_values::{Writer, put_address, put_number};
use mrt_sessions::{Addresses, Counts, NamedRecord};
use std::alloc::{AllocError, Allocator};

fn put_addresses<A: Allocator + Copy>(
    writer: &mut Writer<A>,
    alloc: A,
    addresses: Addresses,
) -> Result<(), AllocError>
    ensures { Adds result writer.old writer.new
        (members_tokens (addresses_members addresses)) }
{
    writer.key("peer")?;
    put_address(writer, alloc, addresses.peer)?;
    writer.key("local")?;
    put_address(writer, alloc, addresses.local)
}

/// How many records there are of each direction.
fn put_counts_members<A: Allocator>(
    writer: &mut Writer<A>,
    counts: Counts,
) -> Result<(), AllocError>
    ensures { Adds result writer.old writer.new (members_tokens (counts_members counts)) }
{
    put_number(writer, "received", counts.received)?;
    put_number(writer, "sent", counts.sent)?;
    put_number(writer, "changes", counts.changes)
}

/// The seconds of the first and of the last record.
fn put_seconds<A: Allocator>(
    writer: &mut Writer<A>,
    records: &[NamedRecord<'_>],
) -> Result<(), AllocError>
    ensures { Adds result writer.old writer.new
        (members_tokens (seconds_members (map located records.now))) }
{
    let first = u64::from(first_second(records));
    let last = u64::from(last_second(records));
    put_pair(writer, "seconds", first, last)
}

/// Writes the object of a session with these records.
pub fn write_session<A: Allocator + Copy>(
    writer: &mut Writer<A>,
    alloc: A,
    addresses: Addresses,
    records: &[NamedRecord<'_>],
) -> Result<(), AllocError>
    ensures { Adds result writer.old writer.new
        (json_tokens (session_json addresses (map located records.now))) }
{
    begin(writer, "session")?;
    put_addresses(writer, alloc, addresses)?;
    put_counts_members(writer, Counts::of(records))?;
    put_seconds(writer, records)?;
    writer.end_object()
}
