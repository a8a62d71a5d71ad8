//! The members of a connection that is named.

ghost use Rattle.bgp_json_values.specs.Adding.{Adds};
ghost use Rattle.bgp_json_values.specs.Objects.{members_tokens};
ghost use Rattle.bgp_json_verdicts.specs.Objects.{end_at, opening_members};

use bgp_import::{end_of, other_side};
use bgp_json_values::{Writer, put_address, put_number, put_time};
use bgp_prefix::Session;
use segments::Endpoint;
use std::alloc::{AllocError, Allocator};
use streams::Opening;

/// Puts one of both ends.
fn put_end<A: Allocator + Copy>(
    writer: &mut Writer<A>,
    alloc: A,
    key: &str,
    port_key: &str,
    end: Endpoint,
) -> Result<(), AllocError>
    ensures { Adds result writer.old writer.new
        (members_tokens (end_at key.now port_key.now end)) }
{
    writer.key(key)?;
    put_address(writer, alloc, end.address)?;
    put_number(writer, port_key, u64::from(end.port))
}

/// Puts the number of a connection, its ends, whoever opened it first, and the time
/// of its first packet.
pub(crate) fn put_opening<A: Allocator + Copy>(
    writer: &mut Writer<A>,
    alloc: A,
    session: &Session,
    opening: Opening,
) -> Result<(), AllocError>
    ensures { Adds result writer.old writer.new
        (members_tokens (opening_members session.now opening)) }
{
    let opener = opening.opened_by;
    let (from, to) = (
        end_of(opener, session, opening),
        end_of(other_side(opener), session, opening),
    );
    put_number(writer, "connection", opening.number as u64)?;
    put_end(writer, alloc, "from", "from_port", from)?;
    put_end(writer, alloc, "to", "to_port", to)?;
    put_time(writer, opening.second, opening.micro)
}
