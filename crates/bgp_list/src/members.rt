//! Members that several objects have.

ghost use Rattle.std.specs.Prelude.{◌∷◌, []};
ghost use Rattle.bgp_json_values.specs.Adding.{Adds};
ghost use Rattle.bgp_json_values.specs.Objects.{members_tokens};
ghost use Rattle.bgp_list.specs.JsonMembers.{endpoint_members, number_members, pair_members};

use bgp_ended::Endpoint;
use bgp_json_values::{Writer, put_address, put_number};
use std::alloc::{AllocError, Allocator};

/// A port, if it is known.
fn put_port<A: Allocator>(
    writer: &mut Writer<A>,
    key: &str,
    port: Option<u16>,
) -> Result<(), AllocError>
    ensures { Adds result writer.old writer.new (members_tokens (number_members key.now port)) }
{
    match port {
        None => Ok(()),
        Some(port) => put_number(writer, key, u64::from(port)),
    }
}

/// Puts an AS number, if it is known.
pub fn put_as_number<A: Allocator>(
    writer: &mut Writer<A>,
    key: &str,
    number: Option<u32>,
) -> Result<(), AllocError>
    ensures { Adds result writer.old writer.new (members_tokens (number_members key.now number)) }
{
    match number {
        None => Ok(()),
        Some(number) => put_number(writer, key, u64::from(number)),
    }
}

/// Puts an end: its address and its port.
pub fn put_end_members<A: Allocator + Copy>(
    writer: &mut Writer<A>,
    alloc: A,
    key: &str,
    port_key: &str,
    end: &Endpoint,
) -> Result<(), AllocError>
    ensures { Adds result writer.old writer.new
        (members_tokens (endpoint_members key.now port_key.now end.now)) }
{
    writer.key(key)?;
    put_address(writer, alloc, end.address)?;
    put_port(writer, port_key, end.port)
}

/// Puts two numbers.
pub fn put_pair<A: Allocator>(
    writer: &mut Writer<A>,
    key: &str,
    first: u64,
    second: u64,
) -> Result<(), AllocError>
    ensures { Adds result writer.old writer.new
        (members_tokens (pair_members key.now first second)) }
{
    writer.key(key)?;
    writer.begin_array()?;
    writer.u64(first)?;
    writer.u64(second)?;
    writer.end_array()
}
