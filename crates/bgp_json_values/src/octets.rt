//! Octets beside a value.

ghost use Rattle.std.specs.Prelude.{[], if◌then◌else◌};
ghost use Rattle.bgp_json_values.specs.Adding.{Adds};
ghost use Rattle.bgp_json_values.specs.Objects.{members_tokens};
ghost use Rattle.bgp_json_values.specs.Octets.{octets_members};

use crate::texts::put_octets;
use json_writer::Writer;
use std::alloc::{AllocError, Allocator};

/// Puts the member that octets are.
pub fn put_octets_member<A: Allocator + Copy>(
    writer: &mut Writer<A>,
    alloc: A,
    octets: &[u8],
) -> Result<(), AllocError>
    ensures { Adds result writer.old writer.new (members_tokens (octets_members octets.now)) }
{
    writer.key("octets")?;
    put_octets(writer, alloc, octets)
}

/// Puts the member that octets are, unless their value spells them.
pub fn put_unless<A: Allocator + Copy>(
    writer: &mut Writer<A>,
    alloc: A,
    is_spelled: bool,
    octets: &[u8],
) -> Result<(), AllocError>
    ensures { Adds result writer.old writer.new
        (members_tokens (if is_spelled then [] else octets_members octets.now)) }
{
    if is_spelled {
        Ok(())
    } else {
        put_octets_member(writer, alloc, octets)
    }
}
