//! A second, with the microseconds of its fraction.

ghost use Rattle.bgp_json_values.specs.Adding.{Adds};
ghost use Rattle.bgp_json_values.specs.Objects.{members_tokens};
ghost use Rattle.bgp_json_values.specs.Times.{fraction_members, micro_members, time_members};

use crate::texts::put_number;
use bgp_prefix::Seconds;
use json_writer::Writer;
use std::alloc::{AllocError, Allocator};

/// Puts microseconds. What isn't below 1,000,000 is no fraction of a second.
fn put_fraction<A: Allocator>(writer: &mut Writer<A>, micro: u32) -> Result<(), AllocError>
    ensures { Adds result writer.old writer.new (members_tokens (fraction_members micro)) }
{
    if micro < 1_000_000 {
        put_number(writer, "micro", u64::from(micro))
    } else {
        Ok(())
    }
}

/// Puts the fraction of a second, if there is one.
fn put_micro<A: Allocator>(writer: &mut Writer<A>, micro: Option<u32>) -> Result<(), AllocError>
    ensures { Adds result writer.old writer.new (members_tokens (micro_members micro)) }
{
    match micro {
        None => Ok(()),
        Some(micro) => put_fraction(writer, micro),
    }
}

/// Puts a second since 1970, and the microseconds of its fraction, if it has one.
pub fn put_time<A: Allocator>(
    writer: &mut Writer<A>,
    second: Seconds,
    micro: Option<u32>,
) -> Result<(), AllocError>
    ensures { Adds result writer.old writer.new (members_tokens (time_members second micro)) }
{
    put_number(writer, "second", u64::from(second))?;
    put_micro(writer, micro)
}
