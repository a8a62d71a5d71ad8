//! Where a record stands, and its time.

ghost use Rattle.std.specs.Prelude.{◌≡◌};
ghost use Rattle.bgp_json_values.specs.Adding.{Adds};
ghost use Rattle.bgp_json_values.specs.Objects.{members_tokens};
ghost use Rattle.bgp_json_verdicts.specs.At.{at_if, at_members, at_of, dated_members};
ghost use Rattle.bgp_json_verdicts.specs.At.{number_members, place_members, since_members};

use bgp_json_values::{Writer, put_number, put_time, put_truth};
use bgp_prefix::Seconds;
use bgp_why::Place;
use std::alloc::{AllocError, Allocator};

/// How many seconds a day has.
const DAY: u32 = 86400;

/// Where a record stands that a line of a reason names.
#[derive(Clone, Copy)]
pub struct At {
    /// Its place, and its time.
    pub place: Place,
    /// Whether the line has a date: its day isn't that of the first record.
    pub is_dated: bool,
}

impl At {
    /// Returns where a record stands, in lines that give no date to a time of the day of `first`.
    pub fn new(first: Seconds, place: Place) -> At
        ensures { result ≡ at_of first place }
    {
        At {
            place,
            is_dated: first / DAY != place.second / DAY,
        }
    }

    /// Returns where a record stands, if there is one.
    pub fn of(first: Seconds, place: Option<Place>) -> Option<At>
        ensures { result ≡ at_if first place }
    {
        match place {
            None => None,
            Some(place) => Some(At::new(first, place)),
        }
    }
}

/// Puts a number, if there is one.
pub fn put_number_if<A: Allocator>(
    writer: &mut Writer<A>,
    key: &str,
    number: Option<u64>,
) -> Result<(), AllocError>
    ensures { Adds result writer.old writer.new (members_tokens (number_members key.now number)) }
{
    match number {
        None => Ok(()),
        Some(number) => put_number(writer, key, number),
    }
}

/// Puts where a record stands, and its time.
pub fn put_place<A: Allocator>(writer: &mut Writer<A>, place: &Place) -> Result<(), AllocError>
    ensures { Adds result writer.old writer.new (members_tokens (place_members place.now)) }
{
    put_number(writer, "record", place.number)?;
    put_number_if(writer, "packet", place.packet)?;
    put_time(writer, place.second, place.micro)
}

/// Puts that the time has a date, if it has.
fn put_dated<A: Allocator>(writer: &mut Writer<A>, is_dated: bool) -> Result<(), AllocError>
    ensures { Adds result writer.old writer.new (members_tokens (dated_members is_dated)) }
{
    if is_dated {
        put_truth(writer, "dated", is_dated)
    } else {
        Ok(())
    }
}

/// Puts where a record stands, its time, and whether that has a date.
pub(crate) fn put_at<A: Allocator>(writer: &mut Writer<A>, at: &At) -> Result<(), AllocError>
    ensures { Adds result writer.old writer.new (members_tokens (at_members at.now)) }
{
    put_place(writer, &at.place)?;
    put_dated(writer, at.is_dated)
}

/// Puts where a record stands, if there is one.
pub(crate) fn put_since<A: Allocator>(
    writer: &mut Writer<A>,
    since: &Option<At>,
) -> Result<(), AllocError>
    ensures { Adds result writer.old writer.new (members_tokens (since_members since.now)) }
{
    match since {
        None => Ok(()),
        Some(at) => put_at(writer, at),
    }
}
