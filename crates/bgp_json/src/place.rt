//! Where what an object tells of stands.

ghost use Rattle.std.specs.Prelude.{◌≡◌, ◌∷◌, [], codes};
ghost use Rattle.bgp_json_values.specs.Adding.{Adds};
ghost use Rattle.bgp_json_values.specs.Objects.{members_tokens};
ghost use Rattle.bgp_json.specs.Place.{direction_json, direction_text, packet_members};
ghost use Rattle.bgp_json.specs.Place.{place_members, record_members};

use crate::members::put_text;
use bgp_json_values::{Writer, put_number};
use bgp_prefix::Seconds;
use bgp_values::Direction;
use std::alloc::{AllocError, Allocator};

/// A record of a capture, or a message or a change of state of a recording.
#[derive(Clone, Copy, Debug, PartialEq, Eq)]
pub struct RecordPlace {
    /// Its number, from 1.
    pub number: u64,
    /// Its second.
    pub second: Seconds,
    /// The number of the packet that shows it, if that is known.
    pub packet: Option<u64>,
}

/// Where a message stands.
#[derive(Clone, Copy, Debug, PartialEq, Eq)]
pub enum Place {
    /// At this offset of a stream.
    InStream(u64),
    /// In a record; and which way it went.
    InRecord(RecordPlace, Direction),
}

/// Returns the word for a direction.
fn direction_text(direction: Direction) -> &'static str
    ensures { result.now ≡ direction_text direction }
{
    match direction {
        Direction::Received => "received",
        Direction::Sent => "sent",
    }
}

/// Puts which way a message went.
pub(crate) fn put_direction<A: Allocator>(
    writer: &mut Writer<A>,
    direction: Direction,
) -> Result<(), AllocError>
    ensures { Adds result writer.old writer.new
        (members_tokens ((codes "direction", direction_json direction) ∷ [])) }
{
    put_text(writer, "direction", direction_text(direction))
}

/// Puts the number of a packet, if it is known.
fn put_packet<A: Allocator>(writer: &mut Writer<A>, packet: Option<u64>) -> Result<(), AllocError>
    ensures { Adds result writer.old writer.new (members_tokens (packet_members packet)) }
{
    match packet {
        None => Ok(()),
        Some(packet) => put_number(writer, "packet", packet),
    }
}

/// Puts the place of a record.
pub(crate) fn put_record_place<A: Allocator>(
    writer: &mut Writer<A>,
    place: RecordPlace,
) -> Result<(), AllocError>
    ensures { Adds result writer.old writer.new (members_tokens (record_members place)) }
{
    put_number(writer, "record", place.number)?;
    put_number(writer, "second", u64::from(place.second))?;
    put_packet(writer, place.packet)
}

/// Puts the place of a message.
pub(crate) fn put_place<A: Allocator>(
    writer: &mut Writer<A>,
    place: Place,
) -> Result<(), AllocError>
    ensures { Adds result writer.old writer.new (members_tokens (place_members place)) }
{
    match place {
        Place::InStream(offset) => put_number(writer, "at", offset),
        Place::InRecord(place, direction) => {
            put_record_place(writer, place)?;
            put_direction(writer, direction)
        }
    }
}
