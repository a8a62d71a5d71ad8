//! The object of a message that a record holds.

ghost use Rattle.std.specs.Prelude.{◌≤◌, length};
ghost use Rattle.json.specs.Json.{Json};
ghost use Rattle.mrt.specs.Rules.{HasOtherLength};
ghost use Rattle.bgp_json.specs.Line.{PutsLine};
ghost use Rattle.bgp_json.specs.Object.{json_line};
ghost use Rattle.bgp_json.specs.RecordJson.{IsMessageJson};

use crate::faults::put_json_fault;
use crate::message::put_json_frame;
use crate::place::Place;
use bgp_text::Lines;
use bgp_values::Reading;
use bgp_wire::{HeaderVerdict, Limit, check_header, header_at};
use mrt::Sink;
use std::alloc::{AllocError, Allocator};

/// Puts the line of a message that a record holds, which may be so long: what [`put_json_frame`]
/// puts, or for a header with faults what [`put_json_fault`] puts. It has a header, and its length
/// is the one that the header says, if that is a length that a message may have. If memory is
/// refused, it puts nothing.
pub fn put_json_message<A: Allocator + Copy, W: Sink>(
    lines: &mut Lines<'_, W>,
    alloc: A,
    reading: Reading,
    limit: Limit,
    place: Place,
    octets: &[u8],
) -> Result<(), AllocError>
    requires long { 19 ≤ length octets.now }
    requires whole { ¬ HasOtherLength limit octets.now }
    ensures { (value : Json) × IsMessageJson reading limit place octets.now value
        × PutsLine result lines.old lines.new (json_line value) }
{
    let Some(header) = header_at(octets) else {
        unreachable!();
    };
    match check_header(header, limit) {
        HeaderVerdict::Whole(_, kind) => {
            put_json_frame(lines, alloc, reading, place, kind, octets)
        }
        HeaderVerdict::Faulty(faults) => {
            put_json_fault(lines, alloc, place, faults, header, octets)
        }
    }
}
