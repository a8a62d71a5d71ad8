//! The records that are made of a connection for one of its ends.

ghost use Rattle.std.specs.Prelude.{◌≡◌, IfOk, map};
ghost use Rattle.mrt.specs.Reader.{shown_of};
ghost use Rattle.bgp_recording.specs.Captured.{records_of};
ghost use Rattle.bgp_recording.specs.Gathered.{IsClocked, IsCovered};
ghost use Rattle.bgp_check_tool.specs.Made.{AreOffered, IsMade};

use bgp_check::{heard_open, own_open};
use bgp_check_lines::are_framed_alike;
use bgp_ended::{framing_by, with_both_offers};
use bgp_recording::{Framings, Recording, make_records};
use mrt::Record;
use std::alloc::{AllocError, Allocator};
use streams::Connection;

/// Both directions by what the receiver of either offers in the first well-formed OPEN that it
/// sent.
fn offered_in(records: &[Record<'_>]) -> Framings
    ensures { AreOffered (map shown_of records.now) result }
{
    Framings {
        received: framing_by(own_open(records)),
        sent: framing_by(heard_open(records)),
    }
}

/// The records that tell a connection, and how they are framed.
#[derive(Drop)]
pub struct Made<'a, A: Allocator> {
    /// The records.
    pub recording: Recording<'a, A>,
    /// How both directions are framed.
    pub framings: Framings,
}

/// The records that tell a connection, either direction framed by what its receiver offers. They
/// are made once, unless something occurs that one of both doesn't offer.
pub fn made_of<'a, A: Allocator + Copy>(
    alloc: A,
    connection: &Connection<'a>,
    within: u16,
) -> Result<Made<'a, A>, AllocError>
    requires received { IsCovered connection.now.received }
    requires sent { IsCovered connection.now.sent }
    // Where the packets' seconds don't fall, the records tell the connection.
    ensures told { IfOk result (λ made. IsClocked connection.now → IsMade within connection.now
        made.framings made.recording.entries.items made.recording.received
        made.recording.sent) }
    ensures records { IfOk result (λ made. map shown_of made.recording.records.items
        ≡ records_of made.recording.entries.items) }
{
    let offered = with_both_offers();
    let looked_in = make_records(alloc, connection, offered, within)?;
    let framings = offered_in(&looked_in.records);
    if are_framed_alike(&looked_in, offered, framings) {
        return Ok(Made {
            recording: looked_in,
            framings,
        });
    }
    Ok(Made {
        recording: make_records(alloc, connection, framings, within)?,
        framings,
    })
}
