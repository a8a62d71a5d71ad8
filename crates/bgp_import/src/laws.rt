//! Laws of what is made of a recording, each on a function that does nothing.

ghost use Rattle.bgp_import.specs.Once.{RecordingsAreMadeOnce};
ghost use Rattle.bgp_import.specs.OneAnswer.{FirstRefusalsAreOne, NoneIsImportedAndRefused};

use bgp_recording::connections_are_recorded_once;
use packets::each_recording_has_one_reading;

/// What is made of one connection of a recording is one thing: whatever records, with the packets
/// that show them, `IsMadeOf` has of the same packets, session, number and patience are the same,
/// and so is what is told of them. So what is imported, what is judged and what is decoded of a
/// recording are one list of records.
pub fn recordings_are_made_once()
    ensures { RecordingsAreMadeOnce }
{
    connections_are_recorded_once();
}

/// A recording has one first refusal at the most, and where it has one no capture is made of it:
/// the octets alone say which of both it is, and which refusal.
pub fn recordings_are_answered_once()
    ensures one { FirstRefusalsAreOne }
    ensures none { NoneIsImportedAndRefused }
{
    each_recording_has_one_reading();
}
