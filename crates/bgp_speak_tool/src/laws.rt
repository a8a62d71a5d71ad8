//! What a speaker's core shows is judged yes.

ghost use Rattle.bgp_speak_tool.specs.Driven.{DrivesAreJudgedYes, DrivesAreNotRefused};
ghost use Rattle.bgp_speak_tool.specs.Driven.{DrivesSpellTheirRecords};

use bgp_speaker::{each_drive_can_be_written, each_drive_is_a_run};
use mrt::{each_capture_has_one_reading, written_captures_are_read};

/// Law: what a speaker's core shows is judged yes. Octets that are written of the records of a
/// drive spell just these records and are never refused, and whatever verdict holds of them is yes,
/// with the state and the routes in which the core ended among the ends. For each list of inputs
/// whose seconds have 32 bits, where both addresses are of one family and no ROUTE-REFRESH is to be
/// refused.
pub fn each_drive_is_judged_yes()
    ensures spells { DrivesSpellTheirRecords }
    ensures sound { DrivesAreNotRefused }
    ensures yes { DrivesAreJudgedYes }
{
    each_capture_has_one_reading();
    written_captures_are_read();
    each_drive_can_be_written();
    each_drive_is_a_run();
}
