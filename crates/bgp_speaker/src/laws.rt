//! Laws of the core's choice.

ghost use Rattle.bgp_speaker.specs.Connection.{EachConnectionIsHeard};
ghost use Rattle.bgp_speaker.specs.Driven.{EachDriveIsARun, EachDriveIsComplete};
ghost use Rattle.bgp_speaker.specs.Driven.{EachDriveIsUndelayed, EachKeptListAscends};
ghost use Rattle.bgp_speaker.specs.Driven.{EachLinkIsPlain};
ghost use Rattle.bgp_speaker.specs.Hearing.{CutDoesntMatter, FrameFirst, PiecesAreJoined};
ghost use Rattle.bgp_speaker.specs.Laws.{EachOwnStepIsTheMachines, HearingIsARun};
ghost use Rattle.bgp_speaker.specs.Laws.{EachStepOnAMessageIsTheMachines};
ghost use Rattle.bgp_speaker.specs.OneChoice.{EachChoiceIsOne};
ghost use Rattle.bgp_speaker.specs.Written.{EachRecordCanBeWritten, SecondsStayInOrder};

use bgp_update::{one_change, subcodes_are_sets};

/// Each step that the core takes is one of the session machine's, and so what it hears is a run.
pub fn each_chosen_step_is_the_machines()
    ensures own { EachOwnStepIsTheMachines }
    ensures on { EachStepOnAMessageIsTheMachines }
    ensures hearing { HearingIsARun }
{}

/// What is heard is heard a frame at a time, and doesn't depend on how the octets are cut: two
/// pieces at one second are as one.
pub fn however_cut()
    ensures first { FrameFirst }
    ensures cut { CutDoesntMatter }
    ensures pieces { PiecesAreJoined }
{}

/// What the core does on many inputs is a run. The core never delays its OPEN (RFC 4271, 8.1.1),
/// and the prefixes that it keeps ascend. If it offers nothing about routes, those that it receives
/// are plain, and those that it sends have no path identifiers.
pub fn each_drive_is_a_run()
    ensures run { EachDriveIsARun }
    ensures complete { EachDriveIsComplete }
    ensures undelayed { EachDriveIsUndelayed }
    ensures plain { EachLinkIsPlain }
    ensures ascend { EachKeptListAscends }
{}

/// The messages received on a connection are the first of those that stand in the octets which came
/// on it since it was up: its frames, and then the header with a fault that ends them, if one does.
/// While the connection stands they are all of these.
pub fn each_connection_is_heard()
    ensures { EachConnectionIsHeard }
{}

/// What the core shows on many inputs can be written as a capture of its session, where both
/// addresses are of one family and no ROUTE-REFRESH is to be refused. The seconds don't go back.
pub fn each_drive_can_be_written()
    ensures written { EachRecordCanBeWritten }
    ensures seconds { SecondsStayInOrder }
{}

/// The core's choice is one: any two choices for a state, an input and a second leave the same
/// state and have the same records, but for how an UPDATE that is sent is spelled. Then both
/// spellings are whole UPDATEs without a fault on one link, and read as the same changes.
pub fn each_choice_is_one()
    ensures { EachChoiceIsOne }
{
    one_change();
    subcodes_are_sets();
}
