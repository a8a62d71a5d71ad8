//! Laws of the session machine's rows and runs.

ghost use Rattle.bgp_machine.specs.Going.{HiddenShape, ReceivedShape};
ghost use Rattle.bgp_machine.specs.Joined.{NoStepIsARun, RunsAreJoined, StepAndRunAreJoined};
ghost use Rattle.bgp_machine.specs.Owed.{EachOwedCanBeMet, EachOwedSetHasFault, NoteKeepsState};

use bgp_rib::empty_is_clean;

/// Law: all steps that one record opens and that do not fall to Idle go one way. With the same left
/// to send they end in one head, and their routes stay or get the message's one list of changes. A
/// step that falls sends at most one NOTIFICATION more.
pub fn each_record_goes_one_way()
    ensures hidden { HiddenShape }
    ensures received { ReceivedShape }
{}

/// Law: each want that a step owes is met by some message, on the link before the step. So a set of
/// faults that is owed has one.
pub fn each_owed_want_can_be_met()
    ensures met { EachOwedCanBeMet }
    ensures some { EachOwedSetHasFault }
{
    empty_is_clean();
}

/// Law: a note of the state sends nothing, and leaves the state as it was.
pub fn a_note_keeps_the_state()
    ensures { NoteKeepsState }
{}

/// Law: a run, and then another from the state in which it ended, are one run, which shows the
/// records of both in their order. To take no step is a run without records, and a step with a run
/// from where it ended is a run.
pub fn runs_are_joined()
    ensures joined { RunsAreJoined }
    ensures none { NoStepIsARun }
    ensures first { StepAndRunAreJoined }
{}
