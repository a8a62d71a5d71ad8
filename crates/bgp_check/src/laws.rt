//! Laws of runs under the configurations of one end, each on a function that does nothing.

ghost use Rattle.bgp_check.specs.Another.{AnotherBegins, AnotherIsComplete};
ghost use Rattle.bgp_check.specs.Answered.{FaultIsANo, HasItsVerdict, NoConfigurationExplains};
ghost use Rattle.bgp_check.specs.Checked.{ToldIsOverAll};
ghost use Rattle.bgp_check.specs.Cut.{CutBegins, LeftEndsInIdle, StretchesBegin};
ghost use Rattle.bgp_check.specs.Ends.{SameEnds, SameEndsWithout};
ghost use Rattle.bgp_check.specs.Exist.{WidestExist, WidestExistWithout};
ghost use Rattle.bgp_check.specs.Over.{VerdictOfBoth, VerdictOfOne, VerdictOfYes};
ghost use Rattle.bgp_check.specs.OwnFaults.{OwnFaultsAreAll, SentOpenIsOwn};
ghost use Rattle.bgp_check.specs.Wider.{WiderBegins, WiderIsComplete};
ghost use Rattle.bgp_check.specs.Widest.{WidestBegins, WidestIsComplete};
ghost use Rattle.bgp_check.specs.WidestMade.{WidestAreMade};
ghost use Rattle.bgp_check.specs.Without.{WithoutBegins, WithoutIsComplete};

use bgp_judge::records_tell_the_state;
use bgp_machine::each_owed_want_can_be_met;

/// What a run shows under a configuration, one shows under each wider one, with the same end: one
/// that may delay the OPEN, and that waits for the peer's no longer.
pub fn a_wider_configuration_has_its_runs()
    ensures begins { WiderBegins }
    ensures complete { WiderIsComplete }
{}

/// A stretch in which a peer of another AS number is refused is one of a run under each
/// configuration that refuses it so, with the same end.
pub fn another_peer_is_refused_alike()
    ensures begins { AnotherBegins }
    ensures complete { AnotherIsComplete }
{
    each_owed_want_can_be_met();
}

/// A stretch begins a run under some configuration of an OPEN, and so ends, exactly where it does
/// under a widest one: of these there are two at the most.
pub fn widest_configurations_are_enough()
    ensures begins { WidestBegins }
    ensures complete { WidestIsComplete }
{
    a_wider_configuration_has_its_runs();
    another_peer_is_refused_alike();
}

/// The same of a stretch in which no OPEN is sent, over all configurations of that end.
pub fn widest_configurations_without_open_are_enough()
    ensures begins { WithoutBegins }
    ensures complete { WithoutIsComplete }
{
    each_owed_want_can_be_met();
    a_wider_configuration_has_its_runs();
}

/// There are widest configurations of each OPEN that is a configuration's own, and of each end
/// that sends none: two at the most.
pub fn widest_configurations_exist()
    ensures own { WidestExist }
    ensures without { WidestExistWithout }
{}

/// Configurations with the widest settings of an end ([`widest_of`](crate::widest_of)) are widest
/// configurations of it, unless its OPEN has an own fault.
pub fn widest_settings_are_widest()
    ensures { WidestAreMade }
{}

/// An OPEN is some configuration's own exactly where it has no own fault, if it offers a family at
/// all. And a run shows none as sent that isn't the local system's: so records with one that has an
/// own fault begin none.
pub fn own_faults_are_all()
    ensures none { OwnFaultsAreAll }
    ensures sent { SentOpenIsOwn }
{}

/// A session begins a run exactly where each of its stretches does, together with the record that
/// leaves it. Where it is left, it ended in Idle, without routes.
pub fn a_session_is_cut_without_loss()
    ensures cut { CutBegins }
    ensures left { LeftEndsInIdle }
{
    each_owed_want_can_be_met();
    records_tell_the_state();
}

/// The same of all stretches of a session.
pub fn stretches_begin_as_the_session_does()
    ensures { StretchesBegin }
{
    a_session_is_cut_without_loss();
}

/// A stretch that can end under both widest configurations has the same ends under both.
pub fn widest_configurations_have_the_same_ends()
    ensures own { SameEnds }
    ensures without { SameEndsWithout }
{
    records_tell_the_state();
}

/// The verdict over all configurations of an OPEN, or of an end that sends none, is made of those
/// under the widest ones.
pub fn widest_configurations_make_the_verdict()
    ensures one { VerdictOfOne }
    ensures yes { VerdictOfYes }
    ensures both { VerdictOfBoth }
{
    widest_configurations_are_enough();
    widest_configurations_without_open_are_enough();
    widest_configurations_have_the_same_ends();
}

/// The verdict that [`check_records`](crate::check_records) answers, under the widest
/// configurations of an end, is the one over all of that end's configurations.
pub fn what_is_told_holds_over_all()
    ensures { ToldIsOverAll }
{
    widest_configurations_make_the_verdict();
}

/// What is told of records with an OPEN that has an own fault is a no, at that OPEN at the latest:
/// so it is over the widest configurations, which stand for those that it doesn't have.
pub fn an_own_fault_is_a_no()
    ensures { FaultIsANo }
{
    own_faults_are_all();
}

/// A no that [`check_end`](crate::check_end) answers says that no configuration under which the
/// OPEN that was sent is the end's own has a run that shows these records: none shows even those
/// before the one that it names, and that one.
pub fn no_configuration_explains_a_no()
    ensures { NoConfigurationExplains }
{}

/// States that under the configuration that [`check_end`](crate::check_end) keeps with a verdict,
/// the records have this verdict; and that it is one of the widest configurations of the end.
pub fn a_verdict_holds_under_its_configuration()
    ensures { HasItsVerdict }
{}
