//! Laws of what is told of a stretch, each on a function that does nothing.

ghost use Rattle.bgp_check.specs.Left.{LeftIsYesWhereARunLeaves, LeftVerdictIsOverAll};
ghost use Rattle.bgp_check.specs.Named.{NoNamesItsRecord};
ghost use Rattle.bgp_check.specs.StretchLaws.{JudgedAreStretches, NoConfigurationHasARun};

use crate::laws::{
    a_session_is_cut_without_loss, a_verdict_holds_under_its_configuration,
    no_configuration_explains_a_no,
};

/// What [`check_stretch`](crate::check_stretch) judges of a stretch is one, too: its records
/// without those that are passed over, and the one that leaves it. So a verdict on it is the one
/// over all configurations under which the OPEN that was sent is the local system's own.
pub fn what_is_judged_is_a_stretch()
    ensures { JudgedAreStretches }
{}

/// A no of [`check_stretch`](crate::check_stretch) says that no configuration under which the OPEN
/// that was sent is the local system's own has a run that shows these records, up to the one that
/// it names.
pub fn no_configuration_has_a_run()
    ensures { NoConfigurationHasARun }
{
    no_configuration_explains_a_no();
}

/// The verdict that [`check_stretch`](crate::check_stretch) answers of a stretch that is left is
/// the one over all configurations under which the OPEN that was sent is the local system's own,
/// where that has no own fault: yes, with the end in Idle without routes, if and only if under one
/// of them a run shows the stretch and then leaves it so; else no.
pub fn a_left_stretch_is_judged_over_all()
    ensures verdict { LeftVerdictIsOverAll }
    ensures yes { LeftIsYesWhereARunLeaves }
{
    a_session_is_cut_without_loss();
}

/// A no of [`check_stretch`](crate::check_stretch) names the record of the stretch, or the one that
/// leaves it, which stands behind the judged ones that begin a run: with it none goes on.
pub fn a_no_names_its_record()
    ensures { NoNamesItsRecord }
{
    a_verdict_holds_under_its_configuration();
}
