//! Laws of what is told of a stretch of a session in a capture, each on a function that does
//! nothing.

ghost use Rattle.bgp_check_capture_tool.specs.Headings.{ListIsWithoutEnds};
ghost use Rattle.bgp_check_capture_tool.specs.Headline.{NoConfigurationHasARun, NothingIsVacuous};
ghost use Rattle.bgp_check_capture_tool.specs.Repeated.{LineGivesTheVerdict};

use bgp_check::{
    a_verdict_holds_under_its_configuration,
    no_configuration_has_a_run as no_configuration_explains_a_stretch, what_is_judged_is_a_stretch,
};

/// A no of [`check_capture`](crate::check_capture) says that no configuration under which the OPEN
/// that was sent is the local system's own has a run that shows the records of the stretch, even
/// those before the one that it names, and that one.
pub fn no_configuration_has_a_run()
    ensures { NoConfigurationHasARun }
{
    no_configuration_explains_a_stretch();
}

/// A verdict is told only of a stretch in which a message is sent, and of records that begin where
/// the local system leaves Idle: no yes is vacuous.
pub fn no_verdict_is_vacuous()
    ensures { NothingIsVacuous }
{
    what_is_judged_is_a_stretch();
}

/// If nothing is left out (`quiet`): without the lines of a session's ends, why its next record is
/// refused, and the line that counts the ends, what [`check_capture`](crate::check_capture) prints
/// of a capture is what `bgp list` does: a line a session, and then why the file isn't read to its
/// end, if it isn't.
pub fn without_its_ends_it_is_the_list()
    ensures { ListIsWithoutEnds }
{}

/// The line with the options of `bgp judge` gives the verdict that is told before it: by these
/// options `judge` reads of the session's records in the file just those that were judged, and
/// under their configuration these have that verdict.
pub fn a_judge_line_gives_the_verdict()
    ensures { LineGivesTheVerdict }
{
    a_verdict_holds_under_its_configuration();
}
