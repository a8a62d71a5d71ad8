//! Laws of the ladders in a report, each on a function that does nothing.

ghost use Rattle.bgp_report_laws.specs.Ladders as recordings;
ghost use Rattle.bgp_report_laws.specs.Stretches as captures;

use bgp_answer_laws::{each_mark_has_its_answer, notes_are_of_answers};
use mrt::Source;

/// States that in a report the ladder of an end has the lines of that end's own reason that say what
/// could have come, or had to, word for word and in their order; or it says that memory was refused
/// for them. So it is of both ends of each connection of a pcap file, and of each stretch of an MRT
/// file, if the texts that come from their records are lines.
pub fn each_ladder_has_its_own_lines<R: Source>()
    ensures recordings { recordings.LaddersHaveTheirOwn R.gives R.has_ended R.failures }
    ensures captures { captures.LaddersHaveTheirOwn R.gives R.has_ended R.failures }
{
    notes_are_of_answers();
    each_mark_has_its_answer();
}
