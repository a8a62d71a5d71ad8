//! Laws of lines and of whole outputs, each on a function that does nothing.

ghost use Rattle.bgp_verdict_laws.specs.Laws.{LinesAreDetermined, OutputsAreDetermined};
ghost use Rattle.bgp_verdict_laws.specs.Laws.{PrintedIsDetermined};
ghost use Rattle.bgp_verdict_laws.specs.Marks.{AsksAreMarked, IsLackMarked, UpdateAsksAreMarked};
ghost use Rattle.bgp_verdict_laws.specs.Numbers.{LinesHaveNumbers};

use bgp_why::Lacks;
use std::alloc::Allocator;

/// States that the object of a line determines the line's text: of a verdict, an end, a route, a
/// line of a reason, a connection, or a refusal.
pub fn each_line_determines_its_text()
    ensures { LinesAreDetermined }
{}

/// States that the lines of an output in JSON determine its text; and so does what is printed of a
/// text, if memory wasn't refused (status 4).
pub fn each_output_determines_its_text()
    ensures lines { OutputsAreDetermined }
    ensures printed { PrintedIsDetermined }
{}

/// States that each number of an output's objects is one that JSON can have (RFC 8259, 6), if those
/// of its lines have 64 bits.
pub fn each_number_is_one_of_json()
    ensures { LinesHaveNumbers }
{}

/// States that what an object leaves out stands before what a message asks for, a colon and a blank;
/// and so before what an UPDATE asks for, if it may be applied or refused.
pub fn each_text_has_its_mark()
    ensures asks { AsksAreMarked }
    ensures update { UpdateAsksAreMarked }
{}

/// States that what an object leaves out stands before what a record lacks of an item, a semicolon
/// and a blank.
pub fn each_lack_has_its_mark<A: Allocator>(lacks: &Lacks<'_, A>)
    ensures { IsLackMarked lacks.now }
{
    let _lacks = lacks;
}
