//! Laws of lines and of whole outputs, each on a function that does nothing.

ghost use Rattle.bgp_check_laws.specs.Laws.{LinesAreDetermined, OutputsAreDetermined};
ghost use Rattle.bgp_check_laws.specs.Laws.{ObjectsAreDetermined, PrintedIsDetermined};

/// States that the objects of a line of each kind determine the line's text: of a verdict with its
/// possible ends and their routes, of what is said beside it, of a connection or a session, or of
/// what is said of the whole file.
pub fn each_line_determines_its_text()
    ensures { LinesAreDetermined }
{}

/// States that the objects of an output determine its text, and so do their lines in JSON; and so
/// does what is printed of a text, if memory wasn't refused (status 4).
pub fn each_output_determines_its_text()
    ensures objects { ObjectsAreDetermined }
    ensures lines { OutputsAreDetermined }
    ensures printed { PrintedIsDetermined }
{}
