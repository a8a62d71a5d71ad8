//! Laws of lines and of whole lists, each on a function that does nothing.

ghost use Rattle.bgp_list_laws.specs.Laws.{CapturesAreDetermined, LinesAreDetermined};
ghost use Rattle.bgp_list_laws.specs.Laws.{ListsAreDetermined, RefusalsAreDetermined};
ghost use Rattle.bgp_list_laws.specs.Laws.{SessionsAreDetermined};

/// States that the line of a connection in JSON determines its text, and so does the line of two
/// addresses of whose connections none can be told.
pub fn each_line_determines_its_text()
    ensures { LinesAreDetermined }
{}

/// States the same of the line that says why a recording can't be read on.
pub fn each_refusal_determines_its_text()
    ensures { RefusalsAreDetermined }
{}

/// States that all that is listed of a recording in JSON determines all that is listed as text.
pub fn each_list_determines_its_text()
    ensures { ListsAreDetermined }
{}

/// States that the line of a capture's session in JSON determines its text.
pub fn each_session_determines_its_text()
    ensures { SessionsAreDetermined }
{}

/// States that all that is listed of a capture in JSON determines all that is listed as text.
pub fn each_session_list_determines_its_text()
    ensures { CapturesAreDetermined }
{}
