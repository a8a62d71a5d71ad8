//! Laws of lines in JSON, each on a function that does nothing.

ghost use Rattle.bgp_why_laws.specs.Visible.{LinesAreVisible, OutputsAreVisible, PrintedIsVisible};

/// States that the line in JSON of a verdict, an end, a route, a reason, a connection or a refusal
/// is UTF-8 and has no control character but the line feed at its end: none of ASCII, no DEL, and
/// none of U+0080 to U+009F.
pub fn no_line_in_json_has_a_control_character()
    ensures { LinesAreVisible }
{}

/// States the same of all lines of an output; and of what is printed of a text, also if memory was
/// refused for one of its lines.
pub fn no_output_in_json_has_a_control_character()
    ensures lines { OutputsAreVisible }
    ensures printed { PrintedIsVisible }
{}
