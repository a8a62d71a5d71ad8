//! Laws of the characters of lines in JSON, each on a function that does nothing.

ghost use Rattle.bgp_check_laws.specs.Visible.{LinesAreVisible, OutputsAreVisible};
ghost use Rattle.bgp_check_laws.specs.Visible.{PrintedIsVisible};

/// States that the lines of the objects of each kind of line are UTF-8 and have no control
/// character but the line feed at their end: none of ASCII, no DEL, and none of U+0080 to U+009F.
pub fn no_line_in_json_has_a_control_character()
    ensures { LinesAreVisible }
{}

/// States the same of all lines of an output; and of what is printed of a text, also if memory was
/// refused for one of its lines.
pub fn no_output_in_json_has_a_control_character()
    ensures lines { OutputsAreVisible }
    ensures printed { PrintedIsVisible }
{}
