//! A law of the octets of lines, on a function that does nothing.

ghost use Rattle.bgp_json_laws.specs.Visible.{NoLineHasAControlCharacter};

/// States that a line of JSON has no control character of ASCII (an octet below 32) but the line
/// feed at its end: a terminal that prints it shows it, and a reader that goes by lines finds a
/// value in each.
pub fn no_line_has_a_control_character()
    ensures { NoLineHasAControlCharacter }
{}
