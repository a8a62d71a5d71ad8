//! Laws of the characters of lines in words, each on a function that does nothing.

ghost use Rattle.bgp_visible_laws.specs.Laws.{FaultLinesAreVisible, FrameLinesAreVisible};
ghost use Rattle.bgp_visible_laws.specs.Laws.{RecordLinesAreVisible, RestLinesAreVisible};

/// States that the line of a message of a stream, in words, is UTF-8 and has no control character
/// but the line feed at its end: none of ASCII, no DEL, and none of U+0080 to U+009F.
pub fn no_message_has_a_control_character()
    ensures { FrameLinesAreVisible }
{}

/// States the same of the line of a header with faults.
pub fn no_fault_has_a_control_character()
    ensures { FaultLinesAreVisible }
{}

/// States the same of the line of what a stream has behind its last whole message.
pub fn no_rest_has_a_control_character()
    ensures { RestLinesAreVisible }
{}

/// States the same of the line of a record of a session.
pub fn no_record_has_a_control_character()
    ensures { RecordLinesAreVisible }
{}
