//! The same laws of lines in JSON.

ghost use Rattle.bgp_visible_laws.specs.JsonLaws.{JsonFaultsAreVisible, JsonFramesAreVisible};
ghost use Rattle.bgp_visible_laws.specs.JsonLaws.{JsonRecordingsAreVisible, JsonRecordsAreVisible};
ghost use Rattle.bgp_visible_laws.specs.JsonLaws.{JsonRefusalsAreVisible, JsonRestsAreVisible};

/// States that the line of a message of a stream in JSON is UTF-8 and has no control character but
/// the line feed at its end: none of ASCII, no DEL, and none of U+0080 to U+009F.
pub fn no_message_in_json_has_a_control_character()
    ensures { JsonFramesAreVisible }
{}

/// States the same of the line of a record of a session.
pub fn no_record_in_json_has_a_control_character()
    ensures { JsonRecordsAreVisible }
{}

/// States the same of the lines of a header with faults, of what a stream has behind its last whole
/// message, and of a capture or a recording that is refused.
pub fn no_other_in_json_has_a_control_character()
    ensures faults { JsonFaultsAreVisible }
    ensures rests { JsonRestsAreVisible }
    ensures refusals { JsonRefusalsAreVisible }
    ensures recordings { JsonRecordingsAreVisible }
{}
