//! Laws of the characters of lists in JSON, each on a function that does nothing.

ghost use Rattle.bgp_list_laws.specs.Visible.{CapturesAreVisible, LinesAreVisible};
ghost use Rattle.bgp_list_laws.specs.Visible.{ListsAreVisible, RefusalsAreVisible};
ghost use Rattle.bgp_list_laws.specs.Visible.{SessionsAreVisible};

/// States that the line in JSON of a connection, of two addresses of whose connections none can be
/// told, and of why a recording can't be read on is UTF-8 and has no control character but the line
/// feed at its end: none of ASCII, no DEL, and none of U+0080 to U+009F. The same holds for all
/// that is listed of a recording.
pub fn no_line_in_json_has_a_control_character()
    ensures lines { LinesAreVisible }
    ensures refusals { RefusalsAreVisible }
    ensures lists { ListsAreVisible }
{}

/// States the same of the line of a capture's session, and of all that is written of a capture,
/// whatever its octets are.
pub fn no_session_in_json_has_a_control_character()
    ensures sessions { SessionsAreVisible }
    ensures captures { CapturesAreVisible }
{}
