//! A law of what is left out of a capture's lines, on a function that does nothing.

ghost use Rattle.bgp_check_capture_tool.specs.Quiet.{QuietKeepsTrouble};

/// States what [`check_capture`](crate::check_capture) prints if only what isn't well is printed
/// (`quiet`): what it prints of the same file otherwise, without some pieces. These are kept: all
/// lines of an end that is a no or unfinished; why a session's next record is refused, and why the
/// file can't be read on; that there is no session; the own line of a session of which something is
/// kept; and the last line, if there is a no, something unfinished, a refusal or no session. Nothing
/// else is.
pub fn quiet_keeps_what_is_not_well()
    ensures { QuietKeepsTrouble }
{}
