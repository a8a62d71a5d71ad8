//! Laws of captures, each on a function that does nothing.

ghost use Rattle.mrt.specs.CaptureLaws.{OneText, OneSpelling, OneFault, NeverBoth, NeverNone};
ghost use Rattle.mrt.specs.CaptureLaws.{CapturesReadBack, EachAllowed, ReadsBack};
ghost use Rattle.mrt.specs.RefreshLaws.{NothingPassedOver, PassedOverAreTakenOut, HasOneFault};
ghost use Rattle.mrt.specs.RefreshLaws.{PassedOverAreWhole, FirstRefreshIsRefused};

/// Octets spell one list of records of a session or have one first fault, never both, and always
/// one of them.
pub fn each_capture_has_one_reading()
    ensures text { OneText }
    ensures spelling { OneSpelling }
    ensures fault { OneFault }
    ensures never_both { NeverBoth }
    ensures never_none { NeverNone }
{}

/// What [`write_record`](crate::write_record) writes reads as the record, wherever a capture may
/// have it.
pub fn written_records_are_read()
    ensures { ReadsBack }
{}

/// What [`write_record`](crate::write_record) writes of records, one after another, is a capture
/// that spells just these records, in their order, where their seconds don't go back.
pub fn written_captures_are_read()
    ensures { CapturesReadBack }
{}

/// Each record of the session that a capture shows is one that a capture may have there: a change
/// between known states, or a message that is whole where its header is sound.
pub fn each_record_is_allowed()
    ensures { EachAllowed }
{}

/// Where ROUTE-REFRESH messages aren't passed over, each place of a capture is judged as if there
/// were no such rule, whatever stands there.
pub fn nothing_is_passed_over_unasked()
    ensures { NothingPassedOver }
{}

/// Where they are, the records of a capture are those of the octets without what is passed over, of
/// a session without route refresh, and so are the end and the fault. What is passed over is a
/// whole message of the session, whose header has no fault but its type.
pub fn passed_over_records_are_taken_out()
    ensures taken_out { PassedOverAreTakenOut }
    ensures whole { PassedOverAreWhole }
    ensures one_fault { HasOneFault }
{}

/// Where the capture is refused for them, and records are written of which the nth is the first
/// that is one: it is refused for that one, at its first octet, after the records before.
pub fn the_first_route_refresh_is_refused()
    ensures { FirstRefreshIsRefused }
{}
