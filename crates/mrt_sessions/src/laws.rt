//! Laws of the sessions of a file, each on a function that does nothing.

ghost use Rattle.mrt_sessions.specs.SessionLaws.{ReadsAreSpelled, SessionsAreCaptures};
ghost use Rattle.mrt_sessions.specs.Sessions.{SameAreEqual};

/// What [`read_session`](crate::read_session) reads of a session, all of whose messages may be
/// extended ones, is what a reader of captures reads of it: the same records, and then the end or
/// the same fault at the same offset.
pub fn sessions_are_captures()
    ensures { SessionsAreCaptures }
{}

/// Where a file is read to its end, and [`reads_as`](crate::reads_as) says that a session has just
/// some records, these are what a reader of captures reads of the session in the file. The session
/// has to offer extended messages where the file isn't plain.
pub fn reads_are_spelled()
    ensures { ReadsAreSpelled }
{}

/// Two pairs of addresses that are told as one are equal.
pub fn the_same_addresses_are_equal()
    ensures { SameAreEqual }
{}
