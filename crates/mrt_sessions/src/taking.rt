//! What a record of a file is to one session.

ghost use Rattle.std.specs.Prelude.{◌≡◌, ◌≤◌, drop, length};
ghost use Rattle.bgp_prefix.specs.Shown.{second_of};
ghost use Rattle.mrt.specs.Found.{shown_as};
ghost use Rattle.mrt.specs.Reader.{shown_of};
ghost use Rattle.mrt_sessions.specs.Taking.{IsTakenAs};

use crate::named::NamedRecord;
use bgp_prefix::{Seconds, Session};
use mrt::{FaultKind, Found, Judged, Record, Shows, Skip, judge};

/// What a record is to a session.
#[derive(Clone, Copy)]
pub(crate) enum TakenAs<'a> {
    /// It is the session's, and shows this.
    Shown(Record<'a>),
    /// It is skipped.
    Skipped(Skip),
    /// It is refused.
    Refused(FaultKind),
}

/// The record that was found, with this body.
fn record_of(found: Found, body: &[u8]) -> Record<'_>
    requires { found.content_at ≤ length body.now }
    ensures { shown_of result
        ≡ shown_as found.second found.shows (drop found.content_at body.entry.now) }
{
    let content = body.split_at(found.content_at).1;
    match found.shows {
        Shows::Received => Record::In(found.second, content),
        Shows::Sent => Record::Out(found.second, content),
        Shows::Changed(old, new) => Record::Change(found.second, old, new),
    }
}

/// What a record is to the session, behind one of the second `last`.
pub(crate) fn taken_as<'a>(
    session: &Session,
    last: Option<Seconds>,
    named: &NamedRecord<'a>,
) -> TakenAs<'a>
    ensures { IsTakenAs session.now last named.now.octets.now result }
{
    let header = named.header();
    let body = named.body();
    match judge(&header, body, session, last) {
        Judged::OfSession(found) => TakenAs::Shown(record_of(found, body)),
        Judged::Skipped(skip) => TakenAs::Skipped(skip),
        Judged::Refused(kind) => TakenAs::Refused(kind),
    }
}

/// The second of a record.
pub(crate) fn second_of(shown: &Record<'_>) -> Seconds
    ensures { result ≡ second_of (shown_of shown.now) }
{
    match *shown {
        Record::In(second, _) | Record::Out(second, _) | Record::Change(second, _, _) => second,
    }
}
