//! Whether a capture can hold records, and as of which session each is told.

ghost use Rattle.std.specs.Prelude.{◌≡◌, ◌↔◌, None, IsTrue, map};
ghost use Rattle.std.specs.List.{AllByRecursion};
ghost use Rattle.mrt.specs.Reader.{shown_of};
ghost use Rattle.mrt.specs.Written.{IsAllowed, IsMessageAllowed};
ghost use Rattle.bgp_judge.specs.Verdict.{verdict_value};
ghost use Rattle.bgp_check_text.specs.Shown.{CanBeTold, IsNotHeld, is_extended, session_at};
ghost use Rattle.bgp_check_text.specs.Shown.{session_for};

use bgp_judge::Verdict;
use bgp_prefix::{RouteRefresh, Session};
use bgp_wire::{HEADER_LEN, Limit};
use mrt::{Record, has_other_length, is_route_refresh, is_state, is_whole_refresh};
use std::alloc::Allocator;

/// Whether a message is a ROUTE-REFRESH that no capture of the session holds.
fn is_refresh(session: &Session, octets: &[u8]) -> bool
    ensures { IsTrue result ↔ IsNotHeld session.now.refresh octets.now }
{
    match session.refresh {
        RouteRefresh::NotOffered => false,
        RouteRefresh::Refused => is_route_refresh(octets),
        RouteRefresh::PassedOver => is_whole_refresh(octets),
    }
}

/// Whether a capture of the session can hold a message.
fn is_message_allowed(session: &Session, octets: &[u8]) -> bool
    ensures { IsTrue result ↔ IsMessageAllowed session.now octets.now }
{
    if octets.len() < HEADER_LEN || is_refresh(session, octets) {
        return false;
    }
    !has_other_length(octets, Limit::with_extended(session.extended))
}

/// Whether it can hold a record.
pub(crate) fn is_allowed(session: &Session, shown: &Record<'_>) -> bool
    ensures { IsTrue result ↔ IsAllowed session.now None (shown_of shown.now) }
{
    match *shown {
        Record::In(_, octets) => is_message_allowed(session, octets),
        Record::Out(_, octets) => is_message_allowed(session, octets),
        Record::Change(_, old, new) => is_state(old) && is_state(new),
    }
}

fn is_extended(limit: Limit) -> bool
    ensures { result ≡ is_extended limit }
{
    matches!(limit, Limit::Extended)
}

/// The session as of which a record is told: a message that was sent goes by this limit.
pub(crate) fn session_for(session: &Session, sent: Limit, shown: &Record<'_>) -> Session
    ensures { result ≡ session_for session.now sent (shown_of shown.now) }
{
    match *shown {
        Record::Out(..) => Session {
            extended: is_extended(sent),
            ..*session
        },
        Record::In(..) | Record::Change(..) => *session,
    }
}

/// The session as of which the record is told at which a no stands.
pub(crate) fn session_at<A: Allocator>(
    session: &Session,
    sent: Limit,
    records: &[Record<'_>],
    verdict: &Verdict<A>,
) -> Session
    ensures { result ≡ session_at session.now sent (map shown_of records.now)
        (verdict_value verdict.now) }
{
    match verdict {
        Verdict::No(count) => match records.get(*count as usize) {
            Some(shown) => session_for(session, sent, shown),
            None => *session,
        },
        Verdict::Yes(_) | Verdict::Unfinished => *session,
    }
}

/// Whether a capture of the session as of which it is told can hold each of these records.
pub(crate) fn can_be_told(session: &Session, sent: Limit, records: &[Record<'_>]) -> bool
    ensures { IsTrue result
        ↔ AllByRecursion (CanBeTold session.now sent) (map shown_of records.now) }
{
    for shown in records {
        if !is_allowed(&session_for(session, sent, shown), shown) {
            return false;
        }
    }
    true
}
