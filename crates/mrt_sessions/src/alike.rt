//! Whether a session has just some records.

ghost use Rattle.std.specs.Prelude.{◌≡◌, ◌↔◌, IsTrue, None, map};
ghost use Rattle.mrt.specs.Reader.{shown_of};
ghost use Rattle.mrt.specs.Rules.{SkippedRefresh};
ghost use Rattle.mrt.specs.Skipped.{judgement_for};
ghost use Rattle.mrt_sessions.specs.Located.{located};
ghost use Rattle.mrt_sessions.specs.ReadsAs.{ReadsAs};
ghost use Rattle.mrt_sessions.specs.Taking.{IsAwaitedBehind, IsFirstOf};

use crate::named::NamedRecord;
use crate::taking::{TakenAs, second_of, taken_as};
use bgp_prefix::{Seconds, Session};
use mrt::{Record, Skip};

/// What is awaited of a session: behind a record of this second, if there is one, these.
#[derive(Clone, Copy)]
struct Awaited<'r, 'a> {
    last: Option<Seconds>,
    records: &'r [Record<'a>],
}

/// Whether two records show the same.
pub fn show_the_same(one: &Record<'_>, other: &Record<'_>) -> bool
    ensures { IsTrue result ↔ (shown_of one.now ≡ shown_of other.now) }
{
    match (*one, *other) {
        (Record::In(second, octets), Record::In(another, others)) => {
            second == another && octets == others
        }
        (Record::Out(second, octets), Record::Out(another, others)) => {
            second == another && octets == others
        }
        (Record::Change(second, old, new), Record::Change(another, before, after)) => {
            second == another && old == before && new == after
        }
        _ => false,
    }
}

/// What is awaited behind a record that shows this, where it is the first of these.
fn behind_first<'r, 'a>(shown: &Record<'_>, records: &'r [Record<'a>]) -> Option<Awaited<'r, 'a>>
    ensures { IsFirstOf (shown_of shown.now) (map shown_of records.entry.now) result }
{
    let (first, later) = records.split_first()?;
    if !show_the_same(shown, first) {
        return None;
    }
    Some(Awaited {
        last: Some(second_of(shown)),
        records: later,
    })
}

/// Whether a record that is skipped for this is a ROUTE-REFRESH that is passed over.
fn is_passed_over(skip: Skip) -> bool
    ensures { IsTrue result ↔ (judgement_for skip ≡ SkippedRefresh) }
{
    match skip {
        Skip::RefreshReceived | Skip::RefreshSent => true,
        Skip::OtherKind | Skip::OtherSession(_) => false,
    }
}

/// What is awaited behind this record, if it is awaited itself.
fn awaited_behind<'r, 'a>(
    session: &Session,
    awaited: Awaited<'r, 'a>,
    named: &NamedRecord<'_>,
) -> Option<Awaited<'r, 'a>>
    ensures { IsAwaitedBehind session.now awaited.entry (located named.now) result }
{
    match taken_as(session, awaited.last, named) {
        TakenAs::Shown(shown) => behind_first(&shown, awaited.records),
        TakenAs::Skipped(skip) => is_passed_over(skip).then_some(awaited),
        TakenAs::Refused(_) => None,
    }
}

/// Whether a reader of captures reads of this session just these records, where a file has these of
/// its addresses: none is refused, and a whole ROUTE-REFRESH (RFC 2918) is passed over where the
/// session says so. Bodies may be as long as any that is read.
pub fn reads_as(session: &Session, named: &[NamedRecord<'_>], records: &[Record<'_>]) -> bool
    ensures { IsTrue result ↔ ReadsAs session.now None (map located named.now)
        (map shown_of records.now) }
{
    let mut awaited = Awaited {
        last: None,
        records,
    };
    for next in named {
        let Some(behind) = awaited_behind(session, awaited, next) else {
            return false;
        };
        awaited = behind;
    }
    awaited.records.is_empty()
}
