//! How a stretch of a session in a capture ended.

ghost use Rattle.std.specs.Prelude.{◌≡◌, IfSome, IfNone, [], map, option_map};
ghost use Rattle.std.specs.List.{AllByRecursion};
ghost use Rattle.mrt.specs.Reader.{shown_of};
ghost use Rattle.bgp_prefix.specs.Shown.{second_of};
ghost use Rattle.bgp_ended.specs.Stretch.{EndsAs, IsEndOf, IsErrorOf, IsNoError, ShowsError};
ghost use Rattle.bgp_ended.specs.Stretch.{ShowsNoError, StaysUp, ended_stretch_value};
ghost use Rattle.bgp_ended.specs.Values.{how_value};

use crate::ended::How;
use bgp_open::read_notification;
use bgp_prefix::Seconds;
use mrt::Record;
use streams::Side;

/// The number of Idle (RFC 6396, 4.4.1).
const IDLE: u16 = 1;

/// The end of a stretch of a session: of its records from one that leaves Idle up to the next one
/// that does.
#[derive(Clone, Copy, Debug, PartialEq, Eq)]
pub struct EndedStretch<'a> {
    /// How many records of the stretch stand before the one that shows it.
    pub before: usize,
    /// That record's second.
    pub second: Seconds,
    /// Who ended it.
    pub by: Side,
    /// How: not by TCP, of which a capture tells nothing.
    pub how: How<'a>,
}

/// The end by a message of this system before which so many records stand, if it is a whole
/// NOTIFICATION.
fn notified_by(before: usize, second: Seconds, by: Side, octets: &[u8]) -> Option<EndedStretch<'_>>
    ensures some { IfSome result (λ ended. (ended.before ≡ before) × (ended.second ≡ second)
        × (ended.by ≡ by) × IsErrorOf (how_value ended.how) octets.entry.now) }
    ensures none { IfNone result (IsNoError octets.entry.now) }
{
    match read_notification(octets) {
        Some(error) => Some(EndedStretch {
            before,
            second,
            by,
            how: How::Notified(error),
        }),
        None => None,
    }
}

/// The end by the record before which so many stand, if it shows a whole NOTIFICATION.
fn notified_at(before: usize, shown: Record<'_>) -> Option<EndedStretch<'_>>
    ensures some { IfSome result (λ ended. (ended.before ≡ before)
        × (ended.second ≡ second_of (shown_of shown.entry))
        × ShowsError (shown_of shown.entry) ended.by (how_value ended.how)) }
    ensures none { IfNone result (ShowsNoError (shown_of shown.entry)) }
{
    match shown {
        Record::In(second, octets) => notified_by(before, second, Side::Peer, octets),
        Record::Out(second, octets) => notified_by(before, second, Side::Local, octets),
        Record::Change(..) => None,
    }
}

/// The end by the last record, before which so many stand, if it is a change to Idle.
fn fallen_at(before: usize, shown: Record<'_>) -> Option<EndedStretch<'_>>
    ensures some { IfSome result (λ ended. (ended.before ≡ before)
        × (ended.second ≡ second_of (shown_of shown.entry))
        × EndsAs (how_value ended.how) ended.by (shown_of shown.entry) []) }
    ensures none { IfNone result (StaysUp (shown_of shown.entry)) }
{
    match shown {
        Record::Change(second, old, IDLE) => Some(EndedStretch {
            before,
            second,
            by: Side::Local,
            how: How::Fallen(old),
        }),
        Record::Change(..) | Record::In(..) | Record::Out(..) => None,
    }
}

/// The end by the last one of records that show no NOTIFICATION, if it is a change to Idle.
fn fallen_in<'a>(records: &[Record<'a>]) -> Option<EndedStretch<'a>>
    requires { AllByRecursion ShowsNoError (map shown_of records.now) }
    ensures { IsEndOf (map shown_of records.now) (option_map ended_stretch_value result) }
{
    let (last, front) = records.split_last()?;
    fallen_at(front.len(), *last)
}

/// Returns how a stretch of a session with these records ended, if they show an end: by the first
/// whole NOTIFICATION, sent or received; without one by the last record, if that is a change to
/// Idle.
pub fn ended_in<'a>(records: &[Record<'a>]) -> Option<EndedStretch<'a>>
    ensures { IsEndOf (map shown_of records.now) (option_map ended_stretch_value result) }
{
    for (before, shown) in records.iter().enumerate() {
        match notified_at(before, *shown) {
            Some(ended) => return Some(ended),
            None => {}
        }
    }
    fallen_in(records)
}
