//! The times of what a session's records tell, and the NOTIFICATION that was sent already.

ghost use Rattle.std.specs.Prelude.{◌≡◌, ◌+◌, ◌++◌, ◌∷◌, [], List, IfSome, IfNone, length, map};
ghost use Rattle.bgp_prefix.specs.Shown.{ShownRecord, second_of};
ghost use Rattle.bgp_open.specs.declared.config.Config.{Config as TheConfig};
ghost use Rattle.bgp_machine.specs.Want.{limit_on};
ghost use Rattle.mrt.specs.Reader.{shown_of};
ghost use Rattle.bgp_reason.specs.Sending.{sending_link};
ghost use Rattle.bgp_reason.specs.Told.{told as told_by};
ghost use Rattle.bgp_tool.specs.Seen.{leaves_idle};
ghost use Rattle.bgp_explain.specs.declared.moments.SentNotification.{SentNotification as TheSent};
ghost use Rattle.bgp_explain.specs.Fractions.{IsNameAfter, number_in};
ghost use Rattle.bgp_explain.specs.Moments.{AreMomentsOf, IsSentAs, first_second, first_with};
ghost use Rattle.bgp_explain.specs.Moments.{named_with, notification_with};

use bgp_open::{Link, read_notification};
use bgp_prefix::Seconds;
use bgp_reason::{Told, records_tell_one_by_one};
use bgp_wire::{Limit, is_frame};
use mrt::Record;

/// Idle's number in a record (RFC 6396, 4.4.1).
const IDLE: u16 = 1;

/// A whole NOTIFICATION (RFC 4271, 4.5) that was sent.
#[derive(Clone, Copy, Debug, PartialEq, Eq)]
pub struct SentNotification {
    /// The number of its record, from 1.
    pub number: u64,
    /// The second of its record.
    pub second: Seconds,
    /// Its Error code.
    pub code: u8,
    /// Its Error subcode.
    pub subcode: u8,
}

/// When the records were that a reason names, and the NOTIFICATION that was sent already.
#[derive(Clone, Copy, Debug, PartialEq, Eq)]
pub struct Moments {
    /// The second of the first record.
    pub first: Option<Seconds>,
    /// The second of the record that told the state.
    pub told_by: Option<Seconds>,
    /// The second of the record of the message received last.
    pub last_received: Option<Seconds>,
    /// The second of the last record.
    pub last: Option<Seconds>,
    /// The last whole NOTIFICATION that was sent since a change left Idle.
    pub notification: Option<SentNotification>,
}

/// Returns the second of a record.
pub(crate) fn second_in(shown: &Record<'_>) -> Seconds
    ensures { result ≡ second_of (shown_of shown.now) }
{
    match *shown {
        Record::In(second, _) => second,
        Record::Out(second, _) => second,
        Record::Change(second, _, _) => second,
    }
}

/// Returns the second of the first of these records, 0 if there is none: in the style that begins
/// with it a time of the same day has no date.
pub fn first_second(records: &[Record<'_>]) -> Seconds
    ensures { result ≡ first_second (map shown_of records.now) }
{
    match records {
        [] => 0,
        [first, ..] => second_in(first),
    }
}

/// Returns the second of the first record, after one record more.
fn first_after(before: Option<Seconds>, second: Seconds) -> Option<Seconds>
    ensures { result ≡ first_with before second }
{
    match before {
        None => Some(second),
        Some(first) => Some(first),
    }
}

/// Returns the second of the record that is named now, after one record more, with this number and
/// this second.
fn named_after(
    named: Option<u64>,
    before: Option<Seconds>,
    number: u64,
    second: Seconds,
) -> Option<Seconds>
    ensures { result ≡ named_with named before number second }
{
    match named {
        None => None,
        Some(name) => { if name == number { Some(second) } else { before } }
    }
}

/// Returns how long a message may be that is sent on a link, or before there is one.
fn sent_limit(link: Option<Link>) -> Limit
    ensures { result ≡ limit_on link }
{
    match link {
        None => Limit::Plain,
        Some(link) => Limit::with_extended(link.extended),
    }
}

/// Returns the NOTIFICATION that a record shows, with this number, if it was sent and is whole.
pub(crate) fn sent_in(
    link: Option<Link>,
    number: u64,
    shown: &Record<'_>,
) -> Option<SentNotification>
    ensures some { IfSome result (λ sent. (sent.number ≡ number)
        × IsSentAs link (shown_of shown.now) sent) }
    ensures none { IfNone result ((sent : TheSent) → ¬ IsSentAs link (shown_of shown.now) sent) }
{
    let Record::Out(second, octets) = *shown else {
        return None;
    };
    if !is_frame(sent_limit(link), octets) {
        return None;
    }
    let Some(notification) = read_notification(octets) else {
        return None;
    };
    Some(SentNotification {
        number,
        second,
        code: notification.code,
        subcode: notification.subcode,
    })
}

/// Checks whether a record is a change that leaves Idle.
fn leaves(shown: &Record<'_>) -> bool
    ensures { result ≡ leaves_idle (shown_of shown.now) }
{
    match *shown {
        Record::In(_, _) => false,
        Record::Out(_, _) => false,
        Record::Change(_, old, new) => old == IDLE && new != IDLE,
    }
}

/// Returns the NOTIFICATION that was sent last, after one record more, which shows this one or
/// leaves Idle.
fn notification_after(
    before: Option<SentNotification>,
    sent: Option<SentNotification>,
    left_idle: bool,
) -> Option<SentNotification>
    ensures { result ≡ notification_with before sent left_idle }
{
    match sent {
        Some(sent) => Some(sent),
        None => { if left_idle { None } else { before } }
    }
}

impl Moments {
    /// Returns those of no records.
    pub(crate) fn nothing() -> Moments
        ensures are { (config : TheConfig) → AreMomentsOf config [] result }
        ensures none { result.notification ≡ None }
    {
        Moments {
            first: None,
            told_by: None,
            last_received: None,
            last: None,
            notification: None,
        }
    }

    /// Returns those with one record more, the one with this number, after which the records tell
    /// this. A message in it is sent on the link.
    pub(crate) fn with(
        self,
        number: u64,
        link: Option<Link>,
        told: Told,
        shown: &Record<'_>,
    ) -> Moments
        ensures are { (config : TheConfig) (records : List ShownRecord)
            → number ≡ length records + 1
            → link ≡ sending_link config records
            → told ≡ told_by (records ++ shown_of shown.now ∷ [])
            → AreMomentsOf config records self
            → AreMomentsOf config (records ++ shown_of shown.now ∷ []) result }
        ensures named { IsNameAfter number (number_in self.notification)
            (number_in result.notification) }
    {
        records_tell_one_by_one();
        let second = second_in(shown);
        let sent = sent_in(link, number, shown);
        let left_idle = leaves(shown);
        Moments {
            first: first_after(self.first, second),
            told_by: named_after(told.told_by, self.told_by, number, second),
            last_received: named_after(told.last_received, self.last_received, number, second),
            last: Some(second),
            notification: notification_after(self.notification, sent, left_idle),
        }
    }
}
