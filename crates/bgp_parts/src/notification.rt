//! What a NOTIFICATION that was sent lacks of those that are possible (RFC 4271, 4.5 and 6).

ghost use Rattle.std.specs.Prelude.{◌↔◌, IsTrue, IfSome, IfNone};
ghost use Rattle.bgp_reason.specs.Possible.{HasFsmError};
ghost use Rattle.bgp_parts.specs.NotificationParts.{AreNotificationParts, HasNoPart, IsEarly};
ghost use Rattle.bgp_parts.specs.NotificationParts.{IsPart, IsSecondPart, ResembleNone};
ghost use Rattle.bgp_parts.specs.NotificationWords.{HasHeaderSubcode, HasOpenSubcode};
ghost use Rattle.bgp_parts.specs.NotificationWords.{HasSomeFsmError, IsOfCode, IsOfData};
ghost use Rattle.bgp_parts.specs.NotificationWords.{IsOfSubcode};

use bgp_open::{Notification, OpenSubcodes, read_notification};
use bgp_prefix::Seconds;
use bgp_reason::{FsmErrors, Possible};
use bgp_wire::{ErrorCode, HeaderFaults};

/// What of a NOTIFICATION is at fault, where others of its code are possible.
#[derive(Clone, Copy, Debug, PartialEq, Eq)]
pub enum NotificationPart<'a> {
    /// No NOTIFICATION with this subcode is possible.
    Subcode(u8),
    /// One with its subcode is, but not with these data: Bad Message Length, Bad Message Type and
    /// Unsupported Version Number have fixed ones (RFC 4271, 6.1 and 6.2).
    Data(&'a [u8]),
}

/// What a NOTIFICATION lacks of those that are possible.
#[derive(Clone, Copy, Debug, PartialEq, Eq)]
pub struct NotificationParts<'a> {
    /// Its subcode, or its data.
    pub part: Option<NotificationPart<'a>>,
    /// The second at which it was sent, where it is Hold Timer Expired, which is possible only
    /// later.
    pub early: Option<Seconds>,
}

impl NotificationParts<'_> {
    /// Whether there is no part.
    pub fn is_empty(&self) -> bool
        ensures { IsTrue result ↔ HasNoPart self.now }
    {
        self.part.is_none() && self.early.is_none()
    }
}

/// Whether a Finite State Machine Error is in the set.
fn has_some_fsm_error(errors: FsmErrors) -> bool
    ensures { IsTrue result ↔ HasSomeFsmError errors }
{
    errors.unspecified || errors.open_sent || errors.open_confirm || errors.established
}

/// Whether the Finite State Machine Error with this subcode is in the set.
fn has_fsm_error(errors: FsmErrors, subcode: u8) -> bool
    ensures { IsTrue result ↔ HasFsmError errors subcode }
{
    match subcode {
        0 => errors.unspecified,
        1 => errors.open_sent,
        2 => errors.open_confirm,
        3 => errors.established,
        _ => false,
    }
}

/// Whether this subcode of Message Header Error is in the set, with some data.
fn has_header_subcode(errors: &HeaderFaults, subcode: u8) -> bool
    ensures { IsTrue result ↔ HasHeaderSubcode errors.now subcode }
{
    match subcode {
        1 => errors.marker,
        2 => errors.length.is_some(),
        3 => errors.kind.is_some(),
        _ => false,
    }
}

/// Whether this subcode of OPEN Message Error is in the set, with some data.
fn has_open_subcode(errors: &OpenSubcodes, subcode: u8) -> bool
    ensures { IsTrue result ↔ HasOpenSubcode errors.now subcode }
{
    match subcode {
        0 => errors.unspecific,
        1 => errors.version,
        2 => errors.peer_as,
        3 => errors.identifier,
        4 => errors.parameter,
        6 => errors.hold,
        7 => errors.capability,
        11 => errors.role,
        _ => false,
    }
}

/// Whether a NOTIFICATION of this code is possible.
fn is_of_code(possible: &Possible, code: u8) -> bool
    ensures { IsTrue result ↔ IsOfCode possible.now code }
{
    match ErrorCode::from_code(code) {
        Some(ErrorCode::MessageHeader) => !possible.header_errors.is_empty(),
        Some(ErrorCode::OpenMessage) => !possible.open_errors.is_empty(),
        Some(ErrorCode::UpdateMessage) => !possible.update_errors.is_empty(),
        Some(ErrorCode::HoldTimerExpired) => possible.hold_timer_expired.is_some(),
        Some(ErrorCode::FiniteStateMachine) => has_some_fsm_error(possible.fsm_errors),
        Some(ErrorCode::Cease) => possible.cease,
        Some(ErrorCode::SendHoldTimerExpired) => possible.send_hold_timer_expired,
        Some(ErrorCode::RouteRefreshMessage) | None => false,
    }
}

/// Whether one of this code and this subcode is.
fn is_of_subcode(possible: &Possible, code: u8, subcode: u8) -> bool
    ensures { IsTrue result ↔ IsOfSubcode possible.now code subcode }
{
    match ErrorCode::from_code(code) {
        Some(ErrorCode::MessageHeader) => has_header_subcode(&possible.header_errors, subcode),
        Some(ErrorCode::OpenMessage) => has_open_subcode(&possible.open_errors, subcode),
        Some(ErrorCode::UpdateMessage) => possible.update_errors.contains(subcode),
        Some(ErrorCode::HoldTimerExpired) => {
            subcode == 0 && possible.hold_timer_expired.is_some()
        }
        Some(ErrorCode::FiniteStateMachine) => has_fsm_error(possible.fsm_errors, subcode),
        Some(ErrorCode::Cease) => possible.cease,
        Some(ErrorCode::SendHoldTimerExpired) => subcode == 0 && possible.send_hold_timer_expired,
        Some(ErrorCode::RouteRefreshMessage) | None => false,
    }
}

/// Whether one of this code, this subcode and these data is, at some second.
fn is_of_data(possible: &Possible, code: u8, subcode: u8, detail: &[u8]) -> bool
    ensures { IsTrue result ↔ IsOfData possible.now code subcode detail.now }
{
    match ErrorCode::from_code(code) {
        Some(ErrorCode::MessageHeader) => possible.header_errors.contains(subcode, detail),
        Some(ErrorCode::OpenMessage) => possible.open_errors.contains(subcode, detail),
        _ => is_of_subcode(possible, code, subcode),
    }
}

/// The part on the subcode and the data.
fn part_of<'a>(possible: &Possible, notification: &Notification<'a>) -> Option<NotificationPart<'a>>
    ensures { IsPart possible.now notification.now.code notification.now.subcode
        notification.now.detail.now result }
{
    if !is_of_subcode(possible, notification.code, notification.subcode) {
        return Some(NotificationPart::Subcode(notification.subcode));
    }
    let detail = notification.detail;
    if is_of_data(possible, notification.code, notification.subcode, detail) {
        return None;
    }
    Some(NotificationPart::Data(detail))
}

/// Whether a NOTIFICATION of this code is Hold Timer Expired before it is possible.
fn is_early(possible: &Possible, second: Seconds, code: u8) -> bool
    ensures { IsTrue result ↔ IsEarly possible.now second code }
{
    code == ErrorCode::HoldTimerExpired.code()
        && possible
            .hold_timer_expired
            .is_some_and(|from| second < from)
}

/// The part on the second.
fn second_part(possible: &Possible, second: Seconds, code: u8) -> Option<Seconds>
    ensures { IsSecondPart possible.now second code result }
{
    if is_early(possible, second, code) {
        return Some(second);
    }
    None
}

/// What the octets, sent at this second, lack of the NOTIFICATIONs of their code that are possible.
/// `None` where none of their code is, or the octets are no NOTIFICATION.
pub fn notification_parts<'a>(
    possible: &Possible,
    second: Seconds,
    octets: &'a [u8],
) -> Option<NotificationParts<'a>>
    ensures some { IfSome result (λ told.
        AreNotificationParts possible.now second octets.entry.now told) }
    ensures none { IfNone result (ResembleNone possible.now octets.entry.now) }
{
    let Some(notification) = read_notification(octets) else {
        return None;
    };
    if !is_of_code(possible, notification.code) {
        return None;
    }
    Some(NotificationParts {
        part: part_of(possible, &notification),
        early: second_part(possible, second, notification.code),
    })
}
