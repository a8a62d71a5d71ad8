//! The UPDATE that the local system of a session refused.

ghost use Rattle.std.specs.Prelude.{◌≡◌, ◌↔◌, ◌≤◌, IfNone, IfSome, IsTrue, length, map};
ghost use Rattle.std.specs.List.{AllByRecursion};
ghost use Rattle.mrt.specs.Reader.{shown_of};
ghost use Rattle.bgp_check_text.specs.Refused.{HearsMessage, HearsNothing, IsFirstError};
ghost use Rattle.bgp_check_text.specs.Refused.{IsLastHeard, IsUpToRefusal, IsUpdateError};
ghost use Rattle.bgp_check_text.specs.Refused.{SendsNoUpdateError, SendsUpdateError};

use bgp_open::read_notification;
use bgp_wire::ErrorCode;
use mrt::Record;

/// Checks whether the octets are a NOTIFICATION with UPDATE Message Error.
fn is_update_error(octets: &[u8]) -> bool
    ensures { IsTrue result ↔ IsUpdateError octets.now }
{
    let Some(notification) = read_notification(octets) else {
        return false;
    };
    notification.code == ErrorCode::UpdateMessage.code()
}

/// Checks whether a record shows that such a NOTIFICATION was sent.
fn sends_update_error(shown: &Record<'_>) -> bool
    ensures { IsTrue result ↔ SendsUpdateError (shown_of shown.now) }
{
    match *shown {
        Record::Out(_, octets) => is_update_error(octets),
        Record::In(_, _) => false,
        Record::Change(_, _, _) => false,
    }
}

/// Checks whether a record shows that a message was received.
fn hears_message(shown: &Record<'_>) -> bool
    ensures { IsTrue result ↔ HearsMessage (shown_of shown.now) }
{
    match *shown {
        Record::In(_, _) => true,
        Record::Out(_, _) => false,
        Record::Change(_, _, _) => false,
    }
}

/// Returns how many records stand before the first such NOTIFICATION that was sent, if one was.
fn first_error(records: &[Record<'_>]) -> Option<usize>
    ensures some { IfSome result (IsFirstError (map shown_of records.now)) }
    ensures within { IfSome result (λ count. count ≤ length records.now) }
    ensures none { IfNone result
        (AllByRecursion SendsNoUpdateError (map shown_of records.now)) }
{
    for (count, shown) in records.iter().enumerate() {
        if sends_update_error(shown) {
            return Some(count);
        }
    }
    None
}

/// Returns how many records stand before the message that was received last, if one was received.
fn last_heard(records: &[Record<'_>]) -> Option<usize>
    ensures some { IfSome result (IsLastHeard (map shown_of records.now)) }
    ensures none { IfNone result (AllByRecursion HearsNothing (map shown_of records.now)) }
{
    let mut left = records.len();
    while 0 < left {
        left -= 1;
        if hears_message(&records[left]) {
            return Some(left);
        }
    }
    None
}

/// Returns how many records stand before the UPDATE that the local system refused, and how many
/// there are if it refused none.
pub(crate) fn up_to_refusal(records: &[Record<'_>]) -> usize
    ensures within { result ≤ length records.now }
    ensures refused { IsUpToRefusal (map shown_of records.now) result }
{
    let Some(count) = first_error(records) else {
        return records.len();
    };
    match last_heard(&records[..count]) {
        Some(before) => before,
        None => records.len(),
    }
}
