//! The NOTIFICATION that ended a connection.

ghost use Rattle.std.specs.Prelude.{◌++◌, ◌∷◌, [], List, IfSome, IfNone, option_map};
ghost use Rattle.bgp_ended.specs.Notified.{HasFirst, IsNotice, IsOfFirst, Notifies, Said};
ghost use Rattle.bgp_ended.specs.Notified.{said_as, said_by, said_in};
ghost use Rattle.bgp_ended.specs.Values.{ended_value};

use crate::ended::{Ended, How};
use bgp_open::read_notification;
use bgp_recording::Message;
use streams::Side;

/// What a message tells of the end, if it is a NOTIFICATION.
fn notified<'a>(by: Side, message: &Message<'a>) -> Option<Ended<'a>>
    ensures some { IfSome result (λ ended.
        Notifies (said_as by message.now) (ended_value ended)) }
    ensures none { IfNone result (¬ IsNotice (said_as by message.now)) }
{
    match read_notification(message.octets) {
        Some(notification) => Some(Ended {
            moment: message.moment(),
            by,
            how: How::Notified(notification),
        }),
        None => None,
    }
}

/// That of both whose packet is the earlier one, and of two by one packet the first.
fn earlier<'a>(first: Option<Ended<'a>>, next: Ended<'a>) -> Ended<'a>
    ensures { (before : List Said) (said : Said)
        → HasFirst before (option_map ended_value first.entry)
        → Notifies said (ended_value next.entry)
        → IsOfFirst (before ++ said ∷ []) (ended_value result) }
{
    let Some(first) = first else {
        return next;
    };
    if next.moment.packet < first.moment.packet {
        next
    } else {
        first
    }
}

/// The first of the messages so far and this one.
fn first_with<'a>(first: Option<Ended<'a>>, by: Side, message: &Message<'a>) -> Option<Ended<'a>>
    ensures { (before : List Said) → HasFirst before (option_map ended_value first.entry)
        → HasFirst (before ++ said_as by message.now ∷ []) (option_map ended_value result) }
{
    match notified(by, message) {
        Some(next) => Some(earlier(first, next)),
        None => first,
    }
}

/// The first of the messages so far and these.
fn first_among<'a>(
    so_far: Option<Ended<'a>>,
    by: Side,
    messages: &[Message<'a>],
) -> Option<Ended<'a>>
    ensures { (before : List Said) → HasFirst before (option_map ended_value so_far.entry)
        → HasFirst (before ++ said_by by messages.now) (option_map ended_value result) }
{
    let mut first = so_far;
    for message in messages {
        first = first_with(first, by, message);
    }
    first
}

/// The first NOTIFICATION of both directions, in packet order.
pub(crate) fn first_notified<'a>(
    received: &[Message<'a>],
    sent: &[Message<'a>],
) -> Option<Ended<'a>>
    ensures { HasFirst (said_in received.now sent.now) (option_map ended_value result) }
{
    let first = first_among(None, Side::Local, sent);
    first_among(first, Side::Peer, received)
}
