//! To which state a message or the end leads in the records of a way.

ghost use Rattle.std.specs.Prelude.{◌≡◌, ◌↔◌, Some, IsTrue, option_copied};
ghost use Rattle.bgp_recording.specs.Changes.{answers_before_open, error_code};
ghost use Rattle.bgp_recording.specs.Changes.{led_by_end, led_by_left};
ghost use Rattle.bgp_recording.specs.Changes.{led_by_received, led_by_sent};
ghost use Rattle.bgp_recording.specs.Changes.{just_received, just_sent, opened_state, rejects};

use bgp_recording::{Before, Message, State};
use bgp_wire::{ErrorCode, MessageType};
use streams::Side;

/// Where the Error code of a NOTIFICATION stands (RFC 4271, 4.5), after the header.
const ERROR_CODE: usize = 19;

/// Returns the Error code, if the message is a NOTIFICATION.
fn error_code(message: &Message<'_>) -> Option<u8>
    ensures { result ≡ error_code message.now }
{
    if message.kind == Some(MessageType::Notification) {
        message.octets.get(ERROR_CODE).copied()
    } else {
        None
    }
}

/// Checks whether a message rejects a connection before the own OPEN: Message Header Error or OPEN
/// Message Error (RFC 4271, 6.1 and 6.2).
fn rejects_opening(message: &Message<'_>) -> bool
    ensures { result ≡ rejects (error_code message.now) }
{
    match error_code(message) {
        Some(code) => {
            code == ErrorCode::MessageHeader.code() || code == ErrorCode::OpenMessage.code()
        }
        None => false,
    }
}

/// Checks whether a sent message answers one of this type that is received before the own OPEN: it
/// rejects the connection, or both are OPENs, and the received one is accepted late (RFC 4271,
/// 8.2.2, event 20).
pub(crate) fn answers_before_open(kind: Option<MessageType>, sent: &Message<'_>) -> bool
    ensures { result ≡ answers_before_open kind sent.now.kind (error_code sent.now) }
{
    match (kind, sent.kind) {
        (Some(MessageType::Open), Some(MessageType::Open)) => true,
        _ => rejects_opening(sent),
    }
}

/// Returns what stands just before, after a received message of this type.
pub(crate) fn just_received(kind: Option<MessageType>) -> Before
    ensures { result ≡ just_received kind }
{
    match kind {
        Some(MessageType::Open) => Before::PeersOpen,
        _ => Before::Other,
    }
}

/// Returns what stands just before, after a sent message of this type.
pub(crate) fn just_sent(state: State, kind: Option<MessageType>, before: Before) -> Before
    ensures { result ≡ just_sent state kind before }
{
    match (state, kind, before) {
        (State::Connect | State::Active, Some(MessageType::Open), Before::PeersOpen) => {
            Before::BothOpens
        }
        _ => Before::Other,
    }
}

/// Returns the state to which a received message of this type leads, if it leads to one: before the
/// own OPEN it ends the session, unless the next sent message answers it.
pub(crate) fn led_by_received(
    state: State,
    kind: Option<MessageType>,
    is_answered: bool,
) -> Option<State>
    ensures { result ≡ led_by_received state kind is_answered }
{
    match (state, kind) {
        (State::Idle, _) => None,
        (_, Some(MessageType::Notification)) => Some(State::Idle),
        (State::Connect | State::Active, _) if !is_answered => Some(State::Idle),
        (State::OpenConfirm, Some(MessageType::Keepalive)) => Some(State::Established),
        _ => None,
    }
}

/// Returns the state to which a sent message of this type leads, if it leads to one.
pub(crate) fn led_by_sent(state: State, kind: Option<MessageType>, before: Before) -> Option<State>
    ensures { result ≡ led_by_sent state kind before }
{
    match (state, kind?, before) {
        (State::Idle, _, _) => None,
        (_, MessageType::Notification, _) => Some(State::Idle),
        (State::Connect | State::Active, MessageType::Open, Before::PeersOpen) => None,
        (State::Connect | State::Active, MessageType::Open, _) => Some(State::OpenSent),
        (State::Connect | State::Active, MessageType::Keepalive, Before::BothOpens) => {
            Some(State::OpenConfirm)
        }
        (State::OpenSent, MessageType::Keepalive, Before::PeersOpen) => Some(State::OpenConfirm),
        _ => None,
    }
}

/// Returns the state to which the end leads, if it leads to one: from OpenSent a connection is
/// awaited again (RFC 4271, 8.2.2).
pub(crate) fn led_by_end(state: State) -> Option<State>
    ensures { result ≡ led_by_end state }
{
    match state {
        State::Idle => None,
        State::OpenSent => Some(State::Active),
        _ => Some(State::Idle),
    }
}

/// Returns the state to which it leads that received messages are left after the end in this state:
/// they were never read, so no connection is awaited.
pub(crate) fn led_by_left(state: State, are_left: bool) -> Option<State>
    ensures { result ≡ led_by_left state are_left }
{
    match state {
        State::OpenSent if are_left => Some(State::Idle),
        _ => None,
    }
}

/// Returns the state in which the made order begins: the local system connects, or awaits its peer.
pub(crate) fn opened_state(opened_by: Side) -> State
    ensures { result ≡ opened_state opened_by }
{
    match opened_by {
        Side::Local => State::Connect,
        Side::Peer => State::Active,
    }
}
