//! Whether a received message waits: what the local system seems to have read when it sent what it
//! sent. It is a choice among the orders that are allowed, and what a yes is worth doesn't rest on
//! it.

ghost use Rattle.std.specs.Prelude.{◌≡◌, ◌||◌, option_map};
ghost use Rattle.streams.specs.Connections.{last_index};
ghost use Rattle.bgp_recording.specs.Values.{message_value, values_of};
ghost use Rattle.bgp_recording.specs.Waiting.{is_open_or_cease, notification_from};
ghost use Rattle.bgp_recording.specs.Waiting.{is_blamed, blames};
ghost use Rattle.bgp_recording.specs.Waiting.{cause_of, hold_in, first_hold, lesser, foresight_of};
ghost use Rattle.bgp_recording.specs.Waiting.{is_at, isnt_after, isnt_after_first};
ghost use Rattle.bgp_recording.specs.Waiting.{is_cause_answered, answers, is_answered};
ghost use Rattle.bgp_recording.specs.Waiting.{would_be_answered, came_unseen, reason_of, waits_for};
ghost use Rattle.bgp_recording.specs.Waiting.{is_keepalive, is_update};

use crate::message::Message;
use crate::pending::Place;
use crate::standing::Standing;
use crate::state::State;
use bgp_prefix::Seconds;
use bgp_wire::{ErrorCode, MessageType};

/// Where the Hold Time stands in an OPEN (RFC 4271, 4.2).
const HOLD_TIME: usize = 22;

/// Why a received message waits or doesn't: the first of these that holds, in their order.
#[derive(Clone, Copy)]
pub(crate) enum Waiting {
    /// One before it is being answered: it waits.
    AnAnswerIsUnderWay,
    /// The own OPEN isn't sent yet: it waits where one is still to be sent, or a Cease.
    BeforeTheOwnOpen,
    /// Its answer is the next message that is sent: it doesn't wait.
    ItsAnswerIsNext,
    /// It is a NOTIFICATION: it waits where anything is still to be sent.
    ItEndsTheSession,
    /// The session would have answered it, and no answer is next: it waits.
    ItWouldBeAnswered,
    /// It seems to be the cause of the first NOTIFICATION sent: it waits for that.
    ItIsTheCause,
    /// The HoldTimer seems to have expired for want of it: it waits.
    ItCameUnseen,
    /// Nothing shows that it wasn't read at once: it doesn't wait.
    Nothing,
}

/// The first NOTIFICATION that the local system sent.
#[derive(Clone, Copy)]
struct FirstNotification {
    /// How many messages were sent before it.
    place: usize,
    code: u8,
    packet: u64,
    second: Seconds,
}

/// What all messages of a session show of when those received were read.
#[derive(Clone, Copy)]
pub(crate) struct Foresight {
    /// How many messages were sent before the last OPEN or Cease.
    last_open_or_cease: Option<usize>,
    notification: Option<FirstNotification>,
    /// How many messages were received before the cause of that NOTIFICATION.
    cause: Option<usize>,
    /// The lesser Hold Time of both first messages, if both are OPENs.
    hold: Option<u16>,
}

/// The Hold Time in an OPEN (RFC 4271, 4.2).
fn hold_time(message: &Message<'_>) -> Option<u16>
    ensures { result ≡ hold_in message.now.kind message.now.octets.now }
{
    match message.kind {
        Some(MessageType::Open) => {
            let high = *message.octets.get(HOLD_TIME)?;
            let low = *message.octets.get(HOLD_TIME + 1)?;
            Some(u16::from_be_bytes([high, low]))
        }
        _ => None,
    }
}

/// The Hold Time in the first message, if that is an OPEN.
fn first_hold_time(messages: &[Message<'_>]) -> Option<u16>
    ensures { result ≡ first_hold (values_of messages.now) }
{
    hold_time(messages.first()?)
}

/// The lesser Hold Time of both, if there are two.
fn lesser(one: Option<u16>, other: Option<u16>) -> Option<u16>
    ensures { result ≡ lesser one other }
{
    match (one, other) {
        (Some(one), Some(other)) => Some(one.min(other)),
        _ => None,
    }
}

/// The first NOTIFICATION among the messages that were sent.
fn first_notification(sent: &[Message<'_>]) -> Option<FirstNotification>
    ensures { result ≡ notification_from 0 (values_of sent.now) }
{
    for (place, message) in sent.iter().enumerate() {
        if let Some(code) = message.error_code() {
            return Some(FirstNotification {
                place,
                code,
                packet: message.packet,
                second: message.second,
            });
        }
    }
    None
}

impl FirstNotification {
    /// Whether it can be about a message of this type (RFC 4271, 6.2, 6.3 and 6.6).
    fn blames(&self, kind: Option<MessageType>) -> bool
        ensures { result ≡ blames self.now.code kind }
    {
        if self.code == ErrorCode::UpdateMessage.code() {
            matches!(kind, Some(MessageType::Update))
        } else if self.code == ErrorCode::OpenMessage.code()
            || self.code == ErrorCode::FiniteStateMachine.code()
        {
            matches!(kind, Some(MessageType::Open))
        } else {
            false
        }
    }

    /// Whether it can be about a received message, which came before it was made.
    fn is_about(&self, message: &Message<'_>) -> bool
        ensures { result ≡ is_blamed self.now (message_value message.now) }
    {
        message.packet < self.packet && self.blames(message.kind)
    }

    /// How many messages were received before its cause: the last one that it can be about.
    fn cause(&self, received: &[Message<'_>]) -> Option<usize>
        ensures { result ≡ last_index (is_blamed self.now) (values_of received.now) }
    {
        let mut left = received.len();
        while left > 0 {
            left -= 1;
            if self.is_about(&received[left]) {
                return Some(left);
            }
        }
        None
    }
}

/// Whether it is an OPEN, or a NOTIFICATION by which the local system ends a connection that it
/// doesn't want (RFC 4271, 6.7).
fn is_open_or_cease(message: &Message<'_>) -> bool
    ensures { result ≡ is_open_or_cease (message_value message.now) }
{
    matches!(message.kind, Some(MessageType::Open)) || message.has_code(ErrorCode::Cease)
}

/// How many messages were sent before the last OPEN or Cease.
fn last_open_or_cease(sent: &[Message<'_>]) -> Option<usize>
    ensures { result ≡ last_index is_open_or_cease (values_of sent.now) }
{
    let mut left = sent.len();
    while left > 0 {
        left -= 1;
        if is_open_or_cease(&sent[left]) {
            return Some(left);
        }
    }
    None
}

/// How many messages were received before the cause of the first NOTIFICATION, if there are both.
fn cause_of(received: &[Message<'_>], notification: Option<FirstNotification>) -> Option<usize>
    ensures { result ≡ cause_of (values_of received.now) notification }
{
    match notification {
        Some(first) => first.cause(received),
        None => None,
    }
}

impl Foresight {
    /// What all messages of a session show.
    pub(crate) fn new(received: &[Message<'_>], sent: &[Message<'_>]) -> Foresight
        ensures { result ≡ foresight_of (values_of received.now) (values_of sent.now) }
    {
        let notification = first_notification(sent);
        Foresight {
            last_open_or_cease: last_open_or_cease(sent),
            notification,
            cause: cause_of(received, notification),
            hold: lesser(first_hold_time(received), first_hold_time(sent)),
        }
    }

    /// Whether an OPEN or a Cease is still to be sent.
    fn has_open_or_cease(&self, place: Place) -> bool
        ensures { result ≡ isnt_after place.sent self.now.last_open_or_cease }
    {
        match self.last_open_or_cease {
            Some(last) => place.sent <= last,
            None => false,
        }
    }

    /// Whether the first NOTIFICATION is still to be sent.
    fn has_notification(&self, place: Place) -> bool
        ensures { result ≡ isnt_after_first place.sent self.now.notification }
    {
        match self.notification {
            Some(first) => place.sent <= first.place,
            None => false,
        }
    }

    /// Whether the message at this place seems to be the cause of the first NOTIFICATION.
    fn is_cause(&self, place: Place) -> bool
        ensures { result ≡ is_at place.received self.now.cause }
    {
        match self.cause {
            Some(cause) => cause == place.received,
            None => false,
        }
    }

    /// Whether the next message that is sent is the NOTIFICATION for this cause.
    fn is_cause_answered(&self, place: Place) -> bool
        ensures { result ≡ is_cause_answered self.now place }
    {
        self.is_cause(place)
            && match self.notification {
                Some(first) => first.place == place.sent,
                None => false,
            }
    }

    /// Whether the HoldTimer seems to have expired though the message had come.
    fn came_unseen(&self, message: &Message<'_>) -> bool
        ensures { result ≡ came_unseen self.now (message_value message.now) }
    {
        let (Some(first), Some(hold)) = (self.notification, self.hold) else {
            return false;
        };
        keeps_alive(message.kind)
            && first.code == ErrorCode::HoldTimerExpired.code()
            && u64::from(first.second) < u64::from(message.second) + u64::from(hold)
    }

    /// Whether the next message that is sent is an answer to the next one received, which is of
    /// this type.
    pub(crate) fn is_answered(
        &self,
        state: State,
        place: Place,
        kind: Option<MessageType>,
        next: Option<&Message<'_>>,
    ) -> bool
        ensures { result ≡ is_answered self.now place state kind
            (option_map (λ m. message_value m.now) next.entry) }
    {
        let Some(next) = next else {
            return false;
        };
        answers(state, kind, next) || (state.has_link() && self.is_cause_answered(place))
    }

    /// Why the next message received waits, or doesn't.
    pub(crate) fn reason(
        &self,
        standing: Standing,
        place: Place,
        message: &Message<'_>,
        next: Option<&Message<'_>>,
    ) -> Waiting
        ensures { result ≡ reason_of self.now place standing.state standing.is_answering
            (message_value message.now) (option_map (λ m. message_value m.now) next.entry) }
    {
        let state = standing.state;
        if standing.is_answering {
            Waiting::AnAnswerIsUnderWay
        } else if state.is_before_open() {
            Waiting::BeforeTheOwnOpen
        } else if self.is_answered(state, place, message.kind, next) {
            Waiting::ItsAnswerIsNext
        } else if matches!(message.kind, Some(MessageType::Notification)) {
            Waiting::ItEndsTheSession
        } else if would_be_answered(state, message.kind) {
            Waiting::ItWouldBeAnswered
        } else if state.has_link() && self.is_cause(place) {
            Waiting::ItIsTheCause
        } else if state.is_established() && self.came_unseen(message) {
            Waiting::ItCameUnseen
        } else {
            Waiting::Nothing
        }
    }

    /// Whether the next message received waits for this reason, where this is the next one sent.
    pub(crate) fn waits(&self, why: Waiting, place: Place, next: Option<&Message<'_>>) -> bool
        ensures { result ≡ waits_for why self.now place
            (option_map (λ m. message_value m.now) next.entry) }
    {
        match why {
            Waiting::AnAnswerIsUnderWay | Waiting::ItWouldBeAnswered | Waiting::ItCameUnseen => {
                true
            }
            Waiting::BeforeTheOwnOpen => self.has_open_or_cease(place),
            Waiting::ItEndsTheSession => next.is_some(),
            Waiting::ItIsTheCause => self.has_notification(place),
            Waiting::ItsAnswerIsNext | Waiting::Nothing => false,
        }
    }
}

/// Whether the next message that is sent answers one of this type, by their types alone.
fn answers(state: State, kind: Option<MessageType>, next: &Message<'_>) -> bool
    ensures { result ≡ answers state kind (message_value next.now) }
{
    match (state, kind) {
        (State::Connect | State::Active, _) => next.answers_before_open(kind),
        (State::OpenSent, Some(MessageType::Open)) => {
            matches!(next.kind, Some(MessageType::Keepalive))
                || next.has_code(ErrorCode::OpenMessage)
        }
        (State::OpenSent, Some(_)) => next.has_code(ErrorCode::FiniteStateMachine),
        (State::OpenSent | State::OpenConfirm, None) => next.has_code(ErrorCode::MessageHeader),
        (State::OpenConfirm, Some(MessageType::Update)) => {
            next.has_code(ErrorCode::FiniteStateMachine)
        }
        (State::Established, None) => {
            next.has_code(ErrorCode::MessageHeader) || next.has_code(ErrorCode::FiniteStateMachine)
        }
        _ => false,
    }
}

/// Whether the session answers a message of this type in this state, whatever it says.
fn would_be_answered(state: State, kind: Option<MessageType>) -> bool
    ensures { result ≡ would_be_answered state kind }
{
    match (state, kind) {
        (State::OpenSent, _) => true,
        (State::OpenConfirm | State::Established, None) => true,
        (State::OpenConfirm, Some(MessageType::Update)) => true,
        _ => false,
    }
}

/// Whether a message of this type restarts the HoldTimer.
fn keeps_alive(kind: Option<MessageType>) -> bool
    ensures { result ≡ is_keepalive kind || is_update kind }
{
    matches!(
        kind,
        Some(MessageType::Keepalive) | Some(MessageType::Update)
    )
}
