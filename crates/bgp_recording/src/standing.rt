//! Where the session stands while its order is made, as its own messages show.

ghost use Rattle.std.specs.Prelude.{◌≡◌, false};
ghost use Rattle.bgp_recording.specs.Changes.{led_by_received, led_by_sent, led_by_end};
ghost use Rattle.bgp_recording.specs.Changes.{led_by_left, state_then};
ghost use Rattle.bgp_recording.specs.declared.standing.Before.TheVariants.{Other};
ghost use Rattle.bgp_recording.specs.Changes.{just_received, just_sent, awaits_keepalive};

use crate::message::Message;
use crate::state::State;
use bgp_wire::MessageType;

/// What stands just before, as far as it says to which state a sent message leads.
#[derive(Clone, Copy, Debug, PartialEq, Eq)]
pub enum Before {
    /// A received OPEN.
    PeersOpen,
    /// The own OPEN, and right before that a received one: this is accepted late, since the own one
    /// was delayed (RFC 4271, 8.2.2, event 20).
    BothOpens,
    /// Anything else.
    Other,
}

impl Before {
    /// What stands just before, after a received message of this type.
    fn received(kind: Option<MessageType>) -> Before
        ensures { result ≡ just_received kind }
    {
        match kind {
            Some(MessageType::Open) => Before::PeersOpen,
            _ => Before::Other,
        }
    }

    /// Whether an OPEN that is accepted late is still to be answered by a KEEPALIVE.
    fn awaits_keepalive(self) -> bool
        ensures { result ≡ awaits_keepalive self }
    {
        matches!(self, Before::BothOpens)
    }
}

/// Where the session stands.
#[derive(Clone, Copy)]
pub(crate) struct Standing {
    pub(crate) state: State,
    /// The answer to the message that was taken last is the next one that is sent.
    pub(crate) is_answering: bool,
    pub(crate) before: Before,
}

impl Standing {
    /// Where it stands after a received message that leads to a state or to none, and whose answer
    /// is the next one sent or not.
    pub(crate) fn after_received(
        self,
        message: &Message<'_>,
        led: Option<State>,
        is_answered: bool,
    ) -> Standing
        ensures state { result.state ≡ state_then self.state led }
        ensures answering { result.is_answering ≡ is_answered }
        ensures before { result.before ≡ just_received message.now.kind }
    {
        Standing {
            state: led.unwrap_or(self.state),
            is_answering: is_answered,
            before: Before::received(message.kind),
        }
    }

    /// What stands just before, after a sent message of this type.
    fn just_sent(self, kind: Option<MessageType>) -> Before
        ensures { result ≡ just_sent self.state kind self.before }
    {
        match (self.state, kind, self.before) {
            (State::Connect | State::Active, Some(MessageType::Open), Before::PeersOpen) => {
                Before::BothOpens
            }
            _ => Before::Other,
        }
    }

    /// Where it stands after a sent message of this type that leads to a state or to none.
    pub(crate) fn after_sent(self, kind: Option<MessageType>, led: Option<State>) -> Standing
        ensures state { result.state ≡ state_then self.state led }
        ensures answering { result.is_answering
            ≡ awaits_keepalive (just_sent self.state kind self.before) }
        ensures before { result.before ≡ just_sent self.state kind self.before }
    {
        let before = self.just_sent(kind);
        Standing {
            state: led.unwrap_or(self.state),
            is_answering: before.awaits_keepalive(),
            before,
        }
    }

    /// Where it stands after the end, which leads to a state or to none.
    pub(crate) fn after_end(self, led: Option<State>) -> Standing
        ensures state { result.state ≡ state_then self.state led }
        ensures answering { result.is_answering ≡ false }
        ensures before { result.before ≡ Other }
    {
        Standing {
            state: led.unwrap_or(self.state),
            is_answering: false,
            before: Before::Other,
        }
    }

    /// To which state a received message of this type leads, if it leads to another: before the own
    /// OPEN it ends the session, unless the next message that is sent answers it.
    pub(crate) fn led_by_received(
        self,
        kind: Option<MessageType>,
        is_answered: bool,
    ) -> Option<State>
        ensures { result ≡ led_by_received self.state kind is_answered }
    {
        match (self.state, kind) {
            (State::Idle, _) => None,
            (_, Some(MessageType::Notification)) => Some(State::Idle),
            (State::Connect | State::Active, _) if !is_answered => Some(State::Idle),
            (State::OpenConfirm, Some(MessageType::Keepalive)) => Some(State::Established),
            _ => None,
        }
    }

    /// To which state a sent message of this type leads. An OPEN that is accepted late is answered
    /// by the own one and a KEEPALIVE, and both together lead to OpenConfirm.
    pub(crate) fn led_by_sent(self, kind: Option<MessageType>) -> Option<State>
        ensures { result ≡ led_by_sent self.state kind self.before }
    {
        match (self.state, kind?, self.before) {
            (State::Idle, _, _) => None,
            (_, MessageType::Notification, _) => Some(State::Idle),
            (State::Connect | State::Active, MessageType::Open, Before::PeersOpen) => None,
            (State::Connect | State::Active, MessageType::Open, _) => Some(State::OpenSent),
            (State::Connect | State::Active, MessageType::Keepalive, Before::BothOpens) => {
                Some(State::OpenConfirm)
            }
            (State::OpenSent, MessageType::Keepalive, Before::PeersOpen) => {
                Some(State::OpenConfirm)
            }
            _ => None,
        }
    }
}

/// To which state the end leads: from OpenSent a connection is awaited again (RFC 4271, 8.2.2).
pub(crate) fn led_by_end(state: State) -> Option<State>
    ensures { result ≡ led_by_end state }
{
    match state {
        State::Idle => None,
        State::OpenSent => Some(State::Active),
        _ => Some(State::Idle),
    }
}

/// To which state it leads that received messages are left after the end in this state: they were
/// never read, so no connection is awaited.
pub(crate) fn led_by_left(state: State, are_left: bool) -> Option<State>
    ensures { result ≡ led_by_left state are_left }
{
    match state {
        State::OpenSent if are_left => Some(State::Idle),
        _ => None,
    }
}
