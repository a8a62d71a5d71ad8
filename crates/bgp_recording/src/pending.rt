//! What is left to be ordered, and what stands next.

ghost use Rattle.std.specs.Prelude.{◌≡◌, ◌<◌, ◌≤◌, ◌+◌, ◌↔◌, ◌∷◌, [], IsTrue, IsFalse, Some};
ghost use Rattle.std.specs.Prelude.{true, false};
ghost use Rattle.std.specs.Prelude.{IfSome, IfNone};
ghost use Rattle.bgp_recording.specs.Leads.{own_of, pending_of, IsBeforeOwn, IsInTime};
ghost use Rattle.bgp_recording.specs.Changes.{are_left, is_answered_before_open};
ghost use Rattle.bgp_recording.specs.First.{IsFirst};
ghost use Rattle.bgp_recording.specs.Leads.{TakesReceived, TakesOwn, LeadsOrEnds};
ghost use Rattle.bgp_recording.specs.Leads.{MayReceiveNext, MayPass, MaySendNext, MayEndNext};
ghost use Rattle.streams.specs.declared.passed.Side.TheVariants.{Local};
ghost use Rattle.bgp_recording.specs.Leads.{is_next_taken, turn_by, turn_of, place_after};
ghost use Rattle.bgp_recording.specs.MadeOrder.{is_taken};
ghost use Rattle.bgp_recording.specs.Moments.{end_moment};
ghost use Rattle.bgp_recording.specs.Values.{message_value};

use crate::message::Message;
use bgp_prefix::Seconds;
use bgp_wire::MessageType;
use streams::{End, Side};

/// A packet of the recording, and its time.
#[derive(Clone, Copy, Debug, PartialEq, Eq)]
pub struct Moment {
    /// Its number, counted from 1.
    pub packet: u64,
    /// Its second.
    pub second: Seconds,
    /// The microseconds of that second's fraction, where the recording has one.
    pub micro: Option<u32>,
}

impl Moment {
    /// Returns the packet of an end.
    pub fn of_end(end: End) -> Moment
        ensures { result ≡ end_moment end }
    {
        Moment {
            packet: end.packet,
            second: end.second,
            micro: end.micro,
        }
    }
}

/// What stands next in the order.
#[derive(Clone, Copy)]
pub(crate) enum Turn<'a> {
    Received(Message<'a>),
    Sent(Message<'a>),
    End(End),
}

/// How many messages of each direction stand in the order already.
#[derive(Clone, Copy, Debug, PartialEq, Eq)]
pub struct Place {
    /// Of those that the local system received.
    pub received: usize,
    /// Of those that it sent.
    pub sent: usize,
}

/// What isn't in the order yet: of each direction the messages from a place on, and the end where
/// it is still to come.
#[derive(Clone, Copy, Debug)]
pub struct Pending<'l, 'a> {
    /// All messages that the local system received.
    pub received: &'l [Message<'a>],
    /// All that it sent.
    pub sent: &'l [Message<'a>],
    /// The end of the connection, where it doesn't stand in the order.
    pub end: Option<End>,
    /// How many messages do.
    pub place: Place,
}

/// Whether what came at this second is overdue at that one.
fn is_overdue(came: Seconds, within: u16, second: Seconds) -> bool
    ensures { IsTrue result ↔ (came + within < second) }
{
    u64::from(came) + u64::from(within) < u64::from(second)
}

/// Whether a received message is taken before what the local system shows next: it came before
/// that, and it is overdue or doesn't wait.
fn is_taken(message: &Message<'_>, own: Moment, within: u16, waits: bool) -> bool
    ensures taken { IsTrue result → IsBeforeOwn own message.now }
    ensures kept { IsFalse result → IsInTime within own message.now }
    ensures exact { result
        ≡ is_taken within waits (message_value message.now ∷ []) (Some own) }
{
    if message.packet >= own.packet {
        return false;
    }
    is_overdue(message.second, within, own.second) || !waits
}

/// Whether a received message came by a packet before the one that shows this sent one.
fn came_before(message: &Message<'_>, sent: Option<&Message<'_>>) -> bool
    ensures { IsTrue result ↔ IfSome sent.entry (λ s. message.now.packet < s.now.packet) }
{
    match sent {
        Some(sent) => message.packet < sent.packet,
        None => true,
    }
}

/// Whether a received message came by a packet before or at an end that is the local system's own.
fn came_until(message: &Message<'_>, end: Option<End>) -> bool
    ensures { IsTrue result ↔ IfSome end (λ e. e.side ≡ Local → message.now.packet ≤ e.packet) }
{
    match end {
        Some(end) => end.side != Side::Local || message.packet <= end.packet,
        None => true,
    }
}

impl<'l, 'a> Pending<'l, 'a> {
    /// The next message received.
    pub(crate) fn next_received(&self) -> Option<&'l Message<'a>>
        ensures some { IfSome result (λ message.
            IsFirst (pending_of self.entry.now).received message.now) }
        ensures none { IfNone result ((pending_of self.entry.now).received ≡ []) }
    {
        self.received.get(self.place.received)
    }

    /// The next message sent.
    pub(crate) fn next_sent(&self) -> Option<&'l Message<'a>>
        ensures some { IfSome result (λ message.
            IsFirst (pending_of self.entry.now).sent message.now) }
        ensures none { IfNone result ((pending_of self.entry.now).sent ≡ []) }
    {
        self.sent.get(self.place.sent)
    }

    /// Whether messages received are left.
    pub(crate) fn are_left(&self) -> bool
        ensures { result ≡ are_left (pending_of self.now).received }
    {
        self.next_received().is_some()
    }

    /// Whether the next message sent answers one of this type that is received before the own OPEN.
    pub(crate) fn is_answered_before_open(&self, kind: Option<MessageType>) -> bool
        ensures { result ≡ is_answered_before_open kind (pending_of self.now).sent }
    {
        match self.next_sent() {
            Some(message) => message.answers_before_open(kind),
            None => false,
        }
    }

    /// The packet of what the local system shows next: of its next message, or where none is left
    /// of the end.
    fn own(&self) -> Option<Moment>
        ensures { result ≡ own_of (pending_of self.now).sent self.now.end }
    {
        if let Some(message) = self.next_sent() {
            return Some(message.moment());
        }
        Some(Moment::of_end(self.end?))
    }

    /// Whether a received message is next, which waits or not.
    fn takes_received(&self, within: u16, waits: bool) -> bool
        ensures taken { IsTrue result → TakesReceived (pending_of self.now) }
        ensures kept { IsFalse result → TakesOwn within (pending_of self.now) }
        ensures exact { result ≡ is_next_taken within waits (pending_of self.now) }
    {
        let Some(message) = self.next_received() else {
            return false;
        };
        let Some(own) = self.own() else {
            return true;
        };
        is_taken(message, own, within, waits)
    }

    /// Whether the next message received may stand next in an order that is allowed: it came by a
    /// packet before the one that shows the next message sent, and not after an end that is the
    /// local system's own.
    pub fn may_receive(&self) -> bool
        ensures { IsTrue result ↔ MayReceiveNext (pending_of self.now) }
    {
        let Some(message) = self.next_received() else {
            return false;
        };
        came_before(message, self.next_sent()) && came_until(message, self.end)
    }

    /// Whether something that is shown at this second may stand next: the next message received
    /// isn't overdue.
    fn may_pass(&self, within: u16, second: Seconds) -> bool
        ensures { IsTrue result ↔ MayPass within second (pending_of self.now).received }
    {
        match self.next_received() {
            Some(message) => !is_overdue(message.second, within, second),
            None => true,
        }
    }

    /// Whether the next message sent may stand next in an order that is allowed, where a received
    /// message is handled within so many seconds.
    pub fn may_send(&self, within: u16) -> bool
        ensures { IsTrue result ↔ MaySendNext within (pending_of self.now) }
    {
        match self.next_sent() {
            Some(message) => self.may_pass(within, message.second),
            None => false,
        }
    }

    /// Whether the end may stand next in such an order: nothing is left to be sent.
    pub fn may_end(&self, within: u16) -> bool
        ensures { IsTrue result ↔ MayEndNext within (pending_of self.now) }
    {
        match (self.next_sent(), self.end) {
            (None, Some(end)) => self.may_pass(within, end.second),
            _ => false,
        }
    }

    /// Takes the next received message away.
    fn pop_received(&mut self, within: u16) -> Option<Turn<'a>>
        requires { TakesReceived (pending_of self.old) }
        ensures leads { LeadsOrEnds within (pending_of self.old) result (pending_of self.new) }
        ensures turn { result ≡ turn_by true (pending_of self.old).received
            (pending_of self.old).sent (pending_of self.old).end }
        ensures place { self.new.place ≡ place_after self.old.place result }
    {
        let message = *self.next_received()?;
        self.place.received += 1;
        Some(Turn::Received(message))
    }

    /// Takes the next sent message away, or where none is left the end.
    fn pop_own(&mut self, within: u16) -> Option<Turn<'a>>
        requires { TakesOwn within (pending_of self.old) }
        ensures leads { LeadsOrEnds within (pending_of self.old) result (pending_of self.new) }
        ensures turn { result ≡ turn_by false (pending_of self.old).received
            (pending_of self.old).sent (pending_of self.old).end }
        ensures place { self.new.place ≡ place_after self.old.place result }
    {
        if let Some(message) = self.next_sent() {
            let message = *message;
            self.place.sent += 1;
            return Some(Turn::Sent(message));
        }
        let end = self.end?;
        self.end = None;
        Some(Turn::End(end))
    }

    /// Takes away what stands next, where the next received message waits or not: `None` where
    /// nothing is left.
    pub(crate) fn next(&mut self, within: u16, waits: bool) -> Option<Turn<'a>>
        ensures leads { LeadsOrEnds within (pending_of self.old) result (pending_of self.new) }
        ensures turn { result ≡ turn_of within waits (pending_of self.old) }
        ensures place { self.new.place ≡ place_after self.old.place result }
    {
        if self.takes_received(within, waits) {
            self.pop_received(within)
        } else {
            self.pop_own(within)
        }
    }
}
